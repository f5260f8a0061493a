//! Mutable references to values, and the index operator.
ghost use Rattle.std.specs.Prelude.{◌≡◌, true, option_map, Some};
ghost use Rattle.std.specs.Option.{option_copied_mut};
ghost use Rattle.std.specs.Borrow.{sem};
ghost use Rattle.blart_keys.specs.Content.{at, front_of};
ghost use Rattle.blart_keys.specs.Steps.{bytes};
ghost use Rattle.blart_keys.specs.Stored.{value_at, value_at_front, has};
ghost use Rattle.blart_map.specs.Content.{pairs};
ghost use Rattle.blart_map.specs.Written.{lends_at, lends_at_front};

use crate::map::TreeMap;
use art_tree::Visits;
use blart_keys::AsBytes;
use std::ops::Index;

impl<K: AsBytes, V, const PREFIX_LEN: usize> TreeMap<K, V, PREFIX_LEN> {
    /// Returns a mutable reference to the value of the key with the query's bytes, or `None` if
    /// there is no such key. No other value and no key changes.
    ///
    /// Cost: a look-up.
    ///
    /// ```
    /// if let Some(value) = map.get_mut(&"cat") {
    ///     *value += 1;
    /// }
    /// ```
    pub fn get_mut<Q: AsBytes>(&mut self, query: &Q) -> Option<&mut V>
        ensures* writes_back { sem 𝓛
            (lends_at K.row V.row PREFIX_LEN.row K.AsBytes self.entry (Q.bytes query.now) result) }
        ensures value { option_copied_mut result
            ≡ option_map (λ pair. pair.1)
            (at (bytes K.bytes) (pairs self.old) (Q.bytes query.now)) }
        ensures stored { option_copied_mut result
            ≡ value_at K.bytes (pairs self.old) (Q.bytes query.now) }
    {
        self.tree.law();
        match self.tree.search(query.as_bytes(), &mut Visits::new()) {
            Some(id) => Some(self.tree.value_mut(id)),
            None => None,
        }
    }

    /// Returns a mutable reference to the value of the key whose bytes are a prefix of the query's,
    /// or `None` if there is no such key. No other value and no key changes.
    ///
    /// Cost: a look-up.
    pub fn prefix_get_mut<Q: AsBytes>(&mut self, query: &Q) -> Option<&mut V>
        ensures* writes_back { sem 𝓛
            (lends_at_front K.row V.row PREFIX_LEN.row K.AsBytes self.entry
            (Q.bytes query.now) result) }
        ensures value { option_copied_mut result
            ≡ option_map (λ pair. pair.1)
            (front_of (bytes K.bytes) (pairs self.old) (Q.bytes query.now)) }
        ensures stored { option_copied_mut result
            ≡ value_at_front K.bytes (pairs self.old) (Q.bytes query.now) }
    {
        self.tree.law();
        match self.tree.search_front(query.as_bytes(), &mut Visits::new()) {
            Some(id) => Some(self.tree.value_mut(id)),
            None => None,
        }
    }
}

impl<'a, K: AsBytes, V, Q: AsBytes, const PREFIX_LEN: usize> Index<&'a Q>
    for TreeMap<K, V, PREFIX_LEN> {
    type Output = V;

    ghost can_index = { λ map query. has K.bytes (pairs map) (Q.bytes query.now) ≡ true };

    ghost index_gives = { λ map query value. value_at K.bytes (pairs map) (Q.bytes query.now)
        ≡ Some value };

    /// Returns the value of the key with the query's bytes. The map must have such a key.
    ///
    /// Cost: a look-up.
    fn index(&self, query: &'a Q) -> &V {
        self.get(query).unwrap()
    }
}
