//! The map, and the calls that read it.
ghost use Rattle.std.specs.Prelude.{◌≡◌, ◌==◌, ◌+◌, ◌-◌, ◌<◌, ◌≤◌, [], true, length, slice_get, option_map, option_copied, IfSome, Some};
ghost use Rattle.std.specs.FinSet as set;
ghost use Rattle.blart_keys.specs.Bytes.{begins};
ghost use Rattle.blart_keys.specs.Steps.{bytes};
ghost use Rattle.blart_keys.specs.Content.{at, conflict, front_of, stores, IsContent};
ghost use Rattle.blart_keys.specs.Stored.{pair_at, pair_at_front, value_at, value_at_front, has, overlaps, shown, CanCount, HasNothing};
ghost use Rattle.blart_keys.specs.Fronts.{fronts};
ghost use Rattle.blart_map.specs.Content.{pairs};

use art_tree::{DEFAULT_PREFIX_LEN, Point, Tree, Visits};
use blart_keys::AsBytes;
use std::alloc::Global;
use std::marker::Model;

/// A map of keys to values, in the order of the keys' bytes. No key's bytes are a prefix of
/// another's.
///
/// A byte list is less than another if its byte is less at the first place where they differ, or if
/// it is a proper prefix of the other. Two keys are related if the bytes of one are a prefix of the
/// other's. A key conflicts with a map that stores a related key with other bytes.
///
/// An inner node keeps the first `PREFIX_LEN` bytes of its compressed prefix. Any length will do,
/// also 0.
///
/// A call that is said not to allocate does not return an error for memory. If it removes pairs, it
/// may try to allocate a smaller inner node, and keeps the larger one if that fails.
///
/// ```
/// map.try_insert("car", 1)?;
/// map.try_insert("cat", 2)?;
/// assert_eq!(map.get(&"cat"), Some(&2));
/// assert!(map.try_insert("ca", 3).is_err());
/// assert_eq!(map.first_key_value(), Some((&"car", &1)));
/// ```
#[derive(Drop)]
pub struct TreeMap<K: AsBytes, V, const PREFIX_LEN: usize> {
    pub(crate) tree: Tree<K, V, PREFIX_LEN>,
    /// The allocator of the maps that are made from this one.
    pub(crate) alloc: Global,
}

impl<K: AsBytes, V, const PREFIX_LEN: usize> Model for TreeMap<K, V, PREFIX_LEN> {
    ghost use Rattle.std.specs.Prelude.{List};
    ghost use Rattle.art_tree.specs.Leaves.{Numbered};

    ghost Value = { List (Numbered K V) };

    ghost view = { λ m. m.tree.pairs };
}

impl<K: AsBytes, V> TreeMap<K, V, DEFAULT_PREFIX_LEN> {
    /// Returns a map with no pairs, whose inner nodes keep 16 bytes of their compressed prefixes.
    /// Does not allocate.
    ///
    /// Cost: none.
    pub fn new(alloc: Global) -> Self
        ensures empty { pairs result ≡ [] }
        ensures nothing { HasNothing K.bytes (pairs result) }
    {
        Self::with_prefix_len(alloc)
    }
}

impl<K: AsBytes, V, const PREFIX_LEN: usize> TreeMap<K, V, PREFIX_LEN> {
    /// Returns a map with no pairs, whose inner nodes keep `PREFIX_LEN` bytes of their compressed
    /// prefixes. Does not allocate.
    ///
    /// Cost: none.
    #[tactic(auto, unfolding(crate::specs::Content::pairs))]
    pub fn with_prefix_len(alloc: Global) -> Self
        ensures empty { pairs result ≡ [] }
        ensures nothing { HasNothing K.bytes (pairs result) }
    {
        TreeMap {
            tree: Tree::new(alloc),
            alloc,
        }
    }

    /// Does nothing. Its contract says what holds of every map: the pairs ascend by the bytes of
    /// their keys, no key's bytes are a prefix of another's, and the number of pairs fits a
    /// `usize`.
    ///
    /// Cost: none.
    pub fn law(&self)
        ensures content { IsContent (bytes K.bytes) (pairs self.now) }
        ensures fits { CanCount (pairs self.now) }
    {
        self.tree.law();
        let _fits = self.len();
    }

    /// Returns the number of pairs.
    ///
    /// Cost: reads a count.
    #[tactic(auto, unfolding(crate::specs::Content::pairs))]
    pub fn len(&self) -> usize
        ensures { result ≡ length (pairs self.now) }
    {
        self.tree.len()
    }

    /// Returns `true` if there are no pairs.
    ///
    /// Cost: reads a count.
    pub fn is_empty(&self) -> bool
        ensures { result ≡ (length (pairs self.now) == 0) }
    {
        self.len() == 0
    }

    /// Returns the pair with the query's bytes, or `None` if there is no such pair, and counts the
    /// visits.
    ///
    /// Cost: at most n + 1 visits, if the query has n bytes, and none on an empty map. It makes at
    /// least one visit if it returns a pair.
    pub fn get_key_value_counted<Q: AsBytes>(
        &self,
        query: &Q,
        visits: &mut Visits,
    ) -> Option<(&K, &V)>
        ensures value { shown result ≡ at (bytes K.bytes) (pairs self.now) (Q.bytes query.now) }
        ensures pair { shown result ≡ pair_at K.bytes (pairs self.now) (Q.bytes query.now) }
        ensures found { IfSome result (λ pair. K.bytes pair.0.now ≡ Q.bytes query.now) }
        ensures counted { visits.new.count ≤ visits.old.count + length (Q.bytes query.now) + 1 }
        ensures grows { visits.old.count ≤ visits.new.count }
        ensures some_counted { IfSome result (λ _. visits.old.count < visits.new.count) }
        ensures empty { pairs self.now ≡ [] → visits.new.count ≡ visits.old.count }
    {
        match self.tree.get(query.as_bytes(), visits) {
            Some(found) => Some((found.1, found.2)),
            None => None,
        }
    }

    /// Returns the pair with the query's bytes, or `None` if there is no such pair.
    ///
    /// Cost: a look-up.
    pub fn get_key_value<Q: AsBytes>(&self, query: &Q) -> Option<(&K, &V)>
        ensures value { shown result ≡ at (bytes K.bytes) (pairs self.now) (Q.bytes query.now) }
        ensures pair { shown result ≡ pair_at K.bytes (pairs self.now) (Q.bytes query.now) }
        ensures found { IfSome result (λ pair. K.bytes pair.0.now ≡ Q.bytes query.now) }
    {
        self.get_key_value_counted(query, &mut Visits::new())
    }

    /// Returns the value of the key with the query's bytes, or `None` if there is no such key.
    ///
    /// Cost: a look-up.
    ///
    /// ```
    /// map.try_insert("cat", 2)?;
    /// assert_eq!(map.get(&"cat"), Some(&2));
    /// assert_eq!(map.get(&b"cat"), Some(&2));
    /// assert_eq!(map.get(&"cats"), None);
    /// ```
    pub fn get<Q: AsBytes>(&self, query: &Q) -> Option<&V>
        ensures value { option_copied result
            ≡ option_map (λ pair. pair.1)
            (at (bytes K.bytes) (pairs self.now) (Q.bytes query.now)) }
        ensures stored { option_copied result
            ≡ value_at K.bytes (pairs self.now) (Q.bytes query.now) }
    {
        match self.get_key_value(query) {
            Some(pair) => Some(pair.1),
            None => None,
        }
    }

    /// Returns `true` if some key has the query's bytes.
    ///
    /// Cost: a look-up.
    pub fn contains_key<Q: AsBytes>(&self, query: &Q) -> bool
        ensures value { result ≡ stores (bytes K.bytes) (pairs self.now) (Q.bytes query.now) }
        ensures stored { result ≡ has K.bytes (pairs self.now) (Q.bytes query.now) }
    {
        self.get_key_value(query).is_some()
    }

    /// Returns the pair whose key's bytes are a prefix of the query's, or `None` if there is no
    /// such pair, and counts the visits.
    ///
    /// Cost: at most n + 1 visits, if the query has n bytes, and none on an empty map. It makes at
    /// least one visit if it returns a pair.
    pub fn prefix_get_key_value_counted<Q: AsBytes>(
        &self,
        query: &Q,
        visits: &mut Visits,
    ) -> Option<(&K, &V)>
        ensures value { shown result
            ≡ front_of (bytes K.bytes) (pairs self.now) (Q.bytes query.now) }
        ensures pair { shown result ≡ pair_at_front K.bytes (pairs self.now) (Q.bytes query.now) }
        ensures found { IfSome result
            (λ pair. begins (K.bytes pair.0.now) (Q.bytes query.now) ≡ true) }
        ensures counted { visits.new.count ≤ visits.old.count + length (Q.bytes query.now) + 1 }
        ensures grows { visits.old.count ≤ visits.new.count }
        ensures some_counted { IfSome result (λ _. visits.old.count < visits.new.count) }
        ensures empty { pairs self.now ≡ [] → visits.new.count ≡ visits.old.count }
    {
        match self.tree.get_front(query.as_bytes(), visits) {
            Some(found) => Some((found.1, found.2)),
            None => None,
        }
    }

    /// Returns the pair whose key's bytes are a prefix of the query's, or `None` if there is no
    /// such pair. There is at most one.
    ///
    /// Cost: a look-up.
    pub fn prefix_get_key_value<Q: AsBytes>(&self, query: &Q) -> Option<(&K, &V)>
        ensures value { shown result
            ≡ front_of (bytes K.bytes) (pairs self.now) (Q.bytes query.now) }
        ensures pair { shown result ≡ pair_at_front K.bytes (pairs self.now) (Q.bytes query.now) }
        ensures found { IfSome result
            (λ pair. begins (K.bytes pair.0.now) (Q.bytes query.now) ≡ true) }
    {
        self.prefix_get_key_value_counted(query, &mut Visits::new())
    }

    /// Returns the value of the key whose bytes are a prefix of the query's, or `None` if there is
    /// no such key. There is at most one.
    ///
    /// Cost: a look-up.
    ///
    /// ```
    /// map.try_insert("/static/", 7)?;
    /// assert_eq!(map.prefix_get(&"/static/logo.png"), Some(&7));
    /// assert_eq!(map.prefix_get(&"/stat"), None);
    /// ```
    pub fn prefix_get<Q: AsBytes>(&self, query: &Q) -> Option<&V>
        ensures value { option_copied result
            ≡ option_map (λ pair. pair.1)
            (front_of (bytes K.bytes) (pairs self.now) (Q.bytes query.now)) }
        ensures stored { option_copied result
            ≡ value_at_front K.bytes (pairs self.now) (Q.bytes query.now) }
    {
        match self.prefix_get_key_value(query) {
            Some(pair) => Some(pair.1),
            None => None,
        }
    }

    /// Returns the pair whose key's bytes are least, or `None` if there are no pairs.
    ///
    /// Cost: one visit.
    #[tactic(auto, unfolding(crate::specs::Content::pairs))]
    pub fn first_key_value(&self) -> Option<(&K, &V)>
        ensures value { shown result ≡ slice_get (pairs self.now) 0 }
        ensures stored { IfSome (shown result)
            (λ pair. pair_at K.bytes (pairs self.now) (K.bytes pair.0) ≡ Some pair) }
    {
        self.tree.law();
        let id = self.tree.first()?;
        Some(self.tree.leaf(id, &mut Visits::new()))
    }

    /// Returns the pair whose key's bytes are greatest, or `None` if there are no pairs.
    ///
    /// Cost: one visit.
    #[tactic(auto, unfolding(crate::specs::Content::pairs))]
    pub fn last_key_value(&self) -> Option<(&K, &V)>
        ensures value { shown result
            ≡ slice_get (pairs self.now) (length (pairs self.now) - 1) }
        ensures stored { IfSome (shown result)
            (λ pair. pair_at K.bytes (pairs self.now) (K.bytes pair.0) ≡ Some pair) }
    {
        self.tree.law();
        let id = self.tree.last()?;
        Some(self.tree.leaf(id, &mut Visits::new()))
    }

    /// Returns `true` if some key is related to the query's bytes and has other bytes. In that case
    /// [`TreeMap::try_insert`] returns the error `Prefix` for a key with the query's bytes.
    ///
    /// Cost: one descent.
    ///
    /// ```
    /// map.try_insert("/api/", 1)?;
    /// assert!(map.conflicts(&"/api/users"));
    /// assert!(map.conflicts(&"/"));
    /// assert!(!map.conflicts(&"/api/"));
    /// ```
    pub fn conflicts<Q: AsBytes>(&self, query: &Q) -> bool
        ensures value { result ≡ conflict (bytes K.bytes) (pairs self.now) (Q.bytes query.now) }
        ensures stored { result ≡ overlaps K.bytes (pairs self.now) (Q.bytes query.now) }
    {
        self.tree.law();
        matches!(self.tree.point(query.as_bytes()), Point::Related { .. })
    }

    /// Returns the number of inner nodes. There is one at the longest common prefix of each two
    /// neighbouring keys. The number is less than the number of pairs, and 0 if there are no pairs.
    ///
    /// Cost: reads four counts.
    #[tactic(auto, unfolding(crate::specs::Content::pairs))]
    pub fn inner_nodes(&self) -> usize
        ensures value { result ≡ set.len (fronts (bytes K.bytes) (pairs self.now)) }
        ensures fewer { result ≤ length (pairs self.now) - 1 }
    {
        self.tree.inner_nodes()
    }

    /// Returns the allocator of the maps that are made from this one.
    pub(crate) fn allocator(&self) -> Global {
        self.alloc
    }
}
