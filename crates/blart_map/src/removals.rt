//! Removals.
ghost use Rattle.std.specs.Prelude.{◌≡◌, ◌+◌, ◌&&◌, ℕ, List, [], length, option_map, is_some, IfSome, None, true, false, if◌then◌else◌};
ghost use Rattle.blart_keys.specs.Bytes.{begins};
ghost use Rattle.blart_keys.specs.Content.{at, under, without};
ghost use Rattle.blart_keys.specs.Outside.{outside};
ghost use Rattle.blart_keys.specs.Steps.{bytes};
ghost use Rattle.blart_keys.specs.Stored.{pair_at, pair_at_front, value_at, has, Updates, TakesPair, HasNothing};
ghost use Rattle.blart_keys.specs.Walks.{TakesFirst, TakesLast};
ghost use Rattle.blart_map.specs.Content.{pairs};

use crate::map::TreeMap;
use blart_keys::AsBytes;

impl<K: AsBytes + Drop, V: Drop, const PREFIX_LEN: usize> TreeMap<K, V, PREFIX_LEN> {
    /// Removes the pair with the query's bytes and returns it, or returns `None` if there is no
    /// such pair. Does not allocate.
    ///
    /// Cost: one descent.
    pub fn remove_entry<Q: AsBytes>(&mut self, query: &Q) -> Option<(K, V)>
        ensures stored { result ≡ pair_at K.bytes (pairs self.old) (Q.bytes query.now) }
        ensures updates { Updates K.bytes (pairs self.old) (pairs self.new)
            (Q.bytes query.now) None }
        ensures routes { (r : List ℕ) → pair_at_front K.bytes (pairs self.new) r
            ≡ (if begins (Q.bytes query.now) r && has K.bytes (pairs self.old) (Q.bytes query.now)
            then None else pair_at_front K.bytes (pairs self.old) r) }
        ensures len { length (pairs self.new) + (if is_some result then 1 else 0)
            ≡ length (pairs self.old) }
        ensures found { IfSome result (λ pair. K.bytes pair.0 ≡ Q.bytes query.now) }
        ensures removed { result ≡ at (bytes K.bytes) (pairs self.old) (Q.bytes query.now) }
        ensures rest { pairs self.new
            ≡ without (bytes K.bytes) (pairs self.old) (Q.bytes query.now) }
    {
        self.tree.law();
        self.tree.take(query.as_bytes())
    }

    /// Removes the pair with the query's bytes and returns its value, or returns `None` if there is
    /// no such pair. Does not allocate.
    ///
    /// Cost: one descent.
    ///
    /// ```
    /// map.try_insert("cat", 2)?;
    /// assert_eq!(map.remove(&"cat"), Some(2));
    /// assert_eq!(map.remove(&"cat"), None);
    /// ```
    pub fn remove<Q: AsBytes>(&mut self, query: &Q) -> Option<V>
        ensures stored { result ≡ value_at K.bytes (pairs self.old) (Q.bytes query.now) }
        ensures updates { Updates K.bytes (pairs self.old) (pairs self.new)
            (Q.bytes query.now) None }
        ensures routes { (r : List ℕ) → pair_at_front K.bytes (pairs self.new) r
            ≡ (if begins (Q.bytes query.now) r && has K.bytes (pairs self.old) (Q.bytes query.now)
            then None else pair_at_front K.bytes (pairs self.old) r) }
        ensures len { length (pairs self.new) + (if is_some result then 1 else 0)
            ≡ length (pairs self.old) }
        ensures removed { result
            ≡ option_map (λ pair. pair.1)
            (at (bytes K.bytes) (pairs self.old) (Q.bytes query.now)) }
        ensures rest { pairs self.new
            ≡ without (bytes K.bytes) (pairs self.old) (Q.bytes query.now) }
    {
        match self.remove_entry(query) {
            Some(pair) => Some(pair.1),
            None => None,
        }
    }

    /// Removes the pairs whose keys' bytes begin with these, and returns the number of removed
    /// pairs. If there are no bytes, it removes all pairs. Does not allocate.
    ///
    /// Cost: a few descents, however many pairs it removes. Besides, it frees each removed pair and
    /// inner node, with no further descent.
    ///
    /// ```
    /// map.try_insert("car", 1)?;
    /// map.try_insert("cat", 2)?;
    /// map.try_insert("dog", 3)?;
    /// assert_eq!(map.remove_prefix(b"ca"), 2);
    /// assert_eq!(map.remove_prefix(b"ca"), 0);
    /// assert_eq!(map.first_key_value(), Some((&"dog", &3)));
    /// ```
    pub fn remove_prefix(&mut self, prefix: &[u8]) -> usize
        ensures gone { (q : List ℕ) → begins prefix.now q ≡ true
            → pair_at K.bytes (pairs self.new) q ≡ None }
        ensures others { (q : List ℕ) → begins prefix.now q ≡ false
            → pair_at K.bytes (pairs self.new) q ≡ pair_at K.bytes (pairs self.old) q }
        ensures fronts { (q : List ℕ) → begins prefix.now q ≡ false
            → pair_at_front K.bytes (pairs self.new) q ≡ pair_at_front K.bytes (pairs self.old) q }
        ensures len { length (pairs self.new) + result ≡ length (pairs self.old) }
        ensures count { result ≡ length (under (bytes K.bytes) (pairs self.old) prefix.now) }
        ensures rest { pairs self.new ≡ outside (bytes K.bytes) (pairs self.old) prefix.now }
    {
        self.tree.remove_prefix(prefix)
    }

    /// Removes the pair whose key's bytes are least and returns it, or returns `None` if there are
    /// no pairs. Does not allocate.
    ///
    /// Cost: one descent.
    #[tactic(auto, unfolding(crate::specs::Content::pairs))]
    pub fn pop_first(&mut self) -> Option<(K, V)>
        ensures taken { IfSome result
            (λ pair. TakesPair K.bytes (pairs self.old) pair (pairs self.new)) }
        ensures routes { IfSome result
            (λ pair. (r : List ℕ) → pair_at_front K.bytes (pairs self.new) r
            ≡ (if begins (K.bytes pair.0) r then None
            else pair_at_front K.bytes (pairs self.old) r)) }
        ensures len { length (pairs self.new) + (if is_some result then 1 else 0)
            ≡ length (pairs self.old) }
        ensures first { TakesFirst (pairs self.old) result (pairs self.new) }
    {
        self.tree.law();
        let id = self.tree.first()?;
        Some(self.tree.remove(id))
    }

    /// Removes the pair whose key's bytes are greatest and returns it, or returns `None` if there
    /// are no pairs. Does not allocate.
    ///
    /// Cost: one descent.
    #[tactic(auto, unfolding(crate::specs::Content::pairs))]
    pub fn pop_last(&mut self) -> Option<(K, V)>
        ensures taken { IfSome result
            (λ pair. TakesPair K.bytes (pairs self.old) pair (pairs self.new)) }
        ensures routes { IfSome result
            (λ pair. (r : List ℕ) → pair_at_front K.bytes (pairs self.new) r
            ≡ (if begins (K.bytes pair.0) r then None
            else pair_at_front K.bytes (pairs self.old) r)) }
        ensures len { length (pairs self.new) + (if is_some result then 1 else 0)
            ≡ length (pairs self.old) }
        ensures last { TakesLast (pairs self.old) result (pairs self.new) }
    {
        self.tree.law();
        let id = self.tree.last()?;
        Some(self.tree.remove(id))
    }

    /// Drops all pairs. Does not allocate.
    ///
    /// Cost: drops each pair. It keeps the memory until the map is dropped, and counts it as no
    /// room.
    #[tactic(auto, unfolding(crate::specs::Content::pairs))]
    pub fn clear(&mut self)
        ensures empty { pairs self.new ≡ [] }
        ensures nothing { HasNothing K.bytes (pairs self.new) }
    {
        self.tree.clear();
    }
}
