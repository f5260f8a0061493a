//! Iterators that consume the map.
ghost use Rattle.std.specs.Prelude.{◌≡◌, map};
ghost use Rattle.blart_keys.specs.Stored.{CanCount};
ghost use Rattle.blart_map.specs.Content.{pairs};

use crate::map::TreeMap;
use art_walk::{IntoIter, IntoKeys, IntoValues};
use blart_keys::AsBytes;
use std::iter::IntoIterator;

impl<K: AsBytes + Drop, V: Drop, const PREFIX_LEN: usize> TreeMap<K, V, PREFIX_LEN> {
    /// Returns an iterator over the keys by value, from both ends, in byte order. Does not
    /// allocate. Dropping the iterator drops the remaining pairs.
    ///
    /// Cost: frees the inner nodes at once. Each step removes one leaf.
    pub fn into_keys(self) -> IntoKeys<K, V, PREFIX_LEN>
        ensures value { result ≡ map (λ pair. pair.0) (pairs self) }
        ensures fits { CanCount result }
    {
        let keys = IntoKeys::new(self.tree);
        let _count = keys.len();
        keys
    }

    /// Returns an iterator over the values by value, from both ends, in byte order of their keys.
    /// Does not allocate. Dropping the iterator drops the remaining pairs.
    ///
    /// Cost: frees the inner nodes at once. Each step removes one leaf.
    pub fn into_values(self) -> IntoValues<K, V, PREFIX_LEN>
        ensures value { result ≡ map (λ pair. pair.1) (pairs self) }
        ensures fits { CanCount result }
    {
        let values = IntoValues::new(self.tree);
        let _count = values.len();
        values
    }
}

impl<K: AsBytes + Drop, V: Drop, const PREFIX_LEN: usize> IntoIterator
    for TreeMap<K, V, PREFIX_LEN> {
    type Item = (K, V);

    type IntoIter = IntoIter<K, V, PREFIX_LEN>;

    ghost into_iter_gives = { λ map items. items ≡ pairs map };

    /// Returns an iterator over the pairs by value, from both ends, in byte order of their keys.
    /// Does not allocate. Dropping the iterator drops the remaining pairs.
    ///
    /// Cost: frees the inner nodes at once. Each step removes one leaf.
    ///
    /// ```
    /// map.try_insert("dog", 2)?;
    /// map.try_insert("cat", 1)?;
    /// let mut pairs = map.into_iter();
    /// assert_eq!(pairs.next_back(), Some(("dog", 2)));
    /// assert_eq!(pairs.len(), 1);
    /// ```
    #[tactic(auto, unfolding(crate::specs::Content::pairs))]
    fn into_iter(self) -> IntoIter<K, V, PREFIX_LEN> {
        IntoIter::new(self.tree)
    }
}
