//! Iterators over pairs, keys and values.
ghost use Rattle.std.specs.Prelude.{◌≡◌, ◌≢◌, ◌+◌, ◌<◌, ◌≤◌, [], length, map};
ghost use Rattle.blart_keys.specs.Bounds.{bound_bytes, slice_bound, CanRange};
ghost use Rattle.blart_keys.specs.Content.{between, under};
ghost use Rattle.blart_keys.specs.Steps.{bytes};
ghost use Rattle.blart_keys.specs.Stored.{CanCount};
ghost use Rattle.art_tree.specs.Longest.{longest};
ghost use Rattle.art_walk.specs.Openings.{longer, opening};
ghost use Rattle.blart_map.specs.Content.{pairs};

pub mod counted_walk;
pub mod extract_if;
mod leaves;
mod lending;
pub mod lending_walk;
pub mod take_walk;

use crate::map::TreeMap;
use art_tree::Visits;
use art_walk::{Iter, Keys, Prefix, Range, Values};
use blart_keys::AsBytes;
use std::iter::IntoIterator;
use std::ops::Bound;

impl<K: AsBytes, V, const PREFIX_LEN: usize> TreeMap<K, V, PREFIX_LEN> {
    /// Returns an iterator over the pairs, from both ends, in byte order of their keys. Does not
    /// allocate.
    ///
    /// Cost: no visit. Each step makes one visit.
    #[tactic(auto, unfolding(crate::specs::Content::pairs))]
    pub fn iter(&self) -> Iter<'_, K, V, PREFIX_LEN>
        ensures value { result ≡ pairs self.now }
        ensures fits { CanCount result }
    {
        self.law();
        Iter::new(&self.tree)
    }

    /// Returns an iterator over the keys, from both ends, in byte order. Does not allocate.
    ///
    /// Cost: no visit. Each step makes one visit.
    #[tactic(auto, unfolding(crate::specs::Content::pairs))]
    pub fn keys(&self) -> Keys<'_, K, V, PREFIX_LEN>
        ensures value { result ≡ map (λ pair. pair.0) (pairs self.now) }
        ensures fits { CanCount result }
    {
        self.law();
        Keys::new(&self.tree)
    }

    /// Returns an iterator over the values, from both ends, in byte order of their keys. Does not
    /// allocate.
    ///
    /// Cost: no visit. Each step makes one visit.
    #[tactic(auto, unfolding(crate::specs::Content::pairs))]
    pub fn values(&self) -> Values<'_, K, V, PREFIX_LEN>
        ensures value { result ≡ map (λ pair. pair.1) (pairs self.now) }
        ensures fits { CanCount result }
    {
        self.law();
        Values::new(&self.tree)
    }

    /// Returns an iterator over the pairs whose keys' bytes begin with these, from both ends, in
    /// byte order of their keys. If there are no bytes, it goes over all pairs. Does not allocate.
    ///
    /// Cost: an opening. Each step makes one visit.
    ///
    /// ```
    /// map.try_insert("car", 1)?;
    /// map.try_insert("cat", 2)?;
    /// map.try_insert("dog", 3)?;
    /// let mut cats = map.prefix(b"ca");
    /// assert_eq!(cats.next(), Some((&"car", &1)));
    /// assert_eq!(cats.next(), Some((&"cat", &2)));
    /// assert_eq!(cats.next(), None);
    /// ```
    #[tactic(auto, using(blart_keys::proofs::ContentLemmas::under_all))]
    pub fn prefix(&self, front: &[u8]) -> Prefix<'_, K, V, PREFIX_LEN>
        ensures value { result ≡ under (bytes K.bytes) (pairs self.now) front.now }
        ensures whole { front.now ≡ [] → result ≡ pairs self.now }
        ensures fits { CanCount result }
    {
        self.prefix_counted(front, &mut Visits::new())
    }

    /// Like [`TreeMap::prefix`], and counts the visits.
    ///
    /// Cost: at most 2 * (n + 2) * (L + 2) visits, if there are n bytes and the longest key has L
    /// bytes, and at least one if n is not 0, but none on an empty map. Each step is one visit
    /// more.
    pub fn prefix_counted(&self, front: &[u8], visits: &mut Visits) -> Prefix<'_, K, V, PREFIX_LEN>
        ensures value { result ≡ under (bytes K.bytes) (pairs self.now) front.now }
        ensures fits { CanCount result }
        ensures counted { visits.new.count ≤ visits.old.count
            + opening (length front.now) (longest (bytes K.bytes) (pairs self.now)) }
        ensures grows { visits.old.count ≤ visits.new.count }
        ensures some_counted { front.now ≢ [] → pairs self.now ≢ []
            → visits.old.count < visits.new.count }
        ensures empty { pairs self.now ≡ [] → visits.new.count ≡ visits.old.count }
    {
        self.law();
        Prefix::new(&self.tree, front, visits)
    }

    /// Returns an iterator over the pairs whose keys' bytes are within both bounds, from both ends,
    /// in byte order of their keys. A key with the bytes of an included bound is within it, and a
    /// key with the bytes of an excluded bound is not. Does not allocate.
    ///
    /// If the map has pairs, the bounds must be in order, which
    /// [`bounds_in_order`](crate::bounds_in_order) tests. On an empty map the iterator is empty for
    /// any bounds.
    ///
    /// Cost: an opening. Each step makes one visit.
    ///
    /// ```
    /// let (low, high) = ("b", "d");
    /// for (key, value) in map.range(Bound::Included(&low), Bound::Excluded(&high)) {
    ///     // each key from "b" on that is less than "d"
    /// }
    /// ```
    pub fn range<Q: AsBytes>(&self, start: Bound<&Q>, end: Bound<&Q>) -> Range<'_, K, V, PREFIX_LEN>
        requires { CanRange (pairs self.now) (bound_bytes Q.bytes start)
            (bound_bytes Q.bytes end) }
        ensures value { result
            ≡ between (bytes K.bytes) (pairs self.now)
            (bound_bytes Q.bytes start.entry) (bound_bytes Q.bytes end.entry) }
        ensures fits { CanCount result }
    {
        self.range_counted(start, end, &mut Visits::new())
    }

    /// Like [`TreeMap::range`], and counts the visits.
    ///
    /// Cost: at most 2 * (n + 2) * (L + 2) visits, if the longer bound has n bytes and the longest
    /// key has L bytes, and at least one, but none on an empty map. Each step is one visit more.
    pub fn range_counted<Q: AsBytes>(
        &self,
        start: Bound<&Q>,
        end: Bound<&Q>,
        visits: &mut Visits,
    ) -> Range<'_, K, V, PREFIX_LEN>
        requires { CanRange (pairs self.now) (bound_bytes Q.bytes start)
            (bound_bytes Q.bytes end) }
        ensures value { result
            ≡ between (bytes K.bytes) (pairs self.now)
            (bound_bytes Q.bytes start.entry) (bound_bytes Q.bytes end.entry) }
        ensures fits { CanCount result }
        ensures counted { visits.new.count ≤ visits.old.count
            + opening (longer (bound_bytes Q.bytes start.entry) (bound_bytes Q.bytes end.entry))
            (longest (bytes K.bytes) (pairs self.now)) }
        ensures grows { visits.old.count ≤ visits.new.count }
        ensures some_counted { pairs self.now ≢ [] → visits.old.count < visits.new.count }
        ensures empty { pairs self.now ≡ [] → visits.new.count ≡ visits.old.count }
    {
        self.law();
        Range::new(&self.tree, as_bytes(start), as_bytes(end), visits)
    }
}

/// Returns the bound with the bytes of its query.
pub(crate) fn as_bytes<Q: AsBytes>(bound: Bound<&Q>) -> Bound<&[u8]>
    ensures { slice_bound result ≡ bound_bytes Q.bytes bound.entry }
{
    match bound {
        Bound::Included(query) => Bound::Included(query.as_bytes()),
        Bound::Excluded(query) => Bound::Excluded(query.as_bytes()),
        Bound::Unbounded => Bound::Unbounded,
    }
}

impl<'a, K: AsBytes, V, const PREFIX_LEN: usize> IntoIterator for &'a TreeMap<K, V, PREFIX_LEN> {
    type Item = (&'a K, &'a V);

    type IntoIter = Iter<'a, K, V, PREFIX_LEN>;

    ghost into_iter_gives = { λ map items. items ≡ pairs map.now };

    /// Returns an iterator over the pairs, like [`TreeMap::iter`].
    ///
    /// Cost: no visit. Each step makes one visit.
    fn into_iter(self) -> Iter<'a, K, V, PREFIX_LEN> {
        self.iter()
    }
}
