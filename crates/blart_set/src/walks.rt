//! Iterators.
ghost use Rattle.std.specs.Prelude.{◌≡◌};
ghost use Rattle.std.specs.Iterator.{YieldsFirstRef, YieldsLastRef, item_count};
ghost use Rattle.blart_keys.specs.Bounds.{bound_bytes, CanRange};
ghost use Rattle.blart_keys.specs.Content.{between, under};
ghost use Rattle.blart_keys.specs.Stored.{CanCount};
ghost use Rattle.blart_set.specs.Elements.{elements};

use crate::set::TreeSet;
use blart_keys::AsBytes;
use blart_map::{BelowFront, BoundedIter, InRange, IntoKeys, Keys};
use std::iter::{DoubleEndedIterator, FusedIterator, IntoIterator, Iterator};
use std::marker::Model;
use std::ops::Bound;

/// An iterator over the elements of a set from both ends, in ascending order of their bytes. It
/// knows how many are left.
///
/// ```
/// // set is {1, 2}
/// let mut elements = set.iter();
/// assert_eq!(elements.len(), 2);
/// assert_eq!(elements.next_back(), Some(&2));
/// ```
pub type Iter<'a, K, const PREFIX_LEN: usize> = Keys<'a, K, (), PREFIX_LEN>;

/// An iterator over the elements of a set by value from both ends, in ascending order of their
/// bytes. It knows how many are left. When it is dropped, it drops the elements that are left.
///
/// ```
/// // set is {1, 2}
/// let mut elements = set.into_iter();
/// assert_eq!(elements.next(), Some(1));
/// assert_eq!(elements.len(), 1);
/// ```
pub type IntoIter<K, const PREFIX_LEN: usize> = IntoKeys<K, (), PREFIX_LEN>;

/// An iterator over the elements within two bounds from both ends, in ascending order of their
/// bytes.
///
/// ```
/// // set is {1, 2, 3}
/// let mut elements = set.range(Bound::Included(&2u8), Bound::Unbounded);
/// assert_eq!(elements.next(), Some(&2));
/// assert_eq!(elements.next_back(), Some(&3));
/// assert_eq!(elements.next(), None);
/// ```
pub type Range<'a, K, const PREFIX_LEN: usize> = BoundedKeys<'a, K, InRange, PREFIX_LEN>;

/// An iterator over the elements whose bytes begin with some bytes, from both ends, in ascending
/// order.
///
/// ```
/// // set is {[1, 2], [3, 4]}
/// let mut elements = set.prefix(&[3]);
/// assert_eq!(elements.next(), Some(&[3, 4]));
/// assert_eq!(elements.next(), None);
/// ```
pub type Prefix<'a, K, const PREFIX_LEN: usize> = BoundedKeys<'a, K, BelowFront, PREFIX_LEN>;

/// An iterator over neighbouring elements of a set from both ends, in ascending order of their
/// bytes.
///
/// [`Range`] has an example.
#[derive(Drop)]
pub struct BoundedKeys<'a, K, M, const PREFIX_LEN: usize> {
    pairs: BoundedIter<'a, K, (), M, PREFIX_LEN>,
}

impl<'a, K, M, const PREFIX_LEN: usize> Model for BoundedKeys<'a, K, M, PREFIX_LEN> {
    ghost use Rattle.std.specs.Prelude.{List, map};

    ghost Value = { List K };

    ghost view = { λ it. map (λ p. p.0) it.pairs };
}

impl<'a, K, M, const PREFIX_LEN: usize> Iterator for BoundedKeys<'a, K, M, PREFIX_LEN> {
    type Item = &'a K;

    ghost next_gives = { YieldsFirstRef (λ rest. rest) };

    ghost remaining = { item_count (λ rest. rest) };

    /// Returns the first element that is left, or `None` if no element is left.
    ///
    /// Cost: one visit.
    fn next(&mut self) -> Option<&'a K> {
        match self.pairs.next() {
            Some(pair) => Some(pair.0),
            None => None,
        }
    }
}

impl<'a, K, M, const PREFIX_LEN: usize> DoubleEndedIterator for BoundedKeys<'a, K, M, PREFIX_LEN> {
    ghost next_back_gives = { YieldsLastRef (λ rest. rest) };

    /// Returns the last element that is left, or `None` if no element is left.
    ///
    /// Cost: one visit.
    fn next_back(&mut self) -> Option<&'a K> {
        match self.pairs.next_back() {
            Some(pair) => Some(pair.0),
            None => None,
        }
    }
}

impl<'a, K, M, const PREFIX_LEN: usize> FusedIterator for BoundedKeys<'a, K, M, PREFIX_LEN> {}

#[tactic(auto, unfolding(crate::specs::Elements::elements))]
impl<K: AsBytes, const PREFIX_LEN: usize> TreeSet<K, PREFIX_LEN> {
    /// Returns an iterator over the elements from both ends, in ascending order of their bytes.
    /// Does not allocate.
    ///
    /// Cost: no visit. Each step makes one visit.
    ///
    /// ```
    /// set.try_insert("dog")?;
    /// set.try_insert("cat")?;
    /// let mut elements = set.iter();
    /// assert_eq!(elements.next_back(), Some(&"dog"));
    /// assert_eq!(elements.len(), 1);
    /// ```
    pub fn iter(&self) -> Iter<'_, K, PREFIX_LEN>
        ensures value { result ≡ elements self.now }
        ensures fits { CanCount result }
    {
        self.map.keys()
    }

    /// Returns an iterator over the elements whose bytes are within both bounds, from both ends, in
    /// ascending order. An element with the bytes of an included bound is within it, and one with
    /// the bytes of an excluded bound is not. Does not allocate.
    ///
    /// If the set has elements, the bounds must be in order, which
    /// [`bounds_in_order`](crate::bounds_in_order) tests. On an empty set the iterator is empty for
    /// any bounds.
    ///
    /// Cost: an opening. Each step makes one visit.
    pub fn range<Q: AsBytes>(&self, start: Bound<&Q>, end: Bound<&Q>) -> Range<'_, K, PREFIX_LEN>
        requires { CanRange (elements self.now) (bound_bytes Q.bytes start)
            (bound_bytes Q.bytes end) }
        ensures value { result
            ≡ between K.bytes (elements self.now)
            (bound_bytes Q.bytes start.entry) (bound_bytes Q.bytes end.entry) }
        ensures fits { CanCount result }
    {
        BoundedKeys {
            pairs: self.map.range(start, end),
        }
    }

    /// Returns an iterator over the elements whose bytes begin with `front`, from both ends, in
    /// ascending order. If `front` is empty, these are all elements. Does not allocate.
    ///
    /// Cost: an opening. Each step makes one visit.
    ///
    /// ```
    /// set.try_insert("car")?;
    /// set.try_insert("dog")?;
    /// let mut cats = set.prefix(b"ca");
    /// assert_eq!(cats.next(), Some(&"car"));
    /// assert_eq!(cats.next(), None);
    /// ```
    pub fn prefix(&self, front: &[u8]) -> Prefix<'_, K, PREFIX_LEN>
        ensures value { result ≡ under K.bytes (elements self.now) front.now }
        ensures fits { CanCount result }
    {
        BoundedKeys {
            pairs: self.map.prefix(front),
        }
    }
}

impl<K: AsBytes + Drop, const PREFIX_LEN: usize> IntoIterator for TreeSet<K, PREFIX_LEN> {
    type Item = K;

    type IntoIter = IntoIter<K, PREFIX_LEN>;

    ghost into_iter_gives = { λ set items. items ≡ elements set };

    /// Returns an iterator over the elements by value from both ends, in ascending order of their
    /// bytes. Does not allocate. When the iterator is dropped, it drops the elements that are left.
    ///
    /// Cost: frees the inner nodes at once. Each step removes one leaf.
    #[tactic(auto, unfolding(crate::specs::Elements::elements))]
    fn into_iter(self) -> IntoIter<K, PREFIX_LEN> {
        self.map.into_keys()
    }
}

impl<'a, K: AsBytes, const PREFIX_LEN: usize> IntoIterator for &'a TreeSet<K, PREFIX_LEN> {
    type Item = &'a K;

    type IntoIter = Iter<'a, K, PREFIX_LEN>;

    ghost into_iter_gives = { λ set items. items ≡ elements set.now };

    /// Returns an iterator over the elements, like [`TreeSet::iter`].
    ///
    /// Cost: no visit. Each step makes one visit.
    fn into_iter(self) -> Iter<'a, K, PREFIX_LEN> {
        self.iter()
    }
}
