//! Comparisons of two sets as sets: disjoint sets, subsets and supersets.
ghost use Rattle.std.specs.Prelude.{◌≡◌, ◌==◌, length};
ghost use Rattle.blart_keys.specs.Merges.{intersection, difference};
ghost use Rattle.blart_set.specs.Elements.{elements};

use crate::set::TreeSet;
use blart_keys::OrderedBytes;
use std::iter::Iterator;

impl<K: OrderedBytes, const PREFIX_LEN: usize> TreeSet<K, PREFIX_LEN> {
    /// Returns `true` if no bytes are in both sets.
    ///
    /// Cost: one pass over both sets, up to the first bytes that are in both.
    ///
    /// ```
    /// // a is {1, 2, 3}, b is {4, 5, 6}
    /// assert!(a.is_disjoint(&b));
    /// ```
    pub fn is_disjoint(&self, other: &TreeSet<K, PREFIX_LEN>) -> bool
        ensures { result
            ≡ (length (intersection K.bytes (elements self.now) (elements other.now)) == 0) }
    {
        self.intersection(other).next().is_none()
    }

    /// Returns `true` if the other set has the bytes of each element of this one.
    ///
    /// Cost: one pass over both sets, up to the first element that the other lacks.
    pub fn is_subset(&self, other: &TreeSet<K, PREFIX_LEN>) -> bool
        ensures { result
            ≡ (length (difference K.bytes (elements self.now) (elements other.now)) == 0) }
    {
        self.difference(other).next().is_none()
    }

    /// Returns `true` if this set has the bytes of each element of the other.
    ///
    /// Cost: one pass over both sets, up to the first element that this set lacks.
    pub fn is_superset(&self, other: &TreeSet<K, PREFIX_LEN>) -> bool
        ensures { result
            ≡ (length (difference K.bytes (elements other.now) (elements self.now)) == 0) }
    {
        other.is_subset(self)
    }
}
