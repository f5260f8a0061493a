//! Merges of two sets.
ghost use Rattle.std.specs.Prelude.{◌≡◌};
ghost use Rattle.blart_keys.specs.Merges.{IsUnion, IsSymmetricDifference, intersection, difference};
ghost use Rattle.blart_keys.specs.Stored.{CanCount};
ghost use Rattle.blart_set.specs.Elements.{elements};
ghost use Rattle.blart_set.specs.Merging.{union_rest, symmetric_difference_rest, intersection_rest, difference_rest, IsBeginning};

pub mod compares;
pub mod difference;
pub mod intersection;
pub(crate) mod peeked;
pub(crate) mod sides;
pub mod symmetric_difference;
pub mod union;

use crate::merges::difference::Difference;
use crate::merges::intersection::Intersection;
use crate::merges::sides::Sides;
use crate::merges::symmetric_difference::SymmetricDifference;
use crate::merges::union::Union;
use crate::set::TreeSet;
use blart_keys::OrderedBytes;

impl<K: OrderedBytes, const PREFIX_LEN: usize> TreeSet<K, PREFIX_LEN> {
    /// Returns the two sets side by side.
    fn beside<'a>(&'a self, other: &'a TreeSet<K, PREFIX_LEN>) -> Sides<'a, K, PREFIX_LEN>
        ensures { IsBeginning (elements self.now) (elements other.now) result }
    {
        self.law();
        other.law();
        Sides::new(self.iter(), other.iter())
    }

    /// Returns an iterator over the elements of this set whose bytes the other lacks, in ascending
    /// order.
    ///
    /// Cost: a visit of each set. Then one pass over both sets, with at most as many comparisons as
    /// it consumes elements of both.
    ///
    /// ```
    /// // a is {1, 2, 3, 5}, b is {2, 4, 5, 6}
    /// for element in a.difference(&b) {
    ///     // 1, 3
    /// }
    /// ```
    pub fn difference<'a>(
        &'a self,
        other: &'a TreeSet<K, PREFIX_LEN>,
    ) -> Difference<'a, K, PREFIX_LEN>
        ensures begins { IsBeginning (elements self.now) (elements other.now) result }
        ensures value { difference_rest K.bytes result
            ≡ difference K.bytes (elements self.now) (elements other.now) }
        ensures fits { CanCount (difference_rest K.bytes result) }
    {
        self.law();
        Difference {
            sides: self.beside(other),
        }
    }

    /// Returns an iterator over the elements of either set whose bytes the other lacks, in
    /// ascending order. Two of them may be related, one of each set.
    ///
    /// Cost: a visit of each set. Then one pass over both sets, with at most as many comparisons as
    /// it consumes elements of both.
    pub fn symmetric_difference<'a>(
        &'a self,
        other: &'a TreeSet<K, PREFIX_LEN>,
    ) -> SymmetricDifference<'a, K, PREFIX_LEN>
        ensures begins { IsBeginning (elements self.now) (elements other.now) result }
        ensures value { IsSymmetricDifference K.bytes (elements self.now) (elements other.now)
            (symmetric_difference_rest K.bytes result) }
    {
        self.law();
        other.law();
        SymmetricDifference {
            sides: self.beside(other),
        }
    }

    /// Returns an iterator over the elements of this set whose bytes the other has too, in
    /// ascending order.
    ///
    /// Cost: a visit of each set. Then one pass over both sets, with at most as many comparisons as
    /// it consumes elements of both.
    ///
    /// ```
    /// // a is {1, 2, 3, 5}, b is {2, 4, 5, 6}
    /// for element in a.intersection(&b) {
    ///     // 2, 5
    /// }
    /// ```
    pub fn intersection<'a>(
        &'a self,
        other: &'a TreeSet<K, PREFIX_LEN>,
    ) -> Intersection<'a, K, PREFIX_LEN>
        ensures begins { IsBeginning (elements self.now) (elements other.now) result }
        ensures value { intersection_rest K.bytes result
            ≡ intersection K.bytes (elements self.now) (elements other.now) }
        ensures fits { CanCount (intersection_rest K.bytes result) }
    {
        self.law();
        Intersection {
            sides: self.beside(other),
        }
    }

    /// Returns an iterator over the elements of both sets, in ascending order. If both sets have
    /// the bytes, it yields this set's element. Two of the elements may be related, one of each
    /// set.
    ///
    /// Cost: a visit of each set. Then one pass over both sets, with at most as many comparisons as
    /// it consumes elements of both.
    pub fn union<'a>(&'a self, other: &'a TreeSet<K, PREFIX_LEN>) -> Union<'a, K, PREFIX_LEN>
        ensures begins { IsBeginning (elements self.now) (elements other.now) result }
        ensures value { IsUnion K.bytes (elements self.now) (elements other.now)
            (union_rest K.bytes result) }
    {
        self.law();
        other.law();
        Union {
            sides: self.beside(other),
        }
    }
}
