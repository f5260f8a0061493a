//! The elements of both sets, in ascending order.
ghost use Rattle.std.specs.Iterator.{YieldsFirstRef, item_count};
ghost use Rattle.blart_set.specs.Merging.{union_rest, MergeProgresses};

use crate::merges::sides::Sides;
use blart_keys::OrderedBytes;
use std::iter::{FusedIterator, Iterator};
use std::marker::Model;

/// An iterator over the elements of both sets, in ascending order. If both sets have the bytes, it
/// yields the left set's element. It makes at most as many comparisons as it consumes elements of
/// both sets.
///
/// ```
/// // left is {1, 2}, right is {2, 3}
/// let mut merged = left.union(&right);
/// assert_eq!(merged.next(), Some(&1));
/// assert_eq!(merged.next(), Some(&2));
/// assert_eq!(merged.next(), Some(&3));
/// assert_eq!(merged.next(), None);
/// ```
#[derive(Drop)]
pub struct Union<'a, K: OrderedBytes, const PREFIX_LEN: usize> {
    pub(crate) sides: Sides<'a, K, PREFIX_LEN>,
}

impl<'a, K: OrderedBytes, const PREFIX_LEN: usize> Model for Union<'a, K, PREFIX_LEN> {
    ghost use Rattle.blart_set.specs.Merge.{Merge};

    ghost Value = { Merge K };

    ghost view = { λ it. it.sides };
}

impl<'a, K: OrderedBytes, const PREFIX_LEN: usize> Iterator for Union<'a, K, PREFIX_LEN> {
    type Item = &'a K;

    ghost next_gives = { YieldsFirstRef (union_rest K.bytes) };

    ghost remaining = { item_count (union_rest K.bytes) };

    /// Returns the next element of either set, or `None` if both sets are exhausted.
    ///
    /// Cost: at most one comparison and one visit for each element that it passes.
    fn next(&mut self) -> Option<&'a K>
        ensures steps { YieldsFirstRef (union_rest K.bytes) self.old result self.new }
        ensures goes { MergeProgresses (union_rest K.bytes) self.old result self.new }
    {
        let side = self.sides.step()?;
        Some(side.element())
    }
}

impl<'a, K: OrderedBytes, const PREFIX_LEN: usize> FusedIterator for Union<'a, K, PREFIX_LEN> {}
