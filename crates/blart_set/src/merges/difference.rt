//! The elements of the left set whose bytes the right one lacks, in ascending order.
ghost use Rattle.std.specs.Iterator.{YieldsFirstRef, item_count};
ghost use Rattle.blart_set.specs.Merging.{difference_rest, MergeProgresses, Counts, HasCompared};

use crate::merges::sides::Sides;
use blart_keys::OrderedBytes;
use std::iter::{FusedIterator, Iterator};
use std::marker::Model;

/// An iterator over the elements of the left set whose bytes the right one lacks, in ascending
/// order. It makes at most as many comparisons as it consumes elements of both sets.
///
/// ```
/// // left is {1, 2}, right is {2, 3}
/// let mut merged = left.difference(&right);
/// assert_eq!(merged.next(), Some(&1));
/// assert_eq!(merged.next(), None);
/// ```
#[derive(Drop)]
pub struct Difference<'a, K: OrderedBytes, const PREFIX_LEN: usize> {
    pub(crate) sides: Sides<'a, K, PREFIX_LEN>,
}

impl<'a, K: OrderedBytes, const PREFIX_LEN: usize> Model for Difference<'a, K, PREFIX_LEN> {
    ghost use Rattle.blart_set.specs.Merge.{Merge};

    ghost Value = { Merge K };

    ghost view = { λ it. it.sides };
}

impl<'a, K: OrderedBytes, const PREFIX_LEN: usize> Iterator for Difference<'a, K, PREFIX_LEN> {
    type Item = &'a K;

    ghost next_gives = { YieldsFirstRef (difference_rest K.bytes) };

    ghost remaining = { item_count (difference_rest K.bytes) };

    /// Returns the next element that only the left set has. Returns `None` when the left set is
    /// exhausted.
    ///
    /// Cost: at most one comparison and one visit for each element that it passes.
    fn next(&mut self) -> Option<&'a K>
        ensures steps { YieldsFirstRef (difference_rest K.bytes) self.old result self.new }
        ensures goes { MergeProgresses (difference_rest K.bytes) self.old result self.new }
    {
        next_lacking(&mut self.sides)
    }
}

impl<'a, K: OrderedBytes, const PREFIX_LEN: usize> FusedIterator
    for Difference<'a, K, PREFIX_LEN> {}

/// Returns the next element that only the left side has.
fn next_lacking<'a, K: OrderedBytes, const P: usize>(sides: &mut Sides<'a, K, P>) -> Option<&'a K>
    ensures steps { YieldsFirstRef (difference_rest K.bytes) sides.old result sides.new }
    ensures counted { Counts sides.old sides.new }
    ensures compared { HasCompared sides.old sides.new }
{
    'sides: while let Some(side) = sides.step_left() {
        if let Some(element) = side.of_left() {
            return Some(element);
        }
    }
    None
}
