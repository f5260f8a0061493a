//! The elements of the left set whose bytes the right one has too, in ascending order.
ghost use Rattle.std.specs.Iterator.{YieldsFirstRef, item_count};
ghost use Rattle.blart_set.specs.Merging.{intersection_rest, MergeProgresses, Counts, HasCompared};

use crate::merges::sides::Sides;
use blart_keys::OrderedBytes;
use std::iter::{FusedIterator, Iterator};
use std::marker::Model;

/// An iterator over the elements of the left set whose bytes the right one has too, in ascending
/// order. It makes at most as many comparisons as it consumes elements of both sets.
///
/// ```
/// // left is {1, 2}, right is {2, 3}
/// let mut merged = left.intersection(&right);
/// assert_eq!(merged.next(), Some(&2));
/// assert_eq!(merged.next(), None);
/// ```
#[derive(Drop)]
pub struct Intersection<'a, K: OrderedBytes, const PREFIX_LEN: usize> {
    pub(crate) sides: Sides<'a, K, PREFIX_LEN>,
}

impl<'a, K: OrderedBytes, const PREFIX_LEN: usize> Model for Intersection<'a, K, PREFIX_LEN> {
    ghost use Rattle.blart_set.specs.Merge.{Merge};

    ghost Value = { Merge K };

    ghost view = { λ it. it.sides };
}

impl<'a, K: OrderedBytes, const PREFIX_LEN: usize> Iterator for Intersection<'a, K, PREFIX_LEN> {
    type Item = &'a K;

    ghost next_gives = { YieldsFirstRef (intersection_rest K.bytes) };

    ghost remaining = { item_count (intersection_rest K.bytes) };

    /// Returns the next element that both sets have. Returns `None` when either set is exhausted.
    ///
    /// Cost: at most one comparison and one visit for each element that it passes.
    fn next(&mut self) -> Option<&'a K>
        ensures steps { YieldsFirstRef (intersection_rest K.bytes) self.old result self.new }
        ensures goes { MergeProgresses (intersection_rest K.bytes) self.old result self.new }
    {
        next_shared(&mut self.sides)
    }
}

impl<'a, K: OrderedBytes, const PREFIX_LEN: usize> FusedIterator
    for Intersection<'a, K, PREFIX_LEN> {}

/// Returns the next element that both sides have.
fn next_shared<'a, K: OrderedBytes, const P: usize>(sides: &mut Sides<'a, K, P>) -> Option<&'a K>
    ensures steps { YieldsFirstRef (intersection_rest K.bytes) sides.old result sides.new }
    ensures counted { Counts sides.old sides.new }
    ensures compared { HasCompared sides.old sides.new }
{
    'sides: while let Some(side) = sides.step_both() {
        if let Some(element) = side.of_both() {
            return Some(element);
        }
    }
    None
}
