//! The two sets, under the same calls.
ghost use Rattle.std.specs.Iterator.{IsFinite};

use crate::failure::Failure;
use crate::stores::Store;
use blart_set::{DEFAULT_PREFIX_LEN, TreeSet, TryInsertError};
use std::alloc::Global;
use std::collections::BTreeSet;
use std::iter::Iterator;

/// The set under test.
pub(crate) type OurSet = TreeSet<Vec<u8>, DEFAULT_PREFIX_LEN>;

/// The library's set.
pub(crate) type TheirSet = BTreeSet<Vec<u8>>;

/// A walk over two sets.
pub(crate) enum Merge {
    /// The elements of either set.
    Union,
    /// The elements of both sets.
    Intersection,
    /// The elements of the first set only.
    Difference,
    /// The elements of only one set.
    SymmetricDifference,
}

/// A set of lists of bytes, with the calls that are timed. Each call returns a sum over its
/// results.
pub(crate) trait SetContestant: Store<Key = Vec<u8>> {
    /// Walks over a merge of both sets.
    fn merge_sum(&self, other: &Self, merge: Merge) -> u64;
}

impl Store for OurSet {
    type Key = Vec<u8>;

    fn empty(alloc: Global) -> Self {
        TreeSet::new(alloc)
    }

    fn put(&mut self, key: Vec<u8>, _: u64) -> Result<bool, Failure> {
        match self.try_insert(key) {
            Ok(is_new) => Ok(is_new),
            Err(TryInsertError::Memory(_)) => Err(Failure::Memory),
            Err(TryInsertError::Prefix(_)) => Err(Failure::Related),
        }
    }
}

impl SetContestant for OurSet {
    fn merge_sum(&self, other: &Self, merge: Merge) -> u64 {
        match merge {
            Merge::Union => sum_of(self.union(other)),
            Merge::Intersection => sum_of(self.intersection(other)),
            Merge::Difference => sum_of(self.difference(other)),
            Merge::SymmetricDifference => sum_of(self.symmetric_difference(other)),
        }
    }
}

impl Store for TheirSet {
    type Key = Vec<u8>;

    fn empty(alloc: Global) -> Self {
        BTreeSet::new(alloc)
    }

    fn put(&mut self, key: Vec<u8>, _: u64) -> Result<bool, Failure> {
        match self.insert(key) {
            Ok(is_new) => Ok(is_new),
            Err(_) => Err(Failure::Memory),
        }
    }
}

impl SetContestant for TheirSet {
    fn merge_sum(&self, other: &Self, merge: Merge) -> u64 {
        match merge {
            Merge::Union => sum_of(self.union(other)),
            Merge::Intersection => sum_of(self.intersection(other)),
            Merge::Difference => sum_of(self.difference(other)),
            Merge::SymmetricDifference => sum_of(self.symmetric_difference(other)),
        }
    }
}

/// Returns the sum over the items of a walk.
fn sum_of<'a, I: Iterator<Item = &'a Vec<u8>>>(keys: I) -> u64
    requires can { I.can_next keys }
    requires ends { IsFinite (I.remaining keys) }
{
    let mut sum = 0u64;
    for key in keys {
        sum = added(sum, key);
    }
    sum
}

/// Returns the sum with an element added. It depends on the order of the elements.
fn added(sum: u64, key: &Vec<u8>) -> u64 {
    let last = match key.last() {
        Some(byte) => *byte as u64,
        None => 256,
    };
    sum.wrapping_mul(3)
        .wrapping_add(last)
        .wrapping_add(key.len() as u64)
}
