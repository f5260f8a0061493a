//! Both maps under the calls that take many pairs at once. These require a key type whose keys
//! cannot conflict.
use crate::failure::Failure;
use crate::keys::Made;
use crate::maps::{Contestant, Ours, Theirs};
use blart_keys::{AsBytes, NoPrefixesBytes};
use blart_map::TreeMap;
use std::alloc::{AllocError, Global};
use std::collections::BTreeMap;
use std::iter::FromIterator;

/// A map with the bulk calls that are timed.
pub(crate) trait Joiner: Contestant {
    /// Returns a map of the pairs.
    fn of(alloc: Global, items: Vec<(Self::Key, u64)>) -> Result<Self, AllocError>;

    /// Moves all pairs of the other map to this one.
    fn join(&mut self, other: &mut Self) -> Result<(), Failure>;
}

impl<K: Made + NoPrefixesBytes> Joiner for Ours<K> {
    fn of(alloc: Global, items: Vec<(K, u64)>) -> Result<Self, AllocError> {
        TreeMap::from_vec(alloc, items)
    }

    fn join(&mut self, other: &mut Self) -> Result<(), Failure> {
        Ok(self.append(other)?)
    }
}

impl<K: Made> Joiner for Theirs<K> {
    fn of(alloc: Global, items: Vec<(K, u64)>) -> Result<Self, AllocError> {
        BTreeMap::from_iter(alloc, items.into_iter())
    }

    fn join(&mut self, other: &mut Self) -> Result<(), Failure> {
        Ok(self.append(other)?)
    }
}

/// Makes each key again, and appends it with its place.
pub(crate) fn place<F: Made, K: AsBytes>(
    alloc: Global,
    keys: &[K],
    items: &mut Vec<(F, u64)>,
) -> Result<(), Failure> {
    items.reserve_exact(keys.len())?;
    let mut place = 0u64;
    for key in keys {
        items.push((F::made(alloc, key.as_bytes())?, place))?;
        place = place.wrapping_add(1);
    }
    Ok(())
}
