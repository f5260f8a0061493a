//! The two maps, under the same calls.
use crate::failure::Failure;
use crate::keys::{Key, Made};
use crate::readings::{Lengths, Reading};
use crate::stores::Store;
use crate::workload::Front;
use blart_keys::AsBytes;
use blart_map::{DEFAULT_PREFIX_LEN, Reserved, Room, TreeMap, TryInsertError};
use std::alloc::{AllocError, Global};
use std::collections::BTreeMap;
use std::ops::Bound;

/// The map under test.
pub(crate) type Ours<K> = TreeMap<K, u64, DEFAULT_PREFIX_LEN>;

/// The reserved room of the map under test.
type OurRoom<'a, K> = Reserved<'a, Ours<K>, Room<K, u64, { DEFAULT_PREFIX_LEN }>>;

/// The library's map.
pub(crate) type Theirs<K> = BTreeMap<K, u64>;

/// A map with the calls that are timed. Each call returns a sum over its results.
pub(crate) trait Contestant: Store + PartialEq {
    /// Stores each key with its place. If the map can reserve room, it reserves the room for all
    /// keys first.
    fn store_reserved(&mut self, keys: Vec<Self::Key>) -> Result<u64, Failure>;

    /// Looks up each key.
    fn look_up(&self, keys: &[Self::Key]) -> u64;

    /// Walks over all pairs.
    fn walk<R: Reading>(&self) -> u64;

    /// Adds one to each value.
    fn raise(&mut self) -> u64;

    /// Walks over at most 100 pairs from a key on.
    fn walk_from<'a>(&'a self, start: &'a Self::Key) -> u64;

    /// Walks over at most 100 pairs from each start on. There are at most 10,000 starts.
    final fn range(&self, starts: &[Self::Key]) -> u64 {
        let mut sum = 0u64;
        for start in starts.iter().take(10_000) {
            sum = sum.wrapping_add(self.walk_from(start));
        }
        sum
    }

    /// Walks over the pairs whose keys start with a prefix.
    fn walk_front<'a>(&'a self, front: &'a Front<Self::Key>) -> u64;

    /// Walks over the pairs whose keys start with each of the prefixes.
    final fn prefix(&self, fronts: &[Front<Self::Key>]) -> u64 {
        let mut sum = 0u64;
        for front in fronts {
            sum = sum.wrapping_add(self.walk_front(front));
        }
        sum
    }

    /// Removes each key.
    fn remove(&mut self, keys: &[Self::Key]) -> u64;

    /// Keeps the pairs with an odd value.
    fn retain(&mut self) -> u64;

    /// Walks over all pairs and consumes the map.
    fn take_apart(self) -> u64;

    /// Keeps the pairs before a key, and returns the rest.
    fn part(&mut self, from: &Self::Key) -> Result<Self, AllocError>;
}

/// A map that can be copied too.
pub(crate) trait Copied: Contestant {
    /// Returns a map of the same pairs.
    fn copy(&self) -> Result<Self, AllocError>;
}

/// Stores each key with its place in the reserved room. Returns the number of new keys.
fn fill<K: Made>(room: &mut OurRoom<'_, K>, keys: Vec<K>) -> Result<u64, Failure> {
    let count = room.left();
    let mut place = 0u64;
    for key in keys {
        if room.left() == 0 {
            return Err(Failure::Memory);
        }
        if room.try_insert(key, place).is_err() {
            return Err(Failure::Related);
        }
        place = place.wrapping_add(1);
    }
    Ok(count.saturating_sub(room.left()) as u64)
}

impl<K: Made> Store for Ours<K> {
    type Key = K;

    fn empty(alloc: Global) -> Self {
        TreeMap::new(alloc)
    }

    fn put(&mut self, key: K, value: u64) -> Result<bool, Failure> {
        match self.try_insert(key, value) {
            Ok(old) => Ok(old.is_none()),
            Err(TryInsertError::Memory(_)) => Err(Failure::Memory),
            Err(TryInsertError::Prefix(_)) => Err(Failure::Related),
        }
    }
}

impl<K: Made> Contestant for Ours<K> {
    fn store_reserved(&mut self, keys: Vec<K>) -> Result<u64, Failure> {
        match self.reserve(keys.len()) {
            Ok(mut room) => {
                let stored = fill(&mut room, keys);
                drop(room);
                stored
            }
            Err(_) => Err(Failure::Memory),
        }
    }

    fn look_up(&self, keys: &[K]) -> u64 {
        let mut sum = 0u64;
        for key in keys {
            if let Some(value) = self.get(key) {
                sum = sum.wrapping_add(*value);
            }
        }
        sum
    }

    fn walk<R: Reading>(&self) -> u64 {
        let mut sum = 0u64;
        for (key, value) in self.iter() {
            sum = R::added(sum, key.as_bytes(), *value);
        }
        sum
    }

    fn raise(&mut self) -> u64 {
        let mut walk = self.iter_mut();
        for _ in 0..walk.len() {
            if let Some(value) = walk.next() {
                *value = value.wrapping_add(1);
            }
        }
        self.len() as u64
    }

    fn walk_from<'a>(&'a self, start: &'a K) -> u64 {
        let end: Bound<&'a K> = Bound::Unbounded;
        let mut sum = 0u64;
        for (_, value) in self.range(Bound::Included(start), end).take(100) {
            sum = sum.wrapping_add(*value);
        }
        sum
    }

    fn walk_front<'a>(&'a self, front: &'a Front<K>) -> u64 {
        let mut sum = 0u64;
        for (_, value) in self.prefix(front.bytes()) {
            sum = sum.wrapping_add(*value);
        }
        sum
    }

    fn remove(&mut self, keys: &[K]) -> u64 {
        let mut sum = 0u64;
        for key in keys {
            if let Some(value) = self.remove(key) {
                sum = sum.wrapping_add(value);
            }
        }
        sum
    }

    fn retain(&mut self) -> u64 {
        self.retain(|_, value| *value % 2 == 1);
        self.len() as u64
    }

    fn take_apart(self) -> u64 {
        let mut sum = 0u64;
        for (key, value) in self {
            sum = Lengths::added(sum, key.as_bytes(), value);
        }
        sum
    }

    fn part(&mut self, from: &K) -> Result<Self, AllocError> {
        self.split_off(from)
    }
}

impl<K: Key> Copied for Ours<K> {
    fn copy(&self) -> Result<Self, AllocError> {
        self.clone()
    }
}

impl<K: Made> Store for Theirs<K> {
    type Key = K;

    fn empty(alloc: Global) -> Self {
        BTreeMap::new(alloc)
    }

    fn put(&mut self, key: K, value: u64) -> Result<bool, Failure> {
        match self.insert(key, value) {
            Ok(old) => Ok(old.is_none()),
            Err(_) => Err(Failure::Memory),
        }
    }
}

impl<K: Made> Contestant for Theirs<K> {
    fn store_reserved(&mut self, keys: Vec<K>) -> Result<u64, Failure> {
        self.store(keys)
    }

    fn look_up(&self, keys: &[K]) -> u64 {
        let mut sum = 0u64;
        for key in keys {
            if let Some(value) = self.get(key) {
                sum = sum.wrapping_add(*value);
            }
        }
        sum
    }

    fn walk<R: Reading>(&self) -> u64 {
        let mut sum = 0u64;
        for (key, value) in self.iter() {
            sum = R::added(sum, key.as_bytes(), *value);
        }
        sum
    }

    fn raise(&mut self) -> u64 {
        for (_, value) in self.iter_mut() {
            *value = value.wrapping_add(1);
        }
        self.len() as u64
    }

    fn walk_from<'a>(&'a self, start: &'a K) -> u64 {
        let mut sum = 0u64;
        for (_, value) in self
            .range((Bound::Included(start), Bound::Unbounded))
            .take(100)
        {
            sum = sum.wrapping_add(*value);
        }
        sum
    }

    fn walk_front<'a>(&'a self, front: &'a Front<K>) -> u64 {
        let mut sum = 0u64;
        for (key, value) in self.range((Bound::Included(&front.least), Bound::Unbounded)) {
            if !key.as_bytes().starts_with(front.bytes()) {
                break;
            }
            sum = sum.wrapping_add(*value);
        }
        sum
    }

    fn remove(&mut self, keys: &[K]) -> u64 {
        let mut sum = 0u64;
        for key in keys {
            if let Some(value) = self.remove(key) {
                sum = sum.wrapping_add(value);
            }
        }
        sum
    }

    fn retain(&mut self) -> u64 {
        self.retain(|_, value| *value % 2 == 1);
        self.len() as u64
    }

    fn take_apart(self) -> u64 {
        let mut sum = 0u64;
        for (key, value) in self {
            sum = Lengths::added(sum, key.as_bytes(), value);
        }
        sum
    }

    fn part(&mut self, from: &K) -> Result<Self, AllocError> {
        self.split_off(from)
    }
}

impl<K: Key> Copied for Theirs<K> {
    fn copy(&self) -> Result<Self, AllocError> {
        self.clone()
    }
}
