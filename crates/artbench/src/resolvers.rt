//! Tables of mounts: the router's, and two others that do the same.
use crate::failure::Failure;
use crate::maps::Theirs;
use crate::stores::Store;
use blart_map::TryInsertError;
use prefix_router::Mounts;
use std::alloc::Global;
use std::ops::Bound;

/// A vector of mounts in ascending order.
pub(crate) type Sorted = Vec<Vec<u8>>;

/// A table of paths that were stored in their order. No path is a prefix of another.
pub(crate) trait Resolver: Store<Key = Vec<u8>> {
    /// Returns the place of the mount that is a prefix of the path, if there is one.
    fn place(&self, path: &Vec<u8>) -> Option<u64>;

    /// Resolves each path, and returns a sum over the places.
    final fn resolve_all(&self, paths: &[Vec<u8>]) -> u64 {
        let mut sum = 0u64;
        for path in paths {
            if let Some(place) = self.place(path) {
                sum = sum.wrapping_add(place).wrapping_add(1);
            }
        }
        sum
    }
}

impl Store for Mounts<u64> {
    type Key = Vec<u8>;

    fn empty(alloc: Global) -> Self {
        Mounts::new(alloc)
    }

    fn put(&mut self, key: Vec<u8>, value: u64) -> Result<bool, Failure> {
        match self.mount(key, value) {
            Ok(old) => Ok(old.is_none()),
            Err(TryInsertError::Memory(_)) => Err(Failure::Memory),
            Err(TryInsertError::Prefix(_)) => Err(Failure::Related),
        }
    }
}

impl Resolver for Mounts<u64> {
    fn place(&self, path: &Vec<u8>) -> Option<u64> {
        match self.resolve(path.as_slice()) {
            Some((_, place)) => Some(*place),
            None => None,
        }
    }
}

/// Of the mounts up to a path only the last can be a prefix of it, since no mount is a prefix of
/// another.
impl Resolver for Theirs<Vec<u8>> {
    fn place(&self, path: &Vec<u8>) -> Option<u64> {
        match self
            .range((Bound::Unbounded, Bound::Included(path)))
            .next_back()
        {
            Some((mount, place)) if path.starts_with(mount) => Some(*place),
            _ => None,
        }
    }
}

impl Store for Sorted {
    type Key = Vec<u8>;

    fn empty(alloc: Global) -> Self {
        Vec::new(alloc)
    }

    fn put(&mut self, key: Vec<u8>, _: u64) -> Result<bool, Failure> {
        match self.push(key) {
            Ok(()) => Ok(true),
            Err(_) => Err(Failure::Memory),
        }
    }
}

impl Resolver for Sorted {
    fn place(&self, path: &Vec<u8>) -> Option<u64> {
        let place = match self.binary_search(path) {
            Ok(place) => place,
            Err(next) => next.checked_sub(1)?,
        };
        match self.get(place) {
            Some(mount) if path.starts_with(mount) => Some(place as u64),
            _ => None,
        }
    }
}
