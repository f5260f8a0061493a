//! Operations on values and keys.
use blart_keys::AsBytes;
use std::alloc::AllocError;
use std::hash::{DefaultHasher, Hash, Hasher};
use std::mem;

/// Writes the value to the place, and returns the old value, if there is a place.
pub fn written(place: Option<&mut u64>, value: u64) -> Option<u64> {
    match place {
        Some(place) => Some(mem::replace(place, value)),
        None => None,
    }
}

/// Adds to the value, and returns the old value.
pub fn raise(value: &mut u64, add: u64) -> u64 {
    mem::replace(value, value.wrapping_add(add))
}

/// Adds to the value, if there is one, and returns the old value.
pub fn raised(lent: Option<&mut u64>, add: u64) -> Option<u64> {
    match lent {
        Some(value) => Some(raise(value, add)),
        None => None,
    }
}

/// Returns the value behind the reference.
pub fn value_of(answer: Result<&mut u64, AllocError>) -> Result<u64, AllocError> {
    match answer {
        Ok(value) => Ok(*value),
        Err(refused) => Err(refused),
    }
}

/// Returns the number of the key's bytes.
pub fn length_of<K: AsBytes>(key: &K) -> u64 {
    key.as_bytes().len() as u64
}

/// Returns `true` if two values have the same hash.
pub fn have_one_digest<T: Hash>(left: &T, right: &T) -> bool {
    digest_of(left) == digest_of(right)
}

/// Returns the hash of a value.
fn digest_of<T: Hash>(value: &T) -> u64 {
    let mut state = DefaultHasher::new();
    value.hash(&mut state);
    state.finish()
}
