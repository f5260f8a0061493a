//! The key types of the maps that are timed.
ghost use Rattle.std.specs.Prelude.{◌≡◌};
ghost use Rattle.std.specs.List.{each_same};

use crate::failure::Failure;
use blart_keys::{AsBytes, ZKey, ZKeyError};
use std::alloc::Global;
use std::clone::Clone;

/// A key type whose keys are made from bytes.
pub(crate) trait Made: AsBytes + Ord + Sized + Drop {
    /// Returns the key of the bytes.
    fn made(alloc: Global, bytes: &[u8]) -> Result<Self, Failure>;
}

/// A key type whose keys can be cloned too.
pub(crate) trait Key: Made + Clone {
    /// A clone has the same bytes.
    ghost cloned: { (key clone : Self) → Self.is_clone key clone → Self.bytes clone ≡ Self.bytes key };
}

impl Made for Vec<u8> {
    fn made(alloc: Global, bytes: &[u8]) -> Result<Self, Failure> {
        Ok(Vec::from_slice(alloc, bytes)?)
    }
}

impl Key for Vec<u8> {
    ghost cloned = { λ key clone same. each_same key.items clone.items same.0 };
}

impl Made for [u8; 8] {
    fn made(_: Global, bytes: &[u8]) -> Result<Self, Failure> {
        Ok(padded(bytes))
    }
}

impl Key for [u8; 8] {
    ghost cloned = { λ key clone same. each_same key clone same.whole };
}

impl Made for [u8; 16] {
    fn made(_: Global, bytes: &[u8]) -> Result<Self, Failure> {
        Ok(padded(bytes))
    }
}

impl Key for [u8; 16] {
    ghost cloned = { λ key clone same. each_same key clone same.whole };
}

/// Returns the first `N` bytes, padded with zeros.
fn padded<const N: usize>(bytes: &[u8]) -> [u8; N] {
    let mut key = [0u8; N];
    for (place, byte) in key.iter_mut().zip(bytes) {
        *place = *byte;
    }
    key
}

/// The key ends with a zero byte. So a zero within it is written as 1 and 1, and a one as 1 and 2.
/// The order of the keys is unchanged.
impl Made for ZKey {
    fn made(alloc: Global, bytes: &[u8]) -> Result<Self, Failure> {
        let mut written = Vec::new(alloc);
        for byte in bytes {
            if *byte <= 1 {
                written.extend_from_slice(&[1, *byte + 1])?;
            } else {
                written.push(*byte)?;
            }
        }
        match ZKey::from_bytes(alloc, written.as_slice()) {
            Ok(key) => Ok(key),
            Err(ZKeyError::Memory) => Err(Failure::Memory),
            Err(ZKeyError::InnerZero) => Err(Failure::Related),
        }
    }
}
