//! The key types of scripts.
ghost use Rattle.std.specs.Prelude.{◌≡◌, IfOk};
ghost use Rattle.std.specs.Int.{to_be_bytes, w32};

use crate::answered::Unanswered;
use crate::text::Shown;
use blart_keys::{AsBytes, I32Key, NoPrefixesBytes, OrderedBytes, U64Key, ZKey, ZKeyError};
use std::alloc::{AllocError, Global};
use std::fmt::Debug;
use std::hash::Hash;

/// A key type of scripts.
pub trait ScriptKey: OrderedBytes + Hash + Debug + Shown + Drop + Sized {
    /// Returns the key with these bytes, if the type has one.
    fn from_vec(bytes: Vec<u8>) -> Result<Self, Unanswered>
        ensures same { IfOk result (λ key. Self.bytes key ≡ bytes.items) };

    /// Returns the key with this tag, if the type has tags.
    fn with_tag(self, tag: u64) -> Result<Self, Unanswered>
        ensures same { IfOk result (λ key. Self.bytes key ≡ Self.bytes self) }
    {
        let _tag = tag;
        Err(Unanswered::NoCall)
    }
}

/// A key type that is `Copy`, and whose keys all have the same number of bytes.
pub trait FixedKey: ScriptKey + NoPrefixesBytes + Copy {}

impl ScriptKey for Vec<u8> {
    fn from_vec(bytes: Vec<u8>) -> Result<Self, Unanswered> {
        Ok(bytes)
    }
}

impl ScriptKey for u8 {
    fn from_vec(bytes: Vec<u8>) -> Result<Self, Unanswered> {
        let [byte]: [u8; 1] = array_of(bytes)?;
        Ok(byte)
    }
}

impl FixedKey for u8 {}

impl ScriptKey for [u8; 3] {
    fn from_vec(bytes: Vec<u8>) -> Result<Self, Unanswered> {
        array_of(bytes)
    }
}

impl FixedKey for [u8; 3] {}

impl ScriptKey for I32Key {
    fn from_vec(bytes: Vec<u8>) -> Result<Self, Unanswered> {
        Ok(number_of_bits(u32::from_be_bytes(array_of(bytes)?)))
    }
}

impl FixedKey for I32Key {}

impl ScriptKey for U64Key {
    fn from_vec(bytes: Vec<u8>) -> Result<Self, Unanswered> {
        Ok(number_of_digits(array_of(bytes)?))
    }
}

impl FixedKey for U64Key {}

impl ScriptKey for ZKey {
    fn from_vec(bytes: Vec<u8>) -> Result<Self, Unanswered> {
        let made = zkey_of(*bytes.allocator(), &bytes);
        drop(bytes);
        made
    }
}

/// Returns the key with these bytes. The last must be zero, and no other may be.
fn zkey_of(alloc: Global, bytes: &[u8]) -> Result<ZKey, Unanswered>
    ensures { IfOk result (λ key. ⟦<ZKey as AsBytes>⟧.bytes key ≡ bytes.now) }
{
    let [front @ .., 0] = bytes else {
        return Err(Unanswered::NoCall);
    };
    match ZKey::from_bytes(alloc, front) {
        Ok(key) => Ok(key),
        Err(ZKeyError::InnerZero) => Err(Unanswered::NoCall),
        Err(ZKeyError::Memory) => Err(Unanswered::Memory(AllocError)),
    }
}

/// Returns the bytes as an array, if there are `N` of them.
pub(crate) fn array_of<const N: usize>(bytes: Vec<u8>) -> Result<[u8; N], Unanswered>
    ensures { IfOk result (λ array. array ≡ bytes.items) }
{
    match <[u8; N]>::try_from(bytes) {
        Ok(array) => Ok(array),
        Err(bytes) => {
            drop(bytes);
            Err(Unanswered::NoCall)
        }
    }
}

/// Returns the key of the number with these digits, the high one first.
fn number_of_digits(digits: [u8; 8]) -> U64Key
    ensures { ⟦<U64Key as AsBytes>⟧.bytes result ≡ digits }
{
    digits.value_law();
    U64Key::new(u64::from_be_bytes(digits))
}

/// Returns the key whose bytes are the big-endian bytes of these bits. Its number has the top bit
/// flipped.
fn number_of_bits(bits: u32) -> I32Key
    ensures { ⟦<I32Key as AsBytes>⟧.bytes result ≡ to_be_bytes w32 bits }
{
    I32Key::new((bits ^ (1 << 31)).cast_signed())
}
