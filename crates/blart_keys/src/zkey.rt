//! Bytes with one zero after them, so that no key is a prefix of another.

ghost use Rattle.std.specs.Prelude.{◌≡◌, ℕ, List, ◌∷◌, [], ◌++◌, IfOk, IsErrOf, Contains, ◌↔◌, refl};
ghost use Rattle.std.proofs.lemmas.Slice.Eq.{bytes_eq-Decides};
ghost use Rattle.blart_keys.specs.Keys.{AreBytes, EndsInZero};
ghost use Rattle.blart_keys.specs.KeyLaws.{zero_no_fronts};

use crate::shown::{Quoted, write_text};
use crate::traits::{AsBytes, CloneBytes, NoPrefixesBytes, OrderedBytes};
use std::alloc::{AllocError, Global};
use std::clone::Clone;
use std::fmt;
use std::fmt::{Debug, Display};
use thiserror::Error;

/// An error in the making of a [`ZKey`].
///
/// ```
/// let made = ZKey::from_bytes(alloc, b"a\0");
/// assert_eq!(made.err(), Some(ZKeyError::InnerZero));
/// ```
#[derive(Debug, Clone, Copy, PartialEq, Eq, Error)]
pub enum ZKeyError {
    /// One of the bytes is zero.
    #[error("zero byte in key")]
    InnerZero,
    /// The allocation failed.
    #[error("out of memory")]
    Memory,
}

impl From<AllocError> for ZKeyError {
    ghost use Rattle.blart_keys.specs.declared.zkey.ZKeyError.TheVariants.{Memory};

    ghost from_gives = { λ _ e. e ≡ Memory };

    /// Returns `Memory`.
    ///
    /// Cost: none.
    fn from(_: AllocError) -> ZKeyError {
        ZKeyError::Memory
    }
}

/// A key of bytes without a zero, and one zero after them.
///
/// No key of this type is a prefix of another. Keys compare like their bytes without the zero.
///
/// A look-up compares bytes, so a query has the zero too. It is the key, a [`ZStr`](crate::ZStr) or
/// a [`ZQuery`](crate::ZQuery). The text alone finds nothing, as in `map.get(&"ab")`.
///
/// ```
/// let key = ZKey::from_bytes(alloc, b"ab")?;
/// assert_eq!(key.as_bytes(), b"ab\0".as_slice());
/// assert_eq!(key.to_bytes(), b"ab".as_slice());
/// ```
#[derive(PartialEq, Eq, PartialOrd, Ord, Hash, Drop)]
pub struct ZKey {
    bytes: Vec<u8>,
    ghost ends_in_zero: { EndsInZero bytes.items },
}

impl ZKey {
    /// Returns the key of these bytes, followed by one zero.
    ///
    /// Returns `InnerZero` if and only if one of the bytes is zero. Allocates memory for a copy of
    /// the bytes, and returns `Memory` if that fails.
    ///
    /// Cost: one pass over the bytes, and allocates a copy of them.
    ///
    /// ```
    /// let key = ZKey::from_bytes(rt.alloc(), b"ab")?;
    /// assert_eq!(rt; key.as_bytes(), b"ab\0".as_slice());
    /// assert_eq!(rt; key.to_bytes(), b"ab".as_slice());
    /// ```
    pub fn from_bytes(alloc: Global, bytes: &[u8]) -> Result<Self, ZKeyError>
        ensures ok { IfOk result (λ k. ⟦<ZKey as AsBytes>⟧.bytes k ≡ bytes.now ++ 0 ∷ []) }
        ensures inner_zero { IsErrOf result ZKeyError.InnerZero ↔ Contains bytes.now 0 }
        ensures memory { IsErrOf result ZKeyError.Memory → ¬ Contains bytes.now 0 }
    {
        if bytes.contains(&0) {
            return Err(ZKeyError::InnerZero);
        }
        let mut all = Vec::new(alloc);
        if all.extend_from_slice(bytes).is_err() {
            return Err(ZKeyError::Memory);
        }
        if all.push(0).is_err() {
            return Err(ZKeyError::Memory);
        }
        Ok(ZKey { bytes: all })
    }

    /// Returns the bytes without the zero, from which the key was made.
    ///
    /// Cost: none.
    pub fn to_bytes(&self) -> &[u8]
        ensures value { result.now ++ 0 ∷ [] ≡ ⟦<ZKey as AsBytes>⟧.bytes self.now }
        ensures given { (b : List ℕ) → ⟦<ZKey as AsBytes>⟧.bytes self.now ≡ b ++ 0 ∷ []
            → result.now ≡ b }
    {
        let all = self.bytes.as_slice();
        &all[..all.len() - 1]
    }
}

impl Clone for ZKey {
    ghost use Rattle.blart_keys.specs.KeyBytes.{zkey_bytes};

    ghost is_clone = { λ key copy. zkey_bytes copy ≡ zkey_bytes key };

    /// Returns a key with the same bytes, or an error if it fails to allocate.
    ///
    /// Cost: allocates a copy of the bytes.
    fn clone(&self) -> Result<ZKey, AllocError> {
        Ok(ZKey {
            bytes: self.bytes.clone()?,
        })
    }
}

impl AsBytes for ZKey {
    ghost use Rattle.blart_keys.specs.KeyBytes.{zkey_bytes};

    ghost bytes = { zkey_bytes };

    ghost IsValue = { λ k. record { zero : EndsInZero (zkey_bytes k); small : AreBytes (zkey_bytes k) } };

    fn as_bytes(&self) -> &[u8] {
        self.bytes.as_slice()
    }

    fn value_law(&self) {
        self.bytes.value_law()
    }
}

impl NoPrefixesBytes for ZKey {
    ghost no_fronts = { λ x y a b h. zero_no_fronts x.bytes.items y.bytes.items a.zero b.zero h };
}

impl OrderedBytes for ZKey {
    ghost ordered = { λ x y a b. refl };

    ghost equal_bytes = { λ x y a b. bytes_eq-Decides x.bytes.items y.bytes.items };
}

impl CloneBytes for ZKey {
    ghost cloned = { λ x y e. e };
}

impl Display for ZKey {
    ghost use Rattle.blart_keys.specs.KeyBytes.{zkey_bytes};
    ghost use Rattle.blart_keys.specs.Shown.{shown_text, without_last};
    ghost use Rattle.std.specs.Prelude.{option_map};
    ghost use Rattle.std.specs.Fmt.{styled_text};

    ghost output = { λ k. shown_text (without_last (zkey_bytes k)) };

    ghost styled_output = { λ k s. option_map (styled_text s) (shown_text (without_last (zkey_bytes k))) };

    /// Writes the bytes without the zero as text, with U+FFFD for each sequence that is not UTF-8.
    ///
    /// Cost: one pass over the bytes.
    fn fmt<W: fmt::Write>(&self, f: &mut fmt::Formatter<W>) -> fmt::Result {
        write_text(self.to_bytes(), f)
    }
}

impl Debug for ZKey {
    /// Writes the bytes without the zero as text in quotes, as in `ZKey("ab")`. A byte that is not
    /// UTF-8 is written as `\xff`.
    ///
    /// Cost: one pass over the bytes.
    fn fmt<W: fmt::Write>(&self, f: &mut fmt::Formatter<W>) -> fmt::Result {
        f.debug_tuple("ZKey")
            .field(&Quoted(self.to_bytes()))
            .finish()
    }
}
