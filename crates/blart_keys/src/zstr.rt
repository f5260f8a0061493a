//! Borrowed bytes that end in their only zero, and a buffer that makes them.

ghost use Rattle.std.specs.Prelude.{◌≡◌, ℕ, ◌≤◌, ◌<◌, List, ◌∷◌, [], ◌++◌, true, length, OnOk, OnErr, IsErrOf, Contains, ◌↔◌, refl};
ghost use Rattle.std.proofs.lemmas.Slice.Eq.{bytes_eq-Decides};
ghost use Rattle.blart_keys.specs.Keys.{AreBytes, EndsInZero, ends_in_zero};
ghost use Rattle.blart_keys.specs.KeyLaws.{zero_no_fronts};

use crate::bytes::same_bytes;
use crate::shown::{Quoted, write_text};
use crate::traits::{AsBytes, CloneBytes, NoPrefixesBytes, OrderedBytes};
use crate::zkey::ZKeyError;
use std::alloc::Global;
use std::fmt;
use std::fmt::{Debug, Display};

/// A key of borrowed bytes, of which the last is zero and no other is.
///
/// It has the bytes of the [`ZKey`](crate::ZKey) of the same text, so it finds that key in a map.
/// For a literal, the macro `zkey!` of the crate `blart` writes the zero: `zkey!("ab")` is
/// `ZStr::new("ab\0")`. A map may have keys of this type.
///
/// ```
/// let key = ZStr::new("ab\0");
/// assert_eq!(key.as_bytes(), b"ab\0".as_slice());
/// assert_eq!(key.to_bytes(), b"ab".as_slice());
/// ```
#[derive(Clone, Copy, PartialEq, Eq, PartialOrd, Ord, Hash)]
pub struct ZStr<'a> {
    bytes: &'a [u8],
    ghost ends_in_zero: { EndsInZero bytes.now },
}

impl<'a> ZStr<'a> {
    ghost use Rattle.blart_keys.specs.KeyBytes.{zstr_bytes};

    /// Returns the key of a text that ends in its only zero. The check of a caller proves that the
    /// text does, which it does by itself for a literal.
    ///
    /// Cost: none.
    #[tactic(auto, using(crate::specs::KeyLaws::ends_in_zero_is))]
    pub fn new(text: &'a str) -> Self
        requires { ends_in_zero text.now ≡ true }
        ensures { zstr_bytes result ≡ text.now }
    {
        ZStr {
            bytes: text.as_bytes(),
        }
    }

    /// Returns the bytes without the zero.
    ///
    /// Cost: none.
    pub fn to_bytes(&self) -> &'a [u8]
        ensures value { result.now ++ 0 ∷ [] ≡ zstr_bytes self.now }
        ensures given { (b : List ℕ) → zstr_bytes self.now ≡ b ++ 0 ∷ []
            → result.now ≡ b }
    {
        let all = self.bytes;
        &all[..all.len() - 1]
    }
}

impl AsBytes for ZStr<'_> {
    ghost use Rattle.blart_keys.specs.KeyBytes.{zstr_bytes};

    ghost bytes = { zstr_bytes };

    ghost IsValue = { λ k. record { zero : EndsInZero (zstr_bytes k); small : AreBytes (zstr_bytes k) } };

    fn as_bytes(&self) -> &[u8] {
        self.bytes
    }

    fn value_law(&self) {
        let _value = same_bytes(self.bytes);
    }
}

impl NoPrefixesBytes for ZStr<'_> {
    ghost no_fronts = { λ x y a b h. zero_no_fronts x.bytes.now y.bytes.now a.zero b.zero h };
}

impl OrderedBytes for ZStr<'_> {
    ghost ordered = { λ x y a b. refl };

    ghost equal_bytes = { λ x y a b. bytes_eq-Decides x.bytes.now y.bytes.now };
}

impl CloneBytes for ZStr<'_> {
    ghost use Rattle.std.proofs.Common.{ap};
    ghost use Rattle.blart_keys.specs.KeyBytes.{zstr_bytes};

    ghost cloned = { λ x y e. ap zstr_bytes e };
}

impl Display for ZStr<'_> {
    ghost use Rattle.blart_keys.specs.KeyBytes.{zstr_bytes};
    ghost use Rattle.blart_keys.specs.Shown.{shown_text, without_last};
    ghost use Rattle.std.specs.Prelude.{option_map};
    ghost use Rattle.std.specs.Fmt.{styled_text};

    ghost output = { λ k. shown_text (without_last (zstr_bytes k)) };

    ghost styled_output = { λ k s. option_map (styled_text s) (shown_text (without_last (zstr_bytes k))) };

    /// Writes the bytes without the zero as text, with U+FFFD for each sequence that is not UTF-8.
    ///
    /// Cost: one pass over the bytes.
    fn fmt<W: fmt::Write>(&self, f: &mut fmt::Formatter<W>) -> fmt::Result {
        write_text(self.to_bytes(), f)
    }
}

impl Debug for ZStr<'_> {
    /// Writes the bytes without the zero as text in quotes, as in `ZStr("ab")`. A byte that is not
    /// UTF-8 is written as `\xff`.
    ///
    /// Cost: one pass over the bytes.
    fn fmt<W: fmt::Write>(&self, f: &mut fmt::Formatter<W>) -> fmt::Result {
        f.debug_tuple("ZStr")
            .field(&Quoted(self.to_bytes()))
            .finish()
    }
}

/// A buffer for the bytes of one query after the other, each followed by one zero.
///
/// Once it is set to a text it has the bytes of the [`ZKey`](crate::ZKey) of that text, so it finds
/// that key in a map. Before that it has no bytes, and finds no `ZKey`.
///
/// ```
/// let mut query = ZQuery::new(alloc);
/// query.set(b"ab")?;
/// assert_eq!(query.as_bytes(), b"ab\0".as_slice());
/// ```
#[derive(Drop)]
pub struct ZQuery {
    bytes: Vec<u8>,
}

impl ZQuery {
    ghost use Rattle.blart_keys.specs.KeyBytes.{zquery_bytes, zquery_room};

    /// Returns a query with no bytes. Does not allocate.
    ///
    /// Cost: none.
    pub fn new(alloc: Global) -> Self
        ensures { zquery_bytes result ≡ [] }
    {
        ZQuery {
            bytes: Vec::new(alloc),
        }
    }

    /// Sets the query to these bytes and one zero, the bytes of the key that
    /// [`ZKey::from_bytes`](crate::ZKey::from_bytes) returns for them.
    ///
    /// Returns `InnerZero` if and only if one of the bytes is zero. Returns `Memory` only if there
    /// is no room for the bytes and the zero, and an allocation fails. Once a text was set, there
    /// is room for each text of at most that length. After an error the query has no bytes.
    ///
    /// Cost: one pass over the bytes. Allocates only if there is no room.
    ///
    /// ```
    /// query.set(b"car")?;
    /// assert_eq!(map.get(&query), Some(&1));
    /// ```
    pub fn set(&mut self, bytes: &[u8]) -> Result<(), ZKeyError>
        ensures ok { OnOk result (zquery_bytes self.new ≡ bytes.now ++ 0 ∷ []) }
        ensures inner_zero { IsErrOf result ZKeyError.InnerZero ↔ Contains bytes.now 0 }
        ensures memory { IsErrOf result ZKeyError.Memory
            → (¬ Contains bytes.now 0) × (zquery_room self.old ≤ length bytes.now) }
        ensures err { OnErr result (zquery_bytes self.new ≡ []) }
        ensures keeps { zquery_room self.old ≤ zquery_room self.new }
        ensures room { OnOk result (length bytes.now < zquery_room self.new) }
    {
        self.bytes.clear();
        if bytes.contains(&0) {
            return Err(ZKeyError::InnerZero);
        }
        if self.bytes.extend_from_slice(bytes).is_err() {
            return Err(ZKeyError::Memory);
        }
        if self.bytes.push(0).is_err() {
            self.bytes.clear();
            return Err(ZKeyError::Memory);
        }
        Ok(())
    }
}

impl AsBytes for ZQuery {
    ghost use Rattle.blart_keys.specs.KeyBytes.{zquery_bytes};

    ghost bytes = { zquery_bytes };

    ghost IsValue = { λ q. AreBytes (zquery_bytes q) };

    fn as_bytes(&self) -> &[u8] {
        self.bytes.as_slice()
    }

    fn value_law(&self) {
        self.bytes.value_law()
    }
}

impl Debug for ZQuery {
    /// Writes the bytes without the zero as text in quotes, as in `ZQuery("ab")`. A byte that is
    /// not UTF-8 is written as `\xff`. A query with no bytes is written like that of no text.
    ///
    /// Cost: one pass over the bytes.
    fn fmt<W: fmt::Write>(&self, f: &mut fmt::Formatter<W>) -> fmt::Result {
        let bytes = self.as_bytes();
        f.debug_tuple("ZQuery")
            .field(&Quoted(bytes.strip_suffix(b"\0").unwrap_or(bytes)))
            .finish()
    }
}
