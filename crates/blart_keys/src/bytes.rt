//! Bytes, byte arrays, byte slices and vectors of bytes as keys.

ghost use Rattle.std.specs.Prelude.{◌≡◌, ◌∷◌, [], ◌<◌, length, refl};
ghost use Rattle.std.specs.List.{each_same};
ghost use Rattle.std.specs.Box.{boxed_slice_items};
ghost use Rattle.std.proofs.Common.{sym, ap, ◌∙◌};
ghost use Rattle.std.proofs.lemmas.Slice.Eq.{bytes_eq-Decides};
ghost use Rattle.blart_keys.specs.Bytes.{less};
ghost use Rattle.blart_keys.specs.Keys.{AreBytes};
ghost use Rattle.blart_keys.specs.KeyLaws.{begins_same_length, one_byte_cmp, one_byte_eq};

use crate::traits::{AsBytes, CloneBytes, NoPrefixesBytes, OrderedBytes};
use std::boxed::BoxedSlice;

/// Returns these bytes. Its contract says that each of them is less than 256.
pub(crate) fn same_bytes(bytes: &[u8]) -> &[u8]
    ensures value { result.now ≡ bytes.now }
    ensures bytes { AreBytes result.now }
{
    bytes
}

/// Returns `true` if `a` is less than `b`: at the first place where they differ it has the lesser
/// byte, or it is a proper prefix of `b`.
///
/// Cost: one pass over the shorter list.
pub fn is_less(a: &[u8], b: &[u8]) -> bool
    ensures { result ≡ less a.now b.now }
{
    a.cmp(&b).is_lt()
}

impl AsBytes for u8 {
    ghost bytes = { λ x. x ∷ [] };

    ghost IsValue = { λ x. x < 256 };

    fn as_bytes(&self) -> &[u8] {
        std::slice::from_ref(self)
    }

    fn value_law(&self) {
        let _value = *self;
    }
}

impl NoPrefixesBytes for u8 {
    ghost no_fronts = { λ x y a b h. begins_same_length (x ∷ []) (y ∷ []) refl h };
}

impl OrderedBytes for u8 {
    ghost ordered = { λ x y a b. one_byte_cmp x y };

    ghost equal_bytes = { λ x y a b. one_byte_eq x y };
}

impl CloneBytes for u8 {
    ghost cloned = { λ x y e. ap (λ b. b ∷ []) e };
}

impl<const N: usize> AsBytes for [u8; N] {
    ghost bytes = { λ x. x };

    ghost IsValue = { λ x. record { len : length x ≡ N; small : AreBytes x } };

    fn as_bytes(&self) -> &[u8] {
        &self[..]
    }

    fn value_law(&self) {
        let _value = same_bytes(self);
    }
}

impl<const N: usize> NoPrefixesBytes for [u8; N] {
    ghost no_fronts = { λ x y a b h. begins_same_length x y (a.len ∙ sym b.len) h };
}

impl<const N: usize> OrderedBytes for [u8; N] {
    ghost ordered = { λ x y a b. refl };

    ghost equal_bytes = { λ x y a b. bytes_eq-Decides x y };
}

impl AsBytes for &[u8] {
    ghost bytes = { λ s. s.now };

    ghost IsValue = { λ s. AreBytes s.now };

    fn as_bytes(&self) -> &[u8] {
        *self
    }

    fn value_law(&self) {
        let _value = same_bytes(*self);
    }
}

impl OrderedBytes for &[u8] {
    ghost ordered = { λ x y a b. refl };

    ghost equal_bytes = { λ x y a b. bytes_eq-Decides x.now y.now };
}

impl CloneBytes for &[u8] {
    ghost cloned = { λ x y e. ap (λ s. s.now) e };
}

impl AsBytes for Vec<u8> {
    ghost bytes = { λ v. v.items };

    ghost IsValue = { λ v. AreBytes v.items };

    fn as_bytes(&self) -> &[u8] {
        Vec::as_slice(self)
    }

    fn value_law(&self) {}
}

impl OrderedBytes for Vec<u8> {
    ghost ordered = { λ x y a b. refl };

    ghost equal_bytes = { λ x y a b. bytes_eq-Decides x.items y.items };
}

impl CloneBytes for Vec<u8> {
    ghost cloned = { λ x y e. each_same x.items y.items e.0 };
}

impl AsBytes for BoxedSlice<u8> {
    ghost bytes = { λ b. boxed_slice_items b };

    ghost IsValue = { λ b. AreBytes (boxed_slice_items b) };

    fn as_bytes(&self) -> &[u8] {
        BoxedSlice::as_slice(self)
    }

    fn value_law(&self) {
        let _value = same_bytes(self);
    }
}

impl OrderedBytes for BoxedSlice<u8> {
    ghost ordered = { λ x y a b. refl };

    ghost equal_bytes = { λ x y a b. bytes_eq-Decides (boxed_slice_items x) (boxed_slice_items y) };
}

impl CloneBytes for BoxedSlice<u8> {
    ghost cloned = { λ x y e. each_same (boxed_slice_items x) (boxed_slice_items y) e.0 };
}
