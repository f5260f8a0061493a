//! Strings as keys, by their UTF-8 bytes.

ghost use Rattle.std.specs.Prelude.{string_bytes, refl};
ghost use Rattle.std.proofs.Common.{ap};
ghost use Rattle.std.proofs.lemmas.Slice.Eq.{bytes_eq-Decides};
ghost use Rattle.blart_keys.specs.Keys.{AreBytes};

use crate::bytes::same_bytes;
use crate::traits::{AsBytes, CloneBytes, OrderedBytes};

impl AsBytes for &str {
    ghost bytes = { λ s. s.now };

    ghost IsValue = { λ s. AreBytes s.now };

    fn as_bytes(&self) -> &[u8] {
        (*self).as_bytes()
    }

    fn value_law(&self) {
        let _value = same_bytes((*self).as_bytes());
    }
}

impl OrderedBytes for &str {
    ghost ordered = { λ x y a b. refl };

    ghost equal_bytes = { λ x y a b. bytes_eq-Decides x.now y.now };
}

impl CloneBytes for &str {
    ghost cloned = { λ x y e. ap (λ s. s.now) e };
}

impl AsBytes for String {
    ghost bytes = { λ s. string_bytes s };

    ghost IsValue = { λ s. AreBytes (string_bytes s) };

    fn as_bytes(&self) -> &[u8] {
        String::as_bytes(self)
    }

    fn value_law(&self) {
        let _value = same_bytes(String::as_bytes(self));
    }
}

impl OrderedBytes for String {
    ghost ordered = { λ x y a b. refl };

    ghost equal_bytes = { λ x y a b. bytes_eq-Decides (string_bytes x) (string_bytes y) };
}

impl CloneBytes for String {
    ghost cloned = { λ x y e. e };
}
