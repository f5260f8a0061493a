//! Unsigned numbers as keys.

ghost use Rattle.std.specs.Prelude.{◌≡◌, ◌<◌, ◌^◌, refl};
ghost use Rattle.std.specs.Int.{from_be_bytes, w16, w32, w64, w128};
ghost use Rattle.blart_keys.specs.KeyBytes.{u16_bytes, u32_bytes, u64_bytes, u128_bytes};
ghost use Rattle.blart_keys.specs.NumberLaws.{be_back, be_order};

use crate::numbers::number::Number;
use crate::numbers::{U16Key, U32Key, U64Key, U128Key};

impl Number<2> for u16 {
    ghost key_bytes = { u16_bytes };

    ghost key_number = { from_be_bytes w16 };

    ghost IsNumber = { λ n. n < 2 ^ 16 };

    const KEY_NAME: &'static str = "U16Key";

    fn to_key_bytes(self) -> [u8; 2] {
        u16::to_be_bytes(self)
    }

    fn from_key_bytes(bytes: &[u8; 2]) -> u16 {
        u16::from_be_bytes(*bytes)
    }

    ghost read_back = { be_back w16 };

    ghost key_length = { λ n. refl };

    ghost key_order = { be_order w16 };
}

impl From<U16Key> for u16 {
    ghost from_gives = { λ key number. number ≡ key };

    /// Returns the number of the key.
    ///
    /// Cost: none.
    fn from(key: U16Key) -> u16 {
        key.get()
    }
}

impl Number<4> for u32 {
    ghost key_bytes = { u32_bytes };

    ghost key_number = { from_be_bytes w32 };

    ghost IsNumber = { λ n. n < 2 ^ 32 };

    const KEY_NAME: &'static str = "U32Key";

    fn to_key_bytes(self) -> [u8; 4] {
        u32::to_be_bytes(self)
    }

    fn from_key_bytes(bytes: &[u8; 4]) -> u32 {
        u32::from_be_bytes(*bytes)
    }

    ghost read_back = { be_back w32 };

    ghost key_length = { λ n. refl };

    ghost key_order = { be_order w32 };
}

impl From<U32Key> for u32 {
    ghost from_gives = { λ key number. number ≡ key };

    /// Returns the number of the key.
    ///
    /// Cost: none.
    fn from(key: U32Key) -> u32 {
        key.get()
    }
}

impl Number<8> for u64 {
    ghost key_bytes = { u64_bytes };

    ghost key_number = { from_be_bytes w64 };

    ghost IsNumber = { λ n. n < 2 ^ 64 };

    const KEY_NAME: &'static str = "U64Key";

    fn to_key_bytes(self) -> [u8; 8] {
        u64::to_be_bytes(self)
    }

    fn from_key_bytes(bytes: &[u8; 8]) -> u64 {
        u64::from_be_bytes(*bytes)
    }

    ghost read_back = { be_back w64 };

    ghost key_length = { λ n. refl };

    ghost key_order = { be_order w64 };
}

impl From<U64Key> for u64 {
    ghost from_gives = { λ key number. number ≡ key };

    /// Returns the number of the key.
    ///
    /// Cost: none.
    fn from(key: U64Key) -> u64 {
        key.get()
    }
}

impl Number<16> for u128 {
    ghost key_bytes = { u128_bytes };

    ghost key_number = { from_be_bytes w128 };

    ghost IsNumber = { λ n. n < 2 ^ 128 };

    const KEY_NAME: &'static str = "U128Key";

    fn to_key_bytes(self) -> [u8; 16] {
        u128::to_be_bytes(self)
    }

    fn from_key_bytes(bytes: &[u8; 16]) -> u128 {
        u128::from_be_bytes(*bytes)
    }

    ghost read_back = { be_back w128 };

    ghost key_length = { λ n. refl };

    ghost key_order = { be_order w128 };
}

impl From<U128Key> for u128 {
    ghost from_gives = { λ key number. number ≡ key };

    /// Returns the number of the key.
    ///
    /// Cost: none.
    fn from(key: U128Key) -> u128 {
        key.get()
    }
}
