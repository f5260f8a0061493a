//! Signed numbers as keys.

ghost use Rattle.std.specs.Prelude.{◌≡◌, FitsSigned, refl};
ghost use Rattle.std.specs.Int.{from_be_bytes, w32, w64};
ghost use Rattle.blart_keys.specs.Keys.{unflipped};
ghost use Rattle.blart_keys.specs.KeyBytes.{i32_bytes, i64_bytes};
ghost use Rattle.blart_keys.specs.NumberLaws.{flipped_back, flipped_bytes_order};

use crate::numbers::number::Number;
use crate::numbers::{I32Key, I64Key};

impl Number<4> for i32 {
    ghost key_bytes = { i32_bytes };

    ghost key_number = { λ b. unflipped w32 (from_be_bytes w32 b) };

    ghost IsNumber = { FitsSigned w32 };

    const KEY_NAME: &'static str = "I32Key";

    fn to_key_bytes(self) -> [u8; 4] {
        u32::to_be_bytes(self.cast_unsigned() ^ (1 << 31))
    }

    fn from_key_bytes(bytes: &[u8; 4]) -> i32 {
        (u32::from_be_bytes(*bytes) ^ (1 << 31)).cast_signed()
    }

    ghost read_back = { flipped_back w32 };

    ghost key_length = { λ n. refl };

    ghost key_order = { flipped_bytes_order w32 };
}

impl From<I32Key> for i32 {
    ghost from_gives = { λ key number. number ≡ key };

    /// Returns the number of the key.
    ///
    /// Cost: none.
    fn from(key: I32Key) -> i32 {
        key.get()
    }
}

impl Number<8> for i64 {
    ghost key_bytes = { i64_bytes };

    ghost key_number = { λ b. unflipped w64 (from_be_bytes w64 b) };

    ghost IsNumber = { FitsSigned w64 };

    const KEY_NAME: &'static str = "I64Key";

    fn to_key_bytes(self) -> [u8; 8] {
        u64::to_be_bytes(self.cast_unsigned() ^ (1 << 63))
    }

    fn from_key_bytes(bytes: &[u8; 8]) -> i64 {
        (u64::from_be_bytes(*bytes) ^ (1 << 63)).cast_signed()
    }

    ghost read_back = { flipped_back w64 };

    ghost key_length = { λ n. refl };

    ghost key_order = { flipped_bytes_order w64 };
}

impl From<I64Key> for i64 {
    ghost from_gives = { λ key number. number ≡ key };

    /// Returns the number of the key.
    ///
    /// Cost: none.
    fn from(key: I64Key) -> i64 {
        key.get()
    }
}
