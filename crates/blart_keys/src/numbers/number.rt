//! The types of numbers that have keys.

ghost use Rattle.std.specs.Prelude.{◌≡◌, ℕ, List, length};
ghost use Rattle.blart_keys.specs.Bytes.{bytes_cmp};

/// A type of numbers with keys of `N` bytes, its [`NumberKey`](crate::NumberKey)s.
///
/// These types are `u16`, `u32`, `u64`, `u128`, `i32` and `i64`.
///
/// ```
/// assert_eq!(258u16.to_key_bytes(), [1, 2]);
/// assert_eq!(u16::from_key_bytes(&[1, 2]), 258);
/// ```
pub trait Number<const N: usize>: Copy + Ord {
    /// The bytes of a number's key.
    ghost key_bytes: { Self → List ℕ };

    /// The number of the key with these bytes.
    ghost key_number: { List ℕ → Self };

    /// Holds for each number of the type.
    ghost IsNumber: { Self → Type 0 };

    /// The name of the type of keys, as `Debug` writes it.
    const KEY_NAME: &'static str;

    /// Returns the bytes of the number's key.
    ///
    /// Cost: none.
    fn to_key_bytes(self) -> [u8; N]
        ensures value { result ≡ key_bytes self }
        ensures number { IsNumber self };

    /// Returns the number of the key with these bytes.
    ///
    /// Cost: none.
    fn from_key_bytes(bytes: &[u8; N]) -> Self
        ensures value { result ≡ key_number bytes.now }
        ensures number { IsNumber result };

    /// The bytes of a number's key make the number.
    ghost read_back: { (n : Self) → IsNumber n → key_number (key_bytes n) ≡ n };

    /// All keys have `N` bytes.
    ghost key_length: { (n : Self) → length (key_bytes n) ≡ N };

    /// Two numbers compare like the bytes of their keys.
    ghost key_order: { (m n : Self) → IsNumber m → IsNumber n
        → bytes_cmp (key_bytes m) (key_bytes n) ≡ Self.cmp m n };
}
