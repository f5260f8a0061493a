//! Numbers as keys, by their big-endian bytes.

mod number;
mod number_key;
mod signed;
mod unsigned;

pub use number::Number;
pub use number_key::NumberKey;

/// A number of type `u16`, by its two big-endian bytes.
///
/// ```
/// let key = U16Key::new(258);
/// assert_eq!(key.as_bytes(), [1, 2].as_slice());
/// assert!(U16Key::new(2) < key);
/// ```
pub type U16Key = NumberKey<u16, 2>;

/// A number of type `u32`, by its four big-endian bytes.
///
/// ```
/// let key = U32Key::new(258);
/// assert_eq!(key.as_bytes(), [0, 0, 1, 2].as_slice());
/// assert!(U32Key::new(2) < key);
/// ```
pub type U32Key = NumberKey<u32, 4>;

/// A number of type `u64`, by its eight big-endian bytes.
///
/// ```
/// let key = U64Key::new(258);
/// assert_eq!(key.as_bytes(), [0, 0, 0, 0, 0, 0, 1, 2].as_slice());
/// assert!(U64Key::new(2) < key);
/// ```
pub type U64Key = NumberKey<u64, 8>;

/// A number of type `u128`, by its sixteen big-endian bytes.
///
/// ```
/// let key = U128Key::new(1 << 64);
/// assert_eq!(key.get(), 1 << 64);
/// assert!(U128Key::new(258) < key);
/// ```
pub type U128Key = NumberKey<u128, 16>;

/// A number of type `i32`, by the four big-endian bytes of its bits with the highest bit flipped.
///
/// So the bytes of negative numbers come first.
///
/// ```
/// let key = I32Key::new(-1);
/// assert_eq!(key.as_bytes(), [0x7f, 0xff, 0xff, 0xff].as_slice());
/// assert!(key < I32Key::new(0));
/// ```
pub type I32Key = NumberKey<i32, 4>;

/// A number of type `i64`, by the eight big-endian bytes of its bits with the highest bit flipped.
///
/// So the bytes of negative numbers come first.
///
/// ```
/// let key = I64Key::new(-1);
/// assert_eq!(key.as_bytes()[..2], [0x7f, 0xff]);
/// assert!(key < I64Key::new(0));
/// ```
pub type I64Key = NumberKey<i64, 8>;
