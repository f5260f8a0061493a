//! Keys of numbers.

ghost use Rattle.std.specs.Prelude.{◌≡◌, ⊤};
ghost use Rattle.std.proofs.Common.{sym, ap, ◌∙◌};
ghost use Rattle.std.proofs.lemmas.Slice.Eq.{bytes_eq-Decides};
ghost use Rattle.blart_keys.specs.Bytes.{bytes_cmp};
ghost use Rattle.blart_keys.specs.KeyLaws.{begins_same_length, then_equal, and_true_Decides};

use crate::numbers::number::Number;
use crate::traits::{AsBytes, CloneBytes, NoPrefixesBytes, OrderedBytes};
use std::alloc::AllocError;
use std::clone::Clone;
use std::fmt;
use std::fmt::{Debug, Display};
use std::marker::{Model, PhantomData};

/// The key of a number of type `T`, by `N` bytes.
///
/// The bytes are big-endian. Those of a signed number have the highest bit flipped. So keys compare
/// like their numbers.
///
/// Each type of numbers has a name for its keys, such as [`U32Key`](crate::U32Key). `From` turns a
/// number into its key, and a key into its number. `Display` writes the number, and `Debug` writes
/// it in the name of the key's type.
///
/// ```
/// let key: U32Key = NumberKey::new(258);
/// assert_eq!(key, U32Key::from(258));
/// assert_eq!(u32::from(key), 258);
/// ```
#[derive(Copy, PartialEq, Eq, PartialOrd, Ord, Hash)]
pub struct NumberKey<T: Number<N>, const N: usize> {
    bytes: [u8; N],
    number: PhantomData<T>,
}

impl<T: Number<N>, const N: usize> Model for NumberKey<T, N> {
    ghost Value = { T };

    ghost view = { λ k. T.key_number k.bytes };

    ghost invariant = { λ k. T.key_bytes (T.key_number k.bytes) ≡ k.bytes };

    ghost inverse = { λ n. record { bytes = T.key_bytes n; number = record {} } };

    ghost inverse_ok = { λ k h i. record { bytes = h i; number = record {} } };
}

impl<T: Number<N>, const N: usize> NumberKey<T, N> {
    /// Returns the key of a number.
    ///
    /// Cost: none.
    ///
    /// ```
    /// let key = U32Key::new(258);
    /// assert_eq!(rt; key.as_bytes(), [0, 0, 1, 2].as_slice());
    /// assert_eq!(rt; key.get(), 258);
    /// ```
    pub fn new(number: T) -> Self
        ensures number { result ≡ number }
        ensures bytes { ⟦<NumberKey<T, N> as AsBytes>⟧.bytes result ≡ T.key_bytes number }
    {
        NumberKey {
            bytes: number.to_key_bytes(),
            number: PhantomData,
        }
    }

    /// Returns the number of the key.
    ///
    /// Cost: none.
    pub fn get(&self) -> T
        ensures { result ≡ self.now }
    {
        T::from_key_bytes(&self.bytes)
    }

    /// Does nothing. Its contract says that keys compare like their numbers.
    ///
    /// Cost: none.
    pub fn order_law(&self, other: &Self)
        ensures { ⟦<NumberKey<T, N> as Ord>⟧.cmp self.now other.now ≡ T.cmp self.now other.now }
    {
        let _numbers = (
            T::from_key_bytes(&self.bytes),
            T::from_key_bytes(&other.bytes),
        );
    }
}

impl<T: Number<N>, const N: usize> Clone for NumberKey<T, N> {
    ghost is_clone = { λ key copy. copy ≡ key };

    ghost is_infallible = { λ _. ⊤ };

    /// Returns the same key.
    ///
    /// Cost: none.
    fn clone(&self) -> Result<NumberKey<T, N>, AllocError> {
        Ok(*self)
    }
}

impl<T: Number<N>, const N: usize> AsBytes for NumberKey<T, N> {
    ghost bytes = { T.key_bytes };

    ghost IsValue = { T.IsNumber };

    fn as_bytes(&self) -> &[u8] {
        &self.bytes
    }

    fn value_law(&self) {
        let _number = T::from_key_bytes(&self.bytes);
    }
}

impl<T: Number<N>, const N: usize> NoPrefixesBytes for NumberKey<T, N> {
    ghost no_fronts = { λ x y a b h. begins_same_length (T.key_bytes x) (T.key_bytes y) (T.key_length x ∙ sym (T.key_length y)) h };
}

impl<T: Number<N>, const N: usize> OrderedBytes for NumberKey<T, N> {
    ghost ordered = { λ x y a b. then_equal (bytes_cmp (T.key_bytes x) (T.key_bytes y)) };

    ghost equal_bytes = { λ x y a b. and_true_Decides (bytes_eq-Decides (T.key_bytes x) (T.key_bytes y)) };
}

impl<T: Number<N>, const N: usize> CloneBytes for NumberKey<T, N> {
    ghost cloned = { λ x y e. ap T.key_bytes e };
}

impl<T: Number<N>, const N: usize> From<T> for NumberKey<T, N> {
    ghost from_gives = { λ number key. key ≡ number };

    /// Returns the key of a number.
    ///
    /// Cost: none.
    fn from(number: T) -> NumberKey<T, N> {
        NumberKey::new(number)
    }
}

impl<T: Number<N> + Display, const N: usize> Display for NumberKey<T, N> {
    ghost output = { T.output };

    ghost styled_output = { T.styled_output };

    /// Writes the number.
    ///
    /// Cost: none.
    fn fmt<W: fmt::Write>(&self, f: &mut fmt::Formatter<W>) -> fmt::Result {
        Display::fmt(&self.get(), f)
    }
}

impl<T: Number<N> + Debug, const N: usize> Debug for NumberKey<T, N> {
    /// Writes the number in the name of the key's type, as in `U32Key(258)`.
    ///
    /// Cost: none.
    fn fmt<W: fmt::Write>(&self, f: &mut fmt::Formatter<W>) -> fmt::Result {
        f.debug_tuple(T::KEY_NAME).field(&self.get()).finish()
    }
}
