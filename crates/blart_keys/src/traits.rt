//! The key traits, also for references to keys.

ghost use Rattle.std.specs.Prelude.{◌≡◌, ℕ, List};
ghost use Rattle.std.proofs.Common.{ap};
ghost use Rattle.blart_keys.specs.Keys.{NoFronts, OrderedAs, EqualAs, ClonedAs};

/// A key that stands for a list of bytes.
///
/// ```
/// let key = U32Key::new(258);
/// assert_eq!(key.as_bytes(), [0, 0, 1, 2].as_slice());
/// ```
pub trait AsBytes {
    /// The bytes of a value.
    ghost bytes: { Self → List ℕ };

    /// Holds for each value of the type.
    ghost IsValue: { Self → Type 0 };

    /// Returns the bytes of the key.
    ///
    /// Cost: none.
    fn as_bytes(&self) -> &[u8]
        ensures { result.now ≡ bytes self.now };

    /// Does nothing. Its contract says that the key is a value of its type. The laws of the other
    /// traits require this.
    ///
    /// Cost: none.
    fn value_law(&self)
        ensures { IsValue self.now };
}

/// A key type in which no value's bytes are a proper prefix of another's.
///
/// Two keys of such a type are related only if their bytes are equal, so no insertion of one
/// conflicts. These types are `u8`, byte arrays, the number keys, [`ZKey`](crate::ZKey),
/// [`ZStr`](crate::ZStr), and references to them.
///
/// ```
/// map.insert(U32Key::new(1), 1)?;
/// map.insert(U32Key::new(2), 2)?;
/// assert_eq!(map.len(), 2);
/// ```
pub trait NoPrefixesBytes: AsBytes {
    /// If the bytes of one value are a prefix of another's, the bytes are equal.
    ghost no_fronts: { NoFronts Self.bytes Self.IsValue };
}

/// A key type whose order is the order of the bytes. All key types of this crate are such types.
///
/// ```
/// let (a, b) = (U32Key::new(1), U32Key::new(256));
/// assert_eq!(a.cmp(&b), Ordering::Less);
/// assert_eq!(a.as_bytes().cmp(&b.as_bytes()), Ordering::Less);
/// ```
pub trait OrderedBytes: AsBytes + Ord {
    /// Two values compare like their bytes.
    ghost ordered: { OrderedAs Self.bytes Self.IsValue Self.cmp };

    /// Two values are equal if and only if their bytes are equal.
    ghost equal_bytes: { EqualAs Self.bytes Self.IsValue Self.eq };
}

/// A key type whose clones have the same bytes. A map of such keys implements
/// [`Clone`](std::clone::Clone).
///
/// All key types here that implement `Clone` are such types, except byte arrays: the contract of
/// their `clone` does not say how long the clone is.
///
/// ```
/// let key = ZKey::from_bytes(alloc, b"car")?;
/// let copy = key.clone()?;
/// assert!(copy.as_bytes() == key.as_bytes());
/// ```
pub trait CloneBytes: AsBytes + Clone {
    /// A clone of a value has the bytes of the value.
    ghost cloned: { ClonedAs Self.bytes Self.is_clone };
}

impl<T: AsBytes> AsBytes for &T {
    ghost bytes = { λ s. T.bytes s.now };

    ghost IsValue = { λ s. T.IsValue s.now };

    fn as_bytes(&self) -> &[u8] {
        (*self).as_bytes()
    }

    fn value_law(&self) {
        (*self).value_law()
    }
}

impl<T: NoPrefixesBytes> NoPrefixesBytes for &T {
    ghost no_fronts = { λ x y a b h. T.no_fronts x.now y.now a b h };
}

impl<T: OrderedBytes> OrderedBytes for &T {
    ghost ordered = { λ x y a b. T.ordered x.now y.now a b };

    ghost equal_bytes = { λ x y a b. T.equal_bytes x.now y.now a b };
}

impl<T: AsBytes> CloneBytes for &T {
    ghost cloned = { λ x y e. ap (λ s. T.bytes s.now) e };
}
