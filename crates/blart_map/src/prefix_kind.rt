//! The kind of a prefix entry.
ghost use Rattle.std.specs.Prelude.{◌≡◌, None, Some, IfOk, OnErr, IfSome};
ghost use Rattle.std.specs.Borrow.{sem};
ghost use Rattle.std.specs.Option.{unwrap_or, UnwrapsOrElse};
ghost use Rattle.std.specs.Fn.{FnOnceReturnsAt};
ghost use Rattle.blart_keys.specs.Entries.{Kind};
ghost use denote.Ref.{Bor};

use crate::inner::InnerOccupiedEntry;
use crate::map::TreeMap;
use crate::occupied::{Occupied, OccupiedEntry};
use crate::vacant::VacantEntry;
use blart_keys::AsBytes;
use std::alloc::{AllocError, Global};
use std::default::MadeWith;

/// The three kinds of a prefix entry, in one enum. From each arm of a `match` a caller's proof
/// learns what the map becomes. From a pattern in a pattern it would not.
///
/// It has each call of [`PrefixEntry`](crate::PrefixEntry) that inserts, under the same name. The
/// contracts here also say what the map becomes, and that an error leaves it unchanged.
///
/// ```
/// match map.prefix_entry("cat").kind() {
///     PrefixKind::Leaf(entry) => *entry.into_mut() = 1,
///     PrefixKind::Inner(entry) => *entry.insert(0) = 2,
///     PrefixKind::Vacant(entry) => *entry.insert(0)? = 3,
/// }
/// assert_eq!(map.get(&"cat"), Some(&3));
/// ```
#[derive(Drop)]
pub enum PrefixKind<'a, K: AsBytes, V, const PREFIX_LEN: usize, T: 'a> {
    /// The key's bytes are stored.
    Leaf(OccupiedEntry<'a, K, V, PREFIX_LEN, T>),
    /// The key conflicts with stored keys.
    Inner(InnerOccupiedEntry<'a, K, V, PREFIX_LEN, T>),
    /// The key is related to no stored key.
    Vacant(VacantEntry<'a, K, V, PREFIX_LEN, T>),
}

impl<'a, K: AsBytes, V, const PREFIX_LEN: usize, T: 'a> PrefixKind<'a, K, V, PREFIX_LEN, T> {
    /// Returns the allocator of the map, with which `or_default` makes a value.
    fn allocator(&self) -> Global {
        match self {
            PrefixKind::Leaf(entry) => entry.map.allocator(),
            PrefixKind::Inner(entry) => entry.map.allocator(),
            PrefixKind::Vacant(entry) => entry.map.allocator(),
        }
    }
}

impl<'a, K: AsBytes + Drop, V: Drop, const PREFIX_LEN: usize> PrefixKind<
    'a,
    K,
    V,
    PREFIX_LEN,
    TreeMap<K, V, PREFIX_LEN>,
> {
    ghost use Rattle.blart_map.specs.PrefixKind.{kind_value, kind_key, kind_kind, IsKindSetEntry, IsKindKeptOrSet, IsKindKeptOrMade};
    ghost use Rattle.blart_map.specs.PrefixLends.{kind_lends_ok, kind_rests};

    /// Sets the value, on `Inner` in place of all pairs to which the key is related, and returns
    /// the entry of the key's pair.
    ///
    /// Fails to allocate on `Vacant` alone, and then the map is unchanged.
    ///
    /// Cost: reads the leaf on `Leaf`. On `Inner`, one descent for each related pair but one. On
    /// `Vacant`, an insertion.
    pub fn insert_entry(self, value: V) -> Result<Occupied<'a, K, V, PREFIX_LEN>, AllocError>
        ensures* stands { sem 𝓛
            (kind_rests K.row V.row PREFIX_LEN.row K.AsBytes self.entry result) }
        ensures set { IfOk result (IsKindSetEntry self.entry value) }
        ensures vacant { OnErr result (kind_kind self.entry ≡ Kind.Vacant) }
    {
        match self {
            PrefixKind::Leaf(entry) => entry.set(value),
            PrefixKind::Inner(entry) => entry.over(value),
            PrefixKind::Vacant(entry) => entry.insert_entry(value),
        }
    }

    /// Returns the entry of the key's pair. If no value is stored, it first places the default, on
    /// `Inner` in place of all pairs to which the key is related.
    ///
    /// Fails to allocate on `Vacant` alone, and then the map is unchanged.
    ///
    /// Cost: none on `Leaf`. On `Inner` and `Vacant` as for [`PrefixKind::insert_entry`].
    pub fn or_insert_entry(self, default: V) -> Result<Occupied<'a, K, V, PREFIX_LEN>, AllocError>
        ensures* stands { sem 𝓛
            (kind_rests K.row V.row PREFIX_LEN.row K.AsBytes self.entry result) }
        ensures set { IfOk result (IsKindKeptOrSet self.entry default) }
        ensures vacant { OnErr result (kind_kind self.entry ≡ Kind.Vacant) }
    {
        match self {
            PrefixKind::Leaf(entry) => entry.kept(),
            PrefixKind::Inner(entry) => entry.over(default),
            PrefixKind::Vacant(entry) => entry.insert_entry(default),
        }
    }

    /// Returns the entry of the key's pair, like [`PrefixKind::or_insert_entry`], with the value
    /// that the closure returns. The closure is called if no value is stored, once there is room.
    ///
    /// Fails to allocate on `Vacant` alone, and then the map is unchanged.
    ///
    /// Cost: as for [`PrefixKind::or_insert_entry`].
    ///
    /// ```
    /// map.try_insert("car", 1)?;
    /// map.try_insert("cat", 2)?;
    /// let entry = map.prefix_entry("ca").kind().or_insert_with_entry(|| 3)?;
    /// assert_eq!(entry.remove_entry(), ("ca", 3));
    /// assert!(map.is_empty());
    /// ```
    pub fn or_insert_with_entry<F: FnOnce() -> V + Drop>(
        self,
        default: F,
    ) -> Result<Occupied<'a, K, V, PREFIX_LEN>, AllocError>
        requires { kind_value self ≡ None → F.pre default }
        ensures* stands { sem 𝓛
            (kind_rests K.row V.row PREFIX_LEN.row K.AsBytes self.entry result) }
        ensures set { IfOk result (IsKindKeptOrMade self.entry (F.post default)) }
        ensures vacant { OnErr result (kind_kind self.entry ≡ Kind.Vacant) }
    {
        match self {
            PrefixKind::Leaf(entry) => entry.kept(),
            PrefixKind::Inner(entry) => entry.over(default()),
            PrefixKind::Vacant(entry) => entry.insert_entry_with(default),
        }
    }

    /// Returns the entry of the key's pair, like [`PrefixKind::or_insert_with_entry`]. The closure
    /// takes the key that was handed in.
    ///
    /// Cost: as for [`PrefixKind::or_insert_entry`].
    pub fn or_insert_with_key_entry<F: FnOnce(&K) -> V + Drop>(
        self,
        default: F,
    ) -> Result<Occupied<'a, K, V, PREFIX_LEN>, AllocError>
        requires { kind_value self ≡ None
            → (p : Bor K) → kind_key self ≡ Some p.now → F.pre default p }
        ensures* stands { sem 𝓛
            (kind_rests K.row V.row PREFIX_LEN.row K.AsBytes self.entry result) }
        ensures set { IfOk result (IsKindKeptOrMade self.entry
            (λ v. IfSome (kind_key self.entry) (λ k. FnOnceReturnsAt F.FnOnce default k v))) }
        ensures vacant { OnErr result (kind_kind self.entry ≡ Kind.Vacant) }
    {
        match self {
            PrefixKind::Leaf(entry) => entry.kept(),
            PrefixKind::Inner(entry) => {
                let made = default(entry.key());
                entry.over(made)
            }
            PrefixKind::Vacant(entry) => entry.insert_entry_with_key(default),
        }
    }

    /// Returns the entry of the key's pair, like [`PrefixKind::or_insert_with_entry`], with what
    /// [`MadeWith`] makes: the type's default, or an empty collection. It is made if no value is
    /// stored, once there is room.
    ///
    /// Cost: as for [`PrefixKind::or_insert_entry`].
    pub fn or_default_entry(self) -> Result<Occupied<'a, K, V, PREFIX_LEN>, AllocError>
    where
        V: MadeWith<Global>,
        ensures* stands { sem 𝓛
            (kind_rests K.row V.row PREFIX_LEN.row K.AsBytes self.entry result) }
        ensures set { IfOk result (IsKindKeptOrMade self.entry V.is_made_with) }
        ensures vacant { OnErr result (kind_kind self.entry ≡ Kind.Vacant) }
    {
        let alloc = self.allocator();
        self.or_insert_with_entry(move || V::made_with(alloc))
    }

    /// Returns a mutable reference to the value. If no value is stored, it first places the
    /// default, on `Inner` in place of all pairs to which the key is related.
    ///
    /// Once the borrow ends, the key has the last value written. Fails to allocate on `Vacant`
    /// alone, and then the map is unchanged.
    ///
    /// Cost: as for [`PrefixKind::insert_entry`].
    ///
    /// ```
    /// map.try_insert("car", 1)?;
    /// map.try_insert("cat", 2)?;
    /// *map.prefix_entry("ca").kind().or_insert(0)? += 3;
    /// assert_eq!(map.get(&"ca"), Some(&3));
    /// assert_eq!(map.len(), 1);
    /// ```
    pub fn or_insert(self, default: V) -> Result<&'a mut V, AllocError>
        ensures* writes_back { sem 𝓛
            (kind_lends_ok K.row V.row PREFIX_LEN.row K.AsBytes self.entry result) }
        ensures value { IfOk result (λ r. r.now ≡ unwrap_or (kind_value self.entry) default) }
        ensures vacant { OnErr result (kind_kind self.entry ≡ Kind.Vacant) }
    {
        match self {
            PrefixKind::Leaf(entry) => Ok(entry.into_mut()),
            PrefixKind::Inner(entry) => Ok(entry.insert(default)),
            PrefixKind::Vacant(entry) => entry.insert(default),
        }
    }

    /// Returns a mutable reference like [`PrefixKind::or_insert`], with the value that the closure
    /// returns. The closure is called if no value is stored, once there is room.
    ///
    /// Cost: as for [`PrefixKind::insert_entry`].
    pub fn or_insert_with<F: FnOnce() -> V + Drop>(
        self,
        default: F,
    ) -> Result<&'a mut V, AllocError>
        requires { kind_value self ≡ None → F.pre default }
        ensures* writes_back { sem 𝓛
            (kind_lends_ok K.row V.row PREFIX_LEN.row K.AsBytes self.entry result) }
        ensures value { IfOk result
            (λ r. UnwrapsOrElse (kind_value self.entry) (F.post default) r.now) }
        ensures vacant { OnErr result (kind_kind self.entry ≡ Kind.Vacant) }
    {
        match self {
            PrefixKind::Leaf(entry) => Ok(entry.into_mut()),
            PrefixKind::Inner(entry) => Ok(entry.insert(default())),
            PrefixKind::Vacant(entry) => entry.insert_with(default),
        }
    }

    /// Returns a mutable reference like [`PrefixKind::or_insert_with`]. The closure takes the key
    /// that was handed in.
    ///
    /// Cost: as for [`PrefixKind::insert_entry`].
    pub fn or_insert_with_key<F: FnOnce(&K) -> V + Drop>(
        self,
        default: F,
    ) -> Result<&'a mut V, AllocError>
        requires { kind_value self ≡ None
            → (p : Bor K) → kind_key self ≡ Some p.now → F.pre default p }
        ensures* writes_back { sem 𝓛
            (kind_lends_ok K.row V.row PREFIX_LEN.row K.AsBytes self.entry result) }
        ensures value { IfOk result (λ r. UnwrapsOrElse (kind_value self.entry)
            (λ v. IfSome (kind_key self.entry) (λ k. FnOnceReturnsAt F.FnOnce default k v)) r.now) }
        ensures vacant { OnErr result (kind_kind self.entry ≡ Kind.Vacant) }
    {
        match self {
            PrefixKind::Leaf(entry) => Ok(entry.into_mut()),
            PrefixKind::Inner(entry) => {
                let value = default(entry.key());
                Ok(entry.insert(value))
            }
            PrefixKind::Vacant(entry) => entry.insert_with_key(default),
        }
    }

    /// Returns a mutable reference like [`PrefixKind::or_insert`], with what [`MadeWith`] makes:
    /// the type's default, or an empty collection. It is made if no value is stored, once there is
    /// room.
    ///
    /// Cost: as for [`PrefixKind::insert_entry`].
    pub fn or_default(self) -> Result<&'a mut V, AllocError>
    where
        V: MadeWith<Global>,
        ensures* writes_back { sem 𝓛
            (kind_lends_ok K.row V.row PREFIX_LEN.row K.AsBytes self.entry result) }
        ensures value { IfOk result
            (λ r. UnwrapsOrElse (kind_value self.entry) V.is_made_with r.now) }
        ensures vacant { OnErr result (kind_kind self.entry ≡ Kind.Vacant) }
    {
        let alloc = self.allocator();
        self.or_insert_with(move || V::made_with(alloc))
    }
}
