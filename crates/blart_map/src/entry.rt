//! A key's place in a map.
ghost use Rattle.std.specs.Prelude.{◌≡◌, Some, None, IfOk, OnErr, IfSome};
ghost use Rattle.std.specs.Borrow.{sem, MutBor};
ghost use Rattle.std.specs.Option.{unwrap_or, UnwrapsOrElse};
ghost use Rattle.std.specs.Fn.{FnOnceReturnsAt};
ghost use denote.Ref.{Bor};

use crate::map::TreeMap;
use crate::occupied::{Occupied, OccupiedEntry};
use crate::vacant::VacantEntry;
use blart_keys::AsBytes;
use std::alloc::{AllocError, Global};
use std::default::MadeWith;

/// The entry of a key in a map: its pair, or a vacant entry.
///
/// A call that inserts fails to allocate on `Vacant` alone, and then the map is unchanged. A
/// closure or a default is called on `Vacant` alone, once there is room.
///
/// ```
/// *map.try_entry("cat")?.or_insert(1)? = 2;
/// let entry = map.try_entry("cat")?.and_modify(|value| *value = 3);
/// assert_eq!(*entry.or_insert(0)?, 3);
/// ```
#[derive(Drop)]
pub enum Entry<'a, K: AsBytes, V, const PREFIX_LEN: usize, T: 'a> {
    /// The key's bytes are stored.
    Occupied(OccupiedEntry<'a, K, V, PREFIX_LEN, T>),
    /// The key is related to no stored key.
    Vacant(VacantEntry<'a, K, V, PREFIX_LEN, T>),
}

impl<'a, K: AsBytes, V, const PREFIX_LEN: usize, T: 'a> Entry<'a, K, V, PREFIX_LEN, T> {
    ghost use Rattle.blart_map.specs.Entry.{entry_key, entry_value};
    ghost use Rattle.blart_map.specs.Modified.{IsModified};

    /// Returns the stored key on `Occupied`, and the key that was handed in on `Vacant`.
    ///
    /// Cost: one visit on `Occupied`, and none on `Vacant`.
    pub fn key(&self) -> &K
        ensures { entry_key self.now ≡ Some result.now }
    {
        match self {
            Entry::Occupied(entry) => entry.key(),
            Entry::Vacant(entry) => entry.key(),
        }
    }

    /// Returns the allocator of the map, with which `or_default` makes a value.
    fn allocator(&self) -> Global {
        match self {
            Entry::Occupied(entry) => entry.map.allocator(),
            Entry::Vacant(entry) => entry.map.allocator(),
        }
    }

    /// Calls the closure on a mutable reference to the value if one is stored, and returns the
    /// entry.
    ///
    /// Cost: reads the leaf on `Occupied`, and nothing on `Vacant`.
    pub fn and_modify<F: FnOnce(&mut V) + Drop>(self, f: F) -> Self
        requires { (p : MutBor V) → entry_value self ≡ Some p.now → F.pre f p }
        ensures { IsModified F.FnOnce f self.entry result }
    {
        match self {
            Entry::Occupied(mut entry) => {
                f(entry.get_mut());
                Entry::Occupied(entry)
            }
            Entry::Vacant(entry) => Entry::Vacant(entry),
        }
    }
}

impl<'a, K: AsBytes + Drop, V: Drop, const PREFIX_LEN: usize> Entry<
    'a,
    K,
    V,
    PREFIX_LEN,
    TreeMap<K, V, PREFIX_LEN>,
> {
    ghost use Rattle.blart_map.specs.Entry.{entry_key, entry_value, IsSetEntry, IsKeptOrSet, IsKeptOrMade};
    ghost use Rattle.blart_map.specs.EntryLends.{entry_lends_ok, entry_rests};

    /// Returns a mutable reference to the value. If no value is stored, it first places the
    /// default.
    ///
    /// Cost: reads the leaf on `Occupied`, and makes an insertion on `Vacant`.
    pub fn or_insert(self, default: V) -> Result<&'a mut V, AllocError>
        ensures* writes_back { sem 𝓛
            (entry_lends_ok K.row V.row PREFIX_LEN.row K.AsBytes self.entry result) }
        ensures value { IfOk result (λ r. r.now ≡ unwrap_or (entry_value self.entry) default) }
        ensures absent { OnErr result (entry_value self.entry ≡ None) }
    {
        match self {
            Entry::Occupied(entry) => Ok(entry.into_mut()),
            Entry::Vacant(entry) => entry.insert(default),
        }
    }

    /// Sets the value, and returns the entry of the key's pair. On `Vacant`, inserts the pair.
    /// Returns an error if that fails to allocate.
    ///
    /// Cost: reads the leaf on `Occupied`, and makes an insertion on `Vacant`.
    pub fn insert_entry(self, value: V) -> Result<Occupied<'a, K, V, PREFIX_LEN>, AllocError>
        ensures* stands { sem 𝓛
            (entry_rests K.row V.row PREFIX_LEN.row K.AsBytes self.entry result) }
        ensures set { IfOk result (IsSetEntry self.entry value) }
        ensures absent { OnErr result (entry_value self.entry ≡ None) }
    {
        match self {
            Entry::Occupied(entry) => entry.set(value),
            Entry::Vacant(entry) => entry.insert_entry(value),
        }
    }

    /// Returns the entry of the key's pair. If no value is stored, it first places the default.
    ///
    /// Cost: none on `Occupied`, and an insertion on `Vacant`.
    pub fn or_insert_entry(self, default: V) -> Result<Occupied<'a, K, V, PREFIX_LEN>, AllocError>
        ensures* stands { sem 𝓛
            (entry_rests K.row V.row PREFIX_LEN.row K.AsBytes self.entry result) }
        ensures set { IfOk result (IsKeptOrSet self.entry default) }
        ensures absent { OnErr result (entry_value self.entry ≡ None) }
    {
        match self {
            Entry::Occupied(entry) => entry.kept(),
            Entry::Vacant(entry) => entry.insert_entry(default),
        }
    }

    /// Returns a mutable reference to the value. If no value is stored, it first places the value
    /// that the closure returns.
    ///
    /// Cost: reads the leaf on `Occupied`, and makes an insertion on `Vacant`.
    pub fn or_insert_with<F: FnOnce() -> V + Drop>(
        self,
        default: F,
    ) -> Result<&'a mut V, AllocError>
        requires { entry_value self ≡ None → F.pre default }
        ensures* writes_back { sem 𝓛
            (entry_lends_ok K.row V.row PREFIX_LEN.row K.AsBytes self.entry result) }
        ensures value { IfOk result
            (λ r. UnwrapsOrElse (entry_value self.entry) (F.post default) r.now) }
        ensures absent { OnErr result (entry_value self.entry ≡ None) }
    {
        match self {
            Entry::Occupied(entry) => Ok(entry.into_mut()),
            Entry::Vacant(entry) => entry.insert_with(default),
        }
    }

    /// Returns a mutable reference to the value, like [`Entry::or_insert_with`]. The closure takes
    /// the key that was handed in.
    ///
    /// Cost: reads the leaf on `Occupied`, and makes an insertion on `Vacant`.
    pub fn or_insert_with_key<F: FnOnce(&K) -> V + Drop>(
        self,
        default: F,
    ) -> Result<&'a mut V, AllocError>
        requires { entry_value self ≡ None
            → (p : Bor K) → entry_key self ≡ Some p.now → F.pre default p }
        ensures* writes_back { sem 𝓛
            (entry_lends_ok K.row V.row PREFIX_LEN.row K.AsBytes self.entry result) }
        ensures value { IfOk result (λ r. UnwrapsOrElse (entry_value self.entry)
            (λ v. IfSome (entry_key self.entry) (λ k. FnOnceReturnsAt F.FnOnce default k v))
            r.now) }
        ensures absent { OnErr result (entry_value self.entry ≡ None) }
    {
        match self {
            Entry::Occupied(entry) => Ok(entry.into_mut()),
            Entry::Vacant(entry) => entry.insert_with_key(default),
        }
    }

    /// Returns a mutable reference to the value. If no value is stored, it first places what
    /// [`MadeWith`] makes: the type's default, or an empty collection with the map's allocator.
    ///
    /// Cost: reads the leaf on `Occupied`, and makes an insertion on `Vacant`.
    pub fn or_default(self) -> Result<&'a mut V, AllocError>
    where
        V: MadeWith<Global>,
        ensures* writes_back { sem 𝓛
            (entry_lends_ok K.row V.row PREFIX_LEN.row K.AsBytes self.entry result) }
        ensures value { IfOk result
            (λ r. UnwrapsOrElse (entry_value self.entry) V.is_made_with r.now) }
        ensures absent { OnErr result (entry_value self.entry ≡ None) }
    {
        let alloc = self.allocator();
        self.or_insert_with(move || V::made_with(alloc))
    }

    /// Returns the entry of the key's pair. If no value is stored, it first places the value that
    /// the closure returns.
    ///
    /// Cost: none on `Occupied`, and an insertion on `Vacant`.
    pub fn or_insert_with_entry<F: FnOnce() -> V + Drop>(
        self,
        default: F,
    ) -> Result<Occupied<'a, K, V, PREFIX_LEN>, AllocError>
        requires { entry_value self ≡ None → F.pre default }
        ensures* stands { sem 𝓛
            (entry_rests K.row V.row PREFIX_LEN.row K.AsBytes self.entry result) }
        ensures set { IfOk result (IsKeptOrMade self.entry (F.post default)) }
        ensures absent { OnErr result (entry_value self.entry ≡ None) }
    {
        match self {
            Entry::Occupied(entry) => entry.kept(),
            Entry::Vacant(entry) => entry.insert_entry_with(default),
        }
    }

    /// Returns the entry of the key's pair, like [`Entry::or_insert_with_entry`]. The closure takes
    /// the key that was handed in.
    ///
    /// Cost: none on `Occupied`, and an insertion on `Vacant`.
    pub fn or_insert_with_key_entry<F: FnOnce(&K) -> V + Drop>(
        self,
        default: F,
    ) -> Result<Occupied<'a, K, V, PREFIX_LEN>, AllocError>
        requires { entry_value self ≡ None
            → (p : Bor K) → entry_key self ≡ Some p.now → F.pre default p }
        ensures* stands { sem 𝓛
            (entry_rests K.row V.row PREFIX_LEN.row K.AsBytes self.entry result) }
        ensures set { IfOk result (IsKeptOrMade self.entry
            (λ v. IfSome (entry_key self.entry) (λ k. FnOnceReturnsAt F.FnOnce default k v))) }
        ensures absent { OnErr result (entry_value self.entry ≡ None) }
    {
        match self {
            Entry::Occupied(entry) => entry.kept(),
            Entry::Vacant(entry) => entry.insert_entry_with_key(default),
        }
    }

    /// Returns the entry of the key's pair. If no value is stored, it first places what
    /// [`MadeWith`] makes, like [`Entry::or_default`].
    ///
    /// Cost: none on `Occupied`, and an insertion on `Vacant`.
    pub fn or_default_entry(self) -> Result<Occupied<'a, K, V, PREFIX_LEN>, AllocError>
    where
        V: MadeWith<Global>,
        ensures* stands { sem 𝓛
            (entry_rests K.row V.row PREFIX_LEN.row K.AsBytes self.entry result) }
        ensures set { IfOk result (IsKeptOrMade self.entry V.is_made_with) }
        ensures absent { OnErr result (entry_value self.entry ≡ None) }
    {
        let alloc = self.allocator();
        self.or_insert_with_entry(move || V::made_with(alloc))
    }
}
