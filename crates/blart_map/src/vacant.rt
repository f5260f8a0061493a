//! A key that a map lacks, and that conflicts with none of its keys.
ghost use Rattle.std.specs.Prelude.{◌≡◌, false, IfOk};
ghost use Rattle.std.specs.Borrow.{sem};
ghost use Rattle.std.specs.Fn.{FnOnceReturnsAt};
ghost use denote.Ref.{Bor};
ghost use Rattle.blart_keys.specs.Content.{stores, conflict};
ghost use Rattle.art_tree.specs.Leaves.{bytes};

use crate::map::TreeMap;
use crate::occupied::{Occupied, OccupiedEntry};
use blart_keys::AsBytes;
use std::alloc::AllocError;
use std::marker::PhantomData;

/// The entry of a key that a map lacks, and that conflicts with none of its keys. Of its calls,
/// only the insertions allocate. If one fails to allocate, the map is unchanged.
///
/// ```
/// if let Entry::Vacant(entry) = map.try_entry("cat")? {
///     *entry.insert(1)? = 2;
/// }
/// assert_eq!(map.get(&"cat"), Some(&2));
/// ```
#[derive(Drop)]
pub struct VacantEntry<'a, K: AsBytes, V, const PREFIX_LEN: usize, T: 'a> {
    pub(crate) map: &'a mut TreeMap<K, V, PREFIX_LEN>,
    pub(crate) key: K,
    pub(crate) lender: PhantomData<T>,
    ghost absent: { stores (bytes K.bytes) map.now (K.bytes key) ≡ false },
    ghost free: { conflict (bytes K.bytes) map.now (K.bytes key) ≡ false },
}

impl<'a, K: AsBytes, V, const PREFIX_LEN: usize, T: 'a> VacantEntry<'a, K, V, PREFIX_LEN, T> {
    ghost use Rattle.blart_map.specs.Entry.{Vacant, entry_ref, vacant_key};

    /// Returns the key.
    ///
    /// Cost: none.
    pub fn key(&self) -> &K
        ensures { result.now ≡ vacant_key self.now }
    {
        &self.key
    }

    /// Returns the key by value. The map is unchanged.
    ///
    /// Cost: none.
    pub fn into_key(self) -> K
        ensures key { result ≡ vacant_key self.entry }
        ensures unchanged { self.exit.0.now ≡ (entry_ref (Vacant self.entry)).now }
    {
        self.key
    }
}

impl<'a, K: AsBytes + Drop, V: Drop, const PREFIX_LEN: usize> VacantEntry<
    'a,
    K,
    V,
    PREFIX_LEN,
    TreeMap<K, V, PREFIX_LEN>,
> {
    ghost use Rattle.blart_map.specs.Entry.{Vacant, entry_pairs, IsSetEntry, IsUndone};
    ghost use Rattle.blart_map.specs.EntryLends.{entry_lends_ok, entry_rests};

    /// Places the key with the value, and returns a mutable reference to the value. If it fails to
    /// allocate, it returns an error, and drops the key and the value.
    ///
    /// Cost: an insertion.
    pub fn insert(self, value: V) -> Result<&'a mut V, AllocError>
        ensures* writes_back { sem 𝓛
            (entry_lends_ok K.row V.row PREFIX_LEN.row K.AsBytes (Vacant self.entry) result) }
        ensures value { IfOk result (λ r. r.now ≡ value) }
    {
        let VacantEntry { map, key, .. } = self;
        let id = map.place_new(key, value)?;
        Ok(map.value_mut(id))
    }

    /// Places the key with the value, and returns the entry of the pair. If it fails to allocate,
    /// it returns an error, and drops the key and the value.
    ///
    /// Cost: an insertion.
    pub fn insert_entry(self, value: V) -> Result<Occupied<'a, K, V, PREFIX_LEN>, AllocError>
        ensures* stands { sem 𝓛
            (entry_rests K.row V.row PREFIX_LEN.row K.AsBytes (Vacant self.entry) result) }
        ensures set { IfOk result (IsSetEntry (Vacant self.entry) value) }
        ensures undone { IfOk result (λ o. IsUndone o (entry_pairs (Vacant self.entry))) }
    {
        let VacantEntry { map, key, .. } = self;
        let leaf = map.place_new(key, value)?;
        Ok(OccupiedEntry {
            map,
            id: leaf,
            lender: PhantomData,
        })
    }

    /// Places the key with the value that the closure returns, and returns a mutable reference to
    /// the value. The closure is called once there is room.
    pub(crate) fn insert_with<F: FnOnce() -> V + Drop>(
        self,
        default: F,
    ) -> Result<&'a mut V, AllocError>
        requires { F.pre default }
        ensures* writes_back { sem 𝓛
            (entry_lends_ok K.row V.row PREFIX_LEN.row K.AsBytes (Vacant self.entry) result) }
        ensures value { IfOk result (λ r. F.post default r.now) }
    {
        let VacantEntry { map, key, .. } = self;
        let id = map.place_new_with(key, default)?;
        Ok(map.value_mut(id))
    }

    /// Places a pair like [`VacantEntry::insert_with`]. The closure takes the key.
    pub(crate) fn insert_with_key<F: FnOnce(&K) -> V + Drop>(
        self,
        default: F,
    ) -> Result<&'a mut V, AllocError>
        requires { (p : Bor K) → p.now ≡ self.key → F.pre default p }
        ensures* writes_back { sem 𝓛
            (entry_lends_ok K.row V.row PREFIX_LEN.row K.AsBytes (Vacant self.entry) result) }
        ensures value { IfOk result (λ r. FnOnceReturnsAt F.FnOnce default self.entry.key r.now) }
    {
        let VacantEntry { map, key, .. } = self;
        let id = map.place_new_with_key(key, default)?;
        Ok(map.value_mut(id))
    }

    /// Places the key with the value that the closure returns, and returns the entry of the pair.
    /// The closure is called once there is room.
    pub(crate) fn insert_entry_with<F: FnOnce() -> V + Drop>(
        self,
        default: F,
    ) -> Result<Occupied<'a, K, V, PREFIX_LEN>, AllocError>
        requires { F.pre default }
        ensures* stands { sem 𝓛
            (entry_rests K.row V.row PREFIX_LEN.row K.AsBytes (Vacant self.entry) result) }
        ensures set { IfOk result
            (λ o. (v : V) × F.post default v × IsSetEntry (Vacant self.entry) v o) }
    {
        let VacantEntry { map, key, .. } = self;
        let id = map.place_new_with(key, default)?;
        Ok(OccupiedEntry {
            map,
            id,
            lender: PhantomData,
        })
    }

    /// Places a pair like [`VacantEntry::insert_entry_with`]. The closure takes the key.
    pub(crate) fn insert_entry_with_key<F: FnOnce(&K) -> V + Drop>(
        self,
        default: F,
    ) -> Result<Occupied<'a, K, V, PREFIX_LEN>, AllocError>
        requires { (p : Bor K) → p.now ≡ self.key → F.pre default p }
        ensures* stands { sem 𝓛
            (entry_rests K.row V.row PREFIX_LEN.row K.AsBytes (Vacant self.entry) result) }
        ensures set { IfOk result (λ o. (v : V) × FnOnceReturnsAt F.FnOnce default self.entry.key v
            × IsSetEntry (Vacant self.entry) v o) }
    {
        let VacantEntry { map, key, .. } = self;
        let id = map.place_new_with_key(key, default)?;
        Ok(OccupiedEntry {
            map,
            id,
            lender: PhantomData,
        })
    }
}
