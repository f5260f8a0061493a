//! The entry of a pair of a map.
ghost use Rattle.std.specs.Prelude.{◌≡◌, Some, IfOk, OnErr};
ghost use Rattle.std.specs.Borrow.{sem};
ghost use Rattle.art_tree.specs.Leaves.{Has};

use crate::map::TreeMap;
use art_tree::LeafId;
use blart_keys::AsBytes;
use std::alloc::AllocError;
use std::marker::PhantomData;
use std::mem::replace;

/// The entry of a pair of a map. Reads and writes of the value search nothing, and a removal makes
/// one descent by the key. None of its calls allocates.
///
/// `T` is the map's type. It is a parameter because a type with a const parameter must be known to
/// live as long as it is borrowed.
///
/// ```
/// map.try_insert("cat", 1)?;
/// if let Entry::Occupied(mut entry) = map.try_entry("cat")? {
///     assert_eq!(entry.insert(2), 1);
///     assert_eq!(entry.remove_entry(), ("cat", 2));
/// }
/// assert!(map.is_empty());
/// ```
#[derive(Drop)]
pub struct OccupiedEntry<'a, K: AsBytes, V, const PREFIX_LEN: usize, T: 'a> {
    pub(crate) map: &'a mut TreeMap<K, V, PREFIX_LEN>,
    pub(crate) id: LeafId,
    pub(crate) lender: PhantomData<T>,
    ghost stands: { Has map.now id },
}

/// An [`OccupiedEntry`] of a [`TreeMap`], for short in the signatures of this crate.
pub(crate) type Occupied<'a, K, V, const PREFIX_LEN: usize> = OccupiedEntry<
    'a,
    K,
    V,
    PREFIX_LEN,
    TreeMap<K, V, PREFIX_LEN>,
>;

impl<'a, K: AsBytes, V, const PREFIX_LEN: usize, T: 'a> OccupiedEntry<'a, K, V, PREFIX_LEN, T> {
    ghost use Rattle.blart_map.specs.Entry.{Occupied, entry_key, entry_value, IsSetEntry};
    ghost use Rattle.blart_map.specs.OccupiedEntry.{with_entry_value};
    ghost use Rattle.blart_map.specs.OccupiedLends.{entry_value_lends};

    /// Returns the stored key.
    ///
    /// Cost: one visit.
    pub fn key(&self) -> &K
        ensures { entry_key (Occupied self.now) ≡ Some result.now }
    {
        self.map.leaf(self.id).0
    }

    /// Returns the value.
    ///
    /// Cost: one visit.
    pub fn get(&self) -> &V
        ensures { entry_value (Occupied self.now) ≡ Some result.now }
    {
        self.map.leaf(self.id).1
    }

    /// Returns a mutable reference to the value.
    ///
    /// Cost: reads the leaf.
    pub fn get_mut(&mut self) -> &mut V
        ensures* writes_back { sem 𝓛
            (entry_value_lends K.row V.row PREFIX_LEN.row T.row K.AsBytes self.entry result) }
        ensures value { entry_value (Occupied self.old) ≡ Some result.now }
        ensures written { (w : V) → IsSetEntry (Occupied self.old) w (with_entry_value self.old w) }
    {
        self.map.numbers_law();
        let id = self.id;
        self.map.value_mut(id)
    }

    /// Sets the value, and returns the old value. The key is unchanged.
    ///
    /// Cost: reads the leaf.
    pub fn insert(&mut self, value: V) -> V
        ensures old { entry_value (Occupied self.old) ≡ Some result }
        ensures written { IsSetEntry (Occupied self.old) value self.new }
    {
        replace(self.get_mut(), value)
    }
}

impl<'a, K: AsBytes + Drop, V: Drop, const PREFIX_LEN: usize, T: 'a> OccupiedEntry<
    'a,
    K,
    V,
    PREFIX_LEN,
    T,
> {
    ghost use Rattle.blart_map.specs.Entry.{Occupied, entry_value, entry_pair, IsRemoved};

    /// Removes the pair, and returns it.
    ///
    /// Cost: one descent.
    pub fn remove_entry(self) -> (K, V)
        ensures pair { entry_pair (Occupied self.entry) ≡ Some result }
        ensures rest { IsRemoved (Occupied self.entry) self.exit.0.now }
    {
        self.map.numbers_law();
        let id = self.id;
        self.map.take_leaf(id)
    }

    /// Removes the pair, and returns its value.
    ///
    /// Cost: one descent.
    pub fn remove(self) -> V
        ensures value { entry_value (Occupied self.entry) ≡ Some result }
        ensures rest { IsRemoved (Occupied self.entry) self.exit.0.now }
    {
        self.remove_entry().1
    }
}

impl<'a, K: AsBytes, V, const PREFIX_LEN: usize> OccupiedEntry<
    'a,
    K,
    V,
    PREFIX_LEN,
    TreeMap<K, V, PREFIX_LEN>,
> {
    ghost use Rattle.blart_map.specs.Entry.{Occupied, entry_ref, entry_value, SetsValue};
    ghost use Rattle.blart_map.specs.OccupiedEntry.{entry_leaf};
    ghost use Rattle.blart_map.specs.EntryLends.{entry_rests};
    ghost use Rattle.blart_map.specs.LentLeaves.{lends_leaf};
    ghost use Rattle.art_tree.specs.Leaves.{with_value};

    /// Returns a mutable reference to the value that lives as long as the borrow of the map.
    ///
    /// Cost: reads the leaf.
    pub fn into_mut(self) -> &'a mut V
        ensures* writes_back { sem 𝓛
            (lends_leaf K.row V.row PREFIX_LEN.row K.AsBytes
            (entry_ref (Occupied self.entry)) (entry_leaf self.entry) result) }
        ensures value { entry_value (Occupied self.entry) ≡ Some result.now }
        ensures written { (w : V) → SetsValue (Occupied self.entry) w
            (with_value (entry_ref (Occupied self.entry)).now (entry_leaf self.entry) w) }
    {
        let map = self.map;
        map.numbers_law();
        map.value_mut(self.id)
    }

    /// Returns this entry, in a `Result` that is never an error. If a call of an enum returns such
    /// a `Result`, the borrow checker follows the map through this call.
    pub(crate) fn kept(self) -> Result<Occupied<'a, K, V, PREFIX_LEN>, AllocError>
        ensures* stands { sem 𝓛
            (entry_rests K.row V.row PREFIX_LEN.row K.AsBytes (Occupied self.entry) result) }
        ensures same { IfOk result (λ o. o ≡ self.entry) }
        ensures never { OnErr result ⊥ }
    {
        let OccupiedEntry { map, id, lender } = self;
        Ok(OccupiedEntry { map, id, lender })
    }
}

impl<'a, K: AsBytes, V: Drop, const PREFIX_LEN: usize> OccupiedEntry<
    'a,
    K,
    V,
    PREFIX_LEN,
    TreeMap<K, V, PREFIX_LEN>,
> {
    ghost use Rattle.blart_map.specs.Entry.{Occupied, SetsValue, IsSetEntry};
    ghost use Rattle.blart_map.specs.EntryLends.{entry_rests};
    ghost use Rattle.blart_map.specs.LentLeaves.{lends_leaf};
    ghost use Rattle.art_tree.specs.Leaves.{with_value};

    /// Sets the value, and returns this entry in a `Result`, like [`OccupiedEntry::kept`].
    pub(crate) fn set(self, value: V) -> Result<Occupied<'a, K, V, PREFIX_LEN>, AllocError>
        ensures* stands { sem 𝓛
            (entry_rests K.row V.row PREFIX_LEN.row K.AsBytes (Occupied self.entry) result) }
        ensures set { IfOk result (IsSetEntry (Occupied self.entry) value) }
        ensures never { OnErr result ⊥ }
    {
        let OccupiedEntry { map, id, lender } = self;
        map.numbers_law();
        *map.value_mut(id) = value;
        Ok(OccupiedEntry { map, id, lender })
    }

    /// Sets the value, and returns a mutable reference to it that lives as long as the borrow of
    /// the map.
    pub(crate) fn write(self, value: V) -> &'a mut V
        ensures* writes_back { sem 𝓛
            (lends_leaf K.row V.row PREFIX_LEN.row K.AsBytes self.entry.map self.entry.id result) }
        ensures value { result.now ≡ value }
        ensures written { (w : V) → SetsValue (Occupied self.entry) w
            (with_value self.entry.map.now self.entry.id w) }
    {
        let map = self.map;
        map.numbers_law();
        let place = map.value_mut(self.id);
        *place = value;
        place
    }
}
