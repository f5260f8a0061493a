//! A key whose bytes are stored in a map, or that conflicts with stored keys.
ghost use Rattle.std.specs.Prelude.{◌≡◌, option_map, option_copied, Some};
ghost use Rattle.std.specs.Borrow.{sem};
ghost use Rattle.std.specs.Option.{option_copied_mut};

use crate::inner::InnerOccupiedEntry;
use crate::map::TreeMap;
use crate::occupied::{Occupied, OccupiedEntry};
use blart_keys::AsBytes;

/// A key whose bytes are stored in a map, or that conflicts with stored keys. None of its calls
/// allocates.
///
/// To write to the map, call [`PrefixEntry::kind`](crate::PrefixEntry::kind) in place of matching a
/// prefix entry: only the calls of a kind have all clauses.
///
/// ```
/// // map is {"car": 1}
/// if let PrefixEntry::Occupied(entry) = map.prefix_entry("ca") {
///     assert_eq!(entry.get_key(), Some(&"car"));
///     *entry.insert(2) = 3;
/// }
/// assert_eq!(map.get(&"ca"), Some(&3));
/// ```
#[derive(Drop)]
pub enum PrefixOccupied<'a, K: AsBytes, V, const PREFIX_LEN: usize, T: 'a> {
    /// The key's bytes are stored.
    Leaf(OccupiedEntry<'a, K, V, PREFIX_LEN, T>),
    /// The key conflicts with stored keys.
    Inner(InnerOccupiedEntry<'a, K, V, PREFIX_LEN, T>),
}

impl<'a, K: AsBytes, V, const PREFIX_LEN: usize, T: 'a> PrefixOccupied<'a, K, V, PREFIX_LEN, T> {
    ghost use Rattle.blart_map.specs.PrefixEntry.{occupied_pair, occupied_key};

    /// Returns the stored key on `Leaf`, and the key that was handed in on `Inner`.
    ///
    /// Cost: one visit on `Leaf`, and none on `Inner`.
    pub fn key(&self) -> &K
        ensures { occupied_key self.now ≡ Some result.now }
    {
        match self {
            PrefixOccupied::Leaf(entry) => entry.key(),
            PrefixOccupied::Inner(entry) => entry.key(),
        }
    }

    /// Returns the value on `Leaf`. On `Inner`, returns the value of the only related pair, or
    /// `None` if there are more.
    ///
    /// Cost: at most one visit.
    pub fn get(&self) -> Option<&V>
        ensures { option_copied result ≡ option_map (λ pair. pair.1) (occupied_pair self.now) }
    {
        match self {
            PrefixOccupied::Leaf(entry) => Some(entry.get()),
            PrefixOccupied::Inner(entry) => entry.get(),
        }
    }

    /// Returns the stored key on `Leaf`. On `Inner`, returns the key of the only related pair, or
    /// `None` if there are more.
    ///
    /// Cost: at most one visit.
    pub fn get_key(&self) -> Option<&K>
        ensures { option_copied result ≡ option_map (λ pair. pair.0) (occupied_pair self.now) }
    {
        match self {
            PrefixOccupied::Leaf(entry) => Some(entry.key()),
            PrefixOccupied::Inner(entry) => entry.get_key(),
        }
    }

    /// Returns a mutable reference to the value on `Leaf`, and to the value of the only related
    /// pair on `Inner`. Returns `None` if there are more related pairs.
    ///
    /// The contract says which value it is, and not what the entry is after the write: the borrow
    /// checker of the language carries no such clause. Match the enum and call the `get_mut` of
    /// [`OccupiedEntry`] or [`InnerOccupiedEntry`], which say it.
    ///
    /// Cost: reads at most one leaf.
    pub fn get_mut(&mut self) -> Option<&mut V>
        ensures { option_copied_mut result
            ≡ option_map (λ pair. pair.1) (occupied_pair self.old) }
    {
        match self {
            PrefixOccupied::Leaf(entry) => Some(entry.get_mut()),
            PrefixOccupied::Inner(entry) => entry.get_mut(),
        }
    }
}

impl<'a, K: AsBytes + Drop, V: Drop, const PREFIX_LEN: usize> PrefixOccupied<
    'a,
    K,
    V,
    PREFIX_LEN,
    TreeMap<K, V, PREFIX_LEN>,
> {
    ghost use Rattle.blart_map.specs.PrefixEntry.{IsOccupiedSet, IsOccupiedWritten, occupied_with};
    ghost use Rattle.blart_map.specs.PrefixLends.{occupied_lends};

    /// Sets the value on `Leaf`, and on `Inner` removes the related pairs and places the key with
    /// the value. Returns the entry of the key's pair.
    ///
    /// Cost: reads the leaf on `Leaf`. On `Inner`, one descent for each related pair but one.
    pub fn insert_entry(self, value: V) -> Occupied<'a, K, V, PREFIX_LEN>
        ensures { IsOccupiedSet self.entry value result }
    {
        match self {
            PrefixOccupied::Leaf(mut entry) => {
                entry.insert(value);
                entry
            }
            PrefixOccupied::Inner(entry) => entry.insert_entry(value),
        }
    }

    /// Returns a mutable reference to the value, which it sets like
    /// [`PrefixOccupied::insert_entry`]. Once the borrow ends, the key has the last value written.
    ///
    /// Cost: as for [`PrefixOccupied::insert_entry`].
    pub fn insert(self, value: V) -> &'a mut V
        ensures* writes_back { sem 𝓛
            (occupied_lends K.row V.row PREFIX_LEN.row K.AsBytes self.entry result) }
        ensures value { result.now ≡ value }
        ensures written { (w : V) → IsOccupiedWritten self.entry w (occupied_with self.entry w) }
    {
        match self {
            PrefixOccupied::Leaf(entry) => entry.write(value),
            PrefixOccupied::Inner(entry) => entry.insert(value),
        }
    }
}
