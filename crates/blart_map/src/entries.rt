//! The entry of a key.
ghost use Rattle.std.specs.Prelude.{◌≡◌, ◌-◌, length, slice_get, not, is_ok, is_some, IfOk, IfSome};
ghost use Rattle.std.specs.Borrow.{sem};
ghost use Rattle.blart_keys.specs.Stored.{overlaps, pair_at_front};
ghost use Rattle.blart_map.specs.Content.{pairs};
ghost use Rattle.blart_map.specs.Entry.{Occupied, entry_ref, entry_pair, IsEntryFor};
ghost use Rattle.blart_map.specs.PrefixEntry.{prefix_ref, IsPrefixEntryFor};
ghost use Rattle.blart_map.specs.EntryLends.{rests_if_refused, rests_if_none};

use crate::entry::Entry;
use crate::inner::InnerOccupiedEntry;
use crate::map::TreeMap;
use crate::occupied::{Occupied, OccupiedEntry};
use crate::prefix_entry::PrefixEntry;
use crate::prefix_occupied::PrefixOccupied;
use crate::vacant::VacantEntry;
use art_tree::Point;
use blart_keys::{AsBytes, InsertPrefixError, NoPrefixesBytes};
use std::marker::PhantomData;

impl<K: AsBytes, V, const PREFIX_LEN: usize> TreeMap<K, V, PREFIX_LEN> {
    /// Returns the entry of the pair whose key's bytes are a prefix of the query's, or `None` if
    /// there is no such pair. There is at most one such pair. Does not allocate.
    ///
    /// Cost: a look-up.
    ///
    /// ```
    /// map.try_insert("/static/", 7)?;
    /// if let Some(mut entry) = map.prefix_get_key_value_mut(&"/static/logo.png") {
    ///     *entry.get_mut() += 1;
    /// }
    /// assert_eq!(map.get(&"/static/"), Some(&8));
    /// ```
    pub fn prefix_get_key_value_mut<Q: AsBytes>(
        &mut self,
        query: &Q,
    ) -> Option<Occupied<'_, K, V, PREFIX_LEN>>
        ensures* stands { sem 𝓛
            (rests_if_none K.row V.row PREFIX_LEN.row K.AsBytes self.entry result) }
        ensures found { is_some result
            ≡ is_some (pair_at_front K.bytes (pairs self.old) (Q.bytes query.now)) }
        ensures same_map { IfSome result
            (λ o. (entry_ref (Occupied o)).ghost_name ≡ self.entry.ghost_name) }
        ensures unchanged { IfSome result (λ o. (entry_ref (Occupied o)).now ≡ self.old) }
        ensures pair { IfSome result (λ o. entry_pair (Occupied o)
            ≡ pair_at_front K.bytes (pairs self.old) (Q.bytes query.now)) }
    {
        self.numbers_law();
        match self.front_leaf(query.as_bytes()) {
            Some(id) => Some(OccupiedEntry {
                map: self,
                id,
                lender: PhantomData,
            }),
            None => None,
        }
    }

    /// Returns the entry of the pair whose key's bytes are least, or `None` if there are no pairs.
    /// Does not allocate.
    ///
    /// Cost: no visit.
    ///
    /// ```
    /// map.try_insert("cat", 1)?;
    /// map.try_insert("dog", 2)?;
    /// if let Some(entry) = map.first_entry() {
    ///     assert_eq!(entry.remove_entry(), ("cat", 1));
    /// }
    /// assert_eq!(map.len(), 1);
    /// ```
    pub fn first_entry(&mut self) -> Option<Occupied<'_, K, V, PREFIX_LEN>>
        ensures* stands { sem 𝓛
            (rests_if_none K.row V.row PREFIX_LEN.row K.AsBytes self.entry result) }
        ensures found { is_some result ≡ is_some (slice_get (pairs self.old) 0) }
        ensures same_map { IfSome result
            (λ o. (entry_ref (Occupied o)).ghost_name ≡ self.entry.ghost_name) }
        ensures unchanged { IfSome result (λ o. (entry_ref (Occupied o)).now ≡ self.old) }
        ensures pair { IfSome result (λ o. entry_pair (Occupied o)
            ≡ slice_get (pairs self.old) 0) }
    {
        match self.first_leaf() {
            Some(id) => Some(OccupiedEntry {
                map: self,
                id,
                lender: PhantomData,
            }),
            None => None,
        }
    }

    /// Returns the entry of the pair whose key's bytes are greatest, or `None` if there are no
    /// pairs. Does not allocate.
    ///
    /// Cost: no visit.
    ///
    /// ```
    /// map.try_insert("cat", 1)?;
    /// map.try_insert("dog", 2)?;
    /// if let Some(mut entry) = map.last_entry() {
    ///     *entry.get_mut() += 1;
    /// }
    /// assert_eq!(map.get(&"dog"), Some(&3));
    /// ```
    pub fn last_entry(&mut self) -> Option<Occupied<'_, K, V, PREFIX_LEN>>
        ensures* stands { sem 𝓛
            (rests_if_none K.row V.row PREFIX_LEN.row K.AsBytes self.entry result) }
        ensures found { is_some result
            ≡ is_some (slice_get (pairs self.old) (length (pairs self.old) - 1)) }
        ensures same_map { IfSome result
            (λ o. (entry_ref (Occupied o)).ghost_name ≡ self.entry.ghost_name) }
        ensures unchanged { IfSome result (λ o. (entry_ref (Occupied o)).now ≡ self.old) }
        ensures pair { IfSome result (λ o. entry_pair (Occupied o)
            ≡ slice_get (pairs self.old) (length (pairs self.old) - 1)) }
    {
        self.numbers_law();
        match self.last_leaf() {
            Some(id) => Some(OccupiedEntry {
                map: self,
                id,
                lender: PhantomData,
            }),
            None => None,
        }
    }
}

impl<K: AsBytes + Drop, V, const PREFIX_LEN: usize> TreeMap<K, V, PREFIX_LEN> {
    /// Returns the entry of the key. Does not allocate. Returns an error exactly if the key
    /// conflicts, and the key is then dropped.
    ///
    /// If the key's bytes are stored, the key that was handed in is dropped, and the stored key is
    /// unchanged.
    ///
    /// Cost: one descent.
    ///
    /// ```
    /// *map.try_entry("cat")?.or_insert(0)? += 1;
    /// assert_eq!(map.get(&"cat"), Some(&1));
    /// assert!(map.try_entry("cats").is_err());
    /// ```
    pub fn try_entry(
        &mut self,
        key: K,
    ) -> Result<Entry<'_, K, V, PREFIX_LEN, TreeMap<K, V, PREFIX_LEN>>, InsertPrefixError>
        ensures* stands { sem 𝓛
            (rests_if_refused K.row V.row PREFIX_LEN.row K.AsBytes self.entry result) }
        ensures found { is_ok result ≡ not (overlaps K.bytes (pairs self.old) (K.bytes key)) }
        ensures same_map { IfOk result (λ e. (entry_ref e).ghost_name ≡ self.entry.ghost_name) }
        ensures unchanged { IfOk result (λ e. (entry_ref e).now ≡ self.old) }
        ensures is_for { IfOk result (IsEntryFor (pairs self.old) key) }
    {
        self.numbers_law();
        match self.point_of(key.as_bytes()) {
            Point::Exact(id) => Ok(Entry::Occupied(OccupiedEntry {
                map: self,
                id,
                lender: PhantomData,
            })),
            Point::Related { .. } => Err(InsertPrefixError),
            Point::Empty | Point::Free(_) => Ok(Entry::Vacant(VacantEntry {
                map: self,
                key,
                lender: PhantomData,
            })),
        }
    }

    /// Returns the entry of the key. If the key conflicts, its entry takes the place of all pairs
    /// to which it is related. It does not allocate.
    ///
    /// Call [`PrefixEntry::kind`] on it, as in the example: only the calls of
    /// [`PrefixKind`](crate::PrefixKind) have all clauses, since the borrow checker of the language
    /// carries no clause about the map through an enum in an enum.
    ///
    /// If the key's bytes are stored, the key that was handed in is dropped, and the stored key is
    /// unchanged.
    ///
    /// Cost: one descent.
    ///
    /// ```
    /// map.try_insert("car", 1)?;
    /// map.try_insert("cat", 2)?;
    /// match map.prefix_entry("ca").kind() {
    ///     PrefixKind::Leaf(entry) => *entry.into_mut() += 1,
    ///     PrefixKind::Inner(entry) => *entry.insert(0) += 1,
    ///     PrefixKind::Vacant(entry) => *entry.insert(0)? += 1,
    /// }
    /// assert_eq!(map.first_key_value(), Some((&"ca", &1)));
    /// ```
    pub fn prefix_entry(
        &mut self,
        key: K,
    ) -> PrefixEntry<'_, K, V, PREFIX_LEN, TreeMap<K, V, PREFIX_LEN>>
        ensures same_map { (prefix_ref result).ghost_name ≡ self.entry.ghost_name }
        ensures unchanged { (prefix_ref result).now ≡ self.old }
        ensures is_for { IsPrefixEntryFor (pairs self.old) key result }
    {
        self.numbers_law();
        let point = self.point_of(key.as_bytes());
        match point {
            Point::Exact(id) => PrefixEntry::Occupied(PrefixOccupied::Leaf(OccupiedEntry {
                map: self,
                id,
                lender: PhantomData,
            })),
            Point::Related { first, last } => {
                PrefixEntry::Occupied(PrefixOccupied::Inner(InnerOccupiedEntry {
                    map: self,
                    key,
                    first,
                    last,
                    lender: PhantomData,
                }))
            }
            Point::Empty | Point::Free(_) => PrefixEntry::Vacant(VacantEntry {
                map: self,
                key,
                lender: PhantomData,
            }),
        }
    }
}

impl<K: NoPrefixesBytes + Drop, V, const PREFIX_LEN: usize> TreeMap<K, V, PREFIX_LEN> {
    /// Returns the entry of the key, like [`TreeMap::try_entry`]. Keys of this type never conflict.
    ///
    /// Cost: one descent.
    ///
    /// ```
    /// *map.entry(U32Key::new(258)).or_insert(0)? += 1;
    /// *map.entry(U32Key::new(258)).or_insert(0)? += 1;
    /// assert_eq!(map.get(&U32Key::new(258)), Some(&2));
    /// ```
    pub fn entry(&mut self, key: K) -> Entry<'_, K, V, PREFIX_LEN, TreeMap<K, V, PREFIX_LEN>>
        ensures same_map { (entry_ref result).ghost_name ≡ self.entry.ghost_name }
        ensures unchanged { (entry_ref result).now ≡ self.old }
        ensures is_for { IsEntryFor (pairs self.old) key result }
    {
        match self.leaf_of_disjoint(&key) {
            Some(id) => Entry::Occupied(OccupiedEntry {
                map: self,
                id,
                lender: PhantomData,
            }),
            None => Entry::Vacant(VacantEntry {
                map: self,
                key,
                lender: PhantomData,
            }),
        }
    }
}
