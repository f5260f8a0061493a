//! A key that conflicts with keys of a map.
ghost use Rattle.std.specs.Prelude.{◌≡◌, true, option_map, option_copied, is_some, IfSome, IfOk, OnErr};
ghost use Rattle.std.specs.Option.{option_copied_mut};
ghost use Rattle.std.specs.Borrow.{sem};
ghost use Rattle.blart_keys.specs.Bytes.{related};
ghost use Rattle.blart_keys.specs.Content.{subtree};
ghost use Rattle.blart_keys.specs.Stored.{shown, CanCount};
ghost use Rattle.art_tree.specs.Leaves.{bytes};
ghost use Rattle.blart_map.specs.Content.{pairs};
ghost use Rattle.art_edits.specs.Spans.{spans};

use crate::map::TreeMap;
use crate::occupied::{Occupied, OccupiedEntry};
use crate::walks::lending_walk::{LendingWalk, SubtreeIterMut};
use art_tree::LeafId;
use art_walk::{Cursor, SubtreeIter};
use blart_keys::AsBytes;
use std::alloc::AllocError;
use std::marker::PhantomData;

/// The entry of a key that a map lacks, and that conflicts with some of its keys. Its insertions
/// replace the pairs to which the key is related. None of its calls allocates.
///
/// Two keys are related if the bytes of one are a prefix of the other's. Here there are two cases.
/// A stored key is a prefix of the entry's key, and then no other stored key is related to it. Or
/// the entry's key is a prefix of one or more stored keys.
///
/// ```
/// // map is {"car": 1, "cat": 2}
/// if let PrefixKind::Inner(entry) = map.prefix_entry("ca").kind() {
///     assert!(entry.get().is_none());
///     *entry.insert(3) += 1;
/// }
/// assert_eq!(map.get(&"ca"), Some(&4));
/// assert_eq!(map.len(), 1);
/// ```
#[derive(Drop)]
pub struct InnerOccupiedEntry<'a, K: AsBytes, V, const PREFIX_LEN: usize, T: 'a> {
    pub(crate) map: &'a mut TreeMap<K, V, PREFIX_LEN>,
    pub(crate) key: K,
    /// The first and the last leaf whose keys are related to the key.
    pub(crate) first: LeafId,
    pub(crate) last: LeafId,
    pub(crate) lender: PhantomData<T>,
    ghost stands: { spans K.bytes map.now (K.bytes key) first last ≡ true },
}

impl<'a, K: AsBytes, V, const PREFIX_LEN: usize, T: 'a> InnerOccupiedEntry<
    'a,
    K,
    V,
    PREFIX_LEN,
    T,
> {
    ghost use Rattle.blart_map.specs.InnerEntry.{inner_key, related_pairs, inner_pair, inner_with, IsOnlyWritten};
    ghost use Rattle.blart_map.specs.InnerLends.{inner_value_lends};

    /// Returns the key that was handed in.
    ///
    /// Cost: none.
    pub fn key(&self) -> &K
        ensures { result.now ≡ inner_key self.now }
    {
        &self.key
    }

    /// Returns the only related pair, or `None` if there are more.
    fn get_key_value(&self) -> Option<(&K, &V)>
        ensures { shown result ≡ inner_pair self.now }
    {
        self.map.numbers_law();
        if self.first == self.last {
            Some(self.map.leaf(self.first))
        } else {
            None
        }
    }

    /// Returns the value of the only related pair, or `None` if there are more.
    ///
    /// Cost: at most one visit.
    pub fn get(&self) -> Option<&V>
        ensures { option_copied result ≡ option_map (λ pair. pair.1) (inner_pair self.now) }
    {
        match self.get_key_value() {
            Some(pair) => Some(pair.1),
            None => None,
        }
    }

    /// Returns the key of the only related pair, or `None` if there are more.
    ///
    /// Cost: at most one visit.
    pub fn get_key(&self) -> Option<&K>
        ensures { option_copied result ≡ option_map (λ pair. pair.0) (inner_pair self.now) }
    {
        match self.get_key_value() {
            Some(pair) => Some(pair.0),
            None => None,
        }
    }

    /// Returns a mutable reference to the value of the only related pair, or `None` if there are
    /// more.
    ///
    /// Cost: reads at most one leaf.
    pub fn get_mut(&mut self) -> Option<&mut V>
        ensures* writes_back { sem 𝓛
            (inner_value_lends K.row V.row PREFIX_LEN.row T.row K.AsBytes self.entry result) }
        ensures value { option_copied_mut result
            ≡ option_map (λ pair. pair.1) (inner_pair self.old) }
        ensures written { (w : V) → IsOnlyWritten self.old w
            (inner_with self.old w) }
    {
        self.map.numbers_law();
        let id = self.first;
        if id == self.last {
            return Some(self.map.value_mut(id));
        }
        None
    }

    /// Returns an iterator over the related pairs, from both ends, in byte order of their keys.
    /// Does not allocate.
    ///
    /// Cost: no visit. Each step makes one visit.
    pub fn iter(&self) -> SubtreeIter<'_, K, V, PREFIX_LEN>
        ensures value { result ≡ related_pairs self.now }
        ensures fits { CanCount result }
    {
        self.map.law();
        self.map.numbers_law();
        self.map.iter_between(self.first, self.last)
    }
}

impl<'a, K: AsBytes + Drop, V, const PREFIX_LEN: usize> InnerOccupiedEntry<
    'a,
    K,
    V,
    PREFIX_LEN,
    TreeMap<K, V, PREFIX_LEN>,
> {
    ghost use Rattle.blart_map.specs.Entry.{Occupied, entry_ref, entry_pair};
    ghost use Rattle.blart_map.specs.InnerEntry.{inner_ref, inner_key, inner_pair};
    ghost use Rattle.blart_map.specs.InnerLends.{inner_rests};
    ghost use Rattle.blart_map.specs.LendingWalk.{lending_map, lending_last, lending_left};
    ghost use Rattle.blart_map.specs.OnceWritten.{rewritten, once_written};

    /// Returns the entry of the only related pair, in place of this entry. If there are more, it
    /// returns `None`, and the map is unchanged.
    ///
    /// Cost: none.
    #[tactic(auto, using(crate::proofs::Related::InnerPairs::inner_has))]
    pub fn get_key_value_mut(self) -> Option<Occupied<'a, K, V, PREFIX_LEN>>
        ensures* stands { sem 𝓛
            (inner_rests K.row V.row PREFIX_LEN.row K.AsBytes self.entry result) }
        ensures found { is_some result ≡ is_some (inner_pair self.entry) }
        ensures same_map { IfSome result
            (λ o. (entry_ref (Occupied o)).ghost_name ≡ (inner_ref self.entry).ghost_name) }
        ensures unchanged { IfSome result
            (λ o. (entry_ref (Occupied o)).now ≡ (inner_ref self.entry).now) }
        ensures pair { IfSome result (λ o. entry_pair (Occupied o) ≡ inner_pair self.entry) }
    {
        let InnerOccupiedEntry {
            map,
            first,
            last,
            ..
        } = self;
        map.numbers_law();
        map.only_entry(first, last)
    }

    /// Returns a walk over mutable references to the values of the related pairs, with their keys,
    /// in byte order of the keys, from both ends. Does not allocate.
    ///
    /// Cost: no visit. Each step makes one visit.
    ///
    /// ```
    /// if let PrefixKind::Inner(entry) = map.prefix_entry("ca").kind() {
    ///     let mut walk = entry.iter_mut();
    ///     while let Some(value) = walk.next() {
    ///         *value += 1;
    ///     }
    /// }
    /// ```
    pub fn iter_mut(self) -> SubtreeIterMut<'a, K, V, PREFIX_LEN>
        ensures same_map { (lending_map result).ghost_name ≡ (inner_ref self.entry).ghost_name }
        ensures unchanged { (lending_map result).now ≡ (inner_ref self.entry).now }
        ensures all { (f : K × V → V) → once_written f result
            ≡ rewritten (λ pair. related (K.bytes pair.0) (K.bytes (inner_key self.entry))) f
            (pairs (inner_ref self.entry).now) }
        ensures left { lending_left result
            ≡ subtree (bytes K.bytes) (inner_ref self.entry).now (K.bytes (inner_key self.entry)) }
        ensures none_lent { lending_last result ≡ None }
    {
        let InnerOccupiedEntry {
            map,
            first,
            last,
            ..
        } = self;
        map.numbers_law();
        LendingWalk::of(map, Cursor::between(first, last))
    }
}

impl<'a, K: AsBytes + Drop, V: Drop, const PREFIX_LEN: usize> InnerOccupiedEntry<
    'a,
    K,
    V,
    PREFIX_LEN,
    TreeMap<K, V, PREFIX_LEN>,
> {
    ghost use Rattle.blart_map.specs.InnerEntry.{over_leaf, IsOverSet, IsOverEntry};
    ghost use Rattle.blart_map.specs.InnerLends.{inner_lends};
    ghost use Rattle.blart_map.specs.PrefixLends.{inner_over_rests};

    /// Removes the related pairs, places the key with the value, and returns the entry of the pair.
    ///
    /// Cost: one descent for each related pair but one.
    pub fn insert_entry(self, value: V) -> Occupied<'a, K, V, PREFIX_LEN>
        ensures { IsOverEntry self.entry value result }
    {
        let InnerOccupiedEntry {
            map,
            key,
            first,
            last,
            ..
        } = self;
        map.overwrite(first, last, key, value);
        OccupiedEntry {
            map,
            id: last,
            lender: PhantomData,
        }
    }

    /// Like [`InnerOccupiedEntry::insert_entry`], with the entry in a `Result` that is never an
    /// error. If a call of an enum returns such a `Result`, the borrow checker follows the map
    /// through this call.
    pub(crate) fn over(self, value: V) -> Result<Occupied<'a, K, V, PREFIX_LEN>, AllocError>
        ensures* stands { sem 𝓛
            (inner_over_rests K.row V.row PREFIX_LEN.row K.AsBytes self.entry result) }
        ensures set { IfOk result (IsOverEntry self.entry value) }
        ensures never { OnErr result ⊥ }
    {
        let InnerOccupiedEntry {
            map,
            key,
            first,
            last: id,
            ..
        } = self;
        map.overwrite(first, id, key, value);
        Ok(OccupiedEntry {
            map,
            id,
            lender: PhantomData,
        })
    }

    /// Removes the related pairs, places the key with the value, and returns a mutable reference to
    /// the value.
    ///
    /// Cost: one descent for each related pair but one.
    ///
    /// ```
    /// map.try_insert("car", 1)?;
    /// if let PrefixKind::Inner(entry) = map.prefix_entry("ca").kind() {
    ///     *entry.insert(2) += 1;
    /// }
    /// assert_eq!(map.first_key_value(), Some((&"ca", &3)));
    /// ```
    pub fn insert(self, value: V) -> &'a mut V
        ensures* writes_back { sem 𝓛
            (inner_lends K.row V.row PREFIX_LEN.row K.AsBytes self.entry result) }
        ensures value { result.now ≡ value }
        ensures written { (w : V) → IsOverSet self.entry w (over_leaf self.entry w) }
    {
        let InnerOccupiedEntry {
            map,
            key,
            first,
            last,
            ..
        } = self;
        map.overwrite(first, last, key, value);
        map.numbers_law();
        map.value_mut(last)
    }
}
