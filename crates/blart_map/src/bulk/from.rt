//! New maps of given pairs.
ghost use Rattle.std.specs.Prelude.{◌≡◌, ◌≢◌, [], List, IfOk, OnOk, OnErr, Some};
ghost use Rattle.std.specs.Iterator.{IsFinite, Drains};
ghost use Rattle.std.specs.List.Sorted.{IsSortedByKey};
ghost use Rattle.blart_keys.specs.Bulk.{PutsAll};
ghost use Rattle.blart_keys.specs.Bytes.{bytes_cmp};
ghost use Rattle.blart_keys.specs.Content.{IsContent};
ghost use Rattle.blart_keys.specs.Steps.{bytes};
ghost use Rattle.blart_keys.specs.Stored.{kept_pair};
ghost use Rattle.blart_map.specs.Content.{pairs};

use crate::map::TreeMap;
use art_edits::put_ascending;
use art_tree::{Frame, Pairs, Tree};
use blart_keys::{AsBytes, NoPrefixesBytes};
use std::alloc::{AllocError, Global};
use std::cmp::Ordering;
use std::iter::Iterator;

impl<K: NoPrefixesBytes + Drop, V: Drop, const PREFIX_LEN: usize> TreeMap<K, V, PREFIX_LEN> {
    /// Returns a map of the pairs that the iterator yields, inserted one after another like
    /// [`TreeMap::insert`] does: if pairs have the same bytes, the first key is kept, with the last
    /// value. Returns an error only if there is a pair. If there are none, it does not allocate.
    ///
    /// It collects the pairs into a vector first, and [`TreeMap::from_vec`] makes the map.
    ///
    /// Cost: allocates the vector, and then as for [`TreeMap::from_vec`].
    pub fn from_iter<I: Iterator<Item = (K, V)>>(
        alloc: Global,
        items: I,
    ) -> Result<Self, AllocError>
        requires can { I.can_next items }
        requires ends { IsFinite (I.remaining items) }
        ensures made { IfOk result (λ map. (xs : List (K × V)) × Drains I.next_gives items xs
            × PutsAll (bytes K.bytes) kept_pair [] xs (pairs map)) }
        ensures refused { OnErr result ((x : K × V) × (rest : I)
            × I.next_gives items (Some x) rest) }
    {
        let mut all = Vec::new(alloc);
        for item in items {
            if let Err(refused) = all.push(item) {
                drop(all);
                return Err(refused.into());
            }
        }
        TreeMap::from_vec(alloc, all)
    }

    /// Returns a map of the pairs, inserted one after another like [`TreeMap::insert`] does: if
    /// pairs have the same bytes, the first key is kept, with the last value. Returns an error only
    /// if there is a pair. If there are none, it does not allocate.
    ///
    /// It sorts the pairs by their keys' bytes first, unless that fails to allocate. Then
    /// neighbouring pairs lie side by side, which makes walks over the map faster, and each inner
    /// node is made once.
    ///
    /// Cost: allocates for the pairs, sorts them, and makes each leaf and each inner node once. If
    /// the sort fails to allocate, it makes an insertion for each pair.
    ///
    /// ```
    /// let pairs = vec![in alloc; (U32Key::new(2), 'b'), (U32Key::new(1), 'a')]?;
    /// let map = Map::from_vec(alloc, pairs)?;
    /// assert_eq!(map.first_key_value(), Some((&U32Key::new(1), &'a')));
    /// ```
    pub fn from_vec(alloc: Global, items: Vec<(K, V)>) -> Result<Self, AllocError>
        ensures made { IfOk result
            (λ map. PutsAll (bytes K.bytes) kept_pair [] items.items (pairs map)) }
        ensures refused { OnErr result (items.items ≢ []) }
    {
        let mut items = items;
        match items.sort_by(by_bytes) {
            Ok(()) => TreeMap::of_sorted(alloc, items),
            // If sorting fails to allocate, the pairs are inserted in the given order.
            Err(_) => TreeMap::put_in_turn(alloc, items.into_iter()),
        }
    }

    /// Returns a map of pairs whose keys' bytes do not descend. If pairs have the same bytes, the
    /// first key is kept, with the last value.
    fn of_sorted(alloc: Global, items: Vec<(K, V)>) -> Result<Self, AllocError>
        requires { IsSortedByKey (bytes K.bytes) bytes_cmp items.items }
        ensures made { IfOk result
            (λ map. PutsAll (bytes K.bytes) kept_pair [] items.items (pairs map)) }
        ensures refused { OnErr result (items.items ≢ []) }
    {
        let mut sorted = Pairs::new(alloc);
        if let Err(refused) = sorted.reserve(items.len()) {
            drop(sorted);
            drop(items);
            return Err(refused);
        }
        put_ascending(&mut sorted, items);
        TreeMap::of_pairs(alloc, sorted)
    }

    /// Returns the map of these pairs.
    #[tactic(auto, unfolding(crate::specs::Content::pairs))]
    fn of_pairs(alloc: Global, sorted: Pairs<K, V>) -> Result<Self, AllocError>
        requires { IsContent (bytes K.bytes) sorted.pairs }
        ensures made { IfOk result (λ map. pairs map ≡ sorted.pairs) }
        ensures refused { OnErr result (sorted.pairs ≢ []) }
    {
        match Frame::new(alloc, sorted.len()) {
            Ok(frame) => Ok(TreeMap {
                tree: Tree::from_pairs(sorted, frame),
                alloc,
            }),
            Err(refused) => {
                drop(sorted);
                Err(refused)
            }
        }
    }

    /// Returns a map of the pairs that the iterator yields, inserted in the given order.
    fn put_in_turn<I: Iterator<Item = (K, V)>>(alloc: Global, items: I) -> Result<Self, AllocError>
        requires can { I.can_next items }
        requires ends { IsFinite (I.remaining items) }
        ensures made { IfOk result (λ map. (xs : List (K × V)) × Drains I.next_gives items xs
            × PutsAll (bytes K.bytes) kept_pair [] xs (pairs map)) }
        ensures refused { OnErr result ((x : K × V) × (rest : I)
            × I.next_gives items (Some x) rest) }
    {
        let mut map = TreeMap::with_prefix_len(alloc);
        match map.extend(items) {
            Ok(()) => Ok(map),
            Err(refused) => {
                drop(map);
                Err(refused)
            }
        }
    }
}

impl<K: NoPrefixesBytes + Copy, V: Copy, const PREFIX_LEN: usize> TreeMap<K, V, PREFIX_LEN> {
    /// Returns a map of the pairs, inserted one after another like [`TreeMap::insert`] does: if
    /// pairs have the same bytes, the first key is kept, with the last value. Returns an error only
    /// if there is a pair. If there are none, it does not allocate.
    ///
    /// Cost: an insertion for each pair.
    ///
    /// ```
    /// let map = Map::from_array(alloc, [(2u8, 'b'), (1, 'a')])?;
    /// assert_eq!(map.len(), 2);
    /// ```
    pub fn from_array<const N: usize>(alloc: Global, items: [(K, V); N]) -> Result<Self, AllocError>
        ensures made { IfOk result (λ map. PutsAll (bytes K.bytes) kept_pair [] items (pairs map)) }
        ensures refused { OnErr result (items ≢ []) }
    {
        let mut map = TreeMap::with_prefix_len(alloc);
        match map.put_copies(&items) {
            Ok(()) => Ok(map),
            Err(refused) => {
                drop(map);
                Err(refused)
            }
        }
    }

    /// Inserts copies of the pairs, one after another.
    fn put_copies(&mut self, items: &[(K, V)]) -> Result<(), AllocError>
        ensures put { OnOk result
            (PutsAll (bytes K.bytes) kept_pair (pairs self.old) items.now (pairs self.new)) }
        ensures refused { OnErr result (items.now ≢ []) }
    {
        for item in items {
            self.put(item.0, item.1)?;
        }
        Ok(())
    }
}

/// Compares the bytes of the keys of two pairs.
fn by_bytes<K: AsBytes, V>(one: &(K, V), other: &(K, V)) -> Ordering
    ensures { result ≡ bytes_cmp (K.bytes one.now.0) (K.bytes other.now.0) }
{
    one.0.as_bytes().cmp(other.0.as_bytes())
}
