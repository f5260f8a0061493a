//! Points and placements of pairs, and the calls that entries make of their map.
ghost use Rattle.std.specs.Prelude.{◌≡◌, ◌+◌, ◌<◌, false, eqb, option_map, is_some, Some, None, IfOk, IfSome, IfNone, OnErr};
ghost use Rattle.std.specs.Borrow.{sem};
ghost use Rattle.std.specs.Fn.{FnOnceReturnsAt};
ghost use denote.Ref.{Bor};
ghost use Rattle.blart_keys.specs.Content.{stores, conflict, front_of, IsContent};
ghost use Rattle.art_tree.specs.Leaves.{first_number, last_number, Has, AreDistinct, bytes};
ghost use Rattle.art_tree.specs.Points.{IsGood};
ghost use Rattle.art_tree.specs.declared.tree.point.Point.TheVariants.{Exact};
ghost use Rattle.art_tree.specs.Pairs.{pairs_of};
ghost use Rattle.art_walk.specs.Cursor.{span_of, IsSpan};
ghost use Rattle.blart_map.specs.EntryLends.{rests_if_none};
ghost use Rattle.art_edits.specs.Places.{IsPlaced};

use crate::map::TreeMap;
use crate::occupied::{Occupied, OccupiedEntry};
use art_edits::{place_ready, point_of_disjoint, room_for};
use art_tree::{LeafId, Point, Visits};
use art_walk::SubtreeIter;
use blart_keys::{AsBytes, NoPrefixesBytes};
use std::alloc::AllocError;
use std::marker::PhantomData;

impl<K: AsBytes, V, const PREFIX_LEN: usize> TreeMap<K, V, PREFIX_LEN> {
    /// Does nothing. Its contract says what holds of the pairs with the ids of their leaves.
    pub(crate) fn numbers_law(&self)
        ensures content { IsContent (bytes K.bytes) self.now }
        ensures distinct { AreDistinct self.now }
    {
        self.tree.law()
    }

    /// Returns an iterator over the pairs from one leaf through another.
    pub(crate) fn iter_between(
        &self,
        first: LeafId,
        last: LeafId,
    ) -> SubtreeIter<'_, K, V, PREFIX_LEN>
        requires { IsSpan self.now first last }
        ensures { result ≡ pairs_of (span_of self.now first last) }
    {
        SubtreeIter::new(&self.tree, first, last)
    }

    /// Returns the entry of the first leaf if it is also the last, and `None` if it is not.
    pub(crate) fn only_entry(
        &mut self,
        first: LeafId,
        last: LeafId,
    ) -> Option<Occupied<'_, K, V, PREFIX_LEN>>
        requires { Has self.old first }
        ensures* stands { sem 𝓛
            (rests_if_none K.row V.row PREFIX_LEN.row K.AsBytes self.entry result) }
        ensures found { is_some result ≡ eqb first last }
        ensures same_map { IfSome result (λ o. o.map.ghost_name ≡ self.entry.ghost_name) }
        ensures unchanged { IfSome result (λ o. o.map.now ≡ self.old) }
        ensures leaf { IfSome result (λ o. o.id ≡ first) }
    {
        if first == last {
            Some(OccupiedEntry {
                map: self,
                id: first,
                lender: PhantomData,
            })
        } else {
            None
        }
    }

    /// Returns the leaf of the first pair.
    pub(crate) fn first_leaf(&self) -> Option<LeafId>
        ensures { result ≡ first_number self.now }
    {
        self.tree.first()
    }

    /// Returns the leaf of the last pair.
    pub(crate) fn last_leaf(&self) -> Option<LeafId>
        ensures { result ≡ last_number self.now }
    {
        self.tree.last()
    }

    /// Returns the leaf whose key's bytes are a prefix of the query's.
    pub(crate) fn front_leaf(&self, query: &[u8]) -> Option<LeafId>
        ensures { result ≡ option_map (λ p. p.0) (front_of (bytes K.bytes) self.now query.now) }
    {
        self.tree.search_front(query, &mut Visits::new())
    }

    /// Returns the point of the query's bytes.
    pub(crate) fn point_of(&self, query: &[u8]) -> Point
        ensures { IsGood K.bytes self.now result query.now }
    {
        self.tree.point(query)
    }
}

impl<K: NoPrefixesBytes, V, const PREFIX_LEN: usize> TreeMap<K, V, PREFIX_LEN> {
    /// Returns the leaf of the key. If there is none, a pair with the key may be placed, since the
    /// key never conflicts.
    pub(crate) fn leaf_of_disjoint(&self, key: &K) -> Option<LeafId>
        ensures there { IfSome result (λ id. Has self.now id) }
        ensures good { IfSome result
            (λ id. IsGood K.bytes self.now (Exact id) (K.bytes key.now)) }
        ensures absent { IfNone result
            (stores (bytes K.bytes) self.now (K.bytes key.now) ≡ false) }
        ensures free { IfNone result
            (conflict (bytes K.bytes) self.now (K.bytes key.now) ≡ false) }
        ensures content { IsContent (bytes K.bytes) self.now }
        ensures distinct { AreDistinct self.now }
    {
        match point_of_disjoint(&self.tree, key) {
            Point::Exact(id) => Some(id),
            _ => None,
        }
    }
}

impl<K: AsBytes + Drop, V: Drop, const PREFIX_LEN: usize> TreeMap<K, V, PREFIX_LEN> {
    /// Places a pair whose key is related to no stored key, and returns its leaf. If it fails to
    /// allocate, the map is unchanged.
    pub(crate) fn place_new(&mut self, key: K, value: V) -> Result<LeafId, AllocError>
        requires absent { stores (bytes K.bytes) self.old (K.bytes key) ≡ false }
        requires free { conflict (bytes K.bytes) self.old (K.bytes key) ≡ false }
        ensures placed { IfOk result (λ id. IsPlaced K.bytes self.old key value id self.new) }
        ensures err { OnErr result (self.new ≡ self.old) }
    {
        match room_for(&mut self.tree, &key) {
            Ok(point) => Ok(place_ready(&mut self.tree, point, key, value)),
            Err(refused) => Err(refused),
        }
    }

    /// Places a pair like [`TreeMap::place_new`], with the value that the closure returns. The
    /// closure is called once there is room.
    pub(crate) fn place_new_with<F: FnOnce() -> V + Drop>(
        &mut self,
        key: K,
        default: F,
    ) -> Result<LeafId, AllocError>
        requires absent { stores (bytes K.bytes) self.old (K.bytes key) ≡ false }
        requires free { conflict (bytes K.bytes) self.old (K.bytes key) ≡ false }
        requires can { F.pre default }
        ensures placed { IfOk result
            (λ id. (v : V) × F.post default v × IsPlaced K.bytes self.old key v id self.new) }
        ensures err { OnErr result (self.new ≡ self.old) }
    {
        match room_for(&mut self.tree, &key) {
            Ok(point) => {
                let value = default();
                Ok(place_ready(&mut self.tree, point, key, value))
            }
            Err(refused) => Err(refused),
        }
    }

    /// Places a pair like [`TreeMap::place_new_with`]. The closure takes the key.
    pub(crate) fn place_new_with_key<F: FnOnce(&K) -> V + Drop>(
        &mut self,
        key: K,
        default: F,
    ) -> Result<LeafId, AllocError>
        requires absent { stores (bytes K.bytes) self.old (K.bytes key) ≡ false }
        requires free { conflict (bytes K.bytes) self.old (K.bytes key) ≡ false }
        requires can { (p : Bor K) → p.now ≡ key → F.pre default p }
        ensures placed { IfOk result (λ id. (v : V) × FnOnceReturnsAt F.FnOnce default key v
            × IsPlaced K.bytes self.old key v id self.new) }
        ensures err { OnErr result (self.new ≡ self.old) }
    {
        match room_for(&mut self.tree, &key) {
            Ok(point) => {
                let value = default(&key);
                Ok(place_ready(&mut self.tree, point, key, value))
            }
            Err(refused) => Err(refused),
        }
    }
}
