//! The leaves of a map by their ids, for its walks, and for a layer above that removes pairs in a
//! walk.
ghost use Rattle.std.specs.Prelude.{◌≡◌, ◌≢◌, ◌+◌, ◌<◌, ◌≤◌, [], option_map, is_some, IfSome, Some, if◌then◌else◌};
ghost use Rattle.std.specs.Borrow.{sem};
ghost use Rattle.blart_keys.specs.Bounds.{bound_bytes, CanRange};
ghost use Rattle.blart_keys.specs.Content.{between, without};
ghost use Rattle.blart_keys.specs.Steps.{bytes};
ghost use Rattle.art_tree.specs.Leaves.{bytes as leaf_bytes, leaf_in, Has, AreDistinct, without_number};
ghost use Rattle.art_tree.specs.Longest.{longest};
ghost use Rattle.art_walk.specs.Cursor.{leaves_left, FitsIn, PassesFirst, PassesLast};
ghost use Rattle.art_walk.specs.Openings.{longer, opening};
ghost use Rattle.blart_map.specs.Content.{pairs};
ghost use Rattle.blart_map.specs.LentLeaves.{lends_leaf};
ghost use Rattle.blart_map.specs.Passed.{WasFirst, WasLast, StaysLeft};

use crate::map::TreeMap;
use crate::walks::as_bytes;
use art_tree::{LeafId, Visits};
use art_walk::Cursor;
use blart_keys::AsBytes;
use std::ops::Bound;

impl<K: AsBytes, V, const PREFIX_LEN: usize> TreeMap<K, V, PREFIX_LEN> {
    /// Returns a cursor over the pairs within both bounds. It holds no reference to the map: each
    /// step takes the map. If the map has pairs, the bounds must be in order, as for
    /// [`TreeMap::range`]. Does not allocate.
    ///
    /// Cost: an opening.
    ///
    /// ```
    /// let mut visits = Visits::new();
    /// let mut cursor = map.cursor(Bound::<&&str>::Unbounded, Bound::Unbounded);
    /// while let Some(id) = map.step(&mut cursor, &mut visits) {
    ///     if *map.leaf(id).1 == 0 {
    ///         map.take_leaf(id);
    ///     }
    /// }
    /// ```
    pub fn cursor<Q: AsBytes>(&self, start: Bound<&Q>, end: Bound<&Q>) -> Cursor
        requires { CanRange (pairs self.now) (bound_bytes Q.bytes start)
            (bound_bytes Q.bytes end) }
        ensures fits { FitsIn result self.now }
        ensures left { pairs (leaves_left result self.now)
            ≡ between (bytes K.bytes) (pairs self.now)
            (bound_bytes Q.bytes start.entry) (bound_bytes Q.bytes end.entry) }
    {
        self.cursor_counted(start, end, &mut Visits::new())
    }

    /// Like [`TreeMap::cursor`], and counts the visits.
    ///
    /// Cost: at most 2 * (n + 2) * (L + 2) visits, if the longer bound has n bytes and the longest
    /// key L bytes, and at least one, but none on an empty map. Each step that returns a leaf is
    /// one more.
    ///
    /// ```
    /// let mut visits = Visits::new();
    /// let (start, end) = (Bound::Included(&"b"), Bound::Excluded(&"d"));
    /// let mut cursor = map.cursor_counted(start, end, &mut visits);
    /// let first = map.step(&mut cursor, &mut visits);
    /// ```
    pub fn cursor_counted<Q: AsBytes>(
        &self,
        start: Bound<&Q>,
        end: Bound<&Q>,
        visits: &mut Visits,
    ) -> Cursor
        requires { CanRange (pairs self.now) (bound_bytes Q.bytes start)
            (bound_bytes Q.bytes end) }
        ensures fits { FitsIn result self.now }
        ensures left { pairs (leaves_left result self.now)
            ≡ between (bytes K.bytes) (pairs self.now)
            (bound_bytes Q.bytes start.entry) (bound_bytes Q.bytes end.entry) }
        ensures leaves { leaves_left result self.now
            ≡ between (leaf_bytes K.bytes) self.now
            (bound_bytes Q.bytes start.entry) (bound_bytes Q.bytes end.entry) }
        ensures counted { visits.new.count ≤ visits.old.count
            + opening (longer (bound_bytes Q.bytes start.entry) (bound_bytes Q.bytes end.entry))
            (longest (bytes K.bytes) (pairs self.now)) }
        ensures grows { visits.old.count ≤ visits.new.count }
        ensures some_counted { pairs self.now ≢ [] → visits.old.count < visits.new.count }
        ensures empty { pairs self.now ≡ [] → visits.new.count ≡ visits.old.count }
    {
        Cursor::range(&self.tree, as_bytes(start), as_bytes(end), visits)
    }

    /// Passes the first leaf that a cursor has left, and returns its id, or `None` if no leaf is
    /// left. The pair of the leaf is not read: see [`TreeMap::leaf`].
    ///
    /// Cost: one visit if it returns a leaf, and none otherwise.
    #[inline(always)]
    pub fn step(&self, cursor: &mut Cursor, visits: &mut Visits) -> Option<LeafId>
        requires { FitsIn cursor.old self.now }
        ensures fits { FitsIn cursor.new self.now }
        ensures passes { PassesFirst (leaves_left cursor.old self.now) result
            (leaves_left cursor.new self.now) }
        ensures there { IfSome result (λ id. Has self.now id) }
        ensures first { IfSome result (λ id. WasFirst self.now cursor.old id cursor.new) }
        ensures counted { visits.new.count
            ≡ visits.old.count + (if is_some result then 1 else 0) }
        ensures distinct { AreDistinct self.now }
    {
        self.tree.law();
        cursor.step(&self.tree, visits)
    }

    /// Passes the last leaf that a cursor has left, and returns its id, or `None` if no leaf is
    /// left. The pair of the leaf is not read: see [`TreeMap::leaf`].
    ///
    /// Cost: one visit if it returns a leaf, and none otherwise.
    #[inline(always)]
    pub fn step_back(&self, cursor: &mut Cursor, visits: &mut Visits) -> Option<LeafId>
        requires { FitsIn cursor.old self.now }
        ensures fits { FitsIn cursor.new self.now }
        ensures passes { PassesLast (leaves_left cursor.old self.now) result
            (leaves_left cursor.new self.now) }
        ensures there { IfSome result (λ id. Has self.now id) }
        ensures last { IfSome result (λ id. WasLast self.now cursor.old id cursor.new) }
        ensures counted { visits.new.count
            ≡ visits.old.count + (if is_some result then 1 else 0) }
        ensures distinct { AreDistinct self.now }
    {
        self.tree.law();
        cursor.step_back(&self.tree, visits)
    }

    /// Returns the pair of a leaf.
    ///
    /// Cost: one visit, which the step that returned the id has counted.
    pub fn leaf(&self, id: LeafId) -> (&K, &V)
        requires { Has self.now id }
        ensures { leaf_in self.now id ≡ Some (result.0.now, result.1.now) }
    {
        self.tree.leaf(id, &mut Visits::new())
    }

    /// Returns the key of a leaf, and a mutable reference to its value.
    pub(crate) fn leaf_mut(&mut self, id: LeafId) -> (&K, &mut V)
        requires { Has self.old id }
        ensures* writes_back { sem 𝓛
            (lends_leaf K.row V.row PREFIX_LEN.row K.AsBytes self.entry id result.1) }
        ensures value { leaf_in self.old id ≡ Some (result.0.now, result.1.now) }
    {
        self.tree.leaf_mut(id)
    }

    /// Returns a mutable reference to the value of a leaf.
    pub(crate) fn value_mut(&mut self, id: LeafId) -> &mut V
        requires { Has self.old id }
        ensures* writes_back { sem 𝓛
            (lends_leaf K.row V.row PREFIX_LEN.row K.AsBytes self.entry id result) }
        ensures value { option_map (λ p. p.1) (leaf_in self.old id) ≡ Some result.now }
    {
        self.tree.value_mut(id)
    }
}

impl<K: AsBytes + Drop, V: Drop, const PREFIX_LEN: usize> TreeMap<K, V, PREFIX_LEN> {
    /// Removes a leaf, and returns its pair. A cursor that has passed the leaf has the same leaves
    /// left. Does not return an error.
    ///
    /// Cost: one descent.
    pub fn take_leaf(&mut self, id: LeafId) -> (K, V)
        requires { Has self.old id }
        ensures value { leaf_in self.old id ≡ Some result }
        ensures rest { self.new ≡ without_number self.old id }
        ensures removed { pairs self.new
            ≡ without (bytes K.bytes) (pairs self.old) (K.bytes result.0) }
        ensures left { StaysLeft self.old id self.new }
    {
        self.tree.law();
        self.tree.remove(id)
    }
}
