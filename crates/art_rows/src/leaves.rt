//! The leaf records, and their rows in the order of the keys.
ghost use Rattle.std.specs.Prelude.{◌≡◌, ◌⊎◌, ℕ, ◌+◌, ◌-◌, ◌*◌, ◌<◌, ◌≤◌, [], length, map, option_map, Some, None, IsSome, IfSome, OnOk, IfOk, OnErr};
ghost use Rattle.art_rows.specs.Numbers.{leaf_in, Has, AreDistinct, first_number, last_number, number_after, number_before, without_number, with_pair};
ghost use Rattle.art_rows.specs.Rows.{position_at, nth, RunsBefore, IsLookedUp, StandsAfter};
ghost use Rattle.art_rows.specs.declared.row.Position.{Position};
ghost use Rattle.art_rows.specs.declared.row.TheConstants.{ROW};
ghost use Rattle.art_rows.specs.Leaves.{count_before, room, end_room, TakesFirst, TakesLast, AreCopies};
ghost use Rattle.art_rows.specs.LeafLends.{lends_value, lends_leaf};
ghost use Rattle.std.specs.Borrow.{sem};

mod placing;

use crate::following::Following;
use crate::row::{HALF, Position, ROW};
use crate::rows::Rows;
use crate::run::Run;
use art_slots::{LeafId, Table, Visits};
use std::alloc::{AllocError, Global};
use std::marker::Model;
use std::mem;

/// The number of rows is less than this, so that all numbers of cells are small.
const MOST_ROWS: usize = 1 << 56;

/// A key and its value.
#[derive(Drop)]
pub(crate) struct Leaf<K, V> {
    pub(crate) key: K,
    pub(crate) value: V,
}

impl<K, V> Leaf<K, V> {
    /// Returns the key, and a mutable reference to the value.
    fn pair_mut(&mut self) -> (&K, &mut V)
        ensures* writes_back { sem 𝓛 (lends_value K.row V.row self.entry result.1) }
        ensures key { result.0.now ≡ self.old.key }
        ensures value { result.1.now ≡ self.old.value }
    {
        (&self.key, &mut self.value)
    }
}

impl<K: Clone, V: Clone> Clone for Leaf<K, V> {
    ghost is_clone = { λ x y. K.is_clone x.key y.key × V.is_clone x.value y.value };

    fn clone(&self) -> Result<Self, AllocError> {
        Ok(Leaf {
            key: self.key.clone()?,
            value: self.value.clone()?,
        })
    }
}

/// The leaves of a tree in byte order. A contract sees the pairs in order, each under its leaf's
/// id, the rows of the ids, and the number of spare rows.
///
/// The id of a leaf is the number of its cell. A new leaf goes into an unused cell of its row. So
/// the cells of a row that was in no cut lie side by side.
#[derive(Drop)]
pub struct Leaves<K, V> {
    pub(crate) records: Table<Leaf<K, V>>,
    pub(crate) rows: Rows,
}

impl<K, V> Model for Leaves<K, V> {
    ghost use Rattle.art_rows.specs.Leaves.{Leaves as Pairs, leaves_code};

    ghost Value = { Pairs K V };

    ghost coded = { leaves_code K.code V.code };

    ghost use Rattle.art_rows.specs.Filing.{content, AllPlaced};

    ghost view = { λ t. content t.records t.rows };

    ghost invariant = { λ t. AllPlaced t.records t.rows };
}

impl<K, V> Leaves<K, V> {
    /// Returns no leaves, and no spare rows. Does not allocate.
    pub fn new(alloc: Global) -> Self
        ensures pairs { result.pairs ≡ [] }
        ensures rows { result.rows ≡ [] }
        ensures spare_rows { result.spare_rows ≡ 0 }
    {
        Leaves {
            records: Table::new(alloc),
            rows: Rows::new(alloc),
        }
    }

    /// Does nothing. Its contract says that no id comes twice, and that no number of a row does.
    pub fn law(&self)
        ensures distinct { AreDistinct self.now.pairs }
        ensures rows { AreDistinct self.now.rows }
    {
        let _ = &self.rows;
    }

    /// Returns the number of leaves.
    pub fn len(&self) -> usize
        ensures { result ≡ length self.now.pairs }
    {
        self.records.used()
    }

    /// Returns the position of a leaf. It tries the end of the leaf's row first: if pairs come in
    /// ascending order, each comes after the last leaf of a row, and no row is searched. Reads no
    /// leaf.
    pub fn position_of(&self, id: LeafId) -> Position
        requires { Has self.now.pairs id }
        ensures { position_at self.now.rows (count_before self.now.pairs id) ≡ Some result }
    {
        let row = self.rows.row_of(id);
        let ids = self.rows.read(row);
        let last = ids.len() - 1;
        if ids.has_at(last, id) {
            return Position { row, index: last };
        }
        let index = ids.index_of(id);
        Position { row, index }
    }

    /// Returns the position of a leaf. `seen` is a guess of it. This is a function of its own, so
    /// that a step of a cursor is short. It returns two words, which go in registers: a larger
    /// result would go through memory, and each step would clear that memory.
    #[inline(never)]
    fn position_near(&self, id: LeafId, seen: Position) -> Position
        requires { Has self.now.pairs id }
        ensures { position_at self.now.rows (count_before self.now.pairs id) ≡ Some result }
    {
        match self.rows.get(seen.row) {
            Some(row) if row.has_at(seen.index, id) => seen,
            _ => self.position_of(id),
        }
    }

    /// Returns the leaf after this one, if `seen` is the position of this one, and it is not the
    /// last of its row.
    fn after_in_row(&self, id: LeafId, seen: Position) -> Option<LeafId>
        requires { Has self.now.pairs id }
        ensures after { IfSome result (λ n. number_after self.now.pairs id ≡ Some n) }
        ensures within { IfSome result (λ _. seen.index < ROW) }
        ensures there { IfSome (leaf_in self.now.rows seen.row) (λ ids. nth ids seen.index ≡ Some id
            → seen.index + 1 < length ids → IsSome result) }
    {
        let row = self.rows.get(seen.row)?;
        // A row has at most 64 numbers, so the index after this one is small.
        let _len = row.len();
        row.after(seen.index, id)
    }

    /// Returns the leaf before this one, if `seen` is the position of this one, and it is not the
    /// first of its row.
    fn before_in_row(&self, id: LeafId, seen: Position) -> Option<LeafId>
        requires { Has self.now.pairs id }
        ensures before { IfSome result (λ n. number_before self.now.pairs id ≡ Some n) }
        ensures within { IfSome result (λ _. 0 < seen.index) }
        ensures there { IfSome (leaf_in self.now.rows seen.row) (λ ids. nth ids seen.index ≡ Some id
            → 0 < seen.index → IsSome result) }
    {
        let row = self.rows.get(seen.row)?;
        row.before(seen.index, id)
    }

    /// Returns the number at a position.
    pub(crate) fn number(&self, position: Position) -> LeafId
        requires { (k : ℕ) × (position_at self.now.rows k ≡ Some position) }
        ensures { (k : ℕ) → position_at self.now.rows k ≡ Some position
            → nth (map (λ p. p.0) self.now.pairs) k ≡ Some result }
    {
        self.rows.read(position.row).at(position.index)
    }

    /// Returns the position of the first leaf.
    pub(crate) fn first_position(&self) -> Option<Position>
        ensures { result ≡ position_at self.now.rows 0 }
    {
        match self.rows.first() {
            None => None,
            Some(row) => Some(Position { row, index: 0 }),
        }
    }

    /// Returns the position of the last leaf.
    pub(crate) fn last_position(&self) -> Option<Position>
        ensures { result ≡ position_at self.now.rows (length self.now.pairs - 1) }
    {
        match self.rows.last() {
            None => None,
            Some(row) => {
                let index = self.rows.read(row).len() - 1;
                Some(Position { row, index })
            }
        }
    }

    /// Returns the position after this one.
    #[inline(always)]
    pub(crate) fn forward(&self, position: Position) -> Option<Position>
        requires { (k : ℕ) × (position_at self.now.rows k ≡ Some position) }
        ensures { (k : ℕ) → position_at self.now.rows k ≡ Some position
            → result ≡ position_at self.now.rows (k + 1) }
    {
        let len = self.rows.read(position.row).len();
        let index = position.index + 1;
        if index < len {
            return Some(Position {
                row: position.row,
                index,
            });
        }
        match self.rows.next_of(position.row) {
            None => None,
            Some(row) => Some(Position { row, index: 0 }),
        }
    }

    /// Returns the position before this one.
    #[inline(always)]
    pub(crate) fn backward(&self, position: Position) -> Option<Position>
        requires { (k : ℕ) × (position_at self.now.rows k ≡ Some position) }
        ensures before { (k : ℕ) → position_at self.now.rows (k + 1) ≡ Some position
            → result ≡ position_at self.now.rows k }
        ensures first { position_at self.now.rows 0 ≡ Some position → result ≡ None }
    {
        let rows = &self.rows;
        if 0 < position.index {
            return Some(Position {
                row: position.row,
                index: position.index - 1,
            });
        }
        match rows.prev_of(position.row) {
            None => None,
            Some(row) => {
                let index = rows.read(row).len() - 1;
                Some(Position { row, index })
            }
        }
    }

    /// Returns the pair of a leaf. One visit.
    pub fn read(&self, id: LeafId, visits: &mut Visits) -> (&K, &V)
        requires { Has self.now.pairs id }
        ensures value { leaf_in self.now.pairs id ≡ Some (result.0.now, result.1.now) }
        ensures counted { visits.new.count ≡ visits.old.count + 1 }
    {
        visits.add_one();
        let leaf = self.records.read(id.number());
        (&leaf.key, &leaf.value)
    }

    /// Returns the first leaf.
    pub fn first(&self) -> Option<LeafId>
        ensures { result ≡ first_number self.now.pairs }
    {
        let _ = &self.rows;
        match self.first_position() {
            None => None,
            Some(position) => Some(self.number(position)),
        }
    }

    /// Returns the last leaf.
    pub fn last(&self) -> Option<LeafId>
        ensures { result ≡ last_number self.now.pairs }
    {
        let _ = &self.rows;
        match self.last_position() {
            None => None,
            Some(position) => Some(self.number(position)),
        }
    }

    /// Returns the leaf after this one.
    pub fn next_of(&self, id: LeafId) -> Option<LeafId>
        requires { Has self.now.pairs id }
        ensures { result ≡ number_after self.now.pairs id }
    {
        let _ = &self.rows;
        match self.forward(self.position_of(id)) {
            None => None,
            Some(position) => Some(self.number(position)),
        }
    }

    /// Returns the leaf after this one. `seen` is a guess of the position of this leaf. If it is
    /// right, no row is searched. The call sets it to the position of the returned leaf. Reads no
    /// leaf.
    #[inline(always)]
    pub fn next_from(&self, id: LeafId, seen: &mut Position) -> Option<LeafId>
        requires { Has self.now.pairs id }
        ensures { result ≡ number_after self.now.pairs id }
    {
        if let Some(near) = self.after_in_row(id, *seen) {
            seen.index += 1;
            return Some(near);
        }
        let (next, at) = self.next_by_rows(id, *seen);
        *seen = at;
        next
    }

    /// Returns the leaf after this one, and its position, if the guess `seen` is wrong or the row
    /// ends.
    #[inline(always)]
    fn next_by_rows(&self, id: LeafId, seen: Position) -> (Option<LeafId>, Position)
        requires { Has self.now.pairs id }
        ensures { result.0 ≡ number_after self.now.pairs id }
    {
        let _ = &self.rows;
        match self.forward(self.position_near(id, seen)) {
            None => (None, seen),
            Some(position) => (Some(self.number(position)), position),
        }
    }

    /// Returns the leaf before this one. `seen` is a guess of the position of this leaf. If it is
    /// right, no row is searched. The call sets it to the position of the returned leaf. Reads no
    /// leaf.
    #[inline(always)]
    pub fn prev_from(&self, id: LeafId, seen: &mut Position) -> Option<LeafId>
        requires { Has self.now.pairs id }
        ensures { result ≡ number_before self.now.pairs id }
    {
        if let Some(near) = self.before_in_row(id, *seen) {
            seen.index -= 1;
            return Some(near);
        }
        let (prev, at) = self.prev_by_rows(id, *seen);
        *seen = at;
        prev
    }

    /// Returns the leaf before this one, and its position, if the guess `seen` is wrong or the row
    /// begins.
    #[inline(always)]
    fn prev_by_rows(&self, id: LeafId, seen: Position) -> (Option<LeafId>, Position)
        requires { Has self.now.pairs id }
        ensures { result.0 ≡ number_before self.now.pairs id }
    {
        let _ = &self.rows;
        match self.backward(self.position_near(id, seen)) {
            None => (None, seen),
            Some(position) => (Some(self.number(position)), position),
        }
    }

    /// Returns the rest of the row of a leaf, and the next row. Returns neither if the ids have
    /// high halves.
    pub fn following(&self, id: LeafId) -> Following<'_>
        requires { Has self.now.pairs id }
        ensures { StandsAfter self.now.pairs self.now.rows id result }
    {
        let position = self.position_of(id);
        match self.rows.read(position.row).run_after(position.index) {
            None => Following::unknown(),
            Some(run) => Following {
                run,
                row: self.row_after(position.row),
                first: None,
                rest: Run::empty(),
            },
        }
    }

    /// Returns the leaf after this one. `following` has some of the ids directly after this one in
    /// its row. If these are all, it may also have the next row. The call sets it to what follows
    /// the returned leaf. At the end of a row it looks up the numbers of the row after the next
    /// one, so that they are there when the walk comes to it.
    #[inline(always)]
    pub fn next_in<'a>(&'a self, id: LeafId, following: &mut Following<'a>) -> Option<LeafId>
        requires has { Has self.now.pairs id }
        requires following { StandsAfter self.now.pairs self.now.rows id following.old }
        ensures next { result ≡ number_after self.now.pairs id }
        ensures following { IfSome result
            (λ n. StandsAfter self.now.pairs self.now.rows n following.new) }
    {
        self.law();
        // Most steps write only the run.
        if let Some(next) = following.run.split_off_first() {
            return Some(next);
        }
        let _ = &self.rows;
        let (first, run) = match following.first {
            Some(first) => (Some(first), mem::replace(&mut following.rest, Run::empty())),
            None => self.look_up(following.row),
        };
        let (Some(row), Some(next)) = (following.row, first) else {
            following.run = Run::empty();
            following.row = None;
            following.first = None;
            return self.next_of(id);
        };
        let after = self.row_after(row);
        let (first, rest) = self.look_up(after);
        following.run = run;
        following.row = after;
        following.first = first;
        following.rest = rest;
        Some(next)
    }

    /// Returns the first number of a row, and the others, or no first number if there is no row, or
    /// the numbers have high halves.
    #[inline(always)]
    fn look_up(&self, row: Option<usize>) -> (Option<LeafId>, Run<'_>)
        requires { IfSome row (Has self.now.rows) }
        ensures { IfSome row (IsLookedUp self.now.rows result.0 result.1) }
    {
        let Some(row) = row else {
            return (None, Run::empty());
        };
        let mut run = self.run_of(row);
        let first = run.split_off_first();
        (first, run)
    }

    /// Returns all numbers of a row, or none if they have high halves. The result goes in
    /// registers, so that no step of a walk clears memory for it.
    #[cold]
    #[inline(never)]
    fn run_of(&self, row: usize) -> Run<'_>
        requires { Has self.now.rows row }
        ensures { (result ≡ []) ⊎ (leaf_in self.now.rows row ≡ Some result) }
    {
        self.rows.read(row).run()
    }

    /// Returns the row after another. The result goes in registers, too.
    #[cold]
    #[inline(never)]
    fn row_after(&self, row: usize) -> Option<usize>
        requires { Has self.now.rows row }
        ensures next { result ≡ number_after self.now.rows row }
        ensures there { IfSome result (Has self.now.rows) }
    {
        self.rows.next_of(row)
    }

    /// Returns the leaf before this one. `run` has ids directly before this one in its row, and the
    /// call sets it to ids directly before the returned leaf. If it is not empty, no row is read.
    #[inline(always)]
    pub fn prev_in<'a>(&'a self, id: LeafId, run: &mut Run<'a>) -> Option<LeafId>
        requires has { Has self.now.pairs id }
        requires runs { RunsBefore self.now.pairs id run.old }
        ensures prev { result ≡ number_before self.now.pairs id }
        ensures runs { IfSome result (λ n. RunsBefore self.now.pairs n run.new) }
    {
        self.law();
        if let Some(prev) = run.split_off_last() {
            return Some(prev);
        }
        let (prev, before) = self.prev_run(id);
        *run = before;
        prev
    }

    /// Returns the leaf before this one, and the numbers before that leaf in its row.
    #[cold]
    #[inline(never)]
    fn prev_run(&self, id: LeafId) -> (Option<LeafId>, Run<'_>)
        requires { Has self.now.pairs id }
        ensures prev { result.0 ≡ number_before self.now.pairs id }
        ensures runs { IfSome result.0 (λ n. RunsBefore self.now.pairs n result.1) }
    {
        let rows = &self.rows;
        let Some(position) = self.backward(self.position_of(id)) else {
            return (None, Run::empty());
        };
        let ids = rows.read(position.row);
        let prev = ids.at(position.index);
        match ids.run_before(position.index) {
            None => (Some(prev), Run::empty()),
            Some(run) => (Some(prev), run),
        }
    }

    /// Returns the leaf before this one.
    pub fn prev_of(&self, id: LeafId) -> Option<LeafId>
        requires { Has self.now.pairs id }
        ensures { result ≡ number_before self.now.pairs id }
    {
        let _ = &self.rows;
        match self.backward(self.position_of(id)) {
            None => None,
            Some(position) => Some(self.number(position)),
        }
    }
}

impl<K, V> Leaves<K, V> {
    /// Returns the key of a leaf, and a mutable reference to its value.
    pub fn get_mut(&mut self, id: LeafId) -> (&K, &mut V)
        requires { Has self.old.pairs id }
        ensures* writes_back { sem 𝓛 (lends_leaf K.row V.row self.entry id result.1) }
        ensures value { leaf_in self.old.pairs id ≡ Some (result.0.now, result.1.now) }
    {
        self.records.get_mut(id.number()).pair_mut()
    }

    /// Returns a mutable reference to the value of a leaf.
    pub fn value_mut(&mut self, id: LeafId) -> &mut V
        requires { Has self.old.pairs id }
        ensures* writes_back { sem 𝓛 (lends_leaf K.row V.row self.entry id result) }
        ensures value { option_map (λ p. p.1) (leaf_in self.old.pairs id) ≡ Some result.now }
    {
        self.get_mut(id).1
    }
}

impl<K: Clone, V: Clone> Leaves<K, V> {
    /// Returns the leaves in the same rows, with a clone of each key and value, and as many spare
    /// rows, or an error if it fails to allocate.
    pub fn clone(&self) -> Result<Self, AllocError>
        ensures cloned { IfOk result
            (λ copy. AreCopies K.is_clone V.is_clone self.now.pairs copy.pairs) }
        ensures rows { IfOk result (λ copy. copy.rows ≡ self.now.rows) }
        ensures spare_rows { IfOk result (λ copy. copy.spare_rows ≡ self.now.spare_rows) }
    {
        Ok(Leaves {
            records: self.records.clone()?,
            rows: self.rows.clone()?,
        })
    }
}

impl<K: Drop, V: Drop> Leaves<K, V> {
    /// Removes a leaf, and returns its pair. `seen` is a guess of the position of the leaf. If it
    /// is right, no row is searched.
    pub fn remove(&mut self, id: LeafId, seen: Position) -> (K, V)
        requires { Has self.old.pairs id }
        ensures value { leaf_in self.old.pairs id ≡ Some result }
        ensures rest { self.new.pairs ≡ without_number self.old.pairs id }
        ensures room { room self.old ≤ room self.new }
    {
        let position = self.position_near(id, seen);
        self.remove_at(id, position)
    }

    /// Removes the leaf at this position, and returns its pair.
    fn remove_at(&mut self, id: LeafId, position: Position) -> (K, V)
        requires has { Has self.old.pairs id }
        requires at { position_at self.old.rows (count_before self.old.pairs id) ≡ Some position }
        ensures value { leaf_in self.old.pairs id ≡ Some result }
        ensures rest { self.new.pairs ≡ without_number self.old.pairs id }
        ensures room { room self.old ≤ room self.new }
    {
        let leaf = self.records.take(id.number());
        self.rows.remove(position.row, position.index);
        (leaf.key, leaf.value)
    }

    /// Removes the first leaf, and returns its pair. It finds the leaf by the rows alone. So a
    /// caller that removes one leaf after another need not wait for one to find the next.
    pub fn take_first(&mut self) -> Option<(K, V)>
        ensures takes { TakesFirst self.old.pairs result self.new.pairs }
        ensures room { room self.old ≤ room self.new }
    {
        let _ = &self.rows;
        let Some(position) = self.first_position() else {
            return None;
        };
        let id = self.number(position);
        Some(self.remove_at(id, position))
    }

    /// Removes the last leaf, and returns its pair. It finds the leaf by the rows alone.
    pub fn take_last(&mut self) -> Option<(K, V)>
        ensures takes { TakesLast self.old.pairs result self.new.pairs }
        ensures room { room self.old ≤ room self.new }
    {
        let _ = &self.rows;
        let Some(position) = self.last_position() else {
            return None;
        };
        let id = self.number(position);
        Some(self.remove_at(id, position))
    }

    /// Replaces the pair of a leaf, and returns the old pair.
    pub fn exchange(&mut self, id: LeafId, key: K, value: V) -> (K, V)
        requires { Has self.old.pairs id }
        ensures value { leaf_in self.old.pairs id ≡ Some result }
        ensures pairs { self.new.pairs ≡ with_pair self.old.pairs id (key, value) }
        ensures rows { self.new.rows ≡ self.old.rows }
        ensures spare_rows { self.new.spare_rows ≡ self.old.spare_rows }
    {
        let leaf = self.records.get_mut(id.number());
        let old_key = mem::replace(&mut leaf.key, key);
        let old_value = mem::replace(&mut leaf.value, value);
        (old_key, old_value)
    }

    /// Makes room for `n` more leaves. If it fails to allocate, it returns an error, and the leaves
    /// are unchanged. The room is never less than before.
    #[inline(always)]
    pub fn reserve(&mut self, n: usize) -> Result<(), AllocError>
        ensures pairs { self.new.pairs ≡ self.old.pairs }
        ensures rows { self.new.rows ≡ self.old.rows }
        ensures grows { room self.old ≤ room self.new }
        ensures ok { OnOk result (n ≤ room self.new) }
        ensures needed { OnErr result (self.old.spare_rows < n) }
    {
        let sure = n.div_ceil(HALF) + self.records.used().div_ceil(ROW) + 1;
        let rows = if sure < n { sure } else { n };
        if rows <= self.rows.spare() {
            return Ok(());
        }
        self.add_rows(rows)
    }

    /// Makes room for `n` more leaves after all others, with a spare row for each 64. If it fails
    /// to allocate, it returns an error, and the leaves are unchanged. The room is never less than
    /// before.
    pub fn reserve_end(&mut self, n: usize) -> Result<(), AllocError>
        ensures pairs { self.new.pairs ≡ self.old.pairs }
        ensures rows { self.new.rows ≡ self.old.rows }
        ensures grows { end_room self.old ≤ end_room self.new }
        ensures ok { OnOk result (n ≤ end_room self.new) }
        ensures needed { OnErr result (ROW * self.old.spare_rows < n) }
    {
        let rows = n.div_ceil(ROW);
        if rows <= self.rows.spare() {
            return Ok(());
        }
        self.add_rows(rows)
    }

    /// Makes spare rows until there are `count`.
    #[cold]
    #[inline(never)]
    fn add_rows(&mut self, count: usize) -> Result<(), AllocError>
        requires { self.old.spare_rows < count }
        ensures pairs { self.new.pairs ≡ self.old.pairs }
        ensures rows { self.new.rows ≡ self.old.rows }
        ensures grows { self.old.spare_rows ≤ self.new.spare_rows }
        ensures ok { OnOk result (count ≤ self.new.spare_rows) }
    {
        if count >= MOST_ROWS {
            return Err(AllocError);
        }
        let rows = self.rows.len() + count;
        if rows >= MOST_ROWS {
            return Err(AllocError);
        }
        // The slab numbers the rows one after another, though it does not promise it. So this
        // allocates the cells of all of them at once.
        self.records.grow(ROW * rows)?;
        self.rows.add_cells(rows)?;
        for _ in self.rows.spare()..count {
            self.add_row()?;
        }
        Ok(())
    }

    /// Makes one more spare row, with its cells.
    fn add_row(&mut self) -> Result<(), AllocError>
        ensures pairs { self.new.pairs ≡ self.old.pairs }
        ensures rows { self.new.rows ≡ self.old.rows }
        ensures grows { self.old.spare_rows ≤ self.new.spare_rows }
        ensures ok { OnOk result (self.new.spare_rows ≡ self.old.spare_rows + 1) }
    {
        self.rows.grow()?;
        let row = self.rows.next_row();
        if row >= MOST_ROWS {
            return Err(AllocError);
        }
        self.records.grow(ROW * (row + 1))?;
        self.rows.add_cells(row + 1)?;
        self.rows.add_spare();
        Ok(())
    }

    /// Drops every leaf, and every spare row.
    pub fn clear(&mut self)
        ensures pairs { self.new.pairs ≡ [] }
        ensures rows { self.new.rows ≡ [] }
        ensures spare_rows { self.new.spare_rows ≡ 0 }
    {
        self.records.clear();
        self.rows.clear();
    }
}
