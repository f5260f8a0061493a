//! Placements of leaves.
ghost use Rattle.std.specs.Prelude.{◌≡◌, ℕ, ◌+◌, ◌<◌, ◌≤◌, ◌++◌, ◌∷◌, [], length, take, drop, Some, None, IsSome, IfSome, IfNone};
ghost use Rattle.art_rows.specs.Numbers.{leaf_in, Has, last_number, with_pair_after, with_pair};
ghost use Rattle.art_rows.specs.Rows.{position_at, IsSpot, row_end};
ghost use Rattle.art_rows.specs.Leaves.{room, end_room, spot_index};

use crate::leaves::{Leaf, Leaves};
use crate::row::{HALF, Position, ROW};
use art_slots::LeafId;

impl<K: Drop, V: Drop> Leaves<K, V> {
    /// Returns the length of a row.
    fn row_len(&self, row: usize) -> usize
        requires { Has self.now.rows row }
        ensures len { IfSome (leaf_in self.now.rows row) (λ ids. result ≡ length ids) }
        ensures fits { result ≤ ROW }
    {
        self.rows.read(row).len()
    }

    /// Places a pair after the leaf `prev`, or before all leaves, and returns its id. `seen` is a
    /// guess of the position of `prev`. If it is right, no row is searched. Does not allocate.
    pub fn insert(&mut self, prev: Option<LeafId>, seen: Position, key: K, value: V) -> LeafId
        requires room { 0 < room self.old }
        requires prev { IfSome prev (Has self.old.pairs) }
        ensures fresh { leaf_in self.old.pairs result ≡ None }
        ensures placed { self.new.pairs
            ≡ with_pair_after prev (result, (key, value)) self.old.pairs }
        ensures room { room self.old ≤ room self.new + 1 }
    {
        let _ = &self.rows;
        // The prover takes an `Option<LeafId>` that is passed on as moved, so this is a copy.
        let after = prev;
        let position = match self.spot(after, seen) {
            None => return self.begin(prev, None, key, value),
            Some(position) => position,
        };
        if self.row_len(position.row) < ROW {
            return self.put(prev, position, key, value);
        }
        if position.index == 0 {
            return self.begin(prev, None, key, value);
        }
        if position.index < ROW {
            return self.put_apart(prev, position, key, value);
        }
        match self.row_after(position.row) {
            None => self.begin(prev, Some(position.row), key, value),
            Some(next) if self.row_len(next) < ROW => {
                let start = Position {
                    row: next,
                    index: 0,
                };
                self.put(prev, start, key, value)
            }
            Some(_) => self.put_apart(prev, position, key, value),
        }
    }

    /// Places a pair after all others, and returns its id. Does not allocate.
    pub fn push(&mut self, key: K, value: V) -> LeafId
        requires room { 0 < end_room self.old }
        ensures fresh { leaf_in self.old.pairs result ≡ None }
        ensures placed { self.new.pairs
            ≡ with_pair_after (last_number self.old.pairs) (result, (key, value)) self.old.pairs }
        ensures room { end_room self.old ≤ end_room self.new + 1 }
    {
        let _ = &self.rows;
        let Some(position) = self.last_position() else {
            return self.begin(None, None, key, value);
        };
        let last = self.number(position);
        if position.index < ROW - 1 {
            let end = Position {
                row: position.row,
                index: position.index + 1,
            };
            return self.put(Some(last), end, key, value);
        }
        self.begin(Some(last), Some(position.row), key, value)
    }

    /// Cuts a full row in half, and places a pair at a position that the row had before the cut.
    #[cold]
    #[inline(never)]
    fn put_apart(&mut self, prev: Option<LeafId>, position: Position, key: K, value: V) -> LeafId
        requires room { 0 < room self.old }
        requires prev { IfSome prev (Has self.old.pairs) }
        requires spot { IsSpot self.old.rows position (spot_index prev self.old.pairs) }
        requires full { IfSome (leaf_in self.old.rows position.row) (λ ids. length ids ≡ ROW) }
        ensures fresh { leaf_in self.old.pairs result ≡ None }
        ensures placed { self.new.pairs
            ≡ with_pair_after prev (result, (key, value)) self.old.pairs }
        ensures room { room self.old ≤ room self.new + 1 }
    {
        let _ = &self.rows;
        let new = self.cut(position.row);
        if position.index <= HALF {
            return self.put(prev, position, key, value);
        }
        let upper = Position {
            row: new,
            index: position.index - HALF,
        };
        self.put(prev, upper, key, value)
    }

    /// Moves the upper half of a full row to a new row after it, and returns the new row. No leaf
    /// moves.
    fn cut(&mut self, row: usize) -> usize
        requires full { IfSome (leaf_in self.old.rows row) (λ ids. length ids ≡ ROW) }
        requires has { Has self.old.rows row }
        requires spare { 0 < self.old.spare_rows }
        ensures pairs { self.new.pairs ≡ self.old.pairs }
        ensures rows { IfSome (leaf_in self.old.rows row) (λ ids. self.new.rows
            ≡ with_pair_after (Some row) (result, drop HALF ids)
            (with_pair self.old.rows row (take HALF ids))) }
        ensures unused { leaf_in self.old.rows result ≡ None }
        ensures spare { self.new.spare_rows + 1 ≡ self.old.spare_rows }
    {
        self.rows.cut(row)
    }

    /// Returns the position for a pair after `prev`, or before all leaves, or `None` if there are
    /// no rows. `seen` is a guess of the position of `prev`.
    fn spot(&self, prev: Option<LeafId>, seen: Position) -> Option<Position>
        requires { IfSome prev (Has self.now.pairs) }
        ensures some { IfSome result
            (λ p. IsSpot self.now.rows p (spot_index prev self.now.pairs)) }
        ensures none { IfNone result (self.now.rows ≡ []) }
        ensures first { IfNone prev (result ≡ position_at self.now.rows 0) }
        ensures found { IfSome prev (λ _. IsSome result) }
        ensures later { IfSome result (λ p. IfSome prev (λ _. 0 < p.index)) }
    {
        let _ = &self.rows;
        match prev {
            None => self.first_position(),
            Some(id) => {
                let position = self.position_near(id, seen);
                // The index is less than the number of leaves, so adding 1 does not overflow.
                let _used = self.records.used();
                Some(Position {
                    row: position.row,
                    index: position.index + 1,
                })
            }
        }
    }

    /// Places a pair at a position of a row that is not full.
    #[inline(always)]
    fn put(&mut self, prev: Option<LeafId>, position: Position, key: K, value: V) -> LeafId
        requires prev { IfSome prev (Has self.old.pairs) }
        requires spot { IsSpot self.old.rows position (spot_index prev self.old.pairs) }
        requires room { IfSome (leaf_in self.old.rows position.row) (λ ids. length ids < ROW) }
        ensures fresh { leaf_in self.old.pairs result ≡ None }
        ensures placed { self.new.pairs
            ≡ with_pair_after prev (result, (key, value)) self.old.pairs }
        ensures spare_rows { self.new.spare_rows ≡ self.old.spare_rows }
        ensures rows { IfSome (leaf_in self.old.rows position.row)
            (λ ids. self.new.rows ≡ with_pair self.old.rows position.row
            (take position.index ids ++ result ∷ drop position.index ids)) }
    {
        let id = self.rows.insert(position.row, position.index);
        self.records.put(id.number(), Leaf { key, value });
        id
    }

    /// Places a pair in a new row, after another row or before all rows.
    #[cold]
    #[inline(never)]
    fn begin(&mut self, prev: Option<LeafId>, prev_row: Option<usize>, key: K, value: V) -> LeafId
        requires spare_rows { 0 < self.old.spare_rows }
        requires prev { IfSome prev (Has self.old.pairs) }
        requires prev_row { IfSome prev_row (Has self.old.rows) }
        requires index { spot_index prev self.old.pairs ≡ row_end prev_row self.old.rows }
        ensures fresh { leaf_in self.old.pairs result ≡ None }
        ensures placed { self.new.pairs
            ≡ with_pair_after prev (result, (key, value)) self.old.pairs }
        ensures spare_rows { self.new.spare_rows + 1 ≡ self.old.spare_rows }
        ensures rows { (r : ℕ) × (leaf_in self.old.rows r ≡ None)
            × (self.new.rows ≡ with_pair_after prev_row (r, result ∷ []) self.old.rows) }
    {
        let (_, id) = self.rows.begin(prev_row);
        self.records.put(id.number(), Leaf { key, value });
        id
    }
}
