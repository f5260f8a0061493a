//! Rows of the numbers of cells, in order.
ghost use Rattle.std.specs.Prelude.{◌≡◌, ◌≢◌, ℕ, ◌+◌, ◌-◌, ◌*◌, ◌^◌, ◌<◌, ◌≤◌, ◌++◌, [], ◌∷◌, List, length, max, take, drop, Some, None, true, false, IfSome, OnOk, IfOk, OnErr, slice_index_or};
ghost use Rattle.art_slots.specs.Words.{block_at, times};
ghost use Rattle.art_rows.specs.Numbers.{leaf_in, Has, first_number, last_number, number_after, number_before, with_pair_after, with_pair, without_number};
ghost use Rattle.art_rows.specs.Rows.{among, numbers, row_with};
ghost use Rattle.art_rows.specs.Cells.{HaveCells};

use crate::chain::Chain;
use crate::row::{HALF, ROW, Row};
use art_slots::{LeafId, Words};
use std::alloc::{AllocError, Global};
use std::marker::Model;

/// Rows in order. Each row has 64 cells, those in use first, and each cell has the number of its
/// row. A row that is removed keeps its cells, and is spare.
///
/// A contract sees the rows in order, each as its number and the numbers of its cells in use. It
/// also sees the number of spare rows, and `top`: the rows below this number have cells.
#[derive(Drop)]
pub(crate) struct Rows {
    /// The number of cells in use of each row.
    pub(crate) counts: Chain<usize>,
    /// The numbers of the cells of each row: those in use in the order of the keys, and then the
    /// others.
    pub(crate) cells: Words,
    /// The row of each cell.
    pub(crate) owners: Words,
    /// The number of rows that have cells.
    pub(crate) ready: usize,
}

impl Model for Rows {
    ghost use Rattle.std.specs.Prelude.{List, ℕ};
    ghost use Rattle.std.specs.Coded.{coded_list, coded_ℕ};
    ghost use Rattle.art_rows.specs.Numbers.{Numbers, numbers_code};
    ghost use Rattle.art_rows.specs.Cells.{rows_of, AreOwned};

    ghost Value = { Numbers (List ℕ) };

    ghost coded = { numbers_code (coded_list coded_ℕ) };

    ghost view = { λ t. rows_of t.counts t.cells t.ready };

    ghost invariant = { λ t. AreOwned t.counts t.cells t.owners t.ready };
}

impl Rows {
    /// Returns no rows, and no spare rows. Does not allocate.
    pub(crate) fn new(alloc: Global) -> Self
        ensures pairs { result.pairs ≡ [] }
        ensures spare { result.spare ≡ 0 }
        ensures top { result.top ≡ 0 }
    {
        Rows {
            counts: Chain::new(alloc),
            cells: Words::new(alloc),
            owners: Words::new(alloc),
            ready: 0,
        }
    }

    /// Returns the number of rows.
    pub(crate) fn len(&self) -> usize
        ensures value { result ≡ length self.now.pairs }
        ensures small { result < 2 ^ 61 }
    {
        self.counts.len()
    }

    /// Returns the number of spare rows.
    pub(crate) fn spare(&self) -> usize
        ensures { result ≡ self.now.spare }
    {
        self.counts.spare()
    }

    /// Returns the number of the next new row.
    pub(crate) fn next_row(&self) -> usize
        ensures { result ≡ self.now.next }
    {
        self.counts.next_slot()
    }

    /// Returns the first row, if there is one.
    pub(crate) fn first(&self) -> Option<usize>
        ensures { result ≡ first_number self.now.pairs }
    {
        self.counts.first()
    }

    /// Returns the last row, if there is one.
    pub(crate) fn last(&self) -> Option<usize>
        ensures { result ≡ last_number self.now.pairs }
    {
        self.counts.last()
    }

    /// Returns the row after this one, if there is one.
    pub(crate) fn next_of(&self, row: usize) -> Option<usize>
        requires { Has self.now.pairs row }
        ensures { result ≡ number_after self.now.pairs row }
    {
        self.counts.next_of(row)
    }

    /// Returns the row before this one, if there is one.
    pub(crate) fn prev_of(&self, row: usize) -> Option<usize>
        requires { Has self.now.pairs row }
        ensures { result ≡ number_before self.now.pairs row }
    {
        self.counts.prev_of(row)
    }

    /// Returns the cells of a row, if there is such a row.
    #[inline(always)]
    pub(crate) fn get(&self, row: usize) -> Option<Row<'_>>
        ensures { result ≡ leaf_in self.now.pairs row }
    {
        // The list has fewer than 2^61 numbers, so no index overflows.
        let _len = self.cells.len();
        let count = *self.counts.get(row)?;
        Some(row_at(&self.cells, row, count))
    }

    /// Returns the cells of a row.
    #[inline(always)]
    pub(crate) fn read(&self, row: usize) -> Row<'_>
        requires { Has self.now.pairs row }
        ensures { leaf_in self.now.pairs row ≡ Some result }
    {
        // The list has fewer than 2^61 numbers, so no index overflows.
        let _len = self.cells.len();
        row_at(&self.cells, row, *self.counts.read(row))
    }

    /// Returns the row of a cell that is in use.
    #[inline(always)]
    pub(crate) fn row_of(&self, cell: LeafId) -> usize
        requires { among (numbers self.now.pairs) cell ≡ true }
        ensures { result ≡ row_with self.now.pairs cell }
    {
        self.owners.read(cell.number())
    }

    /// Takes an unused cell of a row that is not full into use, at this index among those in use,
    /// and returns its number.
    #[inline(always)]
    pub(crate) fn insert(&mut self, row: usize, index: usize) -> LeafId
        requires has { Has self.old.pairs row }
        requires room { IfSome (leaf_in self.old.pairs row) (λ ids. length ids < ROW) }
        requires index { IfSome (leaf_in self.old.pairs row) (λ ids. index ≤ length ids) }
        ensures rows { IfSome (leaf_in self.old.pairs row) (λ ids. self.new.pairs
            ≡ with_pair self.old.pairs row (take index ids ++ result ∷ drop index ids)) }
        ensures fresh { among (numbers self.old.pairs) result ≡ false }
        ensures lies { result < ROW * self.old.top }
        ensures spare { self.new.spare ≡ self.old.spare }
        ensures room { self.new.room ≡ self.old.room }
        ensures top { self.new.top ≡ self.old.top }
    {
        // The list has fewer than 2^61 numbers, so no index overflows.
        let _len = self.cells.len();
        let count = *self.counts.read(row);
        let cell = LeafId::new(self.cells.read(ROW * row + count));
        self.cells.move_down(row, count, index);
        *self.counts.get_mut(row) = count + 1;
        cell
    }

    /// Removes the cell at an index from its row, and the row if it has no other cell in use.
    #[inline(always)]
    pub(crate) fn remove(&mut self, row: usize, index: usize)
        requires has { Has self.old.pairs row }
        requires within { IfSome (leaf_in self.old.pairs row) (λ ids. index < length ids) }
        ensures one { IfSome (leaf_in self.old.pairs row) (λ ids. length ids ≡ 1
            → self.new.pairs ≡ without_number self.old.pairs row) }
        ensures more { IfSome (leaf_in self.old.pairs row) (λ ids. length ids ≢ 1
            → self.new.pairs ≡ with_pair self.old.pairs row
            (take index ids ++ drop (index + 1) ids)) }
        ensures gains { IfSome (leaf_in self.old.pairs row) (λ ids. length ids ≡ 1
            → self.new.spare ≡ self.old.spare + 1) }
        ensures keeps { IfSome (leaf_in self.old.pairs row) (λ ids. length ids ≢ 1
            → self.new.spare ≡ self.old.spare) }
        ensures room { self.new.room ≡ self.old.room }
        ensures top { self.new.top ≡ self.old.top }
    {
        let count = *self.counts.read(row);
        if count == 1 {
            let _ = self.counts.remove(row);
        } else {
            self.cells.move_up(row, index, count - 1);
            *self.counts.get_mut(row) = count - 1;
        }
    }

    /// Begins a row with one cell in use, after another row or before all rows. Returns the row,
    /// and the number of the cell.
    pub(crate) fn begin(&mut self, prev: Option<usize>) -> (usize, LeafId)
        requires spare { 0 < self.old.spare }
        requires prev { IfSome prev (Has self.old.pairs) }
        ensures rows { self.new.pairs
            ≡ with_pair_after prev (result.0, result.1 ∷ []) self.old.pairs }
        ensures unused { leaf_in self.old.pairs result.0 ≡ None }
        ensures fresh { among (numbers self.old.pairs) result.1 ≡ false }
        ensures lies { result.1 < ROW * self.old.top }
        ensures spare { self.new.spare + 1 ≡ self.old.spare }
        ensures room { self.new.room ≡ self.old.room }
        ensures top { self.new.top ≡ self.old.top }
    {
        // The list has fewer than 2^61 numbers, so no index overflows.
        let _len = self.cells.len();
        let row = self.counts.insert(prev, 1);
        (row, LeafId::new(self.cells.read(ROW * row)))
    }

    /// Moves the upper half of a full row to a new row after it, and returns the new row. The
    /// numbers of the upper half are exchanged for unused numbers of the new row.
    pub(crate) fn cut(&mut self, row: usize) -> usize
        requires has { Has self.old.pairs row }
        requires full { IfSome (leaf_in self.old.pairs row) (λ ids. length ids ≡ ROW) }
        requires spare { 0 < self.old.spare }
        ensures rows { IfSome (leaf_in self.old.pairs row) (λ ids. self.new.pairs
            ≡ with_pair_after (Some row) (result, drop HALF ids)
            (with_pair self.old.pairs row (take HALF ids))) }
        ensures unused { leaf_in self.old.pairs result ≡ None }
        ensures spare { self.new.spare + 1 ≡ self.old.spare }
        ensures room { self.new.room ≡ self.old.room }
        ensures top { self.new.top ≡ self.old.top }
    {
        let new = self.counts.insert(Some(row), HALF);
        *self.counts.get_mut(row) = HALF;
        exchange_halves(&mut self.cells, &mut self.owners, row, new);
        new
    }

    /// Makes room for one more row. Returns an error if it fails to allocate. The rows and the
    /// spare rows are unchanged in both cases.
    pub(crate) fn grow(&mut self) -> Result<(), AllocError>
        ensures pairs { self.new.pairs ≡ self.old.pairs }
        ensures spare { self.new.spare ≡ self.old.spare }
        ensures top { self.new.top ≡ self.old.top }
        ensures next { self.new.next ≡ self.old.next }
        ensures ok { OnOk result (0 < self.new.room) }
        ensures needed { OnErr result (self.old.room ≡ 0) }
    {
        self.counts.grow()
    }

    /// Adds cells until the first `count` rows have them. Returns an error if it fails to allocate.
    /// The rows and the spare rows are unchanged in both cases.
    pub(crate) fn add_cells(&mut self, count: usize) -> Result<(), AllocError>
        requires { ROW * count ≤ 2 ^ 62 }
        ensures pairs { self.new.pairs ≡ self.old.pairs }
        ensures spare { self.new.spare ≡ self.old.spare }
        ensures room { self.new.room ≡ self.old.room }
        ensures next { self.new.next ≡ self.old.next }
        ensures grows { self.old.top ≤ self.new.top }
        ensures most { self.new.top ≤ max self.old.top count }
        ensures ok { OnOk result (count ≤ self.new.top) }
        ensures needed { OnErr result (self.old.top < count) }
    {
        if count <= self.ready {
            return Ok(());
        }
        self.owners.grow(ROW * count)?;
        self.cells.grow(ROW * count)?;
        for row in self.ready..count {
            number_cells(&mut self.cells, &mut self.owners, row);
        }
        self.ready = count;
        Ok(())
    }

    /// Adds a spare row, which has cells. Does not allocate.
    pub(crate) fn add_spare(&mut self)
        requires room { 0 < self.old.room }
        requires cells { self.old.next < self.old.top }
        ensures pairs { self.new.pairs ≡ self.old.pairs }
        ensures spare { self.new.spare ≡ self.old.spare + 1 }
        ensures room { self.new.room + 1 ≡ self.old.room }
        ensures top { self.new.top ≡ self.old.top }
    {
        self.counts.add_slot();
    }

    /// Returns a copy with the same rows under the same numbers, or an error if it fails to
    /// allocate.
    pub(crate) fn clone(&self) -> Result<Self, AllocError>
        ensures same { IfOk result (λ copy. copy.pairs ≡ self.now.pairs) }
        ensures spare { IfOk result (λ copy. copy.spare ≡ self.now.spare) }
        ensures top { IfOk result (λ copy. copy.top ≡ self.now.top) }
    {
        Ok(Rows {
            counts: self.counts.clone()?,
            cells: self.cells.clone()?,
            owners: self.owners.clone()?,
            ready: self.ready,
        })
    }

    /// Removes all rows and all spare rows.
    pub(crate) fn clear(&mut self)
        ensures pairs { self.new.pairs ≡ [] }
        ensures spare { self.new.spare ≡ 0 }
        ensures top { self.new.top ≡ 0 }
    {
        self.counts.clear();
        self.cells.clear();
        self.owners.clear();
        self.ready = 0;
    }
}

/// Returns the first `count` cells of a row.
#[inline(always)]
fn row_at(cells: &Words, row: usize, count: usize) -> Row<'_>
    requires within { ROW * row + ROW ≤ length cells.now }
    requires count { count ≤ ROW }
    requires once { (n : ℕ) → times (block_at cells.now row) n ≤ 1 }
    requires small { (n : ℕ) → 0 < times (block_at cells.now row) n → n < 2 ^ 61 }
    ensures { result ≡ take count (block_at cells.now row) }
{
    let (low, high) = cells.halves(row);
    Row::new(low, high, count)
}

/// Gives a row the cells from `ROW * row` to `ROW * row + 63`, in this order.
fn number_cells(cells: &mut Words, owners: &mut Words, row: usize)
    requires cells { ROW * row + ROW ≤ length cells.old }
    requires owners { ROW * row + ROW ≤ length owners.old }
    ensures long { length cells.new ≡ length cells.old }
    ensures wide { length owners.new ≡ length owners.old }
    ensures row { (i : ℕ) → i < ROW
        → slice_index_or (block_at cells.new row) i 0 ≡ ROW * row + i }
    ensures rows { (j : ℕ) → j ≢ row → block_at cells.new j ≡ block_at cells.old j }
    ensures owner { (i : ℕ) → i < ROW → slice_index_or owners.new (ROW * row + i) 0 ≡ row }
    ensures owners { (n : ℕ) → n < ROW * row
        → slice_index_or owners.new n 0 ≡ slice_index_or owners.old n 0 }
{
    // The list has fewer than 2^61 numbers, so no index overflows.
    let _len = cells.len();
    for index in 0..ROW {
        cells.write(ROW * row + index, ROW * row + index);
        owners.write(ROW * row + index, row);
    }
}

/// Exchanges the upper half of the cells of `row` for the lower half of the cells of `new`, one by
/// one, and updates the row of each cell.
#[cold]
#[inline(never)]
fn exchange_halves(cells: &mut Words, owners: &mut Words, row: usize, new: usize)
    requires other { row ≢ new }
    requires own { (ready : ℕ) × (row < ready) × (new < ready)
        × HaveCells cells.old owners.old ready }
    ensures row { block_at cells.new row
        ≡ take HALF (block_at cells.old row) ++ take HALF (block_at cells.old new) }
    ensures new { block_at cells.new new
        ≡ drop HALF (block_at cells.old row) ++ drop HALF (block_at cells.old new) }
    ensures rows { (j : ℕ) → j ≢ row → j ≢ new
        → block_at cells.new j ≡ block_at cells.old j }
    ensures own { (ready : ℕ) → row < ready → new < ready
        → HaveCells cells.old owners.old ready → HaveCells cells.new owners.new ready }
{
    // The list has fewer than 2^61 numbers, so no index overflows.
    let _len = cells.len();
    for index in 0..HALF {
        let (from, to) = (ROW * row + HALF + index, ROW * new + index);
        let moves = cells.read(from);
        let other = cells.read(to);
        cells.write(from, other);
        cells.write(to, moves);
        owners.write(moves, new);
        owners.write(other, row);
    }
}
