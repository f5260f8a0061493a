//! Records at numbers that the caller names.
ghost use Rattle.std.specs.Prelude.{◌≡◌, ◌≢◌, ℕ, ◌+◌, ◌^◌, ◌<◌, ◌≤◌, max, [], length, Some, None, IsSome, OnOk, IfOk, OnErr};
ghost use Rattle.art_slots.specs.Store.{slot_at, used_count, SameRecords, AreClones};
ghost use Rattle.art_slots.specs.Table.{held, AddsEmpty};
ghost use Rattle.std.specs.Borrow.{Lends, sem};

use crate::dense::Dense;
use std::alloc::{AllocError, Global};
use std::marker::Model;
use std::mem;

/// The most cells that a table has. Their numbers then fit wherever a slot's number does.
const MOST: usize = (1 << 61) - 1;

/// A place for one record.
#[derive(Drop)]
pub(crate) enum Cell<T> {
    Full(T),
    Empty,
}

impl<T> Cell<T> {
    ghost use Rattle.art_slots.specs.contracts.table.Cell.{the_row};

    /// Returns a mutable reference to the record of a full cell.
    fn record_mut(&mut self) -> &mut T
        requires { IsSome (held self.old) }
        ensures* lends { sem 𝓛 (Lends (the_row T.row) T.row self.entry result Cell.Full) }
        ensures value { held self.old ≡ Some result.now }
    {
        match self {
            Cell::Full(record) => record,
            Cell::Empty => unreachable!(),
        }
    }
}

impl<T: Clone> Clone for Cell<T> {
    ghost use Rattle.art_slots.specs.Table.{IsCopy};

    ghost is_clone = { IsCopy T.is_clone };

    fn clone(&self) -> Result<Self, AllocError> {
        match self {
            Cell::Full(record) => Ok(Cell::Full(record.clone()?)),
            Cell::Empty => Ok(Cell::Empty),
        }
    }
}

/// Records in cells. The caller that puts a record into the table names the number of its cell. A
/// contract sees a table as a store whose spare slots are the empty cells.
///
/// The cells lie in a slab, at the keys 0, 1, 2 and so on. None is removed until the table is
/// cleared.
#[derive(Drop)]
pub struct Table<T> {
    pub(crate) cells: Dense<Cell<T>>,
    /// The number of full cells.
    pub(crate) used: usize,
}

impl<T> Model for Table<T> {
    ghost use Rattle.std.specs.Prelude.{◌≡◌, ◌<◌, ◌^◌, ◌-◌, map, length, is_some, count_by};
    ghost use Rattle.art_slots.specs.Store.{Store as Records, store_code};
    ghost use Rattle.art_slots.specs.Table.{held};

    ghost Value = { Records T };

    ghost coded = { store_code T.code };

    ghost view = { λ t. record {
      slots = map held t.cells.items;
      spare = length t.cells.items - t.used;
    } };

    ghost invariant = { λ t.
        (t.used ≡ count_by is_some (map held t.cells.items)) × (length t.cells.items < 2 ^ 61) };
}

impl<T> Table<T> {
    ghost use Rattle.art_slots.specs.TableLends.{lends_cell};

    /// Returns a table with no cells. Does not allocate.
    pub fn new(alloc: Global) -> Self
        ensures { result.slots ≡ [] }
    {
        Table {
            cells: Dense::new(alloc),
            used: 0,
        }
    }

    /// Returns the number of cells. The cells have the numbers from 0 on.
    pub fn len(&self) -> usize
        ensures value { result ≡ length self.now.slots }
        ensures small { result < 2 ^ 61 }
    {
        self.cells.len()
    }

    /// Returns the number of records.
    #[inline(always)]
    pub fn used(&self) -> usize
        ensures count { result ≡ used_count self.now }
        ensures small { result < 2 ^ 61 }
    {
        self.used
    }

    /// Returns the record at a number.
    #[inline(always)]
    pub fn read(&self, id: usize) -> &T
        requires { IsSome (slot_at self.now id) }
        ensures value { slot_at self.now id ≡ Some result.now }
    {
        match self.cells.read(id) {
            Cell::Full(record) => record,
            Cell::Empty => unreachable!(),
        }
    }

    /// Returns a mutable reference to the record at a number.
    #[inline(always)]
    pub fn get_mut(&mut self, id: usize) -> &mut T
        requires { IsSome (slot_at self.old id) }
        ensures* writes_back { sem 𝓛 (lends_cell T.row self.entry id result) }
        ensures value { slot_at self.old id ≡ Some result.now }
    {
        self.cells.get_mut(id).record_mut()
    }

    /// Adds empty cells until there are at least `count`. Returns an error if it fails to allocate.
    /// The records are unchanged in both cases. After an error there may be more cells than before.
    pub fn grow(&mut self, count: usize) -> Result<(), AllocError>
        ensures same { SameRecords self.old self.new }
        ensures used { used_count self.new ≡ used_count self.old }
        ensures grows { length self.old.slots ≤ length self.new.slots }
        ensures enough { OnOk result (count ≤ length self.new.slots) }
        ensures most { length self.new.slots ≤ max (length self.old.slots) count }
        ensures needed { OnErr result (length self.old.slots < count) }
    {
        if count <= self.cells.len() {
            return Ok(());
        }
        if count > MOST {
            return Err(AllocError);
        }
        let missing = count - self.cells.len();
        self.cells.reserve(missing)?;
        add_empty(&mut self.cells, missing)
    }
}

impl<T: Clone> Table<T> {
    /// Returns a table with the same number of cells and a clone of each record at its number, or
    /// an error if it fails to allocate.
    pub fn clone(&self) -> Result<Self, AllocError>
        ensures cloned { IfOk result (AreClones T.is_clone self.now) }
        ensures used { IfOk result (λ copy. used_count copy ≡ used_count self.now) }
        ensures len { IfOk result (λ copy. length copy.slots ≡ length self.now.slots) }
    {
        Ok(Table {
            cells: self.cells.clone()?,
            used: self.used,
        })
    }
}

impl<T: Drop> Table<T> {
    /// Puts a record into an empty cell.
    #[inline(always)]
    pub fn put(&mut self, id: usize, fresh: T)
        requires within { id < length self.old.slots }
        requires empty { slot_at self.old id ≡ None }
        ensures now { slot_at self.new id ≡ Some fresh }
        ensures others { (j : ℕ) → j ≢ id → slot_at self.new j ≡ slot_at self.old j }
        ensures used { used_count self.new ≡ used_count self.old + 1 }
        ensures len { length self.new.slots ≡ length self.old.slots }
    {
        *self.cells.get_mut(id) = Cell::Full(fresh);
        self.used += 1;
    }

    /// Takes a record out of its cell.
    #[inline(always)]
    pub fn take(&mut self, id: usize) -> T
        requires { IsSome (slot_at self.old id) }
        ensures value { slot_at self.old id ≡ Some result }
        ensures gone { slot_at self.new id ≡ None }
        ensures others { (j : ℕ) → j ≢ id → slot_at self.new j ≡ slot_at self.old j }
        ensures used { used_count self.new + 1 ≡ used_count self.old }
        ensures len { length self.new.slots ≡ length self.old.slots }
    {
        match mem::replace(self.cells.get_mut(id), Cell::Empty) {
            Cell::Full(record) => {
                self.used -= 1;
                record
            }
            Cell::Empty => unreachable!(),
        }
    }

    /// Drops all records, removes all cells, and keeps the memory.
    pub fn clear(&mut self)
        ensures { self.new.slots ≡ [] }
    {
        self.cells.clear();
        self.used = 0;
    }
}

/// Adds `count` empty cells in reserved memory. Each cell's number is the number of cells before
/// it. If the slab's next key is another number, returns an allocation error and adds no more.
fn add_empty<T>(cells: &mut Dense<Cell<T>>, count: usize) -> Result<(), AllocError>
    requires { length cells.old.items + count ≤ cells.old.capacity }
    ensures adds { AddsEmpty cells.old.items cells.new.items count }
    ensures all { OnOk result (length cells.new.items ≡ length cells.old.items + count) }
{
    for _ in 0..count {
        if !cells.has_next() {
            return Err(AllocError);
        }
        cells.push_reserved(Cell::Empty);
    }
    Ok(())
}
