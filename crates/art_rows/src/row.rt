//! A row of the numbers of cells.
ghost use Rattle.std.specs.Prelude.{◌≡◌, ◌⊎◌, ℕ, ◌+◌, ◌-◌, ◌*◌, ◌<◌, ◌≤◌, [], length, take, drop, Some, true, IfSome, IsSome, slice_index_or};
ghost use Rattle.art_slots.specs.Words.{numbers as words, times};
ghost use Rattle.art_rows.specs.Rows.{among, index_in, nth, nowhere};
ghost use Rattle.art_rows.specs.Cells.{IsRow};

use crate::run::Run;
use art_slots::LeafId;
use std::marker::Model;

/// The number of cells that each row has, which is the greatest length of a row.
pub(crate) const ROW: usize = 64;

/// The number of numbers that go to a new row when a full row is cut.
pub(crate) const HALF: usize = 32;

/// The low half of a number is less than this.
const RADIX: usize = 1 << 32;

/// A row, and an index in it.
#[derive(Clone, Copy)]
pub struct Position {
    pub(crate) row: usize,
    pub(crate) index: usize,
}

impl Position {
    /// Returns some position, for a leaf whose position is not known.
    ///
    /// Cost: none.
    pub fn unknown() -> Self
        ensures { result ≡ nowhere }
    {
        Position { row: 0, index: 0 }
    }
}

/// The numbers of the 64 cells of a row, as low and high halves. The cells in use come first, in
/// the order of their keys. A contract sees the numbers of the cells in use.
#[derive(Drop)]
pub(crate) struct Row<'a> {
    pub(crate) low: &'a [u32],
    /// The high halves. It is empty if the list has none, and all its numbers are less than 2^32.
    pub(crate) high: &'a [u32],
    pub(crate) count: usize,
}

impl<'a> Model for Row<'a> {
    ghost use Rattle.std.specs.Prelude.{List, ℕ, take};
    ghost use Rattle.std.specs.Coded.{coded_list, coded_ℕ};
    ghost use Rattle.art_slots.specs.Words.{numbers as words};
    ghost use Rattle.art_rows.specs.Cells.{IsRow};

    ghost Value = { List ℕ };

    ghost coded = { coded_list coded_ℕ };

    ghost view = { λ r. take r.count (words r.low.now r.high.now) };

    ghost invariant = { λ r. IsRow r.low.now r.high.now r.count };
}

impl<'a> Row<'a> {
    /// Returns a row with these numbers. The first `count` are in use.
    #[inline(always)]
    pub(crate) fn new(low: &'a [u32], high: &'a [u32], count: usize) -> Self
        requires { IsRow low.now high.now count }
        ensures { result ≡ take count (words low.now high.now) }
    {
        Row { low, high, count }
    }

    /// Returns the number of cells in use.
    #[inline(always)]
    pub(crate) fn len(&self) -> usize
        ensures len { result ≡ length self.now }
        ensures fits { length self.now ≤ ROW }
    {
        self.count
    }

    /// Returns the number at an index.
    #[inline(always)]
    pub(crate) fn at(&self, index: usize) -> LeafId
        requires { index < length self.now }
        ensures { nth self.now index ≡ Some result }
    {
        LeafId::new(number_at(self.low, self.high, index))
    }

    /// Returns `true` if this number is at this index.
    #[inline(always)]
    pub(crate) fn has_at(&self, index: usize, number: LeafId) -> bool
        ensures here { result ≡ true → nth self.now index ≡ Some number }
        ensures there { nth self.now index ≡ Some number → result ≡ true }
    {
        index < self.count && self.at(index) == number
    }

    /// Returns the number after `number`, if `number` is at this index and is not the last.
    #[inline(always)]
    pub(crate) fn after(&self, index: usize, number: LeafId) -> Option<LeafId>
        ensures some { IfSome result (λ n. (nth self.now index ≡ Some number)
            × (nth self.now (index + 1) ≡ Some n)) }
        ensures there { nth self.now index ≡ Some number → index + 1 < length self.now
            → IsSome result }
    {
        if index < self.count && index + 1 < self.count && self.at(index) == number {
            Some(self.at(index + 1))
        } else {
            None
        }
    }

    /// Returns the number before `number`, if `number` is at this index and is not the first.
    #[inline(always)]
    pub(crate) fn before(&self, index: usize, number: LeafId) -> Option<LeafId>
        ensures some { IfSome result (λ n. (0 < index) × (nth self.now index ≡ Some number)
            × (nth self.now (index - 1) ≡ Some n)) }
        ensures there { nth self.now index ≡ Some number → 0 < index → IsSome result }
    {
        if 0 < index && index < self.count && self.at(index) == number {
            Some(self.at(index - 1))
        } else {
            None
        }
    }

    /// Returns the index of a number of the row.
    #[inline(always)]
    pub(crate) fn index_of(&self, number: LeafId) -> usize
        requires { among self.now number ≡ true }
        ensures { result ≡ index_in self.now number }
    {
        let number = number.number();
        if self.high.len() == 0 {
            index_of_half(self.low, number)
        } else {
            index_of_both(self.low, self.high, number)
        }
    }

    /// Returns all numbers, or none if they have high halves.
    pub(crate) fn run(&self) -> Run<'a>
        ensures { (result ≡ []) ⊎ (result ≡ self.now) }
    {
        if self.high.len() != 0 {
            return Run::empty();
        }
        Run::new(&self.low[..self.count])
    }

    /// Returns the numbers after an index, or `None` if the numbers have high halves.
    #[inline(always)]
    pub(crate) fn run_after(&self, index: usize) -> Option<Run<'a>>
        requires { index < length self.now }
        ensures { IfSome result (λ run. run ≡ drop (index + 1) self.now) }
    {
        if self.high.len() != 0 {
            return None;
        }
        Some(Run::new(&self.low[index + 1..self.count]))
    }

    /// Returns the numbers before an index, or `None` if the numbers have high halves.
    #[inline(always)]
    pub(crate) fn run_before(&self, index: usize) -> Option<Run<'a>>
        requires { index < length self.now }
        ensures { IfSome result (λ run. run ≡ take index self.now) }
    {
        if self.high.len() != 0 {
            return None;
        }
        Some(Run::new(&self.low[..index]))
    }
}

/// Returns the index of a number that a row of 64 has once. It tests each index, and adds up those
/// at which the number is: a loop that ends early takes longer.
fn index_of_half(low: &[u32], number: usize) -> usize
    requires long { length low.now ≡ ROW }
    requires once { times low.now number ≡ 1 }
    ensures { result ≡ index_in low.now number }
{
    let half = number as u32;
    let mut at: u32 = 0;
    for index in 0u32..64 {
        at += if low[index as usize] == half {
            index
        } else {
            0
        };
    }
    at as usize
}

/// Returns the number at an index. A number with no high half is its low half.
#[inline(always)]
fn number_at(low: &[u32], high: &[u32], index: usize) -> usize
    requires { index < length low.now }
    ensures { result ≡ slice_index_or (words low.now high.now) index 0 }
{
    let half = low[index] as usize;
    if index < high.len() {
        half + high[index] as usize * RADIX
    } else {
        half
    }
}

/// Returns the index of a number in a list with high halves, or the length of the list if the
/// number is not in it.
#[cold]
#[inline(never)]
fn index_of_both(low: &[u32], high: &[u32], number: usize) -> usize
    ensures { result ≡ index_in (words low.now high.now) number }
{
    for index in 0..low.len() {
        if number_at(low, high, index) == number {
            return index;
        }
    }
    low.len()
}
