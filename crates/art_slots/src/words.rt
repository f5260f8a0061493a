//! A list of numbers that are less than its length.
ghost use Rattle.std.specs.Prelude.{◌≡◌, ◌≢◌, ◌+◌, ◌*◌, ◌^◌, ◌<◌, ◌≤◌, ℕ, [], length, max, take, slice_index_or, slice_set, OnOk, OnErr, IfOk};
ghost use Rattle.art_slots.specs.Words.{numbers, block_at, times, moved_down, moved_up};

use crate::halves::{BLOCK, Halves};
use std::alloc::{AllocError, Global};
use std::marker::Model;

/// A number has a low half below this and a high half.
const RADIX: usize = 1 << 32;

/// The most blocks of numbers that need no high halves.
const LOW_BLOCKS: usize = RADIX / BLOCK;

/// A list of numbers that are less than its length, with 4 bytes for each number while there are at
/// most 2^32, and 8 bytes from then on. A contract sees the list.
///
/// The list has no high halves while it is short, so it has no use for a number that is greater.
/// When it grows beyond 2^32 numbers, their high halves are zeros.
#[derive(Drop)]
pub struct Words {
    pub(crate) low: Halves,
    /// The high halves of the numbers, if the list is long. A number without one is less than 2^32.
    pub(crate) high: Halves,
}

impl Model for Words {
    ghost use Rattle.std.specs.Prelude.{ℕ, List};

    ghost Value = { List ℕ };

    ghost use Rattle.art_slots.specs.Words.{numbers, HasHighHalves};

    ghost view = { λ w. numbers w.low w.high };

    ghost invariant = { λ w. HasHighHalves w.low w.high };
}

impl Words {
    /// Returns an empty list. Does not allocate.
    pub fn new(alloc: Global) -> Self
        ensures { result ≡ [] }
    {
        Words {
            low: Halves::new(alloc),
            high: Halves::new(alloc),
        }
    }

    /// Returns the length.
    #[inline(always)]
    pub fn len(&self) -> usize
        ensures len { result ≡ length self.now }
        ensures small { result < 2 ^ 61 }
    {
        self.low.len()
    }

    /// Returns the number at an index.
    #[inline(always)]
    pub fn read(&self, i: usize) -> usize
        requires { i < length self.now }
        ensures { result ≡ slice_index_or self.now i 0 }
    {
        let low = self.low.read(i) as usize;
        if i < self.high.len() {
            low + self.high.read(i) as usize * RADIX
        } else {
            low
        }
    }

    /// Writes a number that is less than the length at an index.
    #[inline(always)]
    pub fn write(&mut self, i: usize, word: usize)
        requires within { i < length self.old }
        requires small { word < length self.old }
        ensures { self.new ≡ slice_set self.old i word }
    {
        if i < self.high.len() {
            self.low.write(i, (word % RADIX) as u32);
            self.high.write(i, (word / RADIX) as u32);
        } else {
            self.low.write(i, word as u32);
        }
    }

    /// Returns the low and the high halves of a block of 64 numbers. The second slice is empty if
    /// the block has no high halves.
    #[inline(always)]
    pub fn halves(&self, block: usize) -> (&[u32], &[u32])
        requires { 64 * block + 64 ≤ length self.now }
        ensures { numbers result.0.now result.1.now ≡ block_at self.now block }
    {
        let low = self.low.block(block);
        if self.high.has_block(block) {
            (low, self.high.block(block))
        } else {
            (low, &[])
        }
    }

    /// Moves the number at the place `from` of a block of 64 to the earlier place `to`. Each number
    /// between moves one place up.
    #[inline(always)]
    pub fn move_down(&mut self, block: usize, from: usize, to: usize)
        requires block { 64 * block + 64 ≤ length self.old }
        requires order { to ≤ from }
        requires within { from < 64 }
        ensures moved { block_at self.new block ≡ moved_down (block_at self.old block) from to }
        ensures same { (n : ℕ) → times (block_at self.new block) n
            ≡ times (block_at self.old block) n }
        ensures others { (j : ℕ) → j ≢ block → block_at self.new j ≡ block_at self.old j }
        ensures len { length self.new ≡ length self.old }
    {
        self.low.move_down(block, from, to);
        if self.high.has_block(block) {
            self.high.move_down(block, from, to);
        }
    }

    /// Moves the number at the place `from` of a block of 64 to the later place `to`. Each number
    /// between moves one place down.
    #[inline(always)]
    pub fn move_up(&mut self, block: usize, from: usize, to: usize)
        requires block { 64 * block + 64 ≤ length self.old }
        requires order { from ≤ to }
        requires within { to < 64 }
        ensures moved { block_at self.new block ≡ moved_up (block_at self.old block) from to }
        ensures same { (n : ℕ) → times (block_at self.new block) n
            ≡ times (block_at self.old block) n }
        ensures others { (j : ℕ) → j ≢ block → block_at self.new j ≡ block_at self.old j }
        ensures len { length self.new ≡ length self.old }
    {
        self.low.move_up(block, from, to);
        if self.high.has_block(block) {
            self.high.move_up(block, from, to);
        }
    }

    /// Adds numbers to the list until it has at least `count`. Returns an error if it fails to
    /// allocate. The numbers that the list had are unchanged in both cases.
    pub fn grow(&mut self, count: usize) -> Result<(), AllocError>
        ensures same { take (length self.old) self.new ≡ self.old }
        ensures grows { length self.old ≤ length self.new }
        ensures enough { OnOk result (count ≤ length self.new) }
        ensures most { length self.new ≤ max (length self.old) (count + 63) }
        ensures needed { OnErr result (length self.old < count) }
    {
        if count <= self.len() {
            return Ok(());
        }
        let blocks = (count - 1) / BLOCK + 1;
        if blocks > LOW_BLOCKS {
            self.high.grow(blocks)?;
        }
        self.low.grow(blocks)
    }

    /// Returns a copy, or an error if it fails to allocate.
    pub fn clone(&self) -> Result<Self, AllocError>
        ensures { IfOk result (λ copy. copy ≡ self.now) }
    {
        Ok(Words {
            low: self.low.clone()?,
            high: self.high.clone()?,
        })
    }

    /// Removes all numbers, and keeps the memory.
    pub fn clear(&mut self)
        ensures { self.new ≡ [] }
    {
        self.low.clear();
        self.high.clear();
    }
}
