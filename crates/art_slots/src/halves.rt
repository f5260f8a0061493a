//! A list of numbers of 32 bits, in blocks.
ghost use Rattle.std.specs.Prelude.{◌≡◌, ◌≢◌, ℕ, ◌+◌, ◌-◌, ◌*◌, ◌^◌, ◌<◌, ◌≤◌, max, true, false, [], ◌++◌, length, replicate, slice_index_or, slice_set, OnOk, IfOk, OnErr};
ghost use Rattle.art_slots.specs.Words.{block_at, moved_down, moved_up};
ghost use Rattle.art_slots.specs.Halves.{AddsZeros};

use crate::dense::Dense;
use std::alloc::{AllocError, Global};
use std::marker::Model;

/// The number of numbers in a block.
pub(crate) const BLOCK: usize = 64;

/// The most blocks that a list has, so that it has fewer than 2^61 numbers.
const MOST_BLOCKS: usize = (1 << 55) - 1;

/// Numbers that follow one another.
#[derive(Drop)]
pub(crate) struct Block {
    pub(crate) halves: [u32; BLOCK],
}

impl Clone for Block {
    ghost use Rattle.std.specs.Prelude.{◌≡◌};

    ghost is_clone = { λ block copy. copy ≡ block };

    fn clone(&self) -> Result<Self, AllocError> {
        Ok(Block {
            halves: self.halves,
        })
    }
}

/// A list of numbers of 32 bits, with 4 bytes for each. A contract sees the list.
///
/// The numbers lie in blocks of 64, and the blocks in a slab at the keys 0, 1, 2 and so on. No
/// block is removed until the list is cleared.
#[derive(Drop)]
pub(crate) struct Halves {
    pub(crate) blocks: Dense<Block>,
}

impl Model for Halves {
    ghost use Rattle.std.specs.Prelude.{◌<◌, ◌^◌, ℕ, List, length};

    ghost Value = { List ℕ };

    ghost use Rattle.art_slots.specs.Halves.{joined, AreWhole};

    ghost view = { λ w. joined w.blocks.items };

    ghost invariant = { λ w. AreWhole w.blocks.items × (length w.blocks.items < 2 ^ 55) };
}

impl Halves {
    /// Returns an empty list. Does not allocate.
    pub fn new(alloc: Global) -> Self
        ensures { result ≡ [] }
    {
        Halves {
            blocks: Dense::new(alloc),
        }
    }

    /// Returns the length.
    #[inline(always)]
    pub fn len(&self) -> usize
        ensures len { result ≡ length self.now }
        ensures small { result < 2 ^ 61 }
    {
        self.blocks.len() * BLOCK
    }

    /// Returns the number at an index.
    #[inline(always)]
    pub fn read(&self, i: usize) -> u32
        requires { i < length self.now }
        ensures { result ≡ slice_index_or self.now i 0 }
    {
        self.blocks.read(i / BLOCK).halves[i % BLOCK]
    }

    /// Writes a number at an index.
    #[inline(always)]
    pub fn write(&mut self, i: usize, half: u32)
        requires { i < length self.old }
        ensures { self.new ≡ slice_set self.old i half }
    {
        self.blocks.get_mut(i / BLOCK).halves[i % BLOCK] = half;
    }

    /// Returns `true` if the list has a block at an index.
    #[inline(always)]
    pub fn has_block(&self, block: usize) -> bool
        ensures here { result ≡ true → 64 * block + 64 ≤ length self.now }
        ensures past { result ≡ false → length self.now ≤ 64 * block }
    {
        block < self.blocks.len()
    }

    /// Returns the numbers of a block.
    #[inline(always)]
    pub fn block(&self, block: usize) -> &[u32]
        requires { 64 * block + 64 ≤ length self.now }
        ensures { result.now ≡ block_at self.now block }
    {
        &self.blocks.read(block).halves
    }

    /// Moves the number at the place `from` of a block to the earlier place `to`. Each number
    /// between moves one place up.
    #[inline(always)]
    pub fn move_down(&mut self, block: usize, from: usize, to: usize)
        requires block { 64 * block + 64 ≤ length self.old }
        requires order { to ≤ from }
        requires within { from < 64 }
        ensures moved { block_at self.new block ≡ moved_down (block_at self.old block) from to }
        ensures others { (j : ℕ) → j ≢ block → block_at self.new j ≡ block_at self.old j }
        ensures len { length self.new ≡ length self.old }
    {
        self.blocks.get_mut(block).halves[to..from + 1].rotate_right(1);
    }

    /// Moves the number at the place `from` of a block to the later place `to`. Each number between
    /// moves one place down.
    #[inline(always)]
    pub fn move_up(&mut self, block: usize, from: usize, to: usize)
        requires block { 64 * block + 64 ≤ length self.old }
        requires order { from ≤ to }
        requires within { to < 64 }
        ensures moved { block_at self.new block ≡ moved_up (block_at self.old block) from to }
        ensures others { (j : ℕ) → j ≢ block → block_at self.new j ≡ block_at self.old j }
        ensures len { length self.new ≡ length self.old }
    {
        self.blocks.get_mut(block).halves[from..to + 1].rotate_left(1);
    }

    /// Adds blocks of zeros to the list until it has at least `count` blocks. Returns an error if
    /// it fails to allocate. The numbers are unchanged in both cases.
    pub fn grow(&mut self, count: usize) -> Result<(), AllocError>
        ensures zeros { self.new ≡ self.old ++ replicate (length self.new - length self.old) 0 }
        ensures grows { length self.old ≤ length self.new }
        ensures enough { OnOk result (count * BLOCK ≤ length self.new) }
        ensures most { length self.new ≤ max (length self.old) (count * BLOCK) }
        ensures needed { OnErr result (length self.old < count * BLOCK) }
    {
        let len = self.blocks.len();
        if count <= len {
            return Ok(());
        }
        if count > MOST_BLOCKS {
            return Err(AllocError);
        }
        let missing = count - len;
        self.blocks.reserve(missing)?;
        add_zeros(&mut self.blocks, missing)
    }

    /// Returns a copy, or an error if it fails to allocate.
    pub fn clone(&self) -> Result<Self, AllocError>
        ensures { IfOk result (λ copy. copy ≡ self.now) }
    {
        Ok(Halves {
            blocks: self.blocks.clone()?,
        })
    }

    /// Removes all numbers, and keeps the memory.
    pub fn clear(&mut self)
        ensures { self.new ≡ [] }
    {
        self.blocks.clear();
    }
}

/// Adds `count` blocks of zeros in reserved memory. Each block's key is the number of blocks before
/// it. If the slab's next key is another number, returns the error for memory and adds no more.
fn add_zeros(blocks: &mut Dense<Block>, count: usize) -> Result<(), AllocError>
    requires { length blocks.old.items + count ≤ blocks.old.capacity }
    ensures adds { AddsZeros blocks.old.items blocks.new.items count }
    ensures all { OnOk result (length blocks.new.items ≡ length blocks.old.items + count) }
{
    for _ in 0..count {
        if !blocks.has_next() {
            return Err(AllocError);
        }
        blocks.push_reserved(Block { halves: [0; BLOCK] });
    }
    Ok(())
}
