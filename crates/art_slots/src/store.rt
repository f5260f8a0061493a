//! Records under numbers.
ghost use Rattle.std.specs.Prelude.{◌≡◌, ◌≢◌, ℕ, ◌+◌, ◌^◌, ◌<◌, ◌≤◌, [], Some, None, IsSome, is_some, OnOk, IfOk, OnErr};
ghost use Rattle.art_slots.specs.Store.{slot_at, used_count, SameRecords, AreClones};
ghost use Rattle.std.specs.Borrow.{sem};

use crate::slots::Slots;
use std::alloc::{AllocError, Global};
use std::marker::Model;

/// Records under numbers. A number keeps its record until the record is taken out. A contract sees
/// the record at each number, and the number of spare slots. A record that goes into a spare slot
/// needs no allocation.
///
/// A slot that lost its record is spare. So is reserved memory for a slot, which is not written
/// before a record goes there.
#[derive(Drop)]
pub struct Store<T> {
    pub(crate) slots: Slots<T>,
    /// The part of the slots' room that counts as spare slots of the store.
    pub(crate) reserved: usize,
}

impl<T> Model for Store<T> {
    ghost use Rattle.std.specs.Prelude.{◌+◌, ◌≤◌};
    ghost use Rattle.art_slots.specs.Store.{Store as Records, store_code};

    ghost Value = { Records T };

    ghost coded = { store_code T.code };

    ghost view = { λ s. record s.slots.store { spare = s.slots.store.spare + s.reserved } };

    ghost invariant = { λ s. s.reserved ≤ s.slots.room };
}

impl<T> Store<T> {
    ghost use Rattle.art_slots.specs.Lends.{lends_record};

    /// Returns a store with no records. Does not allocate.
    pub fn new(alloc: Global) -> Self
        ensures empty { result.slots ≡ [] }
        ensures spare { result.spare ≡ 0 }
    {
        Store {
            slots: Slots::new(alloc),
            reserved: 0,
        }
    }

    /// Returns the number of spare slots.
    pub fn spare(&self) -> usize
        ensures { result ≡ self.now.spare }
    {
        self.slots.spare() + self.reserved
    }

    /// Returns the number of records.
    #[inline(always)]
    pub fn used(&self) -> usize
        ensures count { result ≡ used_count self.now }
        ensures small { result < 2 ^ 61 }
    {
        self.slots.used()
    }

    /// Returns the record at a number.
    #[inline(always)]
    pub fn read(&self, id: usize) -> &T
        requires { IsSome (slot_at self.now id) }
        ensures value { slot_at self.now id ≡ Some result.now }
    {
        self.slots.read(id)
    }

    /// Returns `true` if there is a record at a number.
    #[inline(always)]
    pub fn has(&self, id: usize) -> bool
        ensures { result ≡ is_some (slot_at self.now id) }
    {
        self.slots.has(id)
    }

    /// Returns a mutable reference to the record at a number.
    #[inline(always)]
    pub fn get_mut(&mut self, id: usize) -> &mut T
        requires { IsSome (slot_at self.old id) }
        ensures* writes_back { sem 𝓛 (lends_record T.row self.entry id result) }
        ensures value { slot_at self.old id ≡ Some result.now }
    {
        self.slots.get_mut(id)
    }

    /// Adds spare slots until there are at least `count`. Returns an error if it fails to allocate.
    /// The records are unchanged in both cases, and there are not fewer spare slots than before.
    #[inline(always)]
    pub fn reserve(&mut self, count: usize) -> Result<(), AllocError>
        ensures same { SameRecords self.old self.new }
        ensures used { used_count self.new ≡ used_count self.old }
        ensures grows { self.old.spare ≤ self.new.spare }
        ensures enough { OnOk result (count ≤ self.new.spare) }
        ensures refused { OnErr result (self.old.spare < count) }
    {
        if count <= self.spare() {
            return Ok(());
        }
        self.grow(count)
    }

    /// Adds spare slots until there are `count`, if there are fewer. This is a function of
    /// its own, so that a call with enough spare slots is one comparison.
    #[cold]
    #[inline(never)]
    fn grow(&mut self, count: usize) -> Result<(), AllocError>
        requires { self.old.spare < count }
        ensures same { SameRecords self.old self.new }
        ensures used { used_count self.new ≡ used_count self.old }
        ensures grows { self.old.spare ≤ self.new.spare }
        ensures enough { OnOk result (count ≤ self.new.spare) }
    {
        let missing = count - self.spare();
        // A slab that has grown may have any capacity by its contract. Only if that is small are
        // the numbers of new slots surely small. So the reserved slots are added first.
        self.slots.add_spares(self.reserved);
        self.reserved = 0;
        self.slots.grow(missing)?;
        // The slab may have grown by more than was asked. All of it is reserved, so that the next
        // calls need not allocate.
        self.reserved = self.slots.room();
        Ok(())
    }
}

impl<T: Clone> Store<T> {
    /// Returns a store with the same slots, also the spare ones, and a clone of each record, or an
    /// error if it fails to allocate.
    pub fn clone(&self) -> Result<Self, AllocError>
        ensures cloned { IfOk result (AreClones T.is_clone self.now) }
        ensures used { IfOk result (λ copy. used_count copy ≡ used_count self.now) }
        ensures spare { IfOk result (λ copy. copy.spare ≤ self.now.spare) }
    {
        Ok(Store {
            slots: self.slots.clone()?,
            reserved: 0,
        })
    }
}

impl<T: Drop> Store<T> {
    /// Puts a record into a spare slot, and returns its number.
    #[inline(always)]
    pub fn fill(&mut self, fresh: T) -> usize
        requires { 0 < self.old.spare }
        ensures small { result < 2 ^ 61 }
        ensures fresh { slot_at self.old result ≡ None }
        ensures now { slot_at self.new result ≡ Some fresh }
        ensures others { (j : ℕ) → j ≢ result → slot_at self.new j ≡ slot_at self.old j }
        ensures spare { self.new.spare + 1 ≡ self.old.spare }
        ensures used { used_count self.new ≡ used_count self.old + 1 }
    {
        if self.slots.spare() > 0 {
            return self.slots.fill(fresh);
        }
        self.reserved -= 1;
        self.slots.put(fresh)
    }

    /// Takes a record out. Its slot becomes spare.
    #[inline(always)]
    pub fn take(&mut self, id: usize) -> T
        requires { IsSome (slot_at self.old id) }
        ensures value { slot_at self.old id ≡ Some result }
        ensures gone { slot_at self.new id ≡ None }
        ensures others { (j : ℕ) → j ≢ id → slot_at self.new j ≡ slot_at self.old j }
        ensures spare { self.new.spare ≡ self.old.spare + 1 }
        ensures used { used_count self.new + 1 ≡ used_count self.old }
    {
        self.slots.take(id)
    }

    /// Drops a record. Its slot becomes spare.
    #[inline(always)]
    pub fn remove(&mut self, id: usize)
        requires { IsSome (slot_at self.old id) }
        ensures gone { slot_at self.new id ≡ None }
        ensures others { (j : ℕ) → j ≢ id → slot_at self.new j ≡ slot_at self.old j }
        ensures spare { self.new.spare ≡ self.old.spare + 1 }
        ensures used { used_count self.new + 1 ≡ used_count self.old }
    {
        self.slots.remove(id);
    }

    /// Drops all records. There is no spare slot then.
    pub fn clear(&mut self)
        ensures empty { self.new.slots ≡ [] }
        ensures spare { self.new.spare ≡ 0 }
    {
        self.slots.clear();
        self.reserved = 0;
    }
}
