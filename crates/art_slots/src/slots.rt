//! The slots of a store: the records and the spare slots, in a slab.
ghost use Rattle.std.specs.Prelude.{◌≡◌, ◌≢◌, ℕ, ◌+◌, ◌^◌, ◌<◌, ◌≤◌, max, [], option_map, Some, None, IsSome, is_some, OnOk, IfOk, OnErr};
ghost use Rattle.art_slots.specs.Store.{slot_at, used_count, SameRecords, AreClones};
ghost use Rattle.art_slots.specs.Chain.{used_of};
ghost use Rattle.std.specs.Borrow.{Lends, sem};

use crate::growth::make_room;
use slab::Slab;
use std::alloc::{AllocError, Global};
use std::marker::Model;
use std::mem;

/// The most slots that there can be. Their numbers are less, so the sum of the counts of a few
/// stores does not overflow, and a number and a kind fit in one word.
const MOST: usize = (1 << 61) - 1;

/// A slot of a store.
#[derive(Drop)]
pub(crate) enum Slot<T> {
    Used(T),
    /// A spare slot, with the number of the next one.
    Spare(Option<usize>),
}

impl<T> Slot<T> {
    ghost use Rattle.art_slots.specs.contracts.slots.Slot.{the_row};

    /// Returns a mutable reference to the record of a used slot.
    fn record_mut(&mut self) -> &mut T
        requires { IsSome (used_of (Some self.old)) }
        ensures* lends { sem 𝓛 (Lends (the_row T.row) T.row self.entry result Slot.Used) }
        ensures value { used_of (Some self.old) ≡ Some result.now }
    {
        match self {
            Slot::Used(record) => record,
            Slot::Spare(_) => unreachable!(),
        }
    }
}

impl<T: Clone> Clone for Slot<T> {
    ghost use Rattle.art_slots.specs.Chain.{IsCopy};

    ghost is_clone = { IsCopy T.is_clone };

    fn clone(&self) -> Result<Self, AllocError> {
        match self {
            Slot::Used(record) => Ok(Slot::Used(record.clone()?)),
            Slot::Spare(next) => Ok(Slot::Spare(*next)),
        }
    }
}

/// Records under numbers, in slots. A slot that loses its record becomes spare, and names the next
/// spare slot. A contract sees the records and the number of spare slots as a store. It also sees
/// the room, which is the number of slots that can be added without an allocation.
///
/// The room is that of the slab, or none if a number of the slab may be too great. The number of
/// each slot is less than the top.
#[derive(Drop)]
pub struct Slots<T> {
    pub(crate) slab: Slab<Slot<T>>,
    /// The first spare slot.
    pub(crate) free: Option<usize>,
    pub(crate) spare: usize,
    /// A number that is greater than that of each slot.
    pub(crate) top: usize,
}

impl<T> Model for Slots<T> {
    ghost use Rattle.std.specs.Prelude.{map};
    ghost use Rattle.slab.specs.Slab.{slab_len};
    ghost use Rattle.art_slots.specs.Slots.{Slots as Records, slots_code};

    ghost Value = { Records T };

    ghost coded = { slots_code T.code };

    ghost use Rattle.art_slots.specs.Chain.{used_of, HasSpares, room_of};

    ghost view = { λ s. record {
      store = record { slots = map used_of s.slab.slots; spare = s.spare };
      room = room_of (slab_len s.slab) s.slab.capacity;
      top = s.top;
      next = s.slab.vacant_key;
    } };

    ghost invariant = { λ s. HasSpares s.slab.slots s.free s.spare s.top };
}

impl<T> Slots<T> {
    ghost use Rattle.art_slots.specs.SlotLends.{lends_slot};

    /// Returns no slots. Does not allocate.
    pub fn new(alloc: Global) -> Self
        ensures empty { result.store.slots ≡ [] }
        ensures spare { result.store.spare ≡ 0 }
        ensures room { result.room ≡ 0 }
        ensures top { result.top ≡ 0 }
    {
        Slots {
            slab: Slab::new(alloc),
            free: None,
            spare: 0,
            top: 0,
        }
    }

    /// Returns the number of the next new slot.
    pub fn next(&self) -> usize
        ensures { result ≡ self.now.next }
    {
        self.slab.vacant_key()
    }

    /// Returns the number of spare slots.
    pub fn spare(&self) -> usize
        ensures value { result ≡ self.now.store.spare }
        ensures small { result + self.now.room < 2 ^ 61 }
    {
        self.spare
    }

    /// Returns the number of slots that can be added without an allocation.
    pub fn room(&self) -> usize
        ensures { result ≡ self.now.room }
    {
        let capacity = self.slab.capacity();
        if capacity > MOST {
            return 0;
        }
        capacity - self.slab.len()
    }

    /// Returns the number of records.
    pub fn used(&self) -> usize
        ensures count { result ≡ used_count self.now.store }
        ensures small { result < 2 ^ 61 }
    {
        self.slab.len() - self.spare
    }

    /// Returns the record at a number, if there is one.
    pub fn get(&self, id: usize) -> Option<&T>
        ensures { option_map (λ r. r.now) result ≡ slot_at self.now.store id }
    {
        match self.slab.get(id) {
            Some(Slot::Used(record)) => Some(record),
            _ => None,
        }
    }

    /// Returns the record at a number.
    pub fn read(&self, id: usize) -> &T
        requires { IsSome (slot_at self.now.store id) }
        ensures value { slot_at self.now.store id ≡ Some result.now }
        ensures below { id < self.now.top }
    {
        match self.slab.get(id) {
            Some(Slot::Used(record)) => record,
            _ => unreachable!(),
        }
    }

    /// Returns `true` if there is a record at a number.
    pub fn has(&self, id: usize) -> bool
        ensures { result ≡ is_some (slot_at self.now.store id) }
    {
        matches!(self.slab.get(id), Some(Slot::Used(_)))
    }

    /// Returns a mutable reference to the record at a number.
    pub fn get_mut(&mut self, id: usize) -> &mut T
        requires { IsSome (slot_at self.old.store id) }
        ensures* writes_back { sem 𝓛 (lends_slot T.row self.entry id result) }
        ensures value { slot_at self.old.store id ≡ Some result.now }
        ensures below { id < self.old.top }
    {
        self.slab[id].record_mut()
    }

    /// Adds a spare slot. Does not allocate.
    pub fn add_spare(&mut self)
        requires { 0 < self.old.room }
        ensures same { SameRecords self.old.store self.new.store }
        ensures used { used_count self.new.store ≡ used_count self.old.store }
        ensures spare { self.new.store.spare ≡ self.old.store.spare + 1 }
        ensures room { self.new.room + 1 ≡ self.old.room }
        ensures top { self.new.top ≡ max self.old.top (self.old.next + 1) }
    {
        let id = self.slab.insert_reserved(Slot::Spare(self.free));
        self.free = Some(id);
        self.spare += 1;
        self.top = above(self.top, id);
    }

    /// Adds `count` spare slots. Does not allocate.
    pub fn add_spares(&mut self, count: usize)
        requires { count ≤ self.old.room }
        ensures same { SameRecords self.old.store self.new.store }
        ensures used { used_count self.new.store ≡ used_count self.old.store }
        ensures spare { self.new.store.spare ≡ self.old.store.spare + count }
        ensures room { self.new.room + count ≡ self.old.room }
    {
        for _ in 0..count {
            self.add_spare();
        }
    }

    /// Makes room for `count` more slots. Returns an error if it fails to allocate, and there may
    /// be less room than before then. The records and the spare slots are unchanged in both cases.
    pub fn grow(&mut self, count: usize) -> Result<(), AllocError>
        ensures same { self.new.store ≡ self.old.store }
        ensures room { OnOk result (count ≤ self.new.room) }
        ensures needed { OnErr result (self.old.room < max count 1) }
        ensures top { self.new.top ≡ self.old.top }
        ensures next { self.new.next ≡ self.old.next }
    {
        make_room(&mut self.slab, count)?;
        if self.slab.capacity() > MOST {
            return Err(AllocError);
        }
        Ok(())
    }
}

impl<T: Clone> Slots<T> {
    /// Returns slots with a clone of each record under its number, and the same spare slots, or an
    /// error if it fails to allocate.
    pub fn clone(&self) -> Result<Self, AllocError>
        ensures cloned { IfOk result (λ copy. AreClones T.is_clone self.now.store copy.store) }
        ensures used { IfOk result (λ copy. used_count copy.store ≡ used_count self.now.store) }
        ensures spare { IfOk result (λ copy. copy.store.spare ≡ self.now.store.spare) }
        ensures top { IfOk result (λ copy. copy.top ≡ self.now.top) }
    {
        Ok(Slots {
            slab: self.slab.clone()?,
            free: self.free,
            spare: self.spare,
            top: self.top,
        })
    }
}

impl<T: Drop> Slots<T> {
    /// Puts a record into the first spare slot, and returns its number.
    #[inline(always)]
    pub fn fill(&mut self, fresh: T) -> usize
        requires { 0 < self.old.store.spare }
        ensures small { result < 2 ^ 61 }
        ensures below { result < self.old.top }
        ensures top { self.new.top ≡ self.old.top }
        ensures fresh { slot_at self.old.store result ≡ None }
        ensures now { slot_at self.new.store result ≡ Some fresh }
        ensures others { (j : ℕ) → j ≢ result
            → slot_at self.new.store j ≡ slot_at self.old.store j }
        ensures spare { self.new.store.spare + 1 ≡ self.old.store.spare }
        ensures used { used_count self.new.store ≡ used_count self.old.store + 1 }
        ensures room { self.new.room ≡ self.old.room }
    {
        let id = match self.free {
            Some(id) => id,
            None => unreachable!(),
        };
        self.free = match &self.slab[id] {
            Slot::Spare(next) => *next,
            Slot::Used(_) => unreachable!(),
        };
        self.slab[id] = Slot::Used(fresh);
        self.spare -= 1;
        id
    }

    /// Puts a record into a new slot, and returns its number. Does not allocate.
    #[inline(always)]
    pub fn put(&mut self, fresh: T) -> usize
        requires { 0 < self.old.room }
        ensures small { result < 2 ^ 61 }
        ensures fresh { slot_at self.old.store result ≡ None }
        ensures now { slot_at self.new.store result ≡ Some fresh }
        ensures others { (j : ℕ) → j ≢ result
            → slot_at self.new.store j ≡ slot_at self.old.store j }
        ensures spare { self.new.store.spare ≡ self.old.store.spare }
        ensures used { used_count self.new.store ≡ used_count self.old.store + 1 }
        ensures room { self.new.room + 1 ≡ self.old.room }
    {
        let id = self.slab.insert_reserved(Slot::Used(fresh));
        self.top = above(self.top, id);
        id
    }

    /// Takes a record out. Its slot becomes spare.
    pub fn take(&mut self, id: usize) -> T
        requires { IsSome (slot_at self.old.store id) }
        ensures value { slot_at self.old.store id ≡ Some result }
        ensures gone { slot_at self.new.store id ≡ None }
        ensures others { (j : ℕ) → j ≢ id → slot_at self.new.store j ≡ slot_at self.old.store j }
        ensures spare { self.new.store.spare ≡ self.old.store.spare + 1 }
        ensures used { used_count self.new.store + 1 ≡ used_count self.old.store }
        ensures room { self.new.room ≡ self.old.room }
        ensures top { self.new.top ≡ self.old.top }
    {
        match mem::replace(&mut self.slab[id], Slot::Spare(self.free)) {
            Slot::Used(record) => {
                self.free = Some(id);
                self.spare += 1;
                record
            }
            Slot::Spare(_) => unreachable!(),
        }
    }

    /// Drops a record. Its slot becomes spare.
    pub fn remove(&mut self, id: usize)
        requires { IsSome (slot_at self.old.store id) }
        ensures gone { slot_at self.new.store id ≡ None }
        ensures others { (j : ℕ) → j ≢ id → slot_at self.new.store j ≡ slot_at self.old.store j }
        ensures spare { self.new.store.spare ≡ self.old.store.spare + 1 }
        ensures used { used_count self.new.store + 1 ≡ used_count self.old.store }
        ensures room { self.new.room ≡ self.old.room }
        ensures top { self.new.top ≡ self.old.top }
    {
        self.slab[id] = Slot::Spare(self.free);
        self.free = Some(id);
        self.spare += 1;
    }

    /// Drops all records, removes all slots, and keeps the memory.
    pub fn clear(&mut self)
        ensures empty { self.new.store.slots ≡ [] }
        ensures spare { self.new.store.spare ≡ 0 }
        ensures room { self.old.room ≤ self.new.room }
        ensures top { self.new.top ≡ 0 }
    {
        self.slab.clear();
        self.free = None;
        self.spare = 0;
        self.top = 0;
    }
}

/// Returns the least number that is not less than `top` and is greater than `id`.
fn above(top: usize, id: usize) -> usize
    requires { id < 2 ^ 61 }
    ensures { result ≡ max top (id + 1) }
{
    if top <= id {
        return id + 1;
    }
    top
}
