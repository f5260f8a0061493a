//! A chain of records. Each record has a number, and is linked to its neighbours.
ghost use Rattle.std.specs.Prelude.{◌≡◌, ◌+◌, ◌^◌, ◌<◌, max, ℕ, [], length, option_map, Some, None, IsSome, IfSome, OnOk, IfOk, OnErr};
ghost use Rattle.std.specs.Borrow.{sem};
ghost use Rattle.art_slots.specs.Store.{slot_at, used_count};
ghost use Rattle.art_rows.specs.Numbers.{leaf_in, Has, first_number, last_number, number_after, number_before, with_pair_after, without_number};
ghost use Rattle.art_rows.specs.Links.{with_next, with_prev, end_with};
ghost use Rattle.art_rows.specs.ChainLends.{lends_item, lends_at};

use art_slots::Slots;
use std::alloc::{AllocError, Global};
use std::marker::Model;

/// An item, and the numbers of the items before and after it.
#[derive(Drop)]
pub(crate) struct Link<T> {
    pub(crate) item: T,
    pub(crate) prev: Option<usize>,
    pub(crate) next: Option<usize>,
}

impl<T> Link<T> {
    /// Returns a mutable reference to the item.
    fn item_mut(&mut self) -> &mut T
        ensures* writes_back { sem 𝓛 (lends_item T.row self.entry result) }
        ensures item { result.now ≡ self.old.item }
    {
        &mut self.item
    }
}

impl Clone for Link<usize> {
    ghost is_clone = { λ x y. y ≡ x };

    fn clone(&self) -> Result<Self, AllocError> {
        Ok(Link {
            item: self.item,
            prev: self.prev,
            next: self.next,
        })
    }
}

/// Items in order, each under a number. A contract sees the items in order, the number of spare
/// slots, the number of slots that can be added without an allocation, a number greater than that
/// of each slot, and the number of the next new slot.
#[derive(Drop)]
pub(crate) struct Chain<T> {
    pub(crate) records: Slots<Link<T>>,
    pub(crate) first: Option<usize>,
    pub(crate) last: Option<usize>,
}

impl<T> Model for Chain<T> {
    ghost use Rattle.art_rows.specs.Numbers.{Numbers, numbers_code};

    ghost Value = { Numbers T };

    ghost coded = { numbers_code T.code };

    ghost use Rattle.art_rows.specs.Links.{content, AllLinked};

    ghost view = { λ t. content t.records t.first };

    ghost invariant = { λ t. AllLinked t.records.store t.first t.last };
}

/// Links the record `at` to the record after it. If `at` is `None`, that record becomes the first.
fn set_next<T>(
    records: &mut Slots<Link<T>>,
    first: &mut Option<usize>,
    at: Option<usize>,
    to: Option<usize>,
)
    requires { IfSome at (λ i. IsSome (slot_at records.old.store i)) }
    ensures leaves { (j : ℕ) → slot_at records.new.store j
        ≡ with_next (slot_at records.old.store) at to j }
    ensures first { first.new ≡ end_with at to first.old }
    ensures used { used_count records.new.store ≡ used_count records.old.store }
    ensures spare { records.new.store.spare ≡ records.old.store.spare }
    ensures room { records.new.room ≡ records.old.room }
    ensures top { records.new.top ≡ records.old.top }
{
    match at {
        None => *first = to,
        Some(id) => records.get_mut(id).next = to,
    }
}

/// Links the record `at` to the record before it. If `at` is `None`, that record becomes the last.
fn set_prev<T>(
    records: &mut Slots<Link<T>>,
    last: &mut Option<usize>,
    at: Option<usize>,
    to: Option<usize>,
)
    requires { IfSome at (λ i. IsSome (slot_at records.old.store i)) }
    ensures leaves { (j : ℕ) → slot_at records.new.store j
        ≡ with_prev (slot_at records.old.store) at to j }
    ensures last { last.new ≡ end_with at to last.old }
    ensures used { used_count records.new.store ≡ used_count records.old.store }
    ensures spare { records.new.store.spare ≡ records.old.store.spare }
    ensures room { records.new.room ≡ records.old.room }
    ensures top { records.new.top ≡ records.old.top }
{
    match at {
        None => *last = to,
        Some(id) => records.get_mut(id).prev = to,
    }
}

impl Chain<usize> {
    /// Returns a copy with the same items under the same numbers, or an error if it fails to
    /// allocate.
    pub(crate) fn clone(&self) -> Result<Self, AllocError>
        ensures same { IfOk result (λ copy. copy.pairs ≡ self.now.pairs) }
        ensures spare { IfOk result (λ copy. copy.spare ≡ self.now.spare) }
        ensures top { IfOk result (λ copy. copy.top ≡ self.now.top) }
    {
        Ok(Chain {
            records: self.records.clone()?,
            first: self.first,
            last: self.last,
        })
    }
}

impl<T> Chain<T> {
    /// Returns a chain with no items and no slots. Does not allocate.
    pub(crate) fn new(alloc: Global) -> Self
        ensures pairs { result.pairs ≡ [] }
        ensures spare { result.spare ≡ 0 }
        ensures top { result.top ≡ 0 }
    {
        Chain {
            records: Slots::new(alloc),
            first: None,
            last: None,
        }
    }

    /// Returns the number of items.
    pub(crate) fn len(&self) -> usize
        ensures value { result ≡ length self.now.pairs }
        ensures small { result < 2 ^ 61 }
    {
        self.records.used()
    }

    /// Returns the number of spare slots. An item that goes into one needs no allocation.
    pub(crate) fn spare(&self) -> usize
        ensures { result ≡ self.now.spare }
    {
        self.records.spare()
    }

    /// Returns the number of the next new slot.
    pub(crate) fn next_slot(&self) -> usize
        ensures { result ≡ self.now.next }
    {
        self.records.next()
    }

    /// Returns the first number, if there is one.
    pub(crate) fn first(&self) -> Option<usize>
        ensures { result ≡ first_number self.now.pairs }
    {
        self.first
    }

    /// Returns the last number, if there is one.
    pub(crate) fn last(&self) -> Option<usize>
        ensures { result ≡ last_number self.now.pairs }
    {
        self.last
    }

    /// Returns the number after this one, if there is one.
    pub(crate) fn next_of(&self, id: usize) -> Option<usize>
        requires { Has self.now.pairs id }
        ensures { result ≡ number_after self.now.pairs id }
    {
        self.record(id).next
    }

    /// Returns the number before this one, if there is one.
    pub(crate) fn prev_of(&self, id: usize) -> Option<usize>
        requires { Has self.now.pairs id }
        ensures { result ≡ number_before self.now.pairs id }
    {
        self.record(id).prev
    }

    /// Returns the record of a number.
    fn record(&self, id: usize) -> &Link<T>
        requires { Has self.now.pairs id }
        ensures value { leaf_in self.now.pairs id ≡ Some result.now.item }
        ensures next { result.now.next ≡ number_after self.now.pairs id }
        ensures prev { result.now.prev ≡ number_before self.now.pairs id }
    {
        self.records.read(id)
    }

    /// Returns the item of a number, if it has one.
    pub(crate) fn get(&self, id: usize) -> Option<&T>
        ensures { option_map (λ r. r.now) result ≡ leaf_in self.now.pairs id }
    {
        match self.records.get(id) {
            None => None,
            Some(link) => Some(&link.item),
        }
    }

    /// Returns the item of a number.
    pub(crate) fn read(&self, id: usize) -> &T
        requires { Has self.now.pairs id }
        ensures { leaf_in self.now.pairs id ≡ Some result.now }
    {
        &self.record(id).item
    }

    /// Returns a mutable reference to the item of a number.
    pub(crate) fn get_mut(&mut self, id: usize) -> &mut T
        requires { Has self.old.pairs id }
        ensures* writes_back { sem 𝓛 (lends_at T.row self.entry id result) }
        ensures value { leaf_in self.old.pairs id ≡ Some result.now }
        ensures below { id < self.old.top }
    {
        self.records.get_mut(id).item_mut()
    }
}

impl<T: Drop> Chain<T> {
    /// Inserts an item after the item of `prev`, or before all others, and returns its number. Does
    /// not allocate.
    pub(crate) fn insert(&mut self, prev: Option<usize>, item: T) -> usize
        requires spare { 0 < self.old.spare }
        requires prev { IfSome prev (Has self.old.pairs) }
        ensures fresh { leaf_in self.old.pairs result ≡ None }
        ensures placed { self.new.pairs ≡ with_pair_after prev (result, item) self.old.pairs }
        ensures spare { self.new.spare + 1 ≡ self.old.spare }
        ensures below { result < self.old.top }
        ensures room { self.new.room ≡ self.old.room }
        ensures top { self.new.top ≡ self.old.top }
    {
        let next = match prev {
            None => self.first,
            Some(id) => self.next_of(id),
        };
        let (before, after) = (prev, next);
        let number = self.records.fill(Link {
            item,
            prev: before,
            next: after,
        });
        set_next(&mut self.records, &mut self.first, prev, Some(number));
        set_prev(&mut self.records, &mut self.last, next, Some(number));
        number
    }

    /// Removes an item, and returns it.
    pub(crate) fn remove(&mut self, id: usize) -> T
        requires { Has self.old.pairs id }
        ensures value { leaf_in self.old.pairs id ≡ Some result }
        ensures rest { self.new.pairs ≡ without_number self.old.pairs id }
        ensures spare { self.new.spare ≡ self.old.spare + 1 }
        ensures room { self.new.room ≡ self.old.room }
        ensures top { self.new.top ≡ self.old.top }
    {
        let link = self.records.take(id);
        set_next(&mut self.records, &mut self.first, link.prev, link.next);
        set_prev(&mut self.records, &mut self.last, link.next, link.prev);
        link.item
    }

    /// Makes room for one more slot. Returns an error if it fails to allocate. The items and the
    /// spare slots are unchanged in both cases.
    pub(crate) fn grow(&mut self) -> Result<(), AllocError>
        ensures pairs { self.new.pairs ≡ self.old.pairs }
        ensures spare { self.new.spare ≡ self.old.spare }
        ensures top { self.new.top ≡ self.old.top }
        ensures next { self.new.next ≡ self.old.next }
        ensures ok { OnOk result (0 < self.new.room) }
        ensures needed { OnErr result (self.old.room ≡ 0) }
    {
        self.records.grow(1)
    }

    /// Adds a spare slot. Does not allocate.
    pub(crate) fn add_slot(&mut self)
        requires { 0 < self.old.room }
        ensures pairs { self.new.pairs ≡ self.old.pairs }
        ensures spare { self.new.spare ≡ self.old.spare + 1 }
        ensures room { self.new.room + 1 ≡ self.old.room }
        ensures top { self.new.top ≡ max self.old.top (self.old.next + 1) }
    {
        self.records.add_spare();
    }

    /// Drops all items, and removes all slots.
    pub(crate) fn clear(&mut self)
        ensures pairs { self.new.pairs ≡ [] }
        ensures spare { self.new.spare ≡ 0 }
        ensures top { self.new.top ≡ 0 }
    {
        self.records.clear();
        self.first = None;
        self.last = None;
    }
}
