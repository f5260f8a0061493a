//! A slab whose values have the keys 0, 1, 2 and so on.
ghost use Rattle.std.specs.Prelude.{◌≡◌, ◌+◌, ◌<◌, ◌≤◌, ◌==◌, [], ◌∷◌, ◌++◌, length, slice_index_or, OnOk, IfOk, OnErr};
ghost use Rattle.std.specs.List.{AllZip};
ghost use Rattle.std.specs.Borrow.{sem};

use crate::growth::make_room;
use slab::Slab;
use std::alloc::{AllocError, Global};
use std::marker::Model;

/// Values in a slab, at the keys 0, 1, 2 and so on. A contract sees the list of the values, the
/// slab's next key, and how many values fit in its memory.
///
/// The slab does not promise that its next key is the number of values. A caller tests it with
/// [`Dense::has_next`] before each push.
#[derive(Drop)]
pub(crate) struct Dense<T> {
    pub(crate) slab: Slab<T>,
}

impl<T> Model for Dense<T> {
    ghost use Rattle.art_slots.specs.Dense.{Dense as Items, dense_code, Holds};
    ghost use Rattle.slab.specs.Slab.{values};

    ghost Value = { Items T };

    ghost coded = { dense_code T.code };

    ghost view = { λ d. record {
      items = values d.slab;
      next = d.slab.vacant_key;
      capacity = d.slab.capacity;
    } };

    ghost invariant = { λ d. Holds d.slab.slots (values d.slab) };
}

impl<T> Dense<T> {
    ghost use Rattle.art_slots.specs.DenseLends.{lends_item};

    /// Returns a slab with no values. Does not allocate.
    pub fn new(alloc: Global) -> Self
        ensures { result.items ≡ [] }
    {
        Dense {
            slab: Slab::new(alloc),
        }
    }

    /// Returns the number of values.
    #[inline(always)]
    pub fn len(&self) -> usize
        ensures { result ≡ length self.now.items }
    {
        self.slab.len()
    }

    /// Returns the value at a key.
    #[inline(always)]
    pub fn read(&self, key: usize) -> &T
        requires { key < length self.now.items }
        ensures { result.now ≡ slice_index_or self.now.items key result.now }
    {
        match self.slab.get(key) {
            Some(value) => value,
            None => unreachable!(),
        }
    }

    /// Returns a mutable reference to the value at a key.
    #[inline(always)]
    pub fn get_mut(&mut self, key: usize) -> &mut T
        requires { key < length self.old.items }
        ensures* writes_back { sem 𝓛 (lends_item T.row self.entry key result) }
        ensures value { result.now ≡ slice_index_or self.old.items key result.now }
    {
        &mut self.slab[key]
    }

    /// Reserves memory for `more` more values. Returns an error if it fails to allocate.
    pub fn reserve(&mut self, more: usize) -> Result<(), AllocError>
        ensures items { self.new.items ≡ self.old.items }
        ensures room { OnOk result (length self.new.items + more ≤ self.new.capacity) }
        ensures needed { OnErr result (self.old.capacity < length self.old.items + more) }
    {
        make_room(&mut self.slab, more)
    }

    /// Returns `true` if the slab's next key is the number of values.
    pub fn has_next(&self) -> bool
        ensures { result ≡ (self.now.next == length self.now.items) }
    {
        self.slab.vacant_key() == self.slab.len()
    }

    /// Adds a value at the next key, in reserved memory.
    pub fn push_reserved(&mut self, value: T)
        requires next { self.old.next ≡ length self.old.items }
        requires room { length self.old.items < self.old.capacity }
        ensures items { self.new.items ≡ self.old.items ++ value ∷ [] }
        ensures capacity { self.new.capacity ≡ self.old.capacity }
    {
        self.slab.insert_reserved(value);
    }
}

impl<T: Clone> Dense<T> {
    /// Returns a copy with a clone of each value, or an error if it fails to allocate.
    pub fn clone(&self) -> Result<Self, AllocError>
        ensures { IfOk result (λ copy. AllZip T.is_clone self.now.items copy.items) }
    {
        Ok(Dense {
            slab: self.slab.clone()?,
        })
    }
}

impl<T: Drop> Dense<T> {
    /// Removes all values, and keeps the memory.
    pub fn clear(&mut self)
        ensures { self.new.items ≡ [] }
    {
        self.slab.clear();
    }
}
