//! Removals of the elements for which a closure returns `true`, one by one.
ghost use Rattle.std.specs.Prelude.{◌≡◌, length, true, None, Some, IfSome};
ghost use Rattle.std.specs.Iterator.{at_most};
ghost use Rattle.blart_keys.specs.Bounds.{bound_bytes, CanRange};
ghost use Rattle.blart_keys.specs.Content.{between, without};
ghost use Rattle.blart_map.specs.Passed.{leaf_in, Has, leaves_left, FitsIn, PassesFirst, PassesLast, WasFirst, WasLast, StaysLeft};
ghost use Rattle.blart_map.specs.Beneath.{walk_fits, numbers};
ghost use Rattle.blart_set.specs.Elements.{elements};

use crate::set::TreeSet;
use blart_keys::AsBytes;
use blart_map::{Cursor, LeafId, Visits};
use std::iter::{DoubleEndedIterator, Iterator};
use std::ops::Bound;

/// An iterator that removes the elements within two bounds for which a closure returns `true`, one
/// by one, from both ends. The closure is called once for each element that the iterator reaches,
/// before the element is removed. If the iterator is dropped, the elements that it did not reach
/// remain in the set.
///
/// ```
/// // set is {1, 2, 3, 4}
/// let mut walk = set.extract_if(Bound::<&u8>::Unbounded, Bound::Unbounded, |x| *x % 2 == 0);
/// assert_eq!(walk.next_back(), Some(4));
/// assert_eq!(walk.next(), Some(2));
/// // dropped here, it leaves {1, 3}
/// ```
#[derive(Drop)]
pub struct ExtractIf<'a, K: AsBytes, F, const PREFIX_LEN: usize> {
    set: &'a mut TreeSet<K, PREFIX_LEN>,
    cursor: Cursor,
    pred: F,
    ghost fits: { walk_fits cursor None (numbers set.now) ≡ true },
}

#[tactic(auto, unfolding(crate::specs::Elements::elements))]
impl<K: AsBytes, const PREFIX_LEN: usize> TreeSet<K, PREFIX_LEN> {
    ghost use Rattle.blart_set.specs.Extracting.{extract_set, extract_pred, extract_left};

    /// Returns an iterator that removes the elements within both bounds for which the closure
    /// returns `true`, from both ends. The bounds must be in order if the set has elements, as for
    /// [`TreeSet::range`]. Does not allocate.
    ///
    /// Cost: an opening. A step makes one visit for each call of the closure, and one descent for
    /// the element that it yields.
    ///
    /// ```
    /// let low = "b";
    /// let mut walk = set.extract_if(Bound::Included(&low), Bound::Unbounded, |x| x.len() > 3);
    /// while let Some(element) = walk.next() {
    ///     // each element from "b" on with more than three letters, no longer in the set
    /// }
    /// ```
    pub fn extract_if<Q: AsBytes, F: FnMut(&K) -> bool>(
        &mut self,
        start: Bound<&Q>,
        end: Bound<&Q>,
        pred: F,
    ) -> ExtractIf<'_, K, F, PREFIX_LEN>
        requires { CanRange (elements self.old) (bound_bytes Q.bytes start)
            (bound_bytes Q.bytes end) }
        ensures same_set { (extract_set result).ghost_name ≡ self.entry.ghost_name }
        ensures unchanged { (extract_set result).now ≡ self.old }
        ensures left { extract_left result ≡ between K.bytes (elements self.old)
            (bound_bytes Q.bytes start.entry) (bound_bytes Q.bytes end.entry) }
        ensures same_pred { extract_pred result ≡ pred }
    {
        let cursor = self.cursor(start, end);
        ExtractIf {
            set: self,
            cursor,
            pred,
        }
    }

    /// Returns a cursor over the elements within both bounds.
    pub(crate) fn cursor<Q: AsBytes>(&self, start: Bound<&Q>, end: Bound<&Q>) -> Cursor
        requires { CanRange (elements self.now) (bound_bytes Q.bytes start)
            (bound_bytes Q.bytes end) }
        ensures fits { FitsIn result self.now }
        ensures left { elements (leaves_left result self.now)
            ≡ between K.bytes (elements self.now)
            (bound_bytes Q.bytes start.entry) (bound_bytes Q.bytes end.entry) }
    {
        self.map.cursor(start, end)
    }

    /// Passes the first element that a cursor has left, and returns the id of its leaf.
    pub(crate) fn step(&self, cursor: &mut Cursor) -> Option<LeafId>
        requires { FitsIn cursor.old self.now }
        ensures fits { FitsIn cursor.new self.now }
        ensures there { IfSome result (λ id. Has self.now id) }
        ensures first { IfSome result (λ id. WasFirst self.now cursor.old id cursor.new) }
        ensures passes { PassesFirst (leaves_left cursor.old self.now) result
            (leaves_left cursor.new self.now) }
    {
        self.map.step(cursor, &mut Visits::new())
    }

    /// Passes the last element that a cursor has left, and returns the id of its leaf.
    pub(crate) fn step_back(&self, cursor: &mut Cursor) -> Option<LeafId>
        requires { FitsIn cursor.old self.now }
        ensures fits { FitsIn cursor.new self.now }
        ensures there { IfSome result (λ id. Has self.now id) }
        ensures last { IfSome result (λ id. WasLast self.now cursor.old id cursor.new) }
        ensures passes { PassesLast (leaves_left cursor.old self.now) result
            (leaves_left cursor.new self.now) }
    {
        self.map.step_back(cursor, &mut Visits::new())
    }

    /// Returns the element of a leaf.
    pub(crate) fn element(&self, id: LeafId) -> &K
        requires { Has self.now id }
        ensures { leaf_in self.now id ≡ Some (result.now, tt) }
    {
        self.map.leaf(id).0
    }
}

#[tactic(auto, unfolding(crate::specs::Elements::elements))]
impl<K: AsBytes + Drop, const PREFIX_LEN: usize> TreeSet<K, PREFIX_LEN> {
    /// Removes the element of a leaf, and returns it.
    pub(crate) fn take_element(&mut self, id: LeafId) -> K
        requires { Has self.old id }
        ensures value { leaf_in self.old id ≡ Some (result, tt) }
        ensures removed { elements self.new
            ≡ without K.bytes (elements self.old) (K.bytes result) }
        ensures left { StaysLeft self.old id self.new }
    {
        self.map.take_leaf(id).0
    }
}

impl<'a, K: AsBytes + Drop, F: FnMut(&K) -> bool + Drop, const PREFIX_LEN: usize> Iterator
    for ExtractIf<'a, K, F, PREFIX_LEN> {
    ghost use Rattle.blart_set.specs.Extracting.{extract_left, CanExtract, ExtractsNext};

    type Item = K;

    ghost can_next = { CanExtract F.FnMut };

    ghost next_gives = { ExtractsNext F.FnMut };

    ghost remaining = { λ s. at_most (length (extract_left s)) };

    /// Calls the closure from the first element that is left on, up to the first element for which
    /// it returns `true`. Removes that element and returns it, or returns `None` if there is no
    /// such element.
    ///
    /// Cost: one visit for each call of the closure, and one descent for the element that it
    /// returns.
    fn next(&mut self) -> Option<K> {
        while let Some(id) = self.set.step(&mut self.cursor) {
            if (self.pred)(self.set.element(id)) {
                return Some(self.set.take_element(id));
            }
        }
        None
    }
}

impl<
    'a,
    K: AsBytes + Drop,
    F: FnMut(&K) -> bool + Drop,
    const PREFIX_LEN: usize,
> DoubleEndedIterator for ExtractIf<'a, K, F, PREFIX_LEN> {
    ghost use Rattle.blart_set.specs.Extracting.{CanExtractBack, ExtractsNextBack};

    ghost can_next_back = { CanExtractBack F.FnMut };

    ghost next_back_gives = { ExtractsNextBack F.FnMut };

    /// Calls the closure from the last element that is left on, up to one for which it returns
    /// `true`. Removes that element and returns it, or returns `None` if there is no such element.
    ///
    /// Cost: one visit for each call of the closure, and one descent for the element that it
    /// returns.
    fn next_back(&mut self) -> Option<K> {
        while let Some(id) = self.set.step_back(&mut self.cursor) {
            if (self.pred)(self.set.element(id)) {
                return Some(self.set.take_element(id));
            }
        }
        None
    }
}
