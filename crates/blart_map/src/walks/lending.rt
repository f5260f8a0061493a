//! Walks over mutable references to values.
ghost use Rattle.std.specs.Prelude.{◌≡◌, ◌≢◌, ◌+◌, ◌<◌, ◌≤◌, ◌&&◌, [], length, not, filter, Bool, None};
ghost use Rattle.blart_keys.specs.Bounds.{bound_bytes, is_from_start, is_up_to_end, CanRange};
ghost use Rattle.blart_keys.specs.Bytes.{begins};
ghost use Rattle.blart_keys.specs.Content.{between, under};
ghost use Rattle.blart_keys.specs.Steps.{bytes as pair_bytes};
ghost use Rattle.art_tree.specs.Leaves.{bytes};
ghost use Rattle.art_tree.specs.Longest.{longest};
ghost use Rattle.art_walk.specs.Openings.{longer, opening};
ghost use Rattle.blart_map.specs.Content.{pairs};

use crate::map::TreeMap;
use crate::walks::counted_walk::{CountedWalk, IterMut, ValuesMut};
use crate::walks::lending_walk::{LendingWalk, PrefixMut, RangeMut};
use crate::walks::take_walk::TakeWalk;
use art_tree::Visits;
use art_walk::Cursor;
use blart_keys::AsBytes;
use std::ops::Bound;

impl<K: AsBytes, V, const PREFIX_LEN: usize> TreeMap<K, V, PREFIX_LEN> {
    ghost use Rattle.blart_map.specs.CountedWalk.{counted_map, counted_last, counted_left};
    ghost use Rattle.blart_map.specs.LendingWalk.{lending_map, lending_last, lending_left};
    ghost use Rattle.blart_map.specs.OnceWritten.{rewritten, all_rewritten, once_written, all_once_written};
    ghost use Rattle.blart_map.specs.OnceTaken.{once_taken, still_to_take};
    ghost use Rattle.blart_map.specs.TakeWalk.{take_map, take_undecided, take_left};

    /// Returns a walk over mutable references to all values, in byte order of the keys, from both
    /// ends. It does not allocate.
    ///
    /// [`CountedWalk::pair`] returns the value again, with its key. A caller's proof of such a loop
    /// cites the lemma `pair_written`, and needs the name `_seen`: from `Some(_)` it learns
    /// nothing.
    ///
    /// Cost: no visit. Each step makes one visit.
    ///
    /// ```
    /// let mut walk = map.iter_mut();
    /// while let Some(_seen) = walk.next() {
    ///     let (key, value) = walk.pair();
    ///     *value = key.len();
    /// }
    /// ```
    pub fn iter_mut(&mut self) -> IterMut<'_, K, V, PREFIX_LEN>
        ensures same_map { (counted_map result).ghost_name ≡ self.entry.ghost_name }
        ensures unchanged { (counted_map result).now ≡ self.old }
        ensures all { (f : K × V → V) → all_once_written f result
            ≡ all_rewritten f (pairs self.old) }
        ensures left { counted_left result ≡ self.old }
        ensures none_lent { counted_last result ≡ None }
    {
        self.numbers_law();
        CountedWalk::all(self)
    }

    /// Returns a walk over mutable references to all values, in byte order of the keys, from both
    /// ends. It does not allocate.
    ///
    /// Cost: no visit. Each step makes one visit.
    ///
    /// ```
    /// let mut walk = map.values_mut();
    /// while let Some(value) = walk.next() {
    ///     *value += 1;
    /// }
    /// ```
    pub fn values_mut(&mut self) -> ValuesMut<'_, K, V, PREFIX_LEN>
        ensures same_map { (counted_map result).ghost_name ≡ self.entry.ghost_name }
        ensures unchanged { (counted_map result).now ≡ self.old }
        ensures all { (f : K × V → V) → all_once_written f result
            ≡ all_rewritten f (pairs self.old) }
        ensures left { counted_left result ≡ self.old }
        ensures none_lent { counted_last result ≡ None }
    {
        self.numbers_law();
        CountedWalk::all(self)
    }

    /// Returns a walk over mutable references to the values whose keys begin with these bytes, in
    /// byte order of the keys, from both ends. If there are no bytes, it goes over all values. It
    /// does not allocate.
    ///
    /// Cost: an opening. Each step makes one visit.
    ///
    /// ```
    /// let mut walk = map.prefix_mut(b"ca");
    /// while let Some(value) = walk.next() {
    ///     *value += 1;
    /// }
    /// ```
    pub fn prefix_mut(&mut self, front: &[u8]) -> PrefixMut<'_, K, V, PREFIX_LEN>
        ensures same_map { (lending_map result).ghost_name ≡ self.entry.ghost_name }
        ensures unchanged { (lending_map result).now ≡ self.old }
        ensures all { (f : K × V → V) → once_written f result
            ≡ rewritten (λ pair. begins front.now (K.bytes pair.0)) f (pairs self.old) }
        ensures left { lending_left result ≡ under (bytes K.bytes) self.old front.now }
        ensures none_lent { lending_last result ≡ None }
    {
        self.prefix_mut_counted(front, &mut Visits::new())
    }

    /// Like [`TreeMap::prefix_mut`], and counts the visits of the opening.
    ///
    /// Cost: at most 2 * (n + 2) * (L + 2) visits, if there are n bytes and the longest key has L
    /// bytes, and at least one if n is not 0, but none on an empty map. Each step is one visit
    /// more, which is not counted.
    #[tactic(auto, using(crate::proofs::Passed::Opening::opens))]
    pub fn prefix_mut_counted(
        &mut self,
        front: &[u8],
        visits: &mut Visits,
    ) -> PrefixMut<'_, K, V, PREFIX_LEN>
        ensures same_map { (lending_map result).ghost_name ≡ self.entry.ghost_name }
        ensures unchanged { (lending_map result).now ≡ self.old }
        ensures all { (f : K × V → V) → once_written f result
            ≡ rewritten (λ pair. begins front.now (K.bytes pair.0)) f (pairs self.old) }
        ensures left { lending_left result ≡ under (bytes K.bytes) self.old front.now }
        ensures none_lent { lending_last result ≡ None }
        ensures counted { visits.new.count ≤ visits.old.count
            + opening (length front.now)
            (longest (pair_bytes K.bytes) (pairs self.old)) }
        ensures grows { visits.old.count ≤ visits.new.count }
        ensures some_counted { front.now ≢ [] → pairs self.old ≢ []
            → visits.old.count < visits.new.count }
        ensures empty { pairs self.old ≡ [] → visits.new.count ≡ visits.old.count }
    {
        self.numbers_law();
        let below = Cursor::prefix(&self.tree, front, visits);
        LendingWalk::of(self, below)
    }

    /// Returns a walk over mutable references to the values whose keys are within both bounds, in
    /// byte order of the keys, from both ends. If the map has pairs, the bounds must be in order,
    /// as for [`TreeMap::range`]. It does not allocate.
    ///
    /// Cost: an opening. Each step makes one visit.
    ///
    /// ```
    /// let (low, high) = ("b", "d");
    /// let mut walk = map.range_mut(Bound::Included(&low), Bound::Excluded(&high));
    /// while let Some(value) = walk.next() {
    ///     *value += 1;
    /// }
    /// ```
    pub fn range_mut<Q: AsBytes>(
        &mut self,
        start: Bound<&Q>,
        end: Bound<&Q>,
    ) -> RangeMut<'_, K, V, PREFIX_LEN>
        requires { CanRange (pairs self.old) (bound_bytes Q.bytes start)
            (bound_bytes Q.bytes end) }
        ensures same_map { (lending_map result).ghost_name ≡ self.entry.ghost_name }
        ensures unchanged { (lending_map result).now ≡ self.old }
        ensures all { (f : K × V → V) → once_written f result
            ≡ rewritten (λ pair. is_from_start (bound_bytes Q.bytes start.entry) (K.bytes pair.0)
            && is_up_to_end (bound_bytes Q.bytes end.entry) (K.bytes pair.0)) f (pairs self.old) }
        ensures left { lending_left result ≡ between (bytes K.bytes) self.old
            (bound_bytes Q.bytes start.entry) (bound_bytes Q.bytes end.entry) }
        ensures none_lent { lending_last result ≡ None }
    {
        self.range_mut_counted(start, end, &mut Visits::new())
    }

    /// Like [`TreeMap::range_mut`], and counts the visits of the opening.
    ///
    /// Cost: at most 2 * (n + 2) * (L + 2) visits, if the longer bound has n bytes and the longest
    /// key has L bytes, and at least one, but none on an empty map. Each step is one visit more,
    /// which is not counted.
    #[tactic(auto, using(crate::proofs::Passed::Opening::opens))]
    pub fn range_mut_counted<Q: AsBytes>(
        &mut self,
        start: Bound<&Q>,
        end: Bound<&Q>,
        visits: &mut Visits,
    ) -> RangeMut<'_, K, V, PREFIX_LEN>
        requires { CanRange (pairs self.old) (bound_bytes Q.bytes start)
            (bound_bytes Q.bytes end) }
        ensures same_map { (lending_map result).ghost_name ≡ self.entry.ghost_name }
        ensures unchanged { (lending_map result).now ≡ self.old }
        ensures all { (f : K × V → V) → once_written f result
            ≡ rewritten (λ pair. is_from_start (bound_bytes Q.bytes start.entry) (K.bytes pair.0)
            && is_up_to_end (bound_bytes Q.bytes end.entry) (K.bytes pair.0)) f (pairs self.old) }
        ensures left { lending_left result ≡ between (bytes K.bytes) self.old
            (bound_bytes Q.bytes start.entry) (bound_bytes Q.bytes end.entry) }
        ensures none_lent { lending_last result ≡ None }
        ensures counted { visits.new.count ≤ visits.old.count
            + opening (longer (bound_bytes Q.bytes start.entry) (bound_bytes Q.bytes end.entry))
            (longest (pair_bytes K.bytes) (pairs self.old)) }
        ensures grows { visits.old.count ≤ visits.new.count }
        ensures some_counted { pairs self.old ≢ [] → visits.old.count < visits.new.count }
        ensures empty { pairs self.old ≡ [] → visits.new.count ≡ visits.old.count }
    {
        self.numbers_law();
        let cursor = self.cursor_counted(start, end, visits);
        LendingWalk::of(self, cursor)
    }

    /// Returns a walk that lends the pairs within both bounds, in byte order of their keys, from
    /// both ends. Each pair is then kept or taken. If the map has pairs, the bounds must be in
    /// order, as for [`TreeMap::range`]. It does not allocate.
    ///
    /// Cost: an opening. Each step makes one visit.
    ///
    /// ```
    /// let mut walk = map.take_walk(Bound::<&&str>::Unbounded, Bound::Unbounded);
    /// while let Some(value) = walk.lend() {
    ///     if *value == 0 {
    ///         let (key, _) = walk.take();
    ///     } else {
    ///         walk.keep();
    ///     }
    /// }
    /// ```
    pub fn take_walk<Q: AsBytes>(
        &mut self,
        start: Bound<&Q>,
        end: Bound<&Q>,
    ) -> TakeWalk<'_, K, V, PREFIX_LEN>
        requires { CanRange (pairs self.old) (bound_bytes Q.bytes start)
            (bound_bytes Q.bytes end) }
        ensures same_map { (take_map result).ghost_name ≡ self.entry.ghost_name }
        ensures unchanged { (take_map result).now ≡ self.old }
        ensures all { (test : K × V → Bool) → once_taken test result
            ≡ filter (λ pair. not (is_from_start (bound_bytes Q.bytes start.entry) (K.bytes pair.0)
            && is_up_to_end (bound_bytes Q.bytes end.entry) (K.bytes pair.0)
            && test pair)) (pairs self.old) }
        ensures picks { (test : K × V → Bool) → still_to_take test result
            ≡ filter (λ pair. is_from_start (bound_bytes Q.bytes start.entry) (K.bytes pair.0)
            && is_up_to_end (bound_bytes Q.bytes end.entry) (K.bytes pair.0)
            && test pair) (pairs self.old) }
        ensures left { take_left result ≡ between (bytes K.bytes) self.old
            (bound_bytes Q.bytes start.entry) (bound_bytes Q.bytes end.entry) }
        ensures decided { take_undecided result ≡ None }
    {
        self.take_walk_counted(start, end, &mut Visits::new())
    }

    /// Like [`TreeMap::take_walk`], and counts the visits of the opening.
    ///
    /// Cost: at most 2 * (n + 2) * (L + 2) visits, if the longer bound has n bytes and the longest
    /// key has L bytes, and at least one, but none on an empty map. Each step is one visit more,
    /// which is not counted.
    #[tactic(auto, using(crate::proofs::Passed::Opening::opens))]
    pub fn take_walk_counted<Q: AsBytes>(
        &mut self,
        start: Bound<&Q>,
        end: Bound<&Q>,
        visits: &mut Visits,
    ) -> TakeWalk<'_, K, V, PREFIX_LEN>
        requires { CanRange (pairs self.old) (bound_bytes Q.bytes start)
            (bound_bytes Q.bytes end) }
        ensures same_map { (take_map result).ghost_name ≡ self.entry.ghost_name }
        ensures unchanged { (take_map result).now ≡ self.old }
        ensures all { (test : K × V → Bool) → once_taken test result
            ≡ filter (λ pair. not (is_from_start (bound_bytes Q.bytes start.entry) (K.bytes pair.0)
            && is_up_to_end (bound_bytes Q.bytes end.entry) (K.bytes pair.0)
            && test pair)) (pairs self.old) }
        ensures picks { (test : K × V → Bool) → still_to_take test result
            ≡ filter (λ pair. is_from_start (bound_bytes Q.bytes start.entry) (K.bytes pair.0)
            && is_up_to_end (bound_bytes Q.bytes end.entry) (K.bytes pair.0)
            && test pair) (pairs self.old) }
        ensures left { take_left result ≡ between (bytes K.bytes) self.old
            (bound_bytes Q.bytes start.entry) (bound_bytes Q.bytes end.entry) }
        ensures decided { take_undecided result ≡ None }
        ensures counted { visits.new.count ≤ visits.old.count
            + opening (longer (bound_bytes Q.bytes start.entry) (bound_bytes Q.bytes end.entry))
            (longest (pair_bytes K.bytes) (pairs self.old)) }
        ensures grows { visits.old.count ≤ visits.new.count }
        ensures some_counted { pairs self.old ≢ [] → visits.old.count < visits.new.count }
        ensures empty { pairs self.old ≡ [] → visits.new.count ≡ visits.old.count }
    {
        self.numbers_law();
        let cursor = self.cursor_counted(start, end, visits);
        TakeWalk::of(self, cursor)
    }
}
