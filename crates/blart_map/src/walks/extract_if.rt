//! Removes the pairs that a closure selects, one by one.
ghost use Rattle.std.specs.Prelude.{◌≡◌, ◌≢◌, ◌+◌, ◌<◌, ◌≤◌, ◌&&◌, [], not, filter, Bool, length, true, None};
ghost use Rattle.std.specs.Iterator.{at_most};
ghost use Rattle.blart_keys.specs.Bounds.{bound_bytes, is_from_start, is_up_to_end, CanRange};
ghost use Rattle.blart_keys.specs.Content.{between};
ghost use Rattle.blart_keys.specs.Steps.{bytes as pair_bytes};
ghost use Rattle.art_tree.specs.Leaves.{bytes};
ghost use Rattle.art_tree.specs.Longest.{longest};
ghost use Rattle.art_walk.specs.Lent.{walk_fits, numbers};
ghost use Rattle.art_walk.specs.Openings.{longer, opening};
ghost use Rattle.blart_map.specs.Content.{pairs};

use crate::map::TreeMap;
use art_tree::Visits;
use art_walk::{Cursor, extract_first, extract_last};
use blart_keys::AsBytes;
use std::iter::{DoubleEndedIterator, Iterator};
use std::ops::Bound;

/// A walk that removes and yields the pairs within two bounds for which a closure returns `true`,
/// one by one, from both ends. The closure is called once on each pair that the walk reaches,
/// before the pair is removed. A pair that remains keeps the value that the closure left. If the
/// walk is dropped, it stops where it is, and the pairs that it did not reach are unchanged.
///
/// ```
/// map.try_insert("cat", 0)?;
/// let start = Bound::<&&str>::Unbounded;
/// let mut walk = map.extract_if(start, Bound::Unbounded, |_, value| *value == 0);
/// assert_eq!(walk.next(), Some(("cat", 0)));
/// assert!(walk.next().is_none());
/// ```
#[derive(Drop)]
pub struct ExtractIf<'a, K: AsBytes, V, F, const PREFIX_LEN: usize> {
    map: &'a mut TreeMap<K, V, PREFIX_LEN>,
    cursor: Cursor,
    pred: F,
    ghost fits: { walk_fits cursor None (numbers map.now) ≡ true },
}

impl<K: AsBytes, V, const PREFIX_LEN: usize> TreeMap<K, V, PREFIX_LEN> {
    ghost use Rattle.blart_map.specs.ExtractIf.{extract_map, extract_pred, extract_left};
    ghost use Rattle.blart_map.specs.OnceTaken.{once_extracted, still_to_extract};

    /// Returns a walk that removes and yields the pairs within both bounds for which the closure
    /// returns `true`, from both ends. If the map has pairs, the bounds must be in order, as for
    /// [`TreeMap::range`]. It does not allocate.
    ///
    /// Cost: an opening. A step makes one visit for each call of the closure, and one descent for
    /// the pair that it yields.
    ///
    /// ```
    /// let start = Bound::Included(&"b");
    /// let mut walk = map.extract_if(start, Bound::Unbounded, |_, value| *value == 0);
    /// while let Some((key, value)) = walk.next() {
    ///     // each key from "b" on whose value is 0, no longer in the map
    /// }
    /// ```
    pub fn extract_if<Q: AsBytes, F: FnMut(&K, &mut V) -> bool>(
        &mut self,
        start: Bound<&Q>,
        end: Bound<&Q>,
        pred: F,
    ) -> ExtractIf<'_, K, V, F, PREFIX_LEN>
        requires { CanRange (pairs self.old) (bound_bytes Q.bytes start)
            (bound_bytes Q.bytes end) }
        ensures same_map { (extract_map result).ghost_name ≡ self.entry.ghost_name }
        ensures unchanged { (extract_map result).now ≡ self.old }
        ensures all { (test : K × V → Bool) → once_extracted test result
            ≡ filter (λ pair. not (is_from_start (bound_bytes Q.bytes start.entry) (K.bytes pair.0)
            && is_up_to_end (bound_bytes Q.bytes end.entry) (K.bytes pair.0)
            && test pair)) (pairs self.old) }
        ensures picks { (test : K × V → Bool) → still_to_extract test result
            ≡ filter (λ pair. is_from_start (bound_bytes Q.bytes start.entry) (K.bytes pair.0)
            && is_up_to_end (bound_bytes Q.bytes end.entry) (K.bytes pair.0)
            && test pair) (pairs self.old) }
        ensures left { extract_left result ≡ between (bytes K.bytes) self.old
            (bound_bytes Q.bytes start.entry) (bound_bytes Q.bytes end.entry) }
        ensures same_pred { extract_pred result ≡ pred }
    {
        self.extract_if_counted(start, end, pred, &mut Visits::new())
    }

    /// Like [`TreeMap::extract_if`], and counts the visits of the opening.
    ///
    /// Cost: at most 2 * (n + 2) * (L + 2) visits, if the longer bound has n bytes and the longest
    /// key has L bytes, and at least one, but none on an empty map. The reads of a step are not
    /// counted.
    pub fn extract_if_counted<Q: AsBytes, F: FnMut(&K, &mut V) -> bool>(
        &mut self,
        start: Bound<&Q>,
        end: Bound<&Q>,
        pred: F,
        visits: &mut Visits,
    ) -> ExtractIf<'_, K, V, F, PREFIX_LEN>
        requires { CanRange (pairs self.old) (bound_bytes Q.bytes start)
            (bound_bytes Q.bytes end) }
        ensures same_map { (extract_map result).ghost_name ≡ self.entry.ghost_name }
        ensures unchanged { (extract_map result).now ≡ self.old }
        ensures all { (test : K × V → Bool) → once_extracted test result
            ≡ filter (λ pair. not (is_from_start (bound_bytes Q.bytes start.entry) (K.bytes pair.0)
            && is_up_to_end (bound_bytes Q.bytes end.entry) (K.bytes pair.0)
            && test pair)) (pairs self.old) }
        ensures picks { (test : K × V → Bool) → still_to_extract test result
            ≡ filter (λ pair. is_from_start (bound_bytes Q.bytes start.entry) (K.bytes pair.0)
            && is_up_to_end (bound_bytes Q.bytes end.entry) (K.bytes pair.0)
            && test pair) (pairs self.old) }
        ensures left { extract_left result ≡ between (bytes K.bytes) self.old
            (bound_bytes Q.bytes start.entry) (bound_bytes Q.bytes end.entry) }
        ensures same_pred { extract_pred result ≡ pred }
        ensures counted { visits.new.count ≤ visits.old.count
            + opening (longer (bound_bytes Q.bytes start.entry) (bound_bytes Q.bytes end.entry))
            (longest (pair_bytes K.bytes) (pairs self.old)) }
        ensures grows { visits.old.count ≤ visits.new.count }
        ensures some_counted { pairs self.old ≢ [] → visits.old.count < visits.new.count }
        ensures empty { pairs self.old ≡ [] → visits.new.count ≡ visits.old.count }
    {
        self.numbers_law();
        let cursor = self.cursor_counted(start, end, visits);
        ExtractIf {
            map: self,
            cursor,
            pred,
        }
    }
}

impl<
    'a,
    K: AsBytes + Drop,
    V: Drop,
    F: FnMut(&K, &mut V) -> bool + Drop,
    const PREFIX_LEN: usize,
> Iterator for ExtractIf<'a, K, V, F, PREFIX_LEN> {
    ghost use Rattle.blart_map.specs.ExtractIf.{extract_left, CanExtract, ExtractsNext};

    type Item = (K, V);

    ghost can_next = { CanExtract F.FnMut };

    ghost next_gives = { ExtractsNext F.FnMut };

    ghost remaining = { λ s. at_most (length (extract_left s)) };

    /// Calls the closure on each pair that is left, from the first on, up to the first pair for
    /// which it returns `true`. Removes that pair and returns it, or returns `None` if there is no
    /// such pair.
    ///
    /// Cost: one visit for each call of the closure, and one descent for the pair that it returns.
    fn next(&mut self) -> Option<(K, V)> {
        let map = &mut *self.map;
        extract_first(&mut map.tree, &mut self.cursor, &mut self.pred)
    }
}

impl<
    'a,
    K: AsBytes + Drop,
    V: Drop,
    F: FnMut(&K, &mut V) -> bool + Drop,
    const PREFIX_LEN: usize,
> DoubleEndedIterator for ExtractIf<'a, K, V, F, PREFIX_LEN> {
    ghost use Rattle.blart_map.specs.ExtractIf.{CanExtractBack, ExtractsNextBack};

    ghost can_next_back = { CanExtractBack F.FnMut };

    ghost next_back_gives = { ExtractsNextBack F.FnMut };

    /// Calls the closure on each pair that is left, from the last on, up to one for which it
    /// returns `true`. Removes that pair and returns it, or returns `None` if there is no such
    /// pair.
    ///
    /// Cost: one visit for each call of the closure, and one descent for the pair that it returns.
    fn next_back(&mut self) -> Option<(K, V)> {
        let map = &mut *self.map;
        extract_last(&mut map.tree, &mut self.cursor, &mut self.pred)
    }
}
