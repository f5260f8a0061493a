//! Cursors over the leaves within two bounds, and over those whose keys begin with some bytes.
ghost use Rattle.std.specs.Prelude.{◌≡◌, ◌≢◌, ◌+◌, ◌<◌, ◌≤◌, [], length};
ghost use Rattle.blart_keys.specs.Bounds.{slice_bound, is_up_to_end};
ghost use Rattle.blart_keys.specs.Content.{between, under};
ghost use Rattle.art_tree.specs.Leaves.{bytes};
ghost use Rattle.art_tree.specs.Longest.{longest};
ghost use Rattle.art_walk.specs.Cursor.{leaves_left, FitsIn};
ghost use Rattle.art_walk.specs.Openings.{longer, opening};

use crate::cursor::Cursor;
use art_tree::{Tree, Visits};
use blart_keys::{AsBytes, is_less};
use std::ops::Bound;

impl Cursor {
    /// Returns a cursor over the leaves whose keys' bytes are within both bounds. It has no leaves
    /// if the bounds are not in order.
    ///
    /// Cost: at most 2 * (n + 2) * (L + 2) visits, if the longer bound has n bytes and the longest
    /// key has L bytes, and at least one, but none on an empty tree.
    pub fn range<K: AsBytes, V, const PREFIX_LEN: usize>(
        tree: &Tree<K, V, PREFIX_LEN>,
        start: Bound<&[u8]>,
        end: Bound<&[u8]>,
        visits: &mut Visits,
    ) -> Cursor
        ensures fits { FitsIn result tree.now.pairs }
        ensures left { leaves_left result tree.now.pairs
            ≡ between (bytes K.bytes) tree.now.pairs
            (slice_bound start.entry) (slice_bound end.entry) }
        ensures counted { visits.new.count ≤ visits.old.count
            + opening (longer (slice_bound start.entry) (slice_bound end.entry))
            (longest (bytes K.bytes) tree.now.pairs) }
        ensures grows { visits.old.count ≤ visits.new.count }
        ensures some_counted { tree.now.pairs ≢ [] → visits.old.count < visits.new.count }
        ensures empty { tree.now.pairs ≡ [] → visits.new.count ≡ visits.old.count }
    {
        tree.law();
        let Some(first) = tree.seek(start, true, visits) else {
            return Cursor::none();
        };
        let Some(last) = tree.seek(end, false, visits) else {
            return Cursor::none();
        };
        let (key, _) = tree.leaf(first, visits);
        if is_within_end(key.as_bytes(), end) {
            Cursor::between(first, last)
        } else {
            Cursor::none()
        }
    }

    /// Returns a cursor over the leaves whose keys' bytes begin with these.
    ///
    /// Cost: at most 2 * (n + 2) * (L + 2) visits, if there are n bytes and the longest key has L
    /// bytes, and at least one if n is not 0, but none on an empty tree.
    pub fn prefix<K: AsBytes, V, const PREFIX_LEN: usize>(
        tree: &Tree<K, V, PREFIX_LEN>,
        front: &[u8],
        visits: &mut Visits,
    ) -> Cursor
        ensures fits { FitsIn result tree.now.pairs }
        ensures left { leaves_left result tree.now.pairs
            ≡ under (bytes K.bytes) tree.now.pairs front.now }
        ensures counted { visits.new.count ≤ visits.old.count
            + opening (length front.now) (longest (bytes K.bytes) tree.now.pairs) }
        ensures grows { visits.old.count ≤ visits.new.count }
        ensures some_counted { front.now ≢ [] → tree.now.pairs ≢ []
            → visits.old.count < visits.new.count }
        ensures empty { tree.now.pairs ≡ [] → visits.new.count ≡ visits.old.count }
    {
        tree.law();
        match tree.span(front, visits) {
            Some(ends) => Cursor::between(ends.0, ends.1),
            None => Cursor::none(),
        }
    }
}

/// Returns `true` if some bytes are within an end bound.
fn is_within_end(bytes: &[u8], end: Bound<&[u8]>) -> bool
    ensures { result ≡ is_up_to_end (slice_bound end.entry) bytes.now }
{
    match end {
        Bound::Included(high) => !is_less(high, bytes),
        Bound::Excluded(high) => is_less(bytes, high),
        Bound::Unbounded => true,
    }
}
