//! Iterators over the pairs within bounds, over those whose keys begin with some bytes, and over
//! those from one leaf through another.
ghost use Rattle.std.specs.Prelude.{◌≡◌, ◌≢◌, ◌+◌, ◌<◌, ◌≤◌, [], length};
ghost use Rattle.std.specs.Iterator.{YieldsFirstBy, YieldsLastBy, item_count};
ghost use Rattle.blart_keys.specs.Bounds.{slice_bound, CanRange};
ghost use Rattle.blart_keys.specs.Content.{between, under};
ghost use Rattle.art_tree.specs.Leaves.{bytes};
ghost use Rattle.art_tree.specs.Longest.{longest};
ghost use Rattle.art_tree.specs.Pairs.{pairs_of};
ghost use Rattle.art_walk.specs.Cursor.{span_of, IsSpan};
ghost use Rattle.art_walk.specs.Openings.{longer, opening};

use crate::cursor::Cursor;
use crate::openings::{BelowFront, InRange, InSubtree};
use art_tree::{LeafId, Tree, Visits, Walk};
use blart_keys::AsBytes;
use std::iter::{DoubleEndedIterator, FusedIterator, Iterator};
use std::marker::{Model, PhantomData};
use std::ops::Bound;

/// The pairs within two bounds, from both ends, in byte order of their keys. Each step makes one
/// visit. Once no pair is left, each step returns `None`.
pub type Range<'a, K, V, const PREFIX_LEN: usize> = BoundedIter<'a, K, V, InRange, PREFIX_LEN>;

/// The pairs whose keys begin with some bytes, from both ends, in byte order of their keys. Each
/// step makes one visit. Once no pair is left, each step returns `None`.
pub type Prefix<'a, K, V, const PREFIX_LEN: usize> = BoundedIter<'a, K, V, BelowFront, PREFIX_LEN>;

/// The pairs from one leaf through another, from both ends, in byte order of their keys. Each step
/// makes one visit. Once no pair is left, each step returns `None`.
pub type SubtreeIter<'a, K, V, const PREFIX_LEN: usize> = BoundedIter<
    'a,
    K,
    V,
    InSubtree,
    PREFIX_LEN,
>;

/// Consecutive pairs of a tree, from both ends, in byte order of their keys. Each step makes one
/// visit. Once no pair is left, each step returns `None`.
#[derive(Drop)]
pub struct BoundedIter<'a, K, V, M, const PREFIX_LEN: usize> {
    walk: Walk<'a, K, V>,
    kind: PhantomData<M>,
}

impl<'a, K, V, M, const PREFIX_LEN: usize> Model for BoundedIter<'a, K, V, M, PREFIX_LEN> {
    ghost use Rattle.std.specs.Prelude.{List};

    ghost Value = { List (K × V) };

    ghost view = { λ it. it.walk };
}

impl<'a, K: AsBytes, V, const PREFIX_LEN: usize> BoundedIter<'a, K, V, InRange, PREFIX_LEN> {
    /// Returns an iterator over the pairs whose bytes are within both bounds. If the tree has
    /// pairs, the bounds must be in order.
    ///
    /// Cost: at most 2 * (n + 2) * (L + 2) visits, if the longer bound has n bytes and the longest
    /// key has L bytes, and at least one, but none on an empty tree.
    pub fn new(
        tree: &'a Tree<K, V, PREFIX_LEN>,
        start: Bound<&[u8]>,
        end: Bound<&[u8]>,
        visits: &mut Visits,
    ) -> Self
        requires { CanRange tree.now.pairs (slice_bound start) (slice_bound end) }
        ensures value { result
            ≡ pairs_of (between (bytes K.bytes) tree.now.pairs
            (slice_bound start.entry) (slice_bound end.entry)) }
        ensures counted { visits.new.count ≤ visits.old.count
            + opening (longer (slice_bound start.entry) (slice_bound end.entry))
            (longest (bytes K.bytes) tree.now.pairs) }
        ensures grows { visits.old.count ≤ visits.new.count }
        ensures some_counted { tree.now.pairs ≢ [] → visits.old.count < visits.new.count }
        ensures empty { tree.now.pairs ≡ [] → visits.new.count ≡ visits.old.count }
    {
        let cursor = Cursor::range(tree, start, end, visits);
        BoundedIter {
            walk: Walk::new(tree, cursor.ends),
            kind: PhantomData,
        }
    }
}

impl<'a, K: AsBytes, V, const PREFIX_LEN: usize> BoundedIter<'a, K, V, BelowFront, PREFIX_LEN> {
    /// Returns an iterator over the pairs whose bytes begin with these.
    ///
    /// Cost: at most 2 * (n + 2) * (L + 2) visits, if there are n bytes and the longest key has L
    /// bytes, and at least one if n is not 0, but none on an empty tree.
    pub fn new(tree: &'a Tree<K, V, PREFIX_LEN>, front: &[u8], visits: &mut Visits) -> Self
        ensures value { result ≡ pairs_of (under (bytes K.bytes) tree.now.pairs front.now) }
        ensures counted { visits.new.count ≤ visits.old.count
            + opening (length front.now) (longest (bytes K.bytes) tree.now.pairs) }
        ensures grows { visits.old.count ≤ visits.new.count }
        ensures some_counted { front.now ≢ [] → tree.now.pairs ≢ []
            → visits.old.count < visits.new.count }
        ensures empty { tree.now.pairs ≡ [] → visits.new.count ≡ visits.old.count }
    {
        let cursor = Cursor::prefix(tree, front, visits);
        BoundedIter {
            walk: Walk::new(tree, cursor.ends),
            kind: PhantomData,
        }
    }
}

impl<'a, K: AsBytes, V, const PREFIX_LEN: usize> BoundedIter<'a, K, V, InSubtree, PREFIX_LEN> {
    /// Returns an iterator over the pairs from the first leaf through the last. The first leaf must
    /// not come after the last.
    ///
    /// Cost: no visit.
    pub fn new(tree: &'a Tree<K, V, PREFIX_LEN>, first: LeafId, last: LeafId) -> Self
        requires { IsSpan tree.now.pairs first last }
        ensures { result ≡ pairs_of (span_of tree.now.pairs first last) }
    {
        BoundedIter {
            walk: Walk::new(tree, Some((first, last))),
            kind: PhantomData,
        }
    }
}

impl<'a, K, V, M, const PREFIX_LEN: usize> Iterator for BoundedIter<'a, K, V, M, PREFIX_LEN> {
    type Item = (&'a K, &'a V);

    ghost next_gives = { YieldsFirstBy (λ item. (item.0.now, item.1.now)) (λ rest. rest) };

    ghost remaining = { item_count (λ rest. rest) };

    /// Returns the first pair that is left, or `None` if none is left.
    ///
    /// Cost: one visit.
    #[inline(always)]
    fn next(&mut self) -> Option<(&'a K, &'a V)> {
        self.walk.next()
    }
}

impl<'a, K, V, M, const PREFIX_LEN: usize> DoubleEndedIterator
    for BoundedIter<'a, K, V, M, PREFIX_LEN> {
    ghost next_back_gives = { YieldsLastBy (λ item. (item.0.now, item.1.now)) (λ rest. rest) };

    /// Returns the last pair that is left, or `None` if none is left.
    ///
    /// Cost: one visit.
    #[inline(always)]
    fn next_back(&mut self) -> Option<(&'a K, &'a V)> {
        self.walk.next_back()
    }
}

impl<'a, K, V, M, const PREFIX_LEN: usize> FusedIterator for BoundedIter<'a, K, V, M, PREFIX_LEN> {}
