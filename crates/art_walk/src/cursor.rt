//! The first and the last leaf that a walk has left.
ghost use Rattle.std.specs.Prelude.{◌≡◌, ◌≢◌, ◌+◌, option_map, is_some, IfSome, Some, None, if◌then◌else◌};
ghost use Rattle.art_tree.specs.Leaves.{Has, number_after, number_before};
ghost use Rattle.art_walk.specs.Cursor.{nothing_left, left_between, leaves_left, FitsIn, PassesFirst, PassesLast};

use art_tree::{LeafId, Position, Tree, Visits};
use blart_keys::AsBytes;

/// Returns the ends without the first leaf, or `None` if that is also the last. `seen` is a guess
/// of the position of the first leaf, and the call sets it to the position of the new first leaf.
#[inline(always)]
fn without_first<K: AsBytes, V, const PREFIX_LEN: usize>(
    tree: &Tree<K, V, PREFIX_LEN>,
    first: LeafId,
    last: LeafId,
    seen: &mut Position,
) -> Option<(LeafId, LeafId)>
    requires { Has tree.now.pairs first }
    ensures one { first ≡ last → result ≡ None }
    ensures more { first ≢ last → result
        ≡ option_map (λ id. (id, last)) (number_after tree.now.pairs first) }
{
    if first == last {
        return None;
    }
    let next = tree.next_from(first, seen)?;
    Some((next, last))
}

/// Returns the ends without the last leaf, or `None` if that is also the first. `seen` is a guess
/// of the position of the last leaf, and the call sets it to the position of the new last leaf.
#[inline(always)]
fn without_last<K: AsBytes, V, const PREFIX_LEN: usize>(
    tree: &Tree<K, V, PREFIX_LEN>,
    first: LeafId,
    last: LeafId,
    seen: &mut Position,
) -> Option<(LeafId, LeafId)>
    requires { Has tree.now.pairs last }
    ensures one { first ≡ last → result ≡ None }
    ensures more { first ≢ last → result
        ≡ option_map (λ id. (first, id)) (number_before tree.now.pairs last) }
{
    if last == first {
        return None;
    }
    let prev = tree.prev_from(last, seen)?;
    Some((first, prev))
}

/// Consecutive leaves of a tree, in byte order, or none: those that a walk has left. A cursor holds
/// no reference to the tree. Each step takes the tree.
#[derive(Clone, Copy)]
pub struct Cursor {
    /// The first and the last leaf that are left.
    pub(crate) ends: Option<(LeafId, LeafId)>,
    /// Guesses of their positions. If they are right, a step searches no row.
    first_at: Position,
    last_at: Position,
}

impl Cursor {
    /// Returns a cursor with no leaves.
    ///
    /// Cost: none.
    pub fn none() -> Cursor
        ensures { result ≡ nothing_left }
    {
        Cursor {
            ends: None,
            first_at: Position::unknown(),
            last_at: Position::unknown(),
        }
    }

    /// Returns a cursor over the leaves from the first through the last. The tree must have both,
    /// and the first must not come after the last.
    ///
    /// Cost: none.
    pub fn between(first: LeafId, last: LeafId) -> Cursor
        ensures { result ≡ left_between first last }
    {
        Cursor {
            ends: Some((first, last)),
            first_at: Position::unknown(),
            last_at: Position::unknown(),
        }
    }

    /// Returns a cursor over all leaves of the tree.
    ///
    /// Cost: no visit.
    pub fn all<K: AsBytes, V, const PREFIX_LEN: usize>(tree: &Tree<K, V, PREFIX_LEN>) -> Cursor
        ensures fits { FitsIn result tree.now.pairs }
        ensures left { leaves_left result tree.now.pairs ≡ tree.now.pairs }
    {
        tree.law();
        let Some(first) = tree.first() else {
            return Cursor::none();
        };
        let Some(last) = tree.last() else {
            return Cursor::none();
        };
        Cursor::between(first, last)
    }

    /// Passes the first leaf that is left, and returns its id, or `None` if no leaf is left.
    ///
    /// Cost: one visit if it returns a leaf, and none otherwise. The step reads no pair. It counts
    /// the visit for the pair of the leaf that it returns, so that the visits of a walk can be
    /// stated.
    #[inline(always)]
    pub fn step<K: AsBytes, V, const PREFIX_LEN: usize>(
        &mut self,
        tree: &Tree<K, V, PREFIX_LEN>,
        visits: &mut Visits,
    ) -> Option<LeafId>
        requires { FitsIn self.old tree.now.pairs }
        ensures fits { FitsIn self.new tree.now.pairs }
        ensures passes { PassesFirst (leaves_left self.old tree.now.pairs) result
            (leaves_left self.new tree.now.pairs) }
        ensures there { IfSome result (λ id. Has tree.now.pairs id) }
        ensures counted { visits.new.count
            ≡ visits.old.count + (if is_some result then 1 else 0) }
    {
        tree.law();
        let (first, last) = self.ends?;
        let ends = without_first(tree, first, last, &mut self.first_at);
        self.ends = ends;
        visits.add_one();
        Some(first)
    }

    /// Passes the last leaf that is left, and returns its id, or `None` if no leaf is left.
    ///
    /// Cost: one visit if it returns a leaf, and none otherwise. The step reads no pair. It counts
    /// the visit for the pair of the leaf that it returns, so that the visits of a walk can be
    /// stated.
    #[inline(always)]
    pub fn step_back<K: AsBytes, V, const PREFIX_LEN: usize>(
        &mut self,
        tree: &Tree<K, V, PREFIX_LEN>,
        visits: &mut Visits,
    ) -> Option<LeafId>
        requires { FitsIn self.old tree.now.pairs }
        ensures fits { FitsIn self.new tree.now.pairs }
        ensures passes { PassesLast (leaves_left self.old tree.now.pairs) result
            (leaves_left self.new tree.now.pairs) }
        ensures there { IfSome result (λ id. Has tree.now.pairs id) }
        ensures counted { visits.new.count
            ≡ visits.old.count + (if is_some result then 1 else 0) }
    {
        tree.law();
        let (first, last) = self.ends?;
        let ends = without_last(tree, first, last, &mut self.last_at);
        self.ends = ends;
        visits.add_one();
        Some(last)
    }
}
