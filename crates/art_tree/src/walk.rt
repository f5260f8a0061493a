//! A walk over the pairs of consecutive leaves, from both ends.
ghost use Rattle.std.specs.Prelude.{◌≡◌, ◌≢◌, option_map, None, IfSome};
ghost use Rattle.std.specs.Iterator.{YieldsFirstBy, YieldsLastBy, item_count};
ghost use Rattle.art_tree.specs.Leaves.{Has, number_after, number_before, RunsBefore, StandsAfter};
ghost use Rattle.art_tree.specs.Pairs.{pairs_of};
ghost use Rattle.art_tree.specs.Spans.{ends_left, EndsFit};

use crate::tree::Tree;
use art_rows::{Following, Leaves, Run};
use art_slots::{LeafId, Visits};
use blart_keys::AsBytes;
use std::iter::{DoubleEndedIterator, Iterator};
use std::marker::Model;

/// Returns what follows the first leaf. If that leaf is also the last, nothing is looked up.
fn following_of<K, V>(leaves: &Leaves<K, V>, first: LeafId, last: LeafId) -> Following<'_>
    requires { Has leaves.now.pairs first }
    ensures { first ≢ last → StandsAfter leaves.now.pairs leaves.now.rows first result }
{
    if first == last {
        return Following::unknown();
    }
    leaves.following(first)
}

/// Returns the ends without the first leaf, or `None` if that is also the last. `following` is what
/// follows the first leaf, and is set to what follows the new first leaf.
#[inline(always)]
fn without_first<'a, K, V>(
    leaves: &'a Leaves<K, V>,
    first: LeafId,
    last: LeafId,
    following: &mut Following<'a>,
) -> Option<(LeafId, LeafId)>
    requires has { Has leaves.now.pairs first }
    requires following { first ≢ last
        → StandsAfter leaves.now.pairs leaves.now.rows first following.old }
    ensures one { first ≡ last → result ≡ None }
    ensures more { first ≢ last → result
        ≡ option_map (λ id. (id, last)) (number_after leaves.now.pairs first) }
    ensures stays { IfSome result (λ ends. ends.1 ≡ last) }
    ensures following { IfSome result
        (λ ends. StandsAfter leaves.now.pairs leaves.now.rows ends.0 following.new) }
{
    if first == last {
        return None;
    }
    let next = leaves.next_in(first, following)?;
    Some((next, last))
}

/// Returns the ends without the last leaf, or `None` if that is also the first. `run` is a run
/// directly before the last leaf, and is set to a run before the new last leaf.
#[inline(always)]
fn without_last<'a, K, V>(
    leaves: &'a Leaves<K, V>,
    first: LeafId,
    last: LeafId,
    run: &mut Run<'a>,
) -> Option<(LeafId, LeafId)>
    requires has { Has leaves.now.pairs last }
    requires runs { RunsBefore leaves.now.pairs last run.old }
    ensures one { first ≡ last → result ≡ None }
    ensures more { first ≢ last → result
        ≡ option_map (λ id. (first, id)) (number_before leaves.now.pairs last) }
    ensures stays { IfSome result (λ ends. ends.0 ≡ first) }
    ensures runs { IfSome result (λ ends. RunsBefore leaves.now.pairs ends.1 run.new) }
{
    if last == first {
        return None;
    }
    let prev = leaves.prev_in(last, run)?;
    Some((first, prev))
}

/// An iterator over the pairs of consecutive leaves of a tree, from both ends, in byte order of
/// their keys. Each step reads one leaf. Once no pair is left, each step returns `None`.
#[derive(Drop)]
pub struct Walk<'a, K, V> {
    pub(crate) leaves: &'a Leaves<K, V>,
    /// The first and the last leaf.
    pub(crate) ends: Option<(LeafId, LeafId)>,
    /// What follows the first leaf, if that is not the last.
    pub(crate) following: Following<'a>,
    /// Leaves directly before the last one, in its row. A step that finds its leaf in `following`
    /// or here searches no row.
    pub(crate) before: Run<'a>,
}

impl<'a, K, V> Model for Walk<'a, K, V> {
    ghost use Rattle.std.specs.Prelude.{List};

    ghost Value = { List (K × V) };

    ghost use Rattle.art_tree.specs.Pairs.{pairs_of};
    ghost use Rattle.art_tree.specs.Spans.{ends_left, EndsFit, StandsBeside};

    ghost view = { λ it. pairs_of (ends_left it.ends it.leaves.now.pairs) };

    ghost invariant = { λ it. EndsFit it.ends it.leaves.now.pairs
        × StandsBeside it.ends it.following it.before it.leaves.now.pairs it.leaves.now.rows };
}

impl<'a, K: AsBytes, V> Walk<'a, K, V> {
    /// Returns an iterator over the pairs from the first of these leaves through the last, or over
    /// none if there are no ends. The first leaf must not come after the last.
    ///
    /// Cost: no visit. Each step makes one visit.
    pub fn new<const PREFIX_LEN: usize>(
        tree: &'a Tree<K, V, PREFIX_LEN>,
        ends: Option<(LeafId, LeafId)>,
    ) -> Self
        requires { EndsFit ends tree.now.pairs }
        ensures { result ≡ pairs_of (ends_left ends tree.now.pairs) }
    {
        let leaves = &tree.leaves;
        leaves.law();
        let following = match &ends {
            Some(both) => following_of(leaves, both.0, both.1),
            None => Following::unknown(),
        };
        Walk {
            leaves,
            ends,
            following,
            before: Run::empty(),
        }
    }
}

impl<'a, K, V> Iterator for Walk<'a, K, V> {
    type Item = (&'a K, &'a V);

    ghost next_gives = { YieldsFirstBy (λ item. (item.0.now, item.1.now)) (λ rest. rest) };

    ghost remaining = { item_count (λ rest. rest) };

    /// Returns the first pair that is left, or `None` if no pair is left.
    ///
    /// Cost: one visit.
    #[inline(always)]
    fn next(&mut self) -> Option<(&'a K, &'a V)> {
        self.leaves.law();
        let (first, last) = self.ends?;
        let pair = self.leaves.read(first, &mut Visits::new());
        let ends = without_first(self.leaves, first, last, &mut self.following);
        self.ends = ends;
        Some(pair)
    }
}

impl<'a, K, V> DoubleEndedIterator for Walk<'a, K, V> {
    ghost next_back_gives = { YieldsLastBy (λ item. (item.0.now, item.1.now)) (λ rest. rest) };

    /// Returns the last pair that is left, or `None` if no pair is left.
    ///
    /// Cost: one visit.
    #[inline(always)]
    fn next_back(&mut self) -> Option<(&'a K, &'a V)> {
        self.leaves.law();
        let (first, last) = self.ends?;
        let pair = self.leaves.read(last, &mut Visits::new());
        let ends = without_last(self.leaves, first, last, &mut self.before);
        self.ends = ends;
        Some(pair)
    }
}
