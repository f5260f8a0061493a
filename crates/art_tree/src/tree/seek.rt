//! The first or the last leaf within a bound, and both ends of the leaves with a prefix.
ghost use Rattle.std.specs.Prelude.{◌≡◌, ◌≢◌, ◌+◌, ◌*◌, ◌<◌, ◌≤◌, [], length, option_map, Some, None, Err, IfSome};
ghost use Rattle.std.specs.declared.ops.Bound.TheVariants.{Unbounded};
ghost use Rattle.blart_keys.specs.Bounds.{bound_bytes};
ghost use Rattle.blart_keys.specs.Content.{IsContent, under};
ghost use Rattle.art_tree.specs.Leaves.{Has, keys_in, bytes};
ghost use Rattle.art_tree.specs.Longest.{longest};
ghost use Rattle.art_tree.specs.Seeks.{number_within, ends, bound_len};
ghost use Rattle.art_tree.specs.Calls.Seeking.{IsAtOrBefore, beside};
ghost use Rattle.art_tree.specs.Calls.Stops.{IsChildBeside};
ghost use Rattle.art_tree.specs.Begins.{Bytes};
ghost use Rattle.art_tree.specs.Calls.Pruning.{IsSubtreeWith};
ghost use Rattle.art_kinds.specs.Nodes.{at};
ghost use Rattle.art_tree.specs.Invariant.Shape.{Shape};
ghost use Rattle.art_tree.specs.Invariant.Sound.{IsSound};

use crate::tree::Tree;
use crate::tree::descent::{Subtree, end_near, end_under};
use crate::tree::stop::{Stop, edge_beside, stop_of};
use art_kinds::{Child, End, Nodes};
use art_rows::Leaves;
use art_slots::{LeafId, Visits};
use blart_keys::AsBytes;
use std::ops::Bound;

impl<K: AsBytes, V, const PREFIX_LEN: usize> Tree<K, V, PREFIX_LEN> {
    /// Returns the first leaf within a start bound, or the last within an end bound, or `None` if
    /// there is no such leaf.
    ///
    /// Cost: at most (n + 2) * (L + 1) visits, if the bound has n bytes (0 if it is unbounded) and
    /// the longest key has L bytes, and none on an empty tree. On another tree it makes at least
    /// one visit if there is a bound, or if it returns `None`.
    pub fn seek(&self, bound: Bound<&[u8]>, is_start: bool, visits: &mut Visits) -> Option<LeafId>
        ensures found { result
            ≡ number_within (bytes K.bytes) self.now.pairs
            (bound_bytes (λ b. b) bound.entry) is_start }
        ensures counted { visits.new.count
            ≤ visits.old.count + (bound_len (bound_bytes (λ b. b) bound.entry) + 2)
            * (longest (bytes K.bytes) self.now.pairs + 1) }
        ensures grows { visits.old.count ≤ visits.new.count }
        ensures some_counted { bound_bytes (λ b. b) bound.entry ≢ Unbounded
            → self.now.pairs ≢ [] → visits.old.count < visits.new.count }
        ensures none_counted { result ≡ None
            → self.now.pairs ≢ [] → visits.old.count < visits.new.count }
        ensures empty { self.now.pairs ≡ [] → visits.new.count ≡ visits.old.count }
    {
        self.law();
        match bound {
            Bound::Unbounded => { if is_start { self.first() } else { self.last() } }
            Bound::Included(query) => match self.at_or_before(query, visits) {
                Ok(id) => Some(id),
                Err(prev) => self.side_of(prev, is_start),
            },
            Bound::Excluded(query) => match self.at_or_before(query, visits) {
                Err(prev) => self.side_of(prev, is_start),
                Ok(id) => {
                    if is_start {
                        self.next_of(id)
                    } else {
                        self.prev_of(id)
                    }
                }
            },
        }
    }

    /// Returns the first and the last leaf whose bytes begin with these, or `None` if there are
    /// none.
    ///
    /// Cost: at most (n + 3) * (L + 1) - 2 visits, if there are n bytes and the longest key has L
    /// bytes, and none on an empty tree. It makes at least one visit if there are bytes and the
    /// tree is not empty.
    pub fn span(&self, front: &[u8], visits: &mut Visits) -> Option<(LeafId, LeafId)>
        ensures found { result ≡ ends (under (bytes K.bytes) self.now.pairs front.now) }
        ensures counted { visits.new.count + 2
            ≤ visits.old.count + (length front.now + 3)
            * (longest (bytes K.bytes) self.now.pairs + 1) }
        ensures grows { visits.old.count ≤ visits.new.count }
        ensures some_counted { front.now ≢ [] → self.now.pairs ≢ []
            → visits.old.count < visits.new.count }
        ensures empty { self.now.pairs ≡ [] → visits.new.count ≡ visits.old.count }
    {
        if front.is_empty() {
            return self.ends();
        }
        match self.skeleton.root {
            None => None,
            Some(root) => {
                let nodes = &self.skeleton.nodes;
                let subtree = subtree_below(&self.leaves, nodes, &root, front, visits)?;
                Some((subtree.first, subtree.last))
            }
        }
    }

    /// Returns the first and the last leaf, if there are leaves.
    fn ends(&self) -> Option<(LeafId, LeafId)>
        ensures { result ≡ ends self.now.pairs }
    {
        let Some(first) = self.first() else {
            return None;
        };
        let Some(last) = self.last() else {
            return None;
        };
        Some((first, last))
    }

    /// Returns the leaf after `prev`, or the first leaf if it is `None`. If `is_after` is not set,
    /// returns `prev`.
    fn side_of(&self, prev: Option<LeafId>, is_after: bool) -> Option<LeafId>
        requires { IfSome prev (Has self.now.pairs) }
        ensures { result ≡ beside prev self.now.pairs is_after }
    {
        if !is_after {
            return prev;
        }
        match prev {
            None => self.first(),
            Some(id) => self.next_of(id),
        }
    }

    /// Returns the leaf with these bytes, or as an error the last leaf whose key is less, if any.
    fn at_or_before(&self, query: &[u8], visits: &mut Visits) -> Result<LeafId, Option<LeafId>>
        ensures stands { IsAtOrBefore (keys_in K.bytes self.now.pairs) query.now result }
        ensures counted { visits.new.count
            ≤ visits.old.count + (length query.now + 2)
            * (longest (bytes K.bytes) self.now.pairs + 1) }
        ensures grows { visits.old.count ≤ visits.new.count }
        ensures some_counted { self.now.pairs ≢ [] → visits.old.count < visits.new.count }
        ensures empty { self.now.pairs ≡ [] → visits.new.count ≡ visits.old.count }
    {
        match self.skeleton.root {
            None => Err(None),
            Some(root) => at_or_before_below(
                &self.leaves,
                &self.skeleton.nodes,
                &root,
                query,
                visits,
            ),
        }
    }
}

/// Returns the leaf with these bytes, or as an error the last leaf whose key is less, if any. The
/// tree has some pairs.
fn at_or_before_below<K: AsBytes, V, const P: usize>(
    leaves: &Leaves<K, V>,
    nodes: &Nodes<P>,
    root: &Child,
    query: &[u8],
    visits: &mut Visits,
) -> Result<LeafId, Option<LeafId>>
    requires { IsSound K.bytes P leaves.now nodes.now (Some root.now) }
    ensures stands { IsAtOrBefore (keys_in K.bytes leaves.now.pairs) query.now result }
    ensures counted { visits.new.count
        ≤ visits.old.count + (length query.now + 2)
        * (longest (bytes K.bytes) leaves.now.pairs + 1) }
    ensures grows { visits.old.count < visits.new.count }
{
    leaves.law();
    let (stop, _) = stop_of(leaves, nodes, root, query, visits);
    match stop {
        Stop::Same(id) => Ok(id),
        Stop::Shorter(id) => Err(Some(id)),
        Stop::Longer(child) => {
            let first = end_under(nodes, &child, End::First, visits);
            Err(leaves.prev_of(first))
        }
        Stop::AtNode(id, depth) => {
            let (edge, is_after) = edge_beside(nodes, &id, query[depth], visits);
            Err(last_leaf_before(leaves, nodes, &edge.to, is_after, visits))
        }
        Stop::AtEdge(child, depth, byte) => {
            let is_after = byte < query[depth];
            Err(last_leaf_before(leaves, nodes, &child, is_after, visits))
        }
    }
}

/// Returns the last leaf before some bytes, if there is one. They are after the keys below this
/// child if `is_after` is set, or else before them.
fn last_leaf_before<K: AsBytes, V, const P: usize>(
    leaves: &Leaves<K, V>,
    nodes: &Nodes<P>,
    child: &Child,
    is_after: bool,
    visits: &mut Visits,
) -> Option<LeafId>
    requires content { IsContent (bytes K.bytes) leaves.now.pairs }
    requires beside { (q : Bytes)
        × IsChildBeside P (keys_in K.bytes leaves.now.pairs) (at nodes.now) q child.now is_after }
    ensures before { (q : Bytes)
        → IsChildBeside P (keys_in K.bytes leaves.now.pairs) (at nodes.now) q child.now is_after
        → IsAtOrBefore (keys_in K.bytes leaves.now.pairs) q (Err result) }
    ensures counted { visits.new.count
        ≤ visits.old.count + longest (bytes K.bytes) leaves.now.pairs }
    ensures grows { visits.old.count ≤ visits.new.count }
{
    leaves.law();
    let end = end_under(nodes, child, end_near(is_after), visits);
    if is_after {
        Some(end)
    } else {
        leaves.prev_of(end)
    }
}

/// Returns the subtree of the keys with a prefix, in a tree with some pairs, or `None` if no key
/// has the prefix.
pub(crate) fn subtree_below<K: AsBytes, V, const P: usize>(
    leaves: &Leaves<K, V>,
    nodes: &Nodes<P>,
    root: &Child,
    front: &[u8],
    visits: &mut Visits,
) -> Option<Subtree>
    requires { IsSound K.bytes P leaves.now nodes.now (Some root.now) }
    ensures found { option_map (λ b. (b.first, b.last)) result
        ≡ ends (under (bytes K.bytes) leaves.now.pairs front.now) }
    ensures subtree { (s : Shape P (keys_in K.bytes leaves.now.pairs) (at nodes.now) (Some root.now))
        → IfSome result (IsSubtreeWith (keys_in K.bytes leaves.now.pairs) (at nodes.now)
        (Some root.now) s.front_of front.now) }
    ensures counted { visits.new.count
        + 2 ≤ visits.old.count + (length front.now + 3)
        * (longest (bytes K.bytes) leaves.now.pairs + 1) }
    ensures grows { visits.old.count < visits.new.count }
{
    leaves.law();
    let (stop, above) = stop_of(leaves, nodes, root, front, visits);
    let child = stop.top()?;
    let first = end_under(nodes, &child, End::First, visits);
    let last = end_under(nodes, &child, End::Last, visits);
    Some(Subtree {
        above,
        child,
        first,
        last,
    })
}
