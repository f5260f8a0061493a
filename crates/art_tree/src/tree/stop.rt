//! The descent by the bytes of a query. It compares the prefixes that the nodes keep. It reads a
//! leaf if it comes to one, or if the bytes that a node keeps do not decide.
ghost use Rattle.std.specs.Prelude.{◌≡◌, ◌+◌, ◌*◌, ◌<◌, ◌≤◌, ℕ, length, Option, Some};
ghost use Rattle.art_tree.specs.Begins.{Bytes};
ghost use Rattle.art_tree.specs.Calls.Stops.{OnWay, IsShared, IsStop, IsStep, StopsAt, IsStopBelow, LeavesAtNode, IsEdgeBeside};
ghost use Rattle.art_tree.specs.Leaves.{keys_in, bytes};
ghost use Rattle.art_tree.specs.Longest.{longest};
ghost use Rattle.art_kinds.specs.Nodes.{at};
ghost use Rattle.art_tree.specs.Invariant.Sound.{IsSound};
ghost use Rattle.art_kinds.specs.declared.records.ids.Child.TheVariants.{Leaf, Inner};

use crate::lists::{common_len, common_len_after};
use crate::tree::descent::end_under;
use crate::tree::skeleton::EdgeAbove;
use art_kinds::{Child, Edge, End, NodeId, NodeRef, Nodes};
use art_rows::Leaves;
use art_slots::{LeafId, Visits};
use blart_keys::AsBytes;

/// Where a descent by the bytes of a query ends.
#[derive(Clone, Copy)]
pub(crate) enum Stop {
    /// The key of this leaf has the query's bytes.
    Same(LeafId),
    /// The key of this leaf is a proper prefix of the query.
    Shorter(LeafId),
    /// The query is a proper prefix of the keys below this child, and of no others.
    Longer(Child),
    /// The query parts from the keys at this node, after this number of bytes.
    AtNode(NodeId, usize),
    /// The query parts from the keys below this child after this number of bytes. The last field is
    /// the next byte of the keys.
    AtEdge(Child, usize, u8),
}

impl Stop {
    ghost use Rattle.std.specs.Prelude.{◌≡◌};
    ghost use Rattle.art_tree.specs.Calls.Stops.{top_of};

    /// Returns the child at the top of the keys that begin with the query, or `None` if there are
    /// no such keys.
    pub(crate) fn top(&self) -> Option<Child>
        ensures { result ≡ top_of self.now }
    {
        match self {
            Stop::Same(id) => Some(Child::Leaf(*id)),
            Stop::Longer(child) => Some(*child),
            Stop::Shorter(_) | Stop::AtNode(_, _) | Stop::AtEdge(_, _, _) => None,
        }
    }
}

/// What follows a node of a descent.
#[derive(Clone, Copy)]
enum Step {
    /// The descent goes on to this child. The number of bytes up to it, and the byte of its edge.
    Down(Child, usize, u8),
    /// The end.
    Stops(Stop),
}

/// What the front of a node and a query have in common.
#[derive(Clone, Copy)]
struct Shared {
    /// The number of their common bytes.
    len: usize,
    /// The next byte of the front, or 0 if there is none.
    byte: u8,
}

/// Returns where the descent by the bytes of a query ends, in a tree with some pairs, and the edge
/// above the leaf, child or node at which it ends.
pub(crate) fn stop_of<K: AsBytes, V, const P: usize>(
    leaves: &Leaves<K, V>,
    nodes: &Nodes<P>,
    root: &Child,
    query: &[u8],
    visits: &mut Visits,
) -> (Stop, EdgeAbove)
    requires { IsSound K.bytes P leaves.now nodes.now (Some root.now) }
    ensures stop { IsStop P (keys_in K.bytes leaves.now.pairs) (at nodes.now) result.0 query.now }
    ensures above { IsStopBelow (at nodes.now) (Some root.now)
        (length query.now) result.1 result.0 }
    ensures counted { visits.new.count
        ≤ visits.old.count + (length query.now + 1)
        * (longest (bytes K.bytes) leaves.now.pairs + 1) }
    ensures grows { visits.old.count < visits.new.count }
{
    let mut child = *root;
    let mut above = None;
    let mut start = 0;
    'down: loop {
        let id = match child {
            Child::Leaf(id) => {
                return (stop_at_leaf(leaves, nodes, start, id, query, visits), above);
            }
            Child::Inner(id) => id,
        };
        match step_at(leaves, nodes, start, id, query, visits) {
            Step::Stops(stop) => return (stop, above),
            Step::Down(to, next, byte) => {
                above = Some((id, byte));
                child = to;
                start = next;
            }
        }
    }
}

/// Returns where a descent that has come to a leaf ends.
fn stop_at_leaf<K: AsBytes, V, const P: usize>(
    leaves: &Leaves<K, V>,
    nodes: &Nodes<P>,
    start: usize,
    id: LeafId,
    query: &[u8],
    visits: &mut Visits,
) -> Stop
    requires { OnWay P (keys_in K.bytes leaves.now.pairs) (at nodes.now) (Leaf id) start query.now }
    ensures stop { IsStop P (keys_in K.bytes leaves.now.pairs) (at nodes.now) result query.now }
    ensures at { StopsAt (at nodes.now) (Leaf id) start result }
    ensures counted { visits.new.count ≡ visits.old.count + 1 }
{
    // Only the contract uses the nodes.
    let _nodes = nodes;
    let (key, _) = leaves.read(id, visits);
    let key = key.as_bytes();
    let depth = start + common_len_after(key, query, start);
    if depth == key.len() {
        return if depth == query.len() {
            Stop::Same(id)
        } else {
            Stop::Shorter(id)
        };
    }
    if depth == query.len() {
        return Stop::Longer(Child::Leaf(id));
    }
    Stop::AtEdge(Child::Leaf(id), depth, key[depth])
}

/// Returns what follows a node of a descent.
fn step_at<K: AsBytes, V, const P: usize>(
    leaves: &Leaves<K, V>,
    nodes: &Nodes<P>,
    start: usize,
    id: NodeId,
    query: &[u8],
    visits: &mut Visits,
) -> Step
    requires { OnWay P (keys_in K.bytes leaves.now.pairs) (at nodes.now)
        (Inner id) start query.now }
    ensures step { IsStep P (keys_in K.bytes leaves.now.pairs) (at nodes.now) id start result
        query.now }
    ensures counted { visits.new.count
        ≤ visits.old.count + longest (bytes K.bytes) leaves.now.pairs + 1 }
    ensures grows { visits.old.count < visits.new.count }
{
    let node = nodes.read(id, visits);
    let shared = shared_at(leaves, nodes, &node, start, id, query, visits);
    if shared.len == query.len() {
        return Step::Stops(Stop::Longer(Child::Inner(id)));
    }
    let depth = node.depth();
    if shared.len < depth {
        return Step::Stops(Stop::AtEdge(Child::Inner(id), shared.len, shared.byte));
    }
    let byte = query[depth];
    match node.find(byte) {
        Some(child) => Step::Down(child, depth + 1, byte),
        None => Step::Stops(Stop::AtNode(id, depth)),
    }
}

/// Returns what the front of a node and a query have in common. Their first `start` bytes are known
/// to be equal. The kept bytes decide if the query differs from them or ends within
/// them, or if they are the whole prefix.
fn shared_at<K: AsBytes, V, const P: usize>(
    leaves: &Leaves<K, V>,
    nodes: &Nodes<P>,
    node: &NodeRef<'_, P>,
    start: usize,
    id: NodeId,
    query: &[u8],
    visits: &mut Visits,
) -> Shared
    requires way { OnWay P (keys_in K.bytes leaves.now.pairs) (at nodes.now)
        (Inner id) start query.now }
    requires is { at nodes.now id ≡ Some node.now }
    ensures shared { (w : OnWay P (keys_in K.bytes leaves.now.pairs) (at nodes.now)
        (Inner id) start query.now)
        → IsShared (w.shape.front_of id) query.now result.len result.byte }
    ensures counted { visits.new.count
        ≤ visits.old.count + longest (bytes K.bytes) leaves.now.pairs }
    ensures grows { visits.old.count ≤ visits.new.count }
{
    let depth = node.depth();
    let kept = node.prefix();
    let count = common_len(kept, &query[start..]);
    let len = start + count;
    if count < kept.len() {
        return Shared {
            len,
            byte: kept[count],
        };
    }
    if len == depth {
        return Shared { len, byte: 0 };
    }
    shared_below(leaves, nodes, node, start, id, query, visits)
}

/// Returns what `shared_at` returns, by a leaf below the node.
#[cold]
#[inline(never)]
fn shared_below<K: AsBytes, V, const P: usize>(
    leaves: &Leaves<K, V>,
    nodes: &Nodes<P>,
    node: &NodeRef<'_, P>,
    start: usize,
    id: NodeId,
    query: &[u8],
    visits: &mut Visits,
) -> Shared
    requires way { OnWay P (keys_in K.bytes leaves.now.pairs) (at nodes.now)
        (Inner id) start query.now }
    requires is { at nodes.now id ≡ Some node.now }
    ensures shared { (w : OnWay P (keys_in K.bytes leaves.now.pairs) (at nodes.now)
        (Inner id) start query.now)
        → IsShared (w.shape.front_of id) query.now result.len result.byte }
    ensures counted { visits.new.count
        ≤ visits.old.count + longest (bytes K.bytes) leaves.now.pairs }
    ensures grows { visits.old.count ≤ visits.new.count }
{
    let depth = node.depth();
    let leaf = end_under(nodes, &node.end_edge(End::First).to, End::First, visits);
    let (key, _) = leaves.read(leaf, visits);
    let front = &key.as_bytes()[..depth];
    let len = start + common_len_after(front, query, start);
    let byte = if len < depth { front[len] } else { 0 };
    Shared { len, byte }
}

/// Returns the edge beside a byte that a node lacks, and `true` if the byte is after it. If there
/// are two, it is the edge before the byte. Keys that come in ascending order have only that one.
pub(crate) fn edge_beside<const P: usize>(
    nodes: &Nodes<P>,
    id: &NodeId,
    byte: u8,
    visits: &mut Visits,
) -> (Edge, bool)
    requires { (keys : ℕ → Option Bytes) × (q : Bytes)
        × LeavesAtNode P keys (at nodes.now) id.now byte q }
    ensures edge { IsEdgeBeside (at nodes.now) id.now byte result.0 result.1 }
    ensures counted { visits.new.count ≡ visits.old.count + 1 }
{
    let node = nodes.read(*id, visits);
    if let Some(before) = node.edge_before(byte) {
        return (before, true);
    }
    match node.edge_after(byte) {
        Some(after) => (after, false),
        None => unreachable!(),
    }
}
