//! Points: the leaf that has some bytes, or the gap for a new one.
ghost use Rattle.std.specs.Prelude.{◌≡◌, ℕ, not, Option, Some};
ghost use Rattle.art_tree.specs.Begins.{Bytes};
ghost use Rattle.art_tree.specs.Gaps.{LeavesNearest, IsBeside, neighbour, number_before_gap};
ghost use Rattle.art_tree.specs.Calls.Descents.{IsEndUnder};
ghost use Rattle.art_tree.specs.Calls.Placing.{IfFree, IsShownIn};
ghost use Rattle.art_tree.specs.Calls.Stops.{IsGapUnder};
ghost use Rattle.art_tree.specs.Invariant.Shape.{Shape, Covers};
ghost use Rattle.art_tree.specs.Leaves.{Has, keys_in};
ghost use Rattle.art_kinds.specs.declared.records.ids.Child.{Child as Way};
ghost use Rattle.art_kinds.specs.Nodes.{at};
ghost use Rattle.art_tree.specs.Points.{IsGood};
ghost use Rattle.art_tree.specs.Invariant.Sound.{IsSound};

use crate::tree::descent::{Fork, end_near, end_under};
use crate::tree::stop::{Stop, edge_beside, stop_of};
use art_kinds::{Child, Edge, End, Nodes};
use art_rows::{Leaves, Position};
use art_slots::{LeafId, Visits};
use blart_keys::AsBytes;

/// Where a pair goes whose key is related to no stored key. It is good for the bytes that it was
/// found for, while the pairs are unchanged.
#[derive(Clone, Copy)]
pub struct Gap {
    /// A leaf whose key has the first `depth` bytes in common with these. No key has more.
    pub(crate) nearest: LeafId,
    /// The number of bytes that the nearest key has in common with these.
    pub(crate) depth: usize,
    /// The nearest leaf, and the side of it on which the gap is.
    pub(crate) beside: Neighbour,
    /// The fork at which the bytes part from the keys. It may have changed since.
    pub(crate) fork: Fork,
    /// The byte of the nearest key after the first `depth` bytes.
    pub(crate) byte: u8,
}

/// The leaf beside a gap, and the side of it on which the gap is.
#[derive(Clone, Copy)]
pub(crate) enum Neighbour {
    /// The gap is after this leaf.
    AfterLeaf(LeafId),
    /// The gap is before this leaf.
    BeforeLeaf(LeafId),
}

/// What a tree has at some bytes.
#[derive(Clone, Copy)]
pub enum Point {
    /// The tree has no pairs.
    Empty,
    /// The key of this leaf has these bytes.
    Exact(LeafId),
    /// The bytes conflict with the keys of these leaves.
    Related {
        /// The first leaf with a related key.
        first: LeafId,
        /// The last leaf with a related key.
        last: LeafId,
    },
    /// No stored key is related to the bytes. A pair with them goes to this gap.
    Free(Gap),
}

/// Returns the point of some bytes in a tree with some pairs. If it is free, its fork is right.
pub(crate) fn point_below<K: AsBytes, V, const P: usize>(
    leaves: &Leaves<K, V>,
    nodes: &Nodes<P>,
    root: &Child,
    query: &[u8],
) -> Point
    requires { IsSound K.bytes P leaves.now nodes.now (Some root.now) }
    ensures good { IsGood K.bytes leaves.now.pairs result query.now }
    ensures fork { IfFree result (λ gap. IsShownIn P (keys_in K.bytes leaves.now.pairs)
        (at nodes.now) (Some root.now) gap.nearest gap.depth gap.fork) }
{
    leaves.law();
    let mut visits = Visits::new();
    let (stop, above) = stop_of(leaves, nodes, root, query, &mut visits);
    match stop {
        Stop::Same(id) => Point::Exact(id),
        Stop::Shorter(id) => Point::Related {
            first: id,
            last: id,
        },
        Stop::Longer(child) => Point::Related {
            first: end_under(nodes, &child, End::First, &mut visits),
            last: end_under(nodes, &child, End::Last, &mut visits),
        },
        Stop::AtNode(id, depth) => {
            let (edge, is_after) = edge_beside(nodes, &id, query[depth], &mut visits);
            let fork = Fork::Node(above, id);
            Point::Free(gap_under(nodes, &edge, is_after, depth, &fork))
        }
        Stop::AtEdge(child, depth, byte) => {
            let to = &child;
            let edge = Edge { byte, to: *to };
            let fork = Fork::Edge(above, *to);
            Point::Free(gap_under(nodes, &edge, byte < query[depth], depth, &fork))
        }
    }
}

/// Returns the gap beside an edge: after the keys below it, or before them.
fn gap_under<const P: usize>(
    nodes: &Nodes<P>,
    edge: &Edge,
    is_after: bool,
    depth: usize,
    fork: &Fork,
) -> Gap
    requires { (keys : ℕ → Option Bytes) × (q : Bytes)
        × IsGapUnder P keys (at nodes.now) q depth edge.now.to is_after }
    ensures leaves { (keys : ℕ → Option Bytes) (q : Bytes)
        → IsGapUnder P keys (at nodes.now) q depth edge.now.to is_after
        → LeavesNearest keys result.nearest result.depth q }
    ensures beside { (keys : ℕ → Option Bytes) (q : Bytes)
        → IsGapUnder P keys (at nodes.now) q depth edge.now.to is_after
        → IsBeside keys q result.beside }
    ensures same { neighbour result.beside ≡ result.nearest }
    ensures end { (keys : ℕ → Option Bytes) (root : Option Way)
        (s : Shape P keys (at nodes.now) root) (g : Bytes)
        → Covers keys (at nodes.now) s.front_of g edge.now.to
        → IsEndUnder keys (not is_after) g result.nearest }
    ensures depth { result.depth ≡ depth }
    ensures fork { result.fork ≡ fork.now }
{
    let nearest = end_under(nodes, &edge.to, end_near(is_after), &mut Visits::new());
    if is_after {
        Gap {
            nearest,
            depth,
            beside: Neighbour::AfterLeaf(nearest),
            fork: *fork,
            byte: edge.byte,
        }
    } else {
        Gap {
            nearest,
            depth,
            beside: Neighbour::BeforeLeaf(nearest),
            fork: *fork,
            byte: edge.byte,
        }
    }
}

/// Returns the leaf before a gap, if there is one, and a guess of its position.
pub(crate) fn leaf_before<K: AsBytes, V>(
    leaves: &Leaves<K, V>,
    beside: &Neighbour,
) -> (Option<LeafId>, Position)
    requires { Has leaves.now.pairs (neighbour beside.now) }
    ensures { result.0 ≡ number_before_gap leaves.now.pairs beside.now }
{
    match beside {
        Neighbour::AfterLeaf(id) => (Some(*id), Position::unknown()),
        Neighbour::BeforeLeaf(id) => {
            let mut seen = Position::unknown();
            let prev = leaves.prev_from(*id, &mut seen);
            (prev, seen)
        }
    }
}
