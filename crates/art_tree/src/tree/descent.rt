//! Descents in the tree.
ghost use Rattle.std.specs.Prelude.{not, ◌≡◌, ℕ, ◌+◌, ◌<◌, ◌≤◌, length, Option, Some};
ghost use Rattle.art_tree.specs.Begins.{Bytes};
ghost use Rattle.art_kinds.specs.Edges.{is_first};
ghost use Rattle.art_kinds.specs.Nodes.{at};
ghost use Rattle.art_tree.specs.Invariant.Shape.{Shape, Covers};
ghost use Rattle.art_tree.specs.Calls.Descents.{IsSubtree, IsRoot, IsWayOf, Finds, IsEndUnder};
ghost use Rattle.art_tree.specs.Calls.Forks.{ForkFits};
ghost use Rattle.art_kinds.specs.declared.records.ids.Child.{Child as Way};

use crate::tree::skeleton::EdgeAbove;
use art_kinds::{Child, End, NodeId, Nodes};
use art_slots::{LeafId, Visits};

/// A node or an edge at which some bytes part from the keys.
#[derive(Clone, Copy)]
pub(crate) enum Fork {
    /// A node, and the edge above it.
    Node(EdgeAbove, NodeId),
    /// An edge, and its child.
    Edge(EdgeAbove, Child),
}

impl Fork {
    ghost use Rattle.std.specs.Prelude.{◌≡◌};
    ghost use Rattle.art_tree.specs.Calls.Forks.{above_of};

    /// Returns the edge above the fork.
    pub(crate) fn above(&self) -> EdgeAbove
        ensures { result ≡ above_of self.now }
    {
        match self {
            Fork::Node(above, _) => *above,
            Fork::Edge(above, _) => *above,
        }
    }
}

/// The part of a tree that has the pairs with some prefix: the edge above it, the child at its top,
/// and its first and last leaf.
#[derive(Clone, Copy)]
pub(crate) struct Subtree {
    pub(crate) above: EdgeAbove,
    pub(crate) child: Child,
    pub(crate) first: LeafId,
    pub(crate) last: LeafId,
}

/// Returns the leaf at an end of the keys below a child: the one with the least, or the greatest.
pub(crate) fn end_under<const P: usize>(
    nodes: &Nodes<P>,
    child: &Child,
    end: End,
    visits: &mut Visits,
) -> LeafId
    requires { IsSubtree P (at nodes.now) child.now }
    ensures ends { (keys : ℕ → Option Bytes) (root : Option Way)
        (s : Shape P keys (at nodes.now) root)
        (g : Bytes)
        → Covers keys (at nodes.now) s.front_of g child.now → IsEndUnder keys (is_first end) g result }
    ensures counted { (keys : ℕ → Option Bytes) (root : Option Way)
        (s : Shape P keys (at nodes.now) root) (g key : Bytes)
        → Covers keys (at nodes.now) s.front_of g child.now → keys result ≡ Some key
        → visits.new.count + length g ≤ visits.old.count + length key }
    ensures grows { visits.old.count ≤ visits.new.count }
{
    let mut at = *child;
    'down: loop {
        match at {
            Child::Leaf(id) => return id,
            Child::Inner(id) => at = nodes.read(id, visits).end_edge(end).to,
        }
    }
}

/// Returns the end of some keys that is beside a gap: the last if the gap is after them, or else
/// the first.
pub(crate) fn end_near(is_after: bool) -> End
    ensures { is_first result ≡ not is_after }
{
    if is_after { End::Last } else { End::First }
}

/// Descends by a stored key. Returns the fork at which another key parts from it at this depth.
pub(crate) fn locate<const P: usize>(
    nodes: &Nodes<P>,
    root: &Child,
    nearest: &[u8],
    depth: usize,
) -> Fork
    requires { IsWayOf P (at nodes.now) root.now nearest.now depth }
    ensures { (keys : ℕ → Option Bytes) (s : Shape P keys (at nodes.now) (Some root.now))
        (i : ℕ)
        → keys i ≡ Some nearest.now
        → ForkFits (at nodes.now) (Some root.now) s.front_of nearest.now depth result }
{
    let mut at = *root;
    let mut above = None;
    'down: loop {
        let id = match at {
            Child::Leaf(_) => return Fork::Edge(above, at),
            Child::Inner(id) => id,
        };
        let node = nodes.read(id, &mut Visits::new());
        let length = node.depth();
        if length > depth {
            return Fork::Edge(above, at);
        }
        if length == depth {
            return Fork::Node(above, id);
        }
        let byte = nearest[length];
        match node.find(byte) {
            Some(child) => at = child,
            None => unreachable!(),
        }
        above = Some((id, byte));
    }
}

/// Descends by the bytes of `front` to a node whose depth is their number. Returns the number of
/// its edges and the first leaf below it, or `None` if there is no such node. If some node has the
/// prefix `front`, it is this one.
pub(crate) fn children_of<const P: usize>(
    nodes: &Nodes<P>,
    root: &Child,
    front: &[u8],
    visits: &mut Visits,
) -> Option<(usize, LeafId)>
    requires { IsRoot P (at nodes.now) root.now }
    ensures finds { (keys : ℕ → Option Bytes) (s : Shape P keys (at nodes.now) (Some root.now))
        → Finds keys (at nodes.now) s.front_of front.now visits.old.count visits.new.count result }
    ensures grows { visits.old.count ≤ visits.new.count }
{
    let mut at = *root;
    'down: loop {
        let id = match at {
            Child::Leaf(_) => return None,
            Child::Inner(id) => id,
        };
        let node = nodes.read(id, visits);
        let depth = node.depth();
        if depth == front.len() {
            let count = node.count();
            return Some((
                count,
                end_under(nodes, &node.end_edge(End::First).to, End::First, visits),
            ));
        }
        if depth > front.len() {
            return None;
        }
        at = node.find(front[depth])?;
    }
}
