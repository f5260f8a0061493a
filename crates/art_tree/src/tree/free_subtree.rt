//! Frees the inner nodes below an edge. Only one of them is remembered. It is freed once none of
//! its edges but the last leads to a node. Until then, a node below is rotated above it, and is
//! remembered in its place.
ghost use Rattle.std.specs.Prelude.{◌≡◌, ℕ, true, false, Option, Some, None, Bool};
ghost use Rattle.art_tree.specs.Begins.{Bytes};
ghost use Rattle.art_tree.specs.Invariant.EdgesAbove.{LeadsTo, edge_front};
ghost use Rattle.art_tree.specs.Invariant.Shape.{Shape};
ghost use Rattle.art_tree.specs.Calls.Descents.{HasEdges};
ghost use Rattle.art_tree.specs.Calls.Pruning.{Prunes, FreesSubtree, Loose, LeadsIn, IsNotLast, HasFirstNode, IsDeeper, Advances};
ghost use Rattle.art_kinds.specs.Nodes.{Node, at, live};
ghost use Rattle.art_kinds.specs.declared.records.ids.Child.{Child as Way};

use crate::tree::skeleton::{EdgeAbove, Skeleton};
use art_kinds::{Child, End, NodeId, Nodes};
use art_slots::{LeafId, Visits};

impl<const P: usize> Skeleton<P> {
    ghost use Rattle.std.specs.Prelude.{ℕ, Option};
    ghost use Rattle.art_tree.specs.Begins.{Bytes};
    ghost use Rattle.art_tree.specs.Invariant.EdgesAbove.{LeadsTo, edge_front};
    ghost use Rattle.art_tree.specs.Invariant.Shape.{Shape};
    ghost use Rattle.art_tree.specs.Calls.Pruning.{Prunes};
    ghost use Rattle.art_kinds.specs.Nodes.{at};

    /// Frees the nodes below an edge, and redirects the edge to this leaf.
    pub(crate) fn free_subtree(&mut self, above: &EdgeAbove, child: &Child, leaf: &LeafId)
        requires { (keys : ℕ → Option Bytes)
            × Shape P keys (at self.old.nodes) self.old.root
            × LeadsTo (at self.old.nodes) self.old.root above.now child.now }
        ensures { (keys keys' : ℕ → Option Bytes)
            (s : Shape P keys (at self.old.nodes) self.old.root)
            (k : Bytes)
            → LeadsTo (at self.old.nodes) self.old.root above.now child.now
            → Prunes keys keys' (edge_front s.front_of above.now) leaf.now k
            → Shape P keys' (at self.new.nodes) self.new.root }
    {
        free_child(&mut self.nodes, child);
        self.redirect(above, &Child::Leaf(*leaf));
    }
}

/// Frees a child and the nodes below it, if it is a node.
fn free_child<const P: usize>(nodes: &mut Nodes<P>, child: &Child)
    requires { (keys : ℕ → Option Bytes) × (root : Option Way) × (above : Option (ℕ × ℕ))
        × Shape P keys (at nodes.old) root × LeadsTo (at nodes.old) root above child.now }
    ensures { (keys : ℕ → Option Bytes) (root : Option Way) (above : Option (ℕ × ℕ))
        (s : Shape P keys (at nodes.old) root)
        → LeadsTo (at nodes.old) root above child.now
        → FreesSubtree (at nodes.old) (at nodes.new) s.front_of (edge_front s.front_of above) }
{
    match child {
        Child::Leaf(_) => {}
        Child::Inner(top) => free_below(nodes, *top),
    }
}

/// Frees a node and the nodes below it. Each is freed once, and rotated above another at most once.
fn free_below<const P: usize>(nodes: &mut Nodes<P>, top: NodeId)
    requires { (goes : ℕ → Bool) × Loose goes (at nodes.old) (at nodes.old) top }
    ensures { (goes : ℕ → Bool) → Loose goes (at nodes.old) (at nodes.old) top → (j : ℕ)
        → (goes j ≡ true → at nodes.new j ≡ None)
        × (goes j ≡ false → at nodes.new j ≡ at nodes.old j) }
{
    let mut head = top;
    'each: loop {
        let Some(edge) = first_node(nodes, head) else {
            return nodes.free(head);
        };
        advance(nodes, head, edge.0, edge.1);
        head = edge.1;
    }
}

/// Returns the byte of the first edge of a node that leads to a node, and that node.
fn first_node<const P: usize>(nodes: &Nodes<P>, id: NodeId) -> Option<(u8, NodeId)>
    requires { HasEdges (at nodes.now) id }
    ensures { HasFirstNode (at nodes.now) id result }
{
    let node = nodes.read(id, &mut Visits::new());
    let first = node.end_edge(End::First);
    let mut byte = first.byte;
    let mut to = first.to;
    'along: loop {
        match to {
            Child::Inner(below) => return Some((byte, below)),
            Child::Leaf(_) => {
                let next = node.edge_after(byte)?;
                byte = next.byte;
                to = next.to;
            }
        }
    }
}

/// Moves on to a node below. The upper node is freed if no edge comes after this one. Otherwise the
/// lower node is rotated above it.
fn advance<const P: usize>(nodes: &mut Nodes<P>, head: NodeId, byte: u8, below: NodeId)
    requires loose { (goes : ℕ → Bool) × (before : ℕ → Option Node)
        × Loose goes before (at nodes.old) head }
    requires first { HasFirstNode (at nodes.old) head (Some (byte, below)) }
    ensures loose { (goes : ℕ → Bool) (before : ℕ → Option Node)
        → Loose goes before (at nodes.old) head
        → Loose goes before (at nodes.new) below }
    ensures advances { Advances nodes.old nodes.new head below }
{
    let node = nodes.read(head, &mut Visits::new());
    // The depth is a `usize`, so it is less than 2^64.
    let _depth = node.depth();
    if node.edge_after(byte).is_none() {
        nodes.free(head);
    } else {
        rotate(nodes, head, byte, below);
    }
}

/// Rotates a node above its parent. The child of its last edge takes its place below the parent.
fn rotate<const P: usize>(nodes: &mut Nodes<P>, head: NodeId, byte: u8, below: NodeId)
    requires loose { (goes : ℕ → Bool) × (before : ℕ → Option Node)
        × Loose goes before (at nodes.old) head }
    requires leads { LeadsIn (at nodes.old) head byte below }
    requires not_last { (y : Node) → at nodes.old head ≡ Some y → IsNotLast y.edges byte }
    ensures loose { (goes : ℕ → Bool) (before : ℕ → Option Node)
        → Loose goes before (at nodes.old) head
        → Loose goes before (at nodes.new) below }
    ensures deeper { IsDeeper (at nodes.old) (at nodes.new) head below }
    ensures live { live nodes.new ≡ live nodes.old }
{
    let last = nodes.read(below, &mut Visits::new()).end_edge(End::Last);
    nodes.redirect(head, byte, last.to);
    nodes.redirect(below, last.byte, Child::Inner(head));
}
