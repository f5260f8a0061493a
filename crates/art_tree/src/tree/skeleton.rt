//! The inner nodes of a tree with its root, and how an edge is redirected. Other methods of the
//! skeleton are beside placements and removals.
ghost use Rattle.std.specs.Prelude.{◌≡◌, ◌-◌, ◌^◌};
ghost use Rattle.art_tree.specs.Calls.Removing.{StartsBelow, EndsBelow};
ghost use Rattle.art_kinds.specs.Nodes.{at};

use art_kinds::{Child, NodeId, Nodes};
use art_slots::{LeafId, Visits};

/// The inner nodes of a tree, and the child at its top, which is `None` if there are no pairs.
#[derive(Drop)]
pub(crate) struct Skeleton<const P: usize> {
    pub(crate) nodes: Nodes<P>,
    pub(crate) root: Option<Child>,
}

/// The edge above a child: the number of a node, and a byte. It is `None` for the root.
pub(crate) type EdgeAbove = Option<(NodeId, u8)>;

/// The path of a leaf: the leaf, the edge to it, and the edge above the node of that edge.
#[derive(Clone, Copy)]
pub(crate) struct LeafPath {
    pub(crate) id: LeafId,
    pub(crate) edge: EdgeAbove,
    pub(crate) above: EdgeAbove,
}

impl<const P: usize> Skeleton<P> {
    ghost use Rattle.std.specs.Prelude.{◌≡◌};
    ghost use Rattle.art_tree.specs.Invariant.EdgesAbove.{LeadsTo, TurnsTo, AscendsAt};
    ghost use Rattle.art_kinds.specs.Nodes.{at, SameSpares};
    ghost use Rattle.art_kinds.specs.declared.records.ids.Child.{Child as Way};
    ghost use Rattle.art_kinds.specs.declared.records.ids.Child.TheVariants.{Inner};

    /// Redirects the edge above a child to another child.
    pub(crate) fn redirect(&mut self, above: &EdgeAbove, to: &Child)
        requires { (child : Way) × LeadsTo (at self.old.nodes) self.old.root above.now child }
        ensures turned { TurnsTo (at self.old.nodes) (at self.new.nodes) self.old.root self.new.root
            above.now to.now }
        ensures spares { SameSpares self.old.nodes self.new.nodes }
    {
        match above {
            None => self.root = Some(*to),
            Some((parent, byte)) => self.nodes.redirect(*parent, *byte, *to),
        }
    }

    /// Redirects the edge above a node to its new number, `now`, if that differs from the old one.
    pub(crate) fn redirect_moved(&mut self, above: &EdgeAbove, node: NodeId, now: NodeId)
        requires leads { LeadsTo (at self.old.nodes) self.old.root above.now (Inner node) }
        requires ascends { AscendsAt (at self.old.nodes) above.now }
        ensures turned { TurnsTo (at self.old.nodes) (at self.new.nodes) self.old.root self.new.root
            above.now (Inner now) }
        ensures spares { SameSpares self.old.nodes self.new.nodes }
    {
        if now != node {
            self.redirect(above, &Child::Inner(now));
        }
    }
}

/// Returns the depth at which the compressed prefix below an edge begins.
pub(crate) fn start_below<const P: usize>(nodes: &Nodes<P>, above: &EdgeAbove) -> usize
    requires { EndsBelow (at nodes.now) above.now (2 ^ 64 - 1) }
    ensures { StartsBelow (at nodes.now) above.now result }
{
    match above {
        None => 0,
        Some((parent, _)) => nodes.read(*parent, &mut Visits::new()).depth() + 1,
    }
}
