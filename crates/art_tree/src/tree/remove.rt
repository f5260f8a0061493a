//! Removals of pairs.
ghost use Rattle.std.specs.Prelude.{◌≡◌, ℕ, ◌<◌, length, option_map, Option, Some, None, IsSome, IfSome};
ghost use Rattle.blart_keys.specs.Content.{at as stored, without};
ghost use Rattle.art_tree.specs.Invariant.EdgesAbove.{LeadsTo, edge_front};
ghost use Rattle.art_tree.specs.Begins.{Bytes};
ghost use Rattle.art_tree.specs.Leaves.{leaf_in, Has, OthersStand, without_number, keys_in, bytes};
ghost use Rattle.art_kinds.specs.Nodes.{at};
ghost use Rattle.art_tree.specs.Calls.Removing.{Loses, IsLeafOf, IsChildBelow, OtherEdge, CutsAfter, Merged};
ghost use Rattle.art_tree.specs.Calls.Forks.{IsLeafPath};
ghost use Rattle.art_tree.specs.Invariant.Shape.{Shape};
ghost use Rattle.art_tree.specs.Invariant.Sound.{IsSound};
ghost use Rattle.art_kinds.specs.declared.records.ids.Child.{Child as Way};
ghost use Rattle.art_kinds.specs.declared.records.ids.Child.TheVariants.{Leaf, Inner};

use crate::tree::Tree;
use crate::tree::search::pair_toward;
use crate::tree::skeleton::{EdgeAbove, LeafPath, Skeleton};
use art_kinds::{Child, Edge, NodeId, Nodes};
use art_rows::{Leaves, Position};
use art_slots::{LeafId, Visits};
use blart_keys::AsBytes;

impl<K: AsBytes + Drop, V: Drop, const PREFIX_LEN: usize> Tree<K, V, PREFIX_LEN> {
    /// Removes a leaf, and returns its pair. Each other id names the pair that it named. Does not
    /// return an error.
    ///
    /// Cost: one descent by the key of the leaf.
    pub fn remove(&mut self, id: LeafId) -> (K, V)
        requires { Has self.old.pairs id }
        ensures value { leaf_in self.old.pairs id ≡ Some result }
        ensures rest { self.new.pairs ≡ without_number self.old.pairs id }
        ensures others { OthersStand self.old.pairs self.new.pairs id }
        ensures gone { leaf_in self.new.pairs id ≡ None }
    {
        self.leaves.law();
        // The row is read before the descent, so that neither waits for the other.
        let seen = self.leaves.position_of(id);
        let path = path_of(&self.leaves, &self.skeleton, &id);
        take_leaf(&mut self.leaves, &mut self.skeleton, &path, &seen)
    }

    /// Removes the pair with these bytes and returns it, or returns `None` if there is no such
    /// pair. Each other id names the pair that it named. Does not return an error.
    ///
    /// Cost: one descent.
    pub fn take(&mut self, query: &[u8]) -> Option<(K, V)>
        ensures taken { result
            ≡ option_map (λ p. p.1) (stored (bytes K.bytes) self.old.pairs query.now) }
        ensures rest { self.new.pairs ≡ without (bytes K.bytes) self.old.pairs query.now }
        ensures others { (id : ℕ) (x : K × V) → leaf_in self.new.pairs id ≡ Some x
            → leaf_in self.old.pairs id ≡ Some x }
    {
        self.leaves.law();
        let (path, seen) = path_at(&self.leaves, &self.skeleton, query)?;
        Some(take_leaf(&mut self.leaves, &mut self.skeleton, &path, &seen))
    }
}

/// Returns the path of the leaf with these bytes, and its position, or `None` if there is no such
/// leaf. It reads the leaf's row before it compares the key, so that neither read waits for the
/// other.
fn path_at<K: AsBytes, V, const P: usize>(
    leaves: &Leaves<K, V>,
    skeleton: &Skeleton<P>,
    query: &[u8],
) -> Option<(LeafPath, Position)>
    requires { IsSound K.bytes P leaves.now skeleton.now.nodes skeleton.now.root }
    ensures found { option_map (λ s. s.0.id) result
        ≡ option_map (λ p. p.0) (stored (bytes K.bytes) leaves.now.pairs query.now) }
    ensures path { IfSome result
        (λ s. IsLeafPath (at skeleton.now.nodes) skeleton.now.root s.0) }
{
    leaves.law();
    let (nodes, root) = (&skeleton.nodes, &skeleton.root);
    let Some((path, key, _)) = pair_toward(leaves, nodes, root, query) else {
        return None;
    };
    let seen = leaves.position_of(path.id);
    if key.as_bytes() == query {
        Some((path, seen))
    } else {
        None
    }
}

/// Returns the path of a leaf.
fn path_of<K: AsBytes, V, const P: usize>(
    leaves: &Leaves<K, V>,
    skeleton: &Skeleton<P>,
    id: &LeafId,
) -> LeafPath
    requires sound { IsSound K.bytes P leaves.now skeleton.now.nodes skeleton.now.root }
    requires has { Has leaves.now.pairs id.now }
    ensures same { result.id ≡ id.now }
    ensures path { IsLeafPath (at skeleton.now.nodes) skeleton.now.root result }
{
    let (key, _) = leaves.read(*id, &mut Visits::new());
    let (nodes, root) = (&skeleton.nodes, &skeleton.root);
    match pair_toward(leaves, nodes, root, key.as_bytes()) {
        Some(found) => found.0,
        None => unreachable!(),
    }
}

/// Removes a leaf, and returns its pair. `seen` is a guess of its position.
fn take_leaf<K: AsBytes + Drop, V: Drop, const P: usize>(
    leaves: &mut Leaves<K, V>,
    skeleton: &mut Skeleton<P>,
    path: &LeafPath,
    seen: &Position,
) -> (K, V)
    requires sound { IsSound K.bytes P leaves.old skeleton.old.nodes skeleton.old.root }
    requires has { Has leaves.old.pairs path.now.id }
    requires path { IsLeafPath (at skeleton.old.nodes) skeleton.old.root path.now }
    ensures value { leaf_in leaves.old.pairs path.now.id ≡ Some result }
    ensures rest { leaves.new.pairs ≡ without_number leaves.old.pairs path.now.id }
    ensures sound { IsSound K.bytes P leaves.new skeleton.new.nodes skeleton.new.root }
{
    leaves.law();
    skeleton.unlink(leaves, path);
    leaves.remove(path.id, *seen)
}

impl<const P: usize> Skeleton<P> {
    ghost use Rattle.std.specs.Prelude.{◌≡◌, ◌<◌, ℕ, length, Option, Some, IsSome};
    ghost use Rattle.art_tree.specs.Begins.{Bytes};
    ghost use Rattle.art_tree.specs.Invariant.EdgesAbove.{LeadsTo};
    ghost use Rattle.art_tree.specs.Invariant.Shape.{Shape};
    ghost use Rattle.art_tree.specs.Invariant.Sound.{IsSound};
    ghost use Rattle.art_tree.specs.Calls.Removing.{Loses, IsLeafOf, Merged};
    ghost use Rattle.art_tree.specs.Calls.Forks.{IsLeafPath};
    ghost use Rattle.art_tree.specs.Leaves.{Has, keys_in};
    ghost use Rattle.art_kinds.specs.Nodes.{at};
    ghost use Rattle.art_kinds.specs.declared.records.ids.Child.TheVariants.{Leaf, Inner};

    /// Removes the edge to a leaf, and the node of that edge if one other edge is left.
    fn unlink<K: AsBytes, V>(&mut self, leaves: &Leaves<K, V>, path: &LeafPath)
        requires sound { IsSound K.bytes P leaves.now self.old.nodes self.old.root }
        requires has { Has leaves.now.pairs path.now.id }
        requires path { IsLeafPath (at self.old.nodes) self.old.root path.now }
        ensures { (keys : ℕ → Option Bytes) (k : Bytes)
            → Loses (keys_in K.bytes leaves.now.pairs) keys path.now.id k
            → Shape P keys (at self.new.nodes) self.new.root }
    {
        match path.edge {
            None => self.root = None,
            Some((node, byte)) => self.drop_edge(leaves, &path.above, &node, byte, &path.id),
        }
    }

    /// Removes the edge of a node to a leaf, and the node if one other edge is left.
    fn drop_edge<K: AsBytes, V>(
        &mut self,
        leaves: &Leaves<K, V>,
        above: &EdgeAbove,
        node: &NodeId,
        byte: u8,
        id: &LeafId,
    )
        requires sound { IsSound K.bytes P leaves.now self.old.nodes self.old.root }
        requires has { Has leaves.now.pairs id.now }
        requires leads { LeadsTo (at self.old.nodes) self.old.root (Some (node.now, byte))
            (Leaf id.now) }
        requires above { LeadsTo (at self.old.nodes) self.old.root above.now (Inner node.now) }
        ensures { (keys : ℕ → Option Bytes) (k : Bytes)
            → Loses (keys_in K.bytes leaves.now.pairs) keys id.now k
            → Shape P keys (at self.new.nodes) self.new.root }
    {
        let mut visits = Visits::new();
        let count = self.nodes.read(*node, &mut visits).count();
        if count > 2 {
            return self.shrink(above, node, byte);
        }
        let other = other_edge(&self.nodes, node, byte);
        prepend_prefix(&mut self.nodes, node, &other);
        self.merge(above, node, &other.to);
    }

    /// Removes the edge to a leaf from a node that has at least two others.
    fn shrink(&mut self, above: &EdgeAbove, node: &NodeId, byte: u8)
        requires { (keys : ℕ → Option Bytes) × (i : ℕ)
            × IsLeafOf P keys (at self.old.nodes) self.old.root above.now node.now byte i }
        ensures { (keys keys' : ℕ → Option Bytes) (i : ℕ)
            (h : IsLeafOf P keys (at self.old.nodes) self.old.root above.now node.now byte i)
            → 2 < length h.node.edges → Loses keys keys' i h.key
            → Shape P keys' (at self.new.nodes) self.new.root }
    {
        self.nodes.remove_edge(*node, byte);
        let moved = self.nodes.narrow(*node);
        self.redirect(above, &Child::Inner(moved));
    }

    /// Removes a node, and redirects the edge above it to this child.
    fn merge(&mut self, above: &EdgeAbove, node: &NodeId, to: &Child)
        requires leads { LeadsTo (at self.old.nodes) self.old.root above.now (Inner node.now) }
        requires live { IsSome (at self.old.nodes node.now) }
        ensures { Merged (at self.old.nodes) (at self.new.nodes) self.old.root self.new.root
            above.now node.now to.now }
    {
        self.redirect(above, to);
        self.nodes.free(*node);
    }
}

/// Returns an edge of a node other than the one to a leaf.
fn other_edge<const P: usize>(nodes: &Nodes<P>, node: &NodeId, byte: u8) -> Edge
    requires { (keys : ℕ → Option Bytes) × (root : Option Way) × (above : Option (ℕ × ℕ))
        × (i : ℕ) × IsLeafOf P keys (at nodes.now) root above node.now byte i }
    ensures { OtherEdge (at nodes.now) node.now byte result }
{
    let mut visits = Visits::new();
    let node = nodes.read(*node, &mut visits);
    match node.edge_after(byte) {
        Some(edge) => edge,
        None => match node.edge_before(byte) {
            Some(edge) => edge,
            None => unreachable!(),
        },
    }
}

/// Prepends the compressed prefix of a node, and the byte of its edge, to the compressed prefix of
/// the child, if the child is a node. The child keeps the first bytes of the result.
fn prepend_prefix<const P: usize>(nodes: &mut Nodes<P>, node: &NodeId, edge: &Edge)
    requires { (keys : ℕ → Option Bytes) × (above : Option (ℕ × ℕ))
        × IsChildBelow P keys (at nodes.old) above node.now edge.now }
    ensures { (keys : ℕ → Option Bytes) (above : Option (ℕ × ℕ))
        (h : IsChildBelow P keys (at nodes.old) above node.now edge.now)
        → CutsAfter P (at nodes.old) (at nodes.new) h.shape.front_of
        (edge_front h.shape.front_of above) edge.now.to }
{
    match edge.to {
        Child::Leaf(_) => {}
        Child::Inner(id) => nodes.join_prefix(id, *node, edge.byte),
    }
}
