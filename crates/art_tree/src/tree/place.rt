//! Placements of pairs.
ghost use Rattle.std.specs.Prelude.{◌≡◌, ◌≢◌, ◌+◌, ◌-◌, ◌<◌, ◌≤◌, [], length, take, slice_range, slice_index_or, true, Option, Some, IfSome};
ghost use Rattle.art_tree.specs.Begins.{Bytes};
ghost use Rattle.art_tree.specs.Invariant.Shape.{Shape};
ghost use Rattle.art_tree.specs.Calls.Forks.{ForkFits};
ghost use Rattle.art_tree.specs.Invariant.EdgesAbove.{LeadsTo};
ghost use Rattle.art_tree.specs.Content.{Fits, IsOpen, room as room_of};
ghost use Rattle.art_tree.specs.Calls.Placing.{IsForkFor, HasNearest, IsShown, IsShownIn, IsOverLeaf, IsToJoin, TreeGains, MakesNodeOfTwo, DepthWithin, KeepsFrom, PutsPair, content_of};
ghost use Rattle.art_kinds.specs.Nodes.{at, room, FitsNew, SameSpares};
ghost use Rattle.art_tree.specs.Leaves.{keys_in, room as leaves_room};
ghost use Rattle.art_tree.specs.Calls.Removing.{EndsBelow, Cuts};
ghost use Rattle.art_tree.specs.Points.{IsFree, IsGood};
ghost use Rattle.art_tree.specs.Invariant.Sound.{IsSound};
ghost use Rattle.art_kinds.specs.declared.records.ids.Child.TheVariants.{Inner};

use crate::tree::descent::{Fork, locate};
use crate::tree::point::{Gap, Point, leaf_before};
use crate::tree::skeleton::{EdgeAbove, Skeleton, start_below};
use art_kinds::{Child, Edge, NodeId, Nodes};
use art_rows::{Leaves, Position};
use art_slots::{LeafId, Visits};
use blart_keys::AsBytes;

/// A new leaf, and the depth at which its key parts from the other keys.
#[derive(Clone, Copy)]
struct NewLeaf<'a> {
    id: LeafId,
    key: &'a [u8],
    depth: usize,
}

/// Places a pair at a point that is good for its key, and returns its leaf.
pub(crate) fn place_at<K: AsBytes + Drop, V: Drop, const P: usize>(
    leaves: &mut Leaves<K, V>,
    skeleton: &mut Skeleton<P>,
    point: &Point,
    key: K,
    value: V,
) -> LeafId
    requires whole { IsSound K.bytes P leaves.old skeleton.old.nodes skeleton.old.root }
    requires good { IsGood K.bytes leaves.old.pairs point.now (K.bytes key) }
    requires open { IsOpen point.now }
    requires fits { Fits (content_of leaves.old skeleton.old.nodes) point.now }
    ensures placed { PutsPair K.bytes leaves.old.pairs leaves.new.pairs result (key, value) }
    ensures whole { IsSound K.bytes P leaves.new skeleton.new.nodes skeleton.new.root }
    ensures room { room_of (content_of leaves.old skeleton.old.nodes)
        ≤ room_of (content_of leaves.new skeleton.new.nodes) + 1 }
{
    match point {
        Point::Empty => place_first(leaves, skeleton, key, value),
        Point::Free(gap) => {
            let shown = fork_shown(skeleton, gap);
            place_beside(leaves, skeleton, gap, &shown, key, value)
        }
        _ => unreachable!(),
    }
}

/// Places the first pair, and returns its leaf.
pub(crate) fn place_first<K: AsBytes + Drop, V: Drop, const P: usize>(
    leaves: &mut Leaves<K, V>,
    skeleton: &mut Skeleton<P>,
    key: K,
    value: V,
) -> LeafId
    requires whole { IsSound K.bytes P leaves.old skeleton.old.nodes skeleton.old.root }
    requires empty { leaves.old.pairs ≡ [] }
    requires room { 0 < leaves_room leaves.old }
    ensures placed { PutsPair K.bytes leaves.old.pairs leaves.new.pairs result (key, value) }
    ensures whole { IsSound K.bytes P leaves.new skeleton.new.nodes skeleton.new.root }
    ensures leaves_room { leaves_room leaves.old ≤ leaves_room leaves.new + 1 }
    ensures nodes { skeleton.new.nodes ≡ skeleton.old.nodes }
{
    leaves.law();
    let id = leaves.insert(None, Position::unknown(), key, value);
    skeleton.root = Some(Child::Leaf(id));
    id
}

/// Places a pair beside others, and returns its leaf. `shown` is the fork at which its key parts
/// from theirs, if that is known.
pub(crate) fn place_beside<K: AsBytes + Drop, V: Drop, const P: usize>(
    leaves: &mut Leaves<K, V>,
    skeleton: &mut Skeleton<P>,
    gap: &Gap,
    shown: &Option<Fork>,
    key: K,
    value: V,
) -> LeafId
    requires whole { IsSound K.bytes P leaves.old skeleton.old.nodes skeleton.old.root }
    requires free { IsFree K.bytes leaves.old.pairs gap.now (K.bytes key) }
    requires shown { IfSome shown.now (IsShownIn P (keys_in K.bytes leaves.old.pairs)
        (at skeleton.old.nodes) skeleton.old.root gap.now.nearest gap.now.depth) }
    requires leaves_room { 0 < leaves_room leaves.old }
    requires nodes_room { 0 < room skeleton.old.nodes }
    ensures placed { PutsPair K.bytes leaves.old.pairs leaves.new.pairs result (key, value) }
    ensures whole { IsSound K.bytes P leaves.new skeleton.new.nodes skeleton.new.root }
    ensures leaves_room { leaves_room leaves.old ≤ leaves_room leaves.new + 1 }
    ensures nodes_room { room skeleton.old.nodes ≤ room skeleton.new.nodes + 1 }
{
    leaves.law();
    let (prev, seen) = leaf_before(leaves, &gap.beside);
    let id = leaves.insert(prev, seen, key, value);
    skeleton.join(leaves, gap, shown, id);
    id
}

impl<const P: usize> Skeleton<P> {
    ghost use Rattle.std.specs.Prelude.{◌≡◌, ◌+◌, ◌<◌, ◌≤◌};
    ghost use Rattle.art_tree.specs.Begins.{Bytes};
    ghost use Rattle.art_tree.specs.Invariant.Shape.{Shape};
    ghost use Rattle.art_tree.specs.Calls.Placing.{IsForkFor, IsToJoin, TreeGains};
    ghost use Rattle.art_tree.specs.Leaves.{keys_in};
    ghost use Rattle.art_kinds.specs.Nodes.{at, room, FitsNew};

    /// Adds a leaf at a gap. `shown` is the fork at which its key parts from the others, if that
    /// is known. Reads the nearest leaf unless that fork is a node.
    fn join<K: AsBytes, V>(
        &mut self,
        leaves: &Leaves<K, V>,
        gap: &Gap,
        shown: &Option<Fork>,
        id: LeafId,
    )
        requires joins { IsToJoin P (keys_in K.bytes leaves.now.pairs) (at self.old.nodes)
            self.old.root gap.now.nearest gap.now.depth shown.now id }
        requires room { 0 < room self.old.nodes }
        ensures shape { Shape P (keys_in K.bytes leaves.now.pairs) (at self.new.nodes)
            self.new.root }
        ensures room { room self.old.nodes ≤ room self.new.nodes + 1 }
    {
        let (own, _) = leaves.read(id, &mut Visits::new());
        let leaf = NewLeaf {
            id,
            key: own.as_bytes(),
            depth: gap.depth,
        };
        let known = *shown;
        if let Some(Fork::Node(above, node)) = known {
            return self.add_at_node(&above, &node, &leaf);
        }
        let (nearest, _) = leaves.read(gap.nearest, &mut Visits::new());
        let nearest = nearest.as_bytes();
        let fork = fork_for(self, gap, shown, nearest);
        self.add_leaf(&fork, &leaf, nearest);
    }

    /// Adds a leaf at the fork at which its key parts from the nearest key.
    fn add_leaf(&mut self, fork: &Fork, leaf: &NewLeaf<'_>, nearest: &[u8])
        requires fork_fits { IsForkFor P (at self.old.nodes) self.old.root fork.now
            leaf.now.key.now nearest.now leaf.now.depth }
        requires fits { 0 < room self.old.nodes }
        ensures gains { TreeGains P (at self.old.nodes) (at self.new.nodes) self.old.root
            self.new.root fork.now leaf.now.key.now nearest.now leaf.now.depth leaf.now.id }
        ensures room { room self.old.nodes ≤ room self.new.nodes + 1 }
    {
        match fork {
            Fork::Node(above, node) => self.add_at_node(above, node, leaf),
            Fork::Edge(above, child) => self.add_at_edge(above, child, leaf, nearest),
        }
    }

    /// Adds a leaf to a node at which its key parts from the others.
    fn add_at_node(&mut self, above: &EdgeAbove, node: &NodeId, leaf: &NewLeaf<'_>)
        requires fork_fits { (nearest : Bytes) × IsForkFor P (at self.old.nodes) self.old.root
            (Fork.Node above.now node.now) leaf.now.key.now nearest leaf.now.depth }
        requires fits { 0 < room self.old.nodes }
        ensures gains { (nearest : Bytes) → TreeGains P (at self.old.nodes) (at self.new.nodes)
            self.old.root self.new.root (Fork.Node above.now node.now) leaf.now.key.now nearest
            leaf.now.depth leaf.now.id }
        ensures room { room self.old.nodes ≤ room self.new.nodes + 1 }
    {
        let wide = self.nodes.widen(*node);
        self.redirect_moved(above, *node, wide);
        self.nodes
            .add_edge(wide, leaf.key[leaf.depth], Child::Leaf(leaf.id));
    }

    /// Adds a leaf at an edge at which its key parts from those below. A new node has both.
    fn add_at_edge(&mut self, above: &EdgeAbove, child: &Child, leaf: &NewLeaf<'_>, nearest: &[u8])
        requires fork_fits { IsForkFor P (at self.old.nodes) self.old.root
            (Fork.Edge above.now child.now) leaf.now.key.now nearest.now leaf.now.depth }
        requires fits { FitsNew self.old.nodes }
        ensures gains { TreeGains P (at self.old.nodes) (at self.new.nodes) self.old.root
            self.new.root (Fork.Edge above.now child.now) leaf.now.key.now nearest.now
            leaf.now.depth leaf.now.id }
        ensures room { room self.old.nodes ≤ room self.new.nodes + 1 }
    {
        let depth = leaf.depth;
        let start = start_below(&self.nodes, above);
        let byte = byte_on(&self.nodes, child, nearest, start, depth);
        cut_prefix(&mut self.nodes, child, nearest, start, depth + 1);
        let own = Edge {
            byte: leaf.key[depth],
            to: Child::Leaf(leaf.id),
        };
        let other = Edge { byte, to: *child };
        let made = node_of_two(
            &mut self.nodes,
            depth,
            &leaf.key[start..depth],
            &own,
            &other,
        );
        self.redirect(above, &Child::Inner(made));
    }
}

/// Returns the fork at which a key parts from the nearest key at the depth of a gap. It is the
/// fork that is known, or else the end of a descent by the nearest key.
fn fork_for<const P: usize>(
    skeleton: &Skeleton<P>,
    gap: &Gap,
    shown: &Option<Fork>,
    nearest: &[u8],
) -> Fork
    requires { HasNearest P (at skeleton.now.nodes) skeleton.now.root gap.now shown.now
        nearest.now }
    ensures { (h : HasNearest P (at skeleton.now.nodes) skeleton.now.root gap.now shown.now
        nearest.now)
        → ForkFits (at skeleton.now.nodes)
        skeleton.now.root h.shape.front_of nearest.now gap.now.depth result }
{
    match shown {
        Some(fork) => *fork,
        None => match skeleton.root {
            Some(root) => locate(&skeleton.nodes, &root, nearest, gap.depth),
            None => unreachable!(),
        },
    }
}

/// Returns the fork of a gap as it is now. Returns `None` if the edge above it no longer leads to
/// the nearest leaf, or to a node at the gap's depth with an edge to that leaf. Reads no leaf.
fn fork_shown<const P: usize>(skeleton: &Skeleton<P>, gap: &Gap) -> Option<Fork>
    ensures { IfSome result (IsShown P (at skeleton.now.nodes) skeleton.now.root gap.now) }
{
    let (above, child) = edge_toward(skeleton, gap)?;
    match child {
        Child::Leaf(id) => {
            if id != gap.nearest {
                return None;
            }
            Some(Fork::Edge(above, Child::Leaf(id)))
        }
        Child::Inner(id) => {
            if !is_over_nearest(&skeleton.nodes, &id, gap) {
                return None;
            }
            Some(Fork::Node(above, id))
        }
    }
}

/// Returns the edge above a gap's fork, and the child that it leads to now, or `None` if that edge
/// is gone, or its node is as deep as the gap or deeper.
fn edge_toward<const P: usize>(skeleton: &Skeleton<P>, gap: &Gap) -> Option<(EdgeAbove, Child)>
    ensures leads { IfSome result
        (λ e. LeadsTo (at skeleton.now.nodes) skeleton.now.root e.0 e.1) }
    ensures ends { IfSome result (λ e. EndsBelow (at skeleton.now.nodes) e.0 gap.now.depth) }
{
    let Some((parent, byte)) = gap.fork.above() else {
        return Some((None, skeleton.root?));
    };
    if !skeleton.nodes.has(parent) {
        return None;
    }
    let node = skeleton.nodes.read(parent, &mut Visits::new());
    if node.depth() >= gap.depth {
        return None;
    }
    let child = node.find(byte)?;
    Some((Some((parent, byte)), child))
}

/// Returns `true` if a node has the depth of a gap, and its edge by the gap's byte leads to the
/// nearest leaf.
fn is_over_nearest<const P: usize>(nodes: &Nodes<P>, id: &NodeId, gap: &Gap) -> bool
    ensures { result ≡ true
        → IsOverLeaf (at nodes.now) id.now gap.now.depth gap.now.byte gap.now.nearest }
{
    if !nodes.has(*id) {
        return false;
    }
    let node = nodes.read(*id, &mut Visits::new());
    if node.depth() != gap.depth {
        return false;
    }
    let Some(child) = node.find(gap.byte) else {
        return false;
    };
    match child {
        Child::Leaf(leaf) => leaf == gap.nearest,
        Child::Inner(_) => false,
    }
}

/// Makes a node with two edges.
fn node_of_two<const P: usize>(
    nodes: &mut Nodes<P>,
    depth: usize,
    prefix: &[u8],
    one: &Edge,
    other: &Edge,
) -> NodeId
    requires fits { FitsNew nodes.old }
    requires apart { one.now.byte ≢ other.now.byte }
    ensures made { MakesNodeOfTwo (at nodes.old) (at nodes.new) result depth
        (take P prefix.now) one.now other.now }
    ensures room { room nodes.old ≤ room nodes.new + 1 }
{
    if one.byte < other.byte {
        nodes.new_node(depth, prefix, *one, *other)
    } else {
        nodes.new_node(depth, prefix, *other, *one)
    }
}

/// Returns the byte that the keys below a child have at a depth. The compressed prefix of the child
/// begins at the depth `from`. The byte is one that the node keeps, or else one of `key`, which is
/// a key below it.
fn byte_on<const P: usize>(
    nodes: &Nodes<P>,
    child: &Child,
    key: &[u8],
    from: usize,
    depth: usize,
) -> u8
    requires live { DepthWithin (at nodes.now) child.now (depth + 1) (length key.now) }
    requires long { depth < length key.now }
    requires kept { KeepsFrom P (at nodes.now) child.now key.now from }
    requires reaches { from ≤ depth }
    ensures { result ≡ slice_index_or key.now depth 0 }
{
    match child {
        Child::Leaf(_) => key[depth],
        Child::Inner(id) => {
            let node = nodes.read(*id, &mut Visits::new());
            match node.prefix_byte(depth - from) {
                Some(byte) => byte,
                None => key[depth],
            }
        }
    }
}

/// Cuts the compressed prefix of a node, so that it begins at `start` in place of `from`. If the
/// node kept the whole prefix, it keeps the rest. Otherwise it gets bytes of `key`, a key below it.
fn cut_prefix<const P: usize>(
    nodes: &mut Nodes<P>,
    child: &Child,
    key: &[u8],
    from: usize,
    start: usize,
)
    requires live { DepthWithin (at nodes.old) child.now start (length key.now) }
    requires kept { KeepsFrom P (at nodes.old) child.now key.now from }
    requires reaches { from ≤ start }
    ensures cut { Cuts (at nodes.old) (at nodes.new) child.now
        (λ end. take P (slice_range key.now start end)) }
    ensures spares { SameSpares nodes.old nodes.new }
{
    match child {
        Child::Leaf(_) => {}
        Child::Inner(id) => {
            let end = nodes.read(*id, &mut Visits::new()).depth();
            if end - from <= P {
                nodes.cut_prefix(*id, start - from);
            } else {
                nodes.set_prefix(*id, &key[start..end]);
            }
        }
    }
}
