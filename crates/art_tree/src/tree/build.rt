//! The inner nodes of leaves in order. Each is made once, when all leaves below it are known.
ghost use Rattle.std.specs.Prelude.{◌≡◌, ◌≢◌, ◌+◌, ◌-◌, ◌^◌, ◌<◌, ◌≤◌, ◌++◌, ℕ, [], ◌∷◌, length, take, drop, All, Option, Some, None, IfSome, IfNone, IfOk, OnErr, vec_capacity};
ghost use Rattle.blart_keys.specs.Content.{IsContent};
ghost use Rattle.art_tree.specs.Begins.{Bytes};
ghost use Rattle.art_tree.specs.Calls.Building.{edges_of, last_depth, start_after, MakesNode, AddsLast, IsPart, IsTurn};
ghost use Rattle.art_tree.specs.Invariant.Sound.{IsSound};
ghost use Rattle.art_tree.specs.Leaves.{bytes};
ghost use Rattle.art_kinds.specs.Edges.{Ascends};
ghost use Rattle.art_kinds.specs.Nodes.{Node, at, room};
ghost use Rattle.art_kinds.specs.declared.records.ids.Child.TheVariants.{Leaf, Inner};

use crate::lists::common_len;
use art_kinds::{Child, Edge, NodeId, Nodes};
use art_rows::{Leaves, Position};
use art_slots::{LeafId, Visits};
use blart_keys::AsBytes;
use std::alloc::{AllocError, Global};
use std::marker::Model;

/// An edge of a node that is not made yet, and the depth of that node.
#[derive(Clone, Copy)]
pub(crate) struct LooseEdge {
    /// The depth of the node.
    depth: usize,
    edge: Edge,
}

/// Reserved memory for the inner nodes of a number of leaves. A contract sees the number.
#[derive(Drop)]
pub struct Frame<const P: usize> {
    pub(crate) nodes: Nodes<P>,
    pub(crate) loose: Vec<LooseEdge>,
}

impl<const P: usize> Model for Frame<P> {
    ghost use Rattle.std.specs.Prelude.{◌≡◌, ℕ, min, [], None, vec_capacity};
    ghost use Rattle.std.specs.Coded.{coded_ℕ};
    ghost use Rattle.art_kinds.specs.Nodes.{at, room};

    ghost Value = { ℕ };

    ghost coded = { coded_ℕ };

    ghost view = { λ f. min (room f.nodes) (vec_capacity f.loose) };

    ghost invariant = { λ f. ((j : ℕ) → at f.nodes j ≡ None) × (f.loose.items ≡ []) };
}

impl<const P: usize> Frame<P> {
    /// Allocates memory for the inner nodes of `count` leaves, or returns an error if that fails.
    ///
    /// Cost: allocates that memory.
    pub fn new(alloc: Global, count: usize) -> Result<Self, AllocError>
        ensures enough { IfOk result (λ frame. count ≤ frame) }
        ensures refused { OnErr result (0 < count) }
    {
        let mut nodes = Nodes::new(alloc);
        if let Err(refused) = nodes.reserve(count) {
            drop(nodes);
            return Err(refused);
        }
        match Vec::with_capacity(alloc, count) {
            Ok(loose) => Ok(Frame { nodes, loose }),
            Err(refused) => {
                drop(nodes);
                Err(refused)
            }
        }
    }
}

/// Makes the inner nodes of leaves, and returns the root. `loose` is empty, and has room for as
/// many edges as there are leaves.
pub(crate) fn build<K: AsBytes, V, const P: usize>(
    leaves: &Leaves<K, V>,
    nodes: &mut Nodes<P>,
    loose: &mut Vec<LooseEdge>,
) -> Option<Child>
    requires content { IsContent (bytes K.bytes) leaves.now.pairs }
    requires none { (j : ℕ) → at nodes.old j ≡ None }
    requires empty { loose.old.items ≡ [] }
    requires room { length leaves.now.pairs ≤ room nodes.old }
    requires places { length leaves.now.pairs ≤ vec_capacity loose.old }
    ensures { IsSound K.bytes P leaves.now nodes.new result }
{
    leaves.law();
    let Some(first) = leaves.first() else {
        return None;
    };
    let mut visits = Visits::new();
    let mut seen = Position::unknown();
    let mut last = first;
    'over: loop {
        let (key, _) = leaves.read(last, &mut visits);
        let key = key.as_bytes();
        let Some(next) = leaves.next_from(last, &mut seen) else {
            return Some(close(nodes, loose, key, last, 0));
        };
        let (after, _) = leaves.read(next, &mut visits);
        let depth = common_len(key, after.as_bytes());
        let byte = key[depth];
        let to = close(nodes, loose, key, last, depth + 1);
        loose.push_reserved(LooseEdge {
            depth,
            edge: Edge { byte, to },
        });
        last = next;
    }
}

/// Makes the nodes above a leaf with this key that have a depth of at least `least`, from the
/// deepest up. Each takes its loose edges and an edge toward the leaf. Returns the topmost node, or
/// the leaf if no node is made.
fn close<const P: usize>(
    nodes: &mut Nodes<P>,
    loose: &mut Vec<LooseEdge>,
    key: &[u8],
    leaf: LeafId,
    least: usize,
) -> Child
    requires part { (keys : ℕ → Option Bytes) × IsTurn keys leaf key.now least
        × IsPart P keys (at nodes.old) key.now loose.old.items (length key.now) (Leaf leaf) }
    requires room { length loose.old.items ≤ room nodes.old }
    ensures part { (keys : ℕ → Option Bytes) → IsTurn keys leaf key.now least
        → IsPart P keys (at nodes.old) key.now loose.old.items (length key.now) (Leaf leaf)
        → IsPart P keys (at nodes.new) key.now loose.new.items least result }
    ensures room { room nodes.old + length loose.new.items
        ≤ room nodes.new + length loose.old.items }
    ensures fewer { length loose.new.items ≤ length loose.old.items }
    ensures capacity { vec_capacity loose.new ≡ vec_capacity loose.old }
{
    let mut child = Child::Leaf(leaf);
    'up: while let Some(depth) = deepest(loose, least) {
        let (kept, made) = close_one(nodes, loose.as_slice(), key, child, least, depth);
        loose.truncate(kept);
        child = Child::Inner(made);
    }
    child
}

/// Makes the node at the depth of the last loose edge. Returns the number of loose edges that are
/// left, and the node.
fn close_one<const P: usize>(
    nodes: &mut Nodes<P>,
    loose: &[LooseEdge],
    key: &[u8],
    child: Child,
    least: usize,
    depth: usize,
) -> (usize, NodeId)
    requires part { (keys : ℕ → Option Bytes) × (leaf : ℕ) × IsTurn keys leaf key.now least
        × IsPart P keys (at nodes.old) key.now loose.now (depth + 1) child }
    requires last { last_depth loose.now ≡ Some depth }
    requires deep { least ≤ depth }
    requires room { length loose.now ≤ room nodes.old }
    ensures fewer { result.0 < length loose.now }
    ensures part { (keys : ℕ → Option Bytes) (leaf : ℕ) → IsTurn keys leaf key.now least
        → IsPart P keys (at nodes.old) key.now loose.now (depth + 1) child
        → IsPart P keys (at nodes.new) key.now (take result.0 loose.now)
        (start_after least (last_depth (take result.0 loose.now))) (Inner result.1) }
    ensures room { room nodes.old + result.0 ≤ room nodes.new + length loose.now }
{
    let from = first_at(loose, depth);
    let upper = &loose[..from];
    let start = start_above(upper, least);
    let own = Edge {
        byte: key[depth],
        to: child,
    };
    let prefix = &key[start..depth];
    let group = &loose[from..];
    (from, make_node(nodes, depth, prefix, group, own))
}

/// Returns the depth of the last loose edge's node, if that is at least `least`.
fn deepest(loose: &[LooseEdge], least: usize) -> Option<usize>
    ensures some { IfSome result
        (λ depth. (last_depth loose.now ≡ Some depth) × (least ≤ depth)) }
    ensures none { IfNone result
        ((depth : ℕ) → last_depth loose.now ≡ Some depth → depth < least) }
{
    let last = loose.last()?;
    if last.depth < least {
        None
    } else {
        Some(last.depth)
    }
}

/// Returns the index from which on all loose edges are of a node at this depth.
fn first_at(loose: &[LooseEdge], depth: usize) -> usize
    ensures within { result ≤ length loose.now }
    ensures group { All (λ e. e.depth ≡ depth) (drop result loose.now) }
    ensures before { last_depth (take result loose.now) ≢ Some depth }
    ensures some { last_depth loose.now ≡ Some depth → result < length loose.now }
{
    let mut from = loose.len();
    'back: while 0 < from && loose[from - 1].depth == depth {
        from -= 1;
    }
    from
}

/// Returns the depth at which the compressed prefix of a node begins. The parent of the node has
/// the last of these loose edges. The prefix begins after the parent's depth, but not before
/// `least`.
fn start_above(loose: &[LooseEdge], least: usize) -> usize
    requires { (depth : ℕ) → last_depth loose.now ≡ Some depth → depth < 2 ^ 64 - 1 }
    ensures { result ≡ start_after least (last_depth loose.now) }
{
    match loose.last() {
        Some(edge) if least <= edge.depth => edge.depth + 1,
        _ => least,
    }
}

/// Makes a node of loose edges and one more edge, in order. Returns its number.
fn make_node<const P: usize>(
    nodes: &mut Nodes<P>,
    depth: usize,
    prefix: &[u8],
    loose: &[LooseEdge],
    last: Edge,
) -> NodeId
    requires some { 0 < length loose.now }
    requires rise { Ascends (edges_of loose.now ++ last ∷ []) }
    requires room { length loose.now ≤ room nodes.old }
    ensures made { MakesNode (at nodes.old) (at nodes.new) result depth (take P prefix.now)
        (edges_of loose.now ++ last ∷ []) }
    ensures room { room nodes.old ≤ room nodes.new + length loose.now }
{
    let Some((first, rest)) = loose.split_first() else {
        unreachable!()
    };
    let Some((second, rest)) = rest.split_first() else {
        return nodes.new_node(depth, prefix, first.edge, last);
    };
    let mut id = nodes.new_node(depth, prefix, first.edge, second.edge);
    for next in rest {
        id = add_last(nodes, id, next.edge);
    }
    add_last(nodes, id, last)
}

/// Adds an edge after the other edges of a node. Returns the number that the node has then.
fn add_last<const P: usize>(nodes: &mut Nodes<P>, id: NodeId, edge: Edge) -> NodeId
    requires rise { (x : Node) × (at nodes.old id ≡ Some x) × Ascends (x.edges ++ edge ∷ []) }
    requires room { 0 < room nodes.old }
    ensures added { AddsLast (at nodes.old) (at nodes.new) id result edge }
    ensures room { room nodes.old ≤ room nodes.new + 1 }
{
    let wide = nodes.widen(id);
    nodes.add_edge(wide, edge.byte, edge.to);
    wide
}
