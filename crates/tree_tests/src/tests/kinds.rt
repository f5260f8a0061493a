//! A node filled from 2 children to 256 and emptied again: after each step its kind, its depth, its
//! prefix and its edges in order, and that there is no other node.
ghost use Rattle.std.specs.Prelude.{◌<◌};

use super::byte_of;
use art_kinds::{Child, Edge, Kind, NodeId, NodeRef, Nodes};
use art_slots::{LeafId, Visits};
use std::process::Abort;

/// The compressed prefix of the node, which keeps its first P bytes.
const PREFIX: [u8; 3] = [5, 6, 7];

/// The number of the leaf below each byte that has one.
type Table = [Option<usize>; 256];

/// The number of the leaf below a byte.
fn number_below(byte: u8) -> usize
    ensures small { result < 1000 }
{
    usize::from(byte) * 3 + 7
}

/// The leaf below a byte.
fn leaf_below(byte: u8) -> Child {
    Child::Leaf(LeafId::new(number_below(byte)))
}

/// The number of a leaf. A node has one that no table has.
fn number_of(child: Child) -> usize {
    match child {
        Child::Leaf(id) => id.number(),
        Child::Inner(_) => usize::MAX,
    }
}

/// The edges are those of the table: each is found, and they follow one another.
fn assert_edges<const P: usize>(rt: &impl Abort, node: &NodeRef<'_, P>, table: &Table) {
    let mut least: Option<u8> = None;
    for byte in 0..=255 {
        let found = match node.find(byte) {
            Some(child) => Some(number_of(child)),
            None => None,
        };
        assert!(rt; found == table[usize::from(byte)]);
        if let Some(number) = found {
            if let Some(before) = least {
                let next = node.edge_after(before).expect(rt, "an edge");
                assert!(rt; (next.byte, number_of(next.to)) == (byte, number));
            }
            least = Some(byte);
        }
    }
}

/// The node has `count` children, those of the table, and is of the least kind with room for them.
/// Its depth and its prefix are unchanged, and it is the only node.
fn assert_node<const P: usize>(
    rt: &impl Abort,
    nodes: &Nodes<P>,
    id: NodeId,
    count: usize,
    table: &Table,
) {
    let kind = match count {
        0..=4 => Kind::Four,
        5..=16 => Kind::Sixteen,
        17..=48 => Kind::FortyEight,
        _ => Kind::Full,
    };
    assert!(rt; (id.kind(), nodes.live()) == (kind, 1));
    assert!(rt; nodes.has(id));
    let node = nodes.read(id, &mut Visits::new());
    assert!(rt; (node.depth(), node.count()) == (9, count));
    assert!(rt; node.prefix() == &PREFIX[..P.min(3)]);
    assert_edges(rt, &node, table);
}

/// A node with the children of the first two steps.
fn start<const P: usize>(rt: &impl Abort, nodes: &mut Nodes<P>) -> NodeId {
    let (low, high) = (byte_of(0), byte_of(1));
    nodes.reserve(1).expect(rt, "memory");
    assert!(rt; low < high);
    let low = Edge {
        byte: low,
        to: leaf_below(low),
    };
    let high = Edge {
        byte: high,
        to: leaf_below(high),
    };
    nodes.new_node(9, &PREFIX, low, high)
}

/// Adds the child of a byte that has none.
#[tactic(auto, using(art_kinds::proofs::Growing::fits_more))]
fn add<const P: usize>(rt: &impl Abort, nodes: &mut Nodes<P>, id: NodeId, byte: u8) -> NodeId {
    nodes.reserve(1).expect(rt, "memory");
    assert!(rt; nodes.has(id));
    let id = nodes.widen(id);
    assert!(rt; nodes.has(id));
    let found = nodes.read(id, &mut Visits::new()).find(byte);
    assert!(rt; found.is_none());
    nodes.add_edge(id, byte, leaf_below(byte));
    id
}

/// Removes the child of a byte.
fn remove<const P: usize>(rt: &impl Abort, nodes: &mut Nodes<P>, id: NodeId, byte: u8) -> NodeId {
    assert!(rt; nodes.has(id));
    let found = nodes.read(id, &mut Visits::new()).find(byte);
    assert!(rt; found.is_some());
    nodes.remove_edge(id, byte);
    assert!(rt; nodes.has(id));
    nodes.narrow(id)
}

/// Adds a child at each byte but the first two.
fn fill<const P: usize>(
    rt: &impl Abort,
    nodes: &mut Nodes<P>,
    start: NodeId,
    table: &mut Table,
) -> NodeId {
    let mut id = start;
    for step in 2..=255 {
        let byte = byte_of(step);
        id = add(rt, nodes, id, byte);
        table[usize::from(byte)] = Some(number_below(byte));
        assert_node(rt, nodes, id, usize::from(step) + 1, table);
    }
    id
}

/// Removes the children in the order in which they came, all but the last two.
fn empty<const P: usize>(
    rt: &impl Abort,
    nodes: &mut Nodes<P>,
    full: NodeId,
    table: &mut Table,
) -> NodeId {
    let mut id = full;
    for step in 0..=253 {
        let byte = byte_of(step);
        id = remove(rt, nodes, id, byte);
        table[usize::from(byte)] = None;
        assert_node(rt, nodes, id, 255 - usize::from(step), table);
    }
    id
}

/// A node is made, filled, emptied and removed.
fn turn<const P: usize>(rt: &impl Abort, nodes: &mut Nodes<P>) {
    let mut table: Table = [None; 256];
    for step in 0..2 {
        let byte = byte_of(step);
        table[usize::from(byte)] = Some(number_below(byte));
    }
    let id = start(rt, nodes);
    assert_node(rt, nodes, id, 2, &table);
    let id = fill(rt, nodes, id, &mut table);
    let id = empty(rt, nodes, id, &mut table);
    assert!(rt; nodes.has(id));
    nodes.free(id);
    assert!(rt; nodes.live() == 0);
}

fn two_turns<const P: usize>(rt: &(impl Abort + AllocGlobal)) {
    let mut nodes = Nodes::<P>::new(rt.alloc());
    turn(rt, &mut nodes);
    // The second takes the records that the first left.
    turn(rt, &mut nodes);
    drop(nodes);
}

/// Twice in turn, the second time in the records that the first time left.
#[test]
fn a_node_through_all_kinds(rt: HostRuntime) {
    two_turns::<0>(&rt);
    two_turns::<1>(&rt);
    two_turns::<2>(&rt);
    two_turns::<8>(&rt);
    two_turns::<16>(&rt);
    two_turns::<64>(&rt);
}
