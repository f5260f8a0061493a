//! Takes the inner nodes of a thousand keys apart, and a node of each other kind. Each pattern
//! names every field of its type, so a new field does not compile until a test looks at it.
ghost use Rattle.std.specs.Prelude.{◌<◌, ◌≤◌};

use crate::records::few::Few;
use crate::records::full::Full;
use crate::records::ids::{Child, Edge, NodeId};
use crate::records::indexed::Indexed;
use crate::records::inner::Inner;
use crate::records::link::{Link, OptionLink};
use crate::records::nodes::Nodes;
use art_slots::{LeafId, Visits};
use std::process::Abort;

/// Ten steps, in ascending order of their bytes.
const STEPS: [u8; 10] = [5, 6, 0, 7, 1, 8, 2, 9, 3, 4];

/// Returns the byte of a step. The 256 steps have different bytes, in no order.
fn byte_of(step: u8) -> u8 {
    step.wrapping_mul(37).wrapping_add(100)
}

/// Returns 256 leaves with consecutive numbers, from `first` on.
fn leaves_from(first: usize) -> [Child; 256]
    requires { first < 1000 }
{
    let mut leaves = [Child::Leaf(LeafId::new(0)); 256];
    for step in 0..256 {
        leaves[step] = Child::Leaf(LeafId::new(first + step));
    }
    leaves
}

/// Makes a node with two children, at the bytes of the first two steps.
fn start(rt: &impl Abort, nodes: &mut Nodes<0>, depth: usize, low: Child, high: Child) -> NodeId {
    nodes.reserve(1).expect(rt, "memory");
    let low = Edge { byte: 100, to: low };
    let high = Edge {
        byte: 137,
        to: high,
    };
    nodes.new_node(depth, &[1, 2, 3], low, high)
}

/// Adds a child at a byte that has none, and returns the number that the node has then.
#[tactic(auto, using(crate::proofs::Growing::fits_more))]
fn add(rt: &impl Abort, nodes: &mut Nodes<0>, id: NodeId, byte: u8, to: Child) -> NodeId {
    nodes.reserve(1).expect(rt, "memory");
    assert!(rt; nodes.has(id));
    let id = nodes.widen(id);
    assert!(rt; nodes.has(id));
    let found = nodes.read(id, &mut Visits::new()).find(byte);
    assert!(rt; found.is_none());
    nodes.add_edge(id, byte, to);
    id
}

/// Makes a node with these children, one at the byte of each step.
fn node_of(rt: &impl Abort, nodes: &mut Nodes<0>, depth: usize, children: &[Child]) -> NodeId {
    assert!(rt; 2 <= children.len() && children.len() <= 256);
    let mut id = start(rt, nodes, depth, children[0], children[1]);
    for step in 2..children.len() {
        id = add(rt, nodes, id, byte_of(step as u8), children[step]);
    }
    id
}

/// Makes the node above a hundred leaves, from `first` on.
fn middle_of(rt: &impl Abort, nodes: &mut Nodes<0>, first: usize) -> NodeId
    requires { first ≤ 900 }
{
    let mut lows = [Child::Leaf(LeafId::new(0)); 10];
    for step in 0..10 {
        let leaves = leaves_from(first + 10 * step);
        lows[step] = Child::Inner(node_of(rt, nodes, 2, &leaves[..10]));
    }
    node_of(rt, nodes, 1, &lows)
}

/// Makes the node above a thousand leaves.
fn top_of(rt: &impl Abort, nodes: &mut Nodes<0>) -> NodeId {
    let mut middles = [Child::Leaf(LeafId::new(0)); 10];
    for step in 0..10 {
        middles[step] = Child::Inner(middle_of(rt, nodes, 100 * step));
    }
    node_of(rt, nodes, 0, &middles)
}

/// Returns the words of the ten children of the node that `word` leads to, in the order of the
/// steps. Asserts that the node has the depth `at`, an empty prefix, and no other children.
fn words_of(rt: &impl Abort, nodes: &Nodes<0>, word: usize, at: usize) -> [usize; 10] {
    let place = word / 8;
    assert!(rt; word % 8 == 2 && nodes.sixteens.has(place));
    let Inner {
        depth,
        used,
        prefix,
        edges,
    } = nodes.sixteens.read(place);
    assert!(rt; *depth == at && *used == 0 && prefix.is_empty());
    let Few {
        count,
        bytes,
        children,
    } = edges;
    assert!(rt; *count == 10);
    let mut words = [0; 10];
    for place in 0..16 {
        let link = children[place];
        let Link { word } = link;
        if place < 10 {
            assert!(rt; bytes[place] == byte_of(STEPS[place]));
            words[(STEPS[place] % 10) as usize] = word;
        } else {
            assert!(rt; bytes[place] == 0 && word == 0);
        }
    }
    words
}

/// Asserts that `word` leads to the node above a hundred leaves, from `first` on.
fn assert_middle(rt: &impl Abort, nodes: &Nodes<0>, word: usize, first: usize) {
    let words = words_of(rt, nodes, word, 1);
    for place in 0..100 {
        let leaves = words_of(rt, nodes, words[place / 10], 2);
        assert!(rt; leaves[place % 10] == first.wrapping_add(place).wrapping_mul(8));
    }
}

#[test]
fn nodes_taken_apart(rt: HostRuntime) {
    let mut nodes = Nodes::new(rt.alloc());
    let NodeId { number } = top_of(&rt, &mut nodes);
    assert!(rt; number % 4 == 1);
    let words = words_of(&rt, &nodes, (number / 4).wrapping_mul(8).wrapping_add(2), 0);
    for step in 0..10 {
        assert_middle(&rt, &nodes, words[step], 100 * step);
    }
    let Nodes {
        fours,
        sixteens,
        forty_eights,
        fulls,
    } = nodes;
    assert!(rt; fours.used() == 0 && sixteens.used() == 111);
    assert!(rt; forty_eights.used() == 0 && fulls.used() == 0);
}

/// Asserts that these are the edges of a node with three children.
fn assert_four(rt: &impl Abort, edges: &Few<4>) {
    let Few {
        count,
        bytes,
        children,
    } = edges;
    assert!(rt; *count == 3 && *bytes == [100, 137, 174, 0]);
    for place in 0..4 {
        let link = children[place];
        let Link { word } = link;
        assert!(rt; word == 8 * (place % 3));
    }
}

/// Asserts that these are the edges of a node with twenty children.
fn assert_forty_eight(rt: &impl Abort, edges: &Indexed) {
    let Indexed {
        count,
        index,
        children,
    } = edges;
    assert!(rt; *count == 20);
    for step in 0..=255 {
        let place = index[byte_of(step) as usize] as usize;
        if step < 20 {
            assert!(rt; place < 20);
            let link = children[place];
            let Link { word } = link;
            assert!(rt; word == 8 * step as usize);
        } else {
            assert!(rt; place == 48);
        }
    }
    for place in 20..48 {
        let link = children[place];
        let Link { word } = link;
        assert!(rt; word == 0);
    }
}

/// Asserts that these are the edges of a node with sixty children.
fn assert_full(rt: &impl Abort, edges: &Full) {
    let Full { count, children } = edges;
    assert!(rt; *count == 60);
    for step in 0..=255 {
        let link = children[byte_of(step) as usize];
        let OptionLink { word } = link;
        assert!(rt; word == if step < 60 { 8 * step as usize + 1 } else { 0 });
    }
}

#[test]
fn kinds_taken_apart(rt: HostRuntime) {
    let mut nodes = Nodes::new(rt.alloc());
    let leaves = leaves_from(0);
    let four = node_of(&rt, &mut nodes, 5, &leaves[..3]).parts().place;
    let forty_eight = node_of(&rt, &mut nodes, 5, &leaves[..20]).parts().place;
    let full = node_of(&rt, &mut nodes, 5, &leaves[..60]).parts().place;
    assert!(rt; nodes.fours.has(four) && nodes.fulls.has(full));
    assert!(rt; nodes.forty_eights.has(forty_eight) && nodes.live() == 3);
    assert_four(&rt, &nodes.fours.read(four).edges);
    assert_forty_eight(&rt, &nodes.forty_eights.read(forty_eight).edges);
    assert_full(&rt, &nodes.fulls.read(full).edges);
    drop(nodes);
}
