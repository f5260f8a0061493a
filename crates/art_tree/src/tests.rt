//! Takes a tree apart. It has the keys of 0 to 999, each with that number as value. The tests
//! assert what the tree is made of, and that nothing else is there. Each pattern names every field
//! of its type, so a new field does not compile until a test looks at it.
use crate::pair_list::Pairs;
use crate::tree::Tree;
use crate::tree::build::Frame;
use crate::tree::descent::Fork;
use crate::tree::point::{Gap, Neighbour, Point};
use crate::tree::skeleton::Skeleton;
use crate::walk::Walk;
use art_kinds::{Child, NodeRef, Nodes};
use art_slots::Visits;
use std::process::Abort;

/// A tree whose nodes store no part of their compressed prefixes.
type Bare = Tree<[u8; 3], usize, 0>;

/// Returns the byte of a digit.
fn byte_of(digit: usize) -> u8 {
    ((digit % 10) as u8).wrapping_mul(37).wrapping_add(100)
}

/// Returns the key of a number less than 1,000, with a byte for each of its digits.
fn key_of(number: usize) -> [u8; 3] {
    [byte_of(number / 100), byte_of(number / 10), byte_of(number)]
}

/// Adds the pair of a number. Its key is related to no other.
fn add(rt: &impl Abort, tree: &mut Bare, number: usize) {
    let key = key_of(number);
    let point = tree.point(&key);
    tree.make_room(&point).expect(rt, "memory");
    match point {
        Point::Exact(_) | Point::Related { .. } => panic!(rt; "the key conflicts"),
        Point::Empty | Point::Free(_) => {
            tree.place(point, key, number);
        }
    }
}

/// The number of the id of each key's leaf.
type Numbers = [usize; 1000];

/// Returns the numbers of the leaves' ids, in the order in which the pairs came.
fn numbers_of(rt: &impl Abort, tree: &Bare) -> Numbers {
    let mut numbers: Numbers = [0; 1000];
    for number in 0..1000 {
        let key = key_of(number);
        let Some((id, stored, held)) = tree.get(&key, &mut Visits::new()) else {
            panic!(rt; "a pair");
        };
        assert!(rt; *stored == key && *held == number);
        numbers[number] = id.number();
    }
    numbers
}

/// Returns the node that an edge leads to. Asserts that it has this depth, an empty stored prefix,
/// and ten edges.
fn node_below<'a>(
    rt: &impl Abort,
    nodes: &'a Nodes<0>,
    child: Option<Child>,
    depth: usize,
) -> NodeRef<'a, 0> {
    match child.expect(rt, "an edge") {
        Child::Leaf(_) => panic!(rt; "the edge leads to a leaf"),
        Child::Inner(id) => {
            assert!(rt; nodes.has(id));
            let node = nodes.read(id, &mut Visits::new());
            assert!(rt; node.depth() == depth && node.count() == 10);
            assert!(rt; node.prefix().is_empty());
            node
        }
    }
}

/// Asserts that the ten edges of a node lead to ten leaves, from `from` on.
fn assert_leaves(rt: &impl Abort, node: &NodeRef<'_, 0>, numbers: &Numbers, from: usize) {
    for digit in 0..10usize {
        let number = numbers[from.wrapping_add(digit) % 1000];
        match node.find(byte_of(digit)).expect(rt, "an edge") {
            Child::Leaf(id) => assert!(rt; id.number() == number),
            Child::Inner(_) => panic!(rt; "the edge leads to a node"),
        }
    }
}

/// Asserts that each edge from the top leads to a node, and each edge by a third byte to the leaf
/// of its key.
fn assert_all(rt: &impl Abort, nodes: &Nodes<0>, root: Option<Child>, numbers: &Numbers) {
    let top = node_below(rt, nodes, root, 0);
    for first in 0..10 {
        let middle = node_below(rt, nodes, top.find(byte_of(first)), 1);
        for second in 0..10 {
            let low = node_below(rt, nodes, middle.find(byte_of(second)), 2);
            assert_leaves(rt, &low, numbers, first * 100 + second * 10);
        }
    }
}

/// Returns the gap of a free point.
fn gap_of(rt: &impl Abort, tree: &Bare, query: &[u8]) -> Gap {
    match tree.point(query) {
        Point::Free(gap) => gap,
        Point::Empty | Point::Exact(_) => panic!(rt; "a gap"),
        Point::Related { first: _, last: _ } => panic!(rt; "a gap"),
    }
}

/// Asserts that the gap of some bytes, which part from the keys at a node, names a leaf, the
/// node, and one byte of a key.
fn assert_gap(rt: &impl Abort, tree: &Bare, numbers: &Numbers) {
    let Gap {
        nearest,
        depth,
        beside,
        fork,
        byte,
    } = gap_of(rt, tree, &[100, 100, 101]);
    assert!(rt; depth == 2 && nearest.number() == numbers[0] && byte == byte_of(0));
    match beside {
        Neighbour::AfterLeaf(id) => assert!(rt; id.number() == numbers[0]),
        Neighbour::BeforeLeaf(_) => panic!(rt; "the gap is after the leaf"),
    }
    match fork {
        Fork::Node(above, _) => assert!(rt; above.is_some()),
        Fork::Edge(_, _) => panic!(rt; "the bytes part from the keys at a node"),
    }
}

/// Asserts that a walk over no pairs of a tree has the tree's leaves, and no ends.
fn assert_walk(rt: &impl Abort, tree: &Bare) {
    let Walk {
        leaves,
        ends,
        following: _,
        before: _,
    } = Walk::new(tree, None);
    assert!(rt; leaves.len() == 1000 && ends.is_none());
}

/// What a tree of 1,000 keys is made of.
#[test]
fn a_tree_taken_apart(rt: HostRuntime) {
    let mut tree = Bare::new(rt.alloc());
    for number in 0..1000 {
        add(&rt, &mut tree, number);
    }
    let numbers = numbers_of(&rt, &tree);
    assert_gap(&rt, &tree, &numbers);
    assert_walk(&rt, &tree);
    let Tree {
        leaves,
        skeleton: Skeleton { nodes, root },
    } = tree;
    assert_all(&rt, &nodes, root, &numbers);
    let (live, len) = (nodes.live(), leaves.len());
    drop(nodes);
    drop(leaves);
    // The keys part after no byte, after each byte and after each two bytes.
    assert!(rt; live == 1 + 10 + 100 && len == 1000);
}

/// What an empty list of pairs and a new frame are made of.
#[test]
fn pairs_taken_apart(rt: HostRuntime) {
    let Pairs { leaves } = Pairs::<u8, u8>::new(rt.alloc());
    assert!(rt; leaves.len() == 0);
    drop(leaves);
    let frame = Frame::<0>::new(rt.alloc(), 1000).expect(&rt, "memory");
    let Frame { nodes, loose } = frame;
    let (live, len) = (nodes.live(), loose.len());
    drop(nodes);
    drop(loose);
    assert!(rt; live == 0 && len == 0);
}
