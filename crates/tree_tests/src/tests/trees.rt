//! Calls of a tree that no call of a map makes.
ghost use Rattle.art_tree.specs.Leaves.{Has};

use super::{add, memory};
use art_tree::{LeafId, Tree, Visits};
use blart_keys::AsBytes;
use std::fs::Files;
use std::process::Abort;

/// A tree of these keys, each with its place as value.
fn tree_of<'a, const P: usize>(
    rt: &(impl Abort + AllocGlobal),
    keys: &[&'a [u8]],
) -> Tree<&'a [u8], usize, P> {
    let mut tree = Tree::new(rt.alloc());
    for place in 0..keys.len() {
        add(rt, &mut tree, keys[place], place);
    }
    tree
}

/// The inner node at the prefix of each row has the number of children of the row, 0 for no node.
fn assert_children<K: AsBytes, const P: usize>(
    rt: &impl Abort,
    tree: &Tree<K, usize, P>,
    rows: &[(&[u8], usize)],
) {
    for (front, count) in rows {
        let children = tree.children_at(front, &mut Visits::new());
        assert!(rt; children == *count);
    }
}

/// Forty-one zeros, but for one byte.
fn zeros_but(place: usize, byte: u8) -> [u8; 41] {
    let mut key = [0; 41];
    key[place % 41] = byte;
    key
}

/// The rows hold of a tree of these keys.
fn assert_counts<const P: usize>(
    rt: &(impl Abort + AllocGlobal),
    keys: &[&[u8]],
    rows: &[(&[u8], usize)],
) {
    let tree = tree_of::<P>(rt, keys);
    assert_children(rt, &tree, rows);
    drop(tree);
}

/// Four keys; and two that part after forty zeros, and a third that parts from them after twenty.
fn children<const P: usize>(rt: &(impl Abort + AllocGlobal)) {
    let rows: [(&[u8], usize); 4] = [(b"", 3), (b"\x02", 2), (b"\x01", 0), (b"\x09", 0)];
    assert_counts::<P>(rt, &[b"\x02\x01", b"\x03", b"\x01", b"\x02\x02"], &rows);
    let (first, second, third) = (zeros_but(40, 1), zeros_but(40, 2), zeros_but(20, 3));
    let (zeros, other) = ([0; 40], zeros_but(30, 1));
    let rows: [(&[u8], usize); 4] = [
        (&zeros[..20], 2),
        (&zeros, 2),
        (&zeros[..30], 0),
        (&other, 0),
    ];
    assert_counts::<P>(rt, &[&third, &second, &first], &rows);
}

/// How many children there are at a prefix, within a long one and beside it.
#[test]
fn children_at_fronts(rt: HostRuntime) {
    children::<0>(&rt);
    children::<1>(&rt);
    children::<2>(&rt);
    children::<8>(&rt);
    children::<16>(&rt);
    children::<64>(&rt);
}

/// Keys of two bytes, each below 49, so that each first byte is that of 49 keys.
fn largest_kind<const P: usize>(rt: &(impl Abort + AllocGlobal)) {
    let mut tree = Tree::<[u8; 2], usize, P>::new(rt.alloc());
    for place in 0..2401usize {
        let key = [(place / 49) as u8, (place % 49) as u8];
        add(rt, &mut tree, key, place);
    }
    assert_children(rt, &tree, &[(&[48], 49), (&[], 49)]);
    let nodes = tree.inner_nodes();
    drop(tree);
    assert!(rt; nodes == 50);
}

/// Keys of two bytes, each less than 49, have fifty inner nodes with 49 children each.
#[test]
fn children_of_the_largest_kind(rt: HostRuntime) {
    largest_kind::<0>(&rt);
    largest_kind::<1>(&rt);
    largest_kind::<2>(&rt);
    largest_kind::<8>(&rt);
    largest_kind::<16>(&rt);
    largest_kind::<64>(&rt);
}

/// The leaf of a key.
fn leaf_of(rt: &impl Abort, tree: &Tree<&[u8], usize, 2>, key: &[u8]) -> LeafId
    ensures { Has tree.now.pairs result }
{
    let found = tree.search(key, &mut Visits::new());
    found.expect(rt, "the key is there")
}

/// The leaf before the leaf of a key, and the leaf after it.
fn assert_neighbours(rt: &impl Abort, tree: &Tree<&[u8], usize, 2>) {
    let first = leaf_of(rt, tree, b"abcdx");
    let second = leaf_of(rt, tree, b"abcdy");
    let found = [
        tree.first(),
        tree.prev_of(first),
        tree.next_of(first),
        tree.prev_of(second),
    ];
    assert!(rt; found == [Some(first), None, Some(second), Some(first)]);
}

#[test]
fn neighbours_of_a_leaf(rt: HostRuntime) {
    let keys: [&[u8]; 4] = [b"abcdx", b"abcdy", b"abd", b"b"];
    let tree = tree_of(&rt, &keys);
    assert_neighbours(&rt, &tree);
    drop(tree);
}

type Texts = Tree<&'static [u8], usize, 16>;

/// Room for a million pairs takes less than 600 MB of addresses, and less than 200 MB are written
/// before a pair comes.
fn reserve_million(rt: &(impl Abort + AllocGlobal + Files), tree: &mut Texts) {
    let (most, held) = (memory(rt, "VmPeak:"), memory(rt, "VmRSS:"));
    tree.reserve(1_000_000).expect(rt, "memory");
    let (most_then, held_then) = (memory(rt, "VmPeak:"), memory(rt, "VmRSS:"));
    assert!(rt; most_then.saturating_sub(most) < 600_000_000 / 1024);
    assert!(rt; held_then.saturating_sub(held) < 200_000_000 / 1024);
}

#[test]
fn room_for_a_million(rt: HostRuntime) {
    let mut tree = Texts::new(rt.alloc());
    reserve_million(&rt, &mut tree);
    add(&rt, &mut tree, b"key", 1);
    let len = tree.len();
    drop(tree);
    assert!(rt; len == 1);
}
