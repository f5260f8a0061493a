//! Tests of the tree and of its inner nodes.

mod ids;
mod kinds;
mod pair_lists;
mod steps;
mod trees;

use art_tree::{LeafId, Point, Tree};
use blart_keys::AsBytes;
use std::fs;
use std::fs::Files;
use std::process::Abort;

/// The byte of a step: each of 256 once, in no order.
fn byte_of(step: u8) -> u8 {
    step.wrapping_mul(37).wrapping_add(100)
}

/// Adds to a tree a pair whose key is related to no other, and returns its leaf.
fn add<K: AsBytes + Drop, V: Drop, const P: usize>(
    rt: &impl Abort,
    tree: &mut Tree<K, V, P>,
    key: K,
    value: V,
) -> LeafId {
    let point = tree.point(key.as_bytes());
    tree.make_room(&point).expect(rt, "memory");
    match point {
        Point::Exact(_) | Point::Related { .. } => panic!(rt; "the key conflicts"),
        Point::Empty | Point::Free(_) => tree.place(point, key, value),
    }
}

/// The number between a name and the unit in its line, or 0 if no line has the name.
fn number_after(text: &str, name: &str) -> u64 {
    let (_, rest) = text.split_once(name).unwrap_or(("", ""));
    let (number, _) = rest.split_once(" kB").unwrap_or(("", ""));
    number.trim_ascii().parse().unwrap_or(0)
}

/// A number of KiB that the system reports of the program: `VmPeak:` names the most memory that it
/// had, and `VmRSS:` what it holds now.
fn memory(rt: &(impl Abort + AllocGlobal + Files), name: &str) -> u64 {
    let status = fs::read_to_string(rt, "/proc/self/status").expect(rt, "a file of the system");
    let number = number_after(status.as_str(), name);
    drop(status);
    assert!(rt; number > 0);
    number
}
