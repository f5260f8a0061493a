//! Merges of two sets.
ghost use Rattle.std.specs.Prelude.{◌≡◌};

use super::set_of;
use blart_set::{Compares, TreeSet};
use std::iter::Iterator;
use std::process::Abort;

type Set = TreeSet<u8, 16>;

/// The example of `blart_set::Union`.
fn union(rt: &impl Abort, left: &Set, right: &Set) {
    // left is {1, 2}, right is {2, 3}
    let mut merged = left.union(&right);
    assert!(rt; merged.next() == Some(&1));
    assert!(rt; merged.next() == Some(&2));
    assert!(rt; merged.next() == Some(&3));
    assert!(rt; merged.next() == None);
    drop(merged);
}

/// The example of `blart_set::Intersection`.
fn intersection(rt: &impl Abort, left: &Set, right: &Set) {
    // left is {1, 2}, right is {2, 3}
    let mut merged = left.intersection(&right);
    assert!(rt; merged.next() == Some(&2));
    assert!(rt; merged.next() == None);
    drop(merged);
}

/// The example of `blart_set::Difference`.
fn difference(rt: &impl Abort, left: &Set, right: &Set) {
    // left is {1, 2}, right is {2, 3}
    let mut merged = left.difference(&right);
    assert!(rt; merged.next() == Some(&1));
    assert!(rt; merged.next() == None);
    drop(merged);
}

/// The example of `blart_set::SymmetricDifference`.
fn symmetric_difference(rt: &impl Abort, left: &Set, right: &Set) {
    // left is {1, 2}, right is {2, 3}
    let mut merged = left.symmetric_difference(&right);
    assert!(rt; merged.next() == Some(&1));
    assert!(rt; merged.next() == Some(&3));
    assert!(rt; merged.next() == None);
    drop(merged);
}

/// Returns a count that only a clause reads.
///
/// The example of `blart_set::Compares`.
fn compares() -> Compares
    ensures { result ≡ 1 }
{
    let mut compares = Compares::new();
    compares.add_one();
    compares
}

#[test]
fn as_shown(rt: HostRuntime) {
    let left: Set = set_of(&rt, [1, 2]);
    let right: Set = set_of(&rt, [2, 3]);
    union(&rt, &left, &right);
    intersection(&rt, &left, &right);
    difference(&rt, &left, &right);
    symmetric_difference(&rt, &left, &right);
    drop(left);
    drop(right);
    drop(compares());
}
