//! Exactly the items before a refused one are stored.
use super::say_refused;
use blart_map::TreeMap;
use blart_set::TreeSet;
use std::iter::{Extend, Iterator};
use std::process::Abort;

/// A map of keys that are their own values.
type Map<const P: usize> = TreeMap<u8, u8, P>;

type Set = TreeSet<u8, 2>;

/// Keys from 1 on. A node of each of the two smaller kinds has no room for all of them.
const KEYS: [u8; 18] = [
    1, 2, 3, 4, 5, 6, 7, 8, 9, 10, 11, 12, 13, 14, 15, 16, 17, 18,
];

/// A call that inserts items one after another.
#[derive(Clone, Copy)]
enum Call {
    Extend,
    ExtendCopied,
    ByTrait,
}

const CALLS: [Call; 3] = [Call::Extend, Call::ExtendCopied, Call::ByTrait];

/// Inserts the keys 1 to 60. Returns whether there was memory for all, and the number of keys that
/// the call did not ask for.
fn extend<const P: usize>(map: &mut Map<P>) -> (bool, usize) {
    let mut keys = 1..61u8;
    let is_all = map.extend((&mut keys).zip(1..61u8)).is_ok();
    (is_all, keys.len())
}

fn extend_copied<const P: usize>(map: &mut Map<P>) -> (bool, usize) {
    let mut keys = KEYS.iter();
    let is_all = map.extend_copied((&mut keys).zip(KEYS.iter())).is_ok();
    (is_all, keys.len())
}

fn extend_by_trait<const P: usize>(map: &mut Map<P>) -> (bool, usize) {
    let mut keys = 1..61u8;
    let is_all = Extend::extend(map, (&mut keys).zip(1..61u8)).is_ok();
    (is_all, keys.len())
}

fn extend_set(set: &mut Set) -> (bool, usize) {
    let mut keys = 1..19u8;
    let is_all = set.extend(&mut keys).is_ok();
    (is_all, keys.len())
}

fn extend_set_copied(set: &mut Set) -> (bool, usize) {
    let mut keys = KEYS.iter();
    let is_all = set.extend_copied(&mut keys).is_ok();
    (is_all, keys.len())
}

fn extend_set_by_trait(set: &mut Set) -> (bool, usize) {
    let mut keys = 1..19u8;
    let is_all = Extend::extend(set, &mut keys).is_ok();
    (is_all, keys.len())
}

/// Returns the last key, if it is its own value.
fn last_of<const P: usize>(map: &Map<P>) -> Option<u8> {
    match map.last_key_value() {
        Some((key, value)) if *key == *value => Some(*key),
        _ => None,
    }
}

/// Checks that the map has exactly the first `len` keys from 1 on, and that `last` is the last of
/// them: all keys, or those before the refused one.
fn assert_front(
    rt: &(impl Abort + Print),
    (is_all, left): (bool, usize),
    all: usize,
    len: usize,
    last: Option<u8>,
) {
    if !is_all {
        say_refused(rt);
    }
    assert!(rt; left < all && (left == 0 || !is_all));
    let count = all.wrapping_sub(left).wrapping_sub(!is_all as usize);
    assert!(rt; len == count && usize::from(last.unwrap_or(0)) == count);
}

fn pairs<const P: usize>(rt: &(impl Abort + AllocGlobal + Print)) {
    for call in CALLS {
        let mut map = Map::<P>::with_prefix_len(rt.alloc());
        let (ran, all) = match call {
            Call::Extend => (extend(&mut map), 60),
            Call::ExtendCopied => (extend_copied(&mut map), 18),
            Call::ByTrait => (extend_by_trait(&mut map), 60),
        };
        let (len, last) = (map.len(), last_of(&map));
        drop(map);
        assert_front(rt, ran, all, len, last);
    }
}

/// There is a test for each prefix length, so that each has its own first request.
#[test]
fn pairs_at_0(rt: HostRuntime) {
    pairs::<0>(&rt);
}

#[test]
fn pairs_at_1(rt: HostRuntime) {
    pairs::<1>(&rt);
}

#[test]
fn pairs_at_2(rt: HostRuntime) {
    pairs::<2>(&rt);
}

#[test]
fn pairs_at_8(rt: HostRuntime) {
    pairs::<8>(&rt);
}

#[test]
fn pairs_at_16(rt: HostRuntime) {
    pairs::<16>(&rt);
}

#[test]
fn pairs_at_64(rt: HostRuntime) {
    pairs::<64>(&rt);
}

#[test]
fn elements(rt: HostRuntime) {
    for call in CALLS {
        let mut set = Set::with_prefix_len(rt.alloc());
        let ran = match call {
            Call::Extend => extend_set(&mut set),
            Call::ExtendCopied => extend_set_copied(&mut set),
            Call::ByTrait => extend_set_by_trait(&mut set),
        };
        let (len, last) = (set.len(), set.last().copied());
        drop(set);
        assert_front(&rt, ran, 18, len, last);
    }
}
