//! Chains of inner nodes.
use super::vector;
use crate::tests::put;
use blart_map::TreeMap;
use std::iter::{IntoIterator, Iterator};
use std::process::Abort;

type Map<const P: usize> = TreeMap<Vec<u8>, usize, P>;

/// Returns the value of a pair, or a number that is no value if there is no pair.
fn value_of(pair: Option<(&Vec<u8>, &usize)>) -> usize {
    match pair {
        Some((_, value)) => *value,
        None => 1000,
    }
}

/// Checks the number of pairs and inner nodes, and that the keys of these numbers are at the ends.
fn assert_size<const P: usize>(
    rt: &impl Abort,
    map: &Map<P>,
    len: usize,
    nodes: usize,
    ends: (usize, usize),
) {
    let first = value_of(map.first_key_value());
    let last = value_of(map.last_key_value());
    assert!(rt; map.len() == len && map.inner_nodes() == nodes);
    assert!(rt; first == ends.0 && last == ends.1);
}

/// Returns a map with a key for each number below 1,000: `number` zeros and a 1. So each inner node
/// has one below it.
fn chain<const P: usize>(rt: &(impl Abort + AllocGlobal)) -> Map<P> {
    let mut map = Map::<P>::with_prefix_len(rt.alloc());
    let mut longest = [0u8; 1000];
    longest[999] = 1;
    for number in 0..1000usize {
        put(rt, &mut map, vector(rt, &longest[999 - number..]), number);
    }
    assert_size(rt, &map, 1000, 999, (999, 0));
    map
}

/// Checks the keys that start with 500 zeros: from the key of 999 down to the key of 500.
fn assert_below<const P: usize>(rt: &impl Abort, map: &Map<P>) {
    let front = [0u8; 500];
    let mut len = 1000usize;
    for (key, number) in map.prefix(&front) {
        assert!(rt; key.len() == len);
        len = len.wrapping_sub(1);
        assert!(rt; *number == len);
    }
    assert!(rt; len == 500);
}

/// Thins the chain, and replaces all keys that start with a zero by that zero.
fn thin<const P: usize>(rt: &(impl Abort + AllocGlobal), map: &mut Map<P>) {
    map.retain(|_, number| *number % 2 == 0);
    assert_size(rt, map, 500, 499, (998, 0));
    assert!(rt; map.prefix_insert(vector(rt, &[0]), 7).is_ok());
    assert_size(rt, map, 2, 1, (7, 0));
}

/// Clones the chain and thins it. The clone is unchanged. Then the pairs from the key of 500 on are
/// split off the clone.
fn take_apart<const P: usize>(rt: &(impl Abort + AllocGlobal)) {
    let mut map = chain::<P>(rt);
    assert_below(rt, &map);
    let mut same = map.clone().expect(rt, "memory");
    thin(rt, &mut map);
    drop(map);
    let mut key = [0u8; 501];
    key[500] = 1;
    let rest = same.split_off(&key).expect(rt, "memory");
    assert_size(rt, &same, 499, 498, (999, 501));
    drop(same);
    assert_size(rt, &rest, 501, 500, (500, 0));
    drop(rest);
}

/// A thousand keys of zeros and then a one have 999 nested inner nodes. The map is walked in part,
/// cloned, halved, split, and replaced by one key.
#[test]
fn a_chain(rt: HostRuntime) {
    take_apart::<0>(&rt);
    take_apart::<16>(&rt);
}
