//! Pairs that are collected into a map, and elements into a set. If a call fails to allocate, what
//! was collected is dropped.
use super::{key_of, say_refused};
use blart_map::TreeMap;
use blart_set::TreeSet;
use std::alloc::AllocError;
use std::iter::{IntoIterator, Iterator};
use std::process::Abort;

type Map = TreeMap<[u8; 2], usize, 2>;

type Set = TreeSet<[u8; 2], 2>;

/// Collects the pairs of a map into another map.
fn collect_map(rt: &(impl AllocGlobal + Print), map: Map) -> Option<Map> {
    let made: Result<Map, AllocError> = map.into_iter().collect(rt.alloc());
    if made.is_err() {
        say_refused(rt);
    }
    made.ok()
}

/// Collects the keys of a map into a set.
fn collect_set(rt: &(impl AllocGlobal + Print), map: Map) -> Option<Set> {
    let made: Result<Set, AllocError> = map.into_keys().collect(rt.alloc());
    if made.is_err() {
        say_refused(rt);
    }
    made.ok()
}

/// Puts three pairs into a map, or those before the first for which there is no memory.
fn fill(rt: &impl Print, map: &mut Map) {
    for place in 0..3 {
        if map.insert(key_of(place), place).is_err() {
            say_refused(rt);
            return;
        }
    }
}

#[test]
fn a_collected_map(rt: HostRuntime) {
    let mut map = Map::with_prefix_len(rt.alloc());
    fill(&rt, &mut map);
    let count = map.len();
    if let Some(made) = collect_map(&rt, map) {
        let is_whole = made.len() == count && made.get(&[1u8, 7]) == (count == 3).then_some(&2);
        drop(made);
        assert!(rt; is_whole);
    }
}

#[test]
fn a_collected_set(rt: HostRuntime) {
    let mut map = Map::with_prefix_len(rt.alloc());
    fill(&rt, &mut map);
    let count = map.len();
    if let Some(made) = collect_set(&rt, map) {
        let is_whole = made.len() == count && made.contains(&[1u8, 7]) == (count == 3);
        drop(made);
        assert!(rt; is_whole);
    }
}
