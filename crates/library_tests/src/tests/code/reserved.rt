//! A conflict in a map with reserved room.
use super::vector;
use crate::tests::put;
use blart_map::TreeMap;
use std::process::Abort;

/// Refuses a word whose prefix is stored. The room is unchanged.
fn refuse_in_room(rt: &(impl Abort + AllocGlobal), map: &mut TreeMap<Vec<u8>, usize, 2>) {
    let cars = vector(rt, b"cars");
    let mut room = map.reserve(1).expect(rt, "memory");
    let is_refused = room.try_insert(cars, 2).is_err();
    let left = room.left();
    drop(room);
    assert!(rt; is_refused && left == 1);
}

#[test]
fn a_conflict_leaves_the_room(rt: HostRuntime) {
    let mut map = TreeMap::with_prefix_len(rt.alloc());
    put(&rt, &mut map, vector(&rt, b"car"), 1);
    refuse_in_room(&rt, &mut map);
    let len = map.len();
    drop(map);
    assert!(rt; len == 1);
}
