//! Calls of a cursor, and of the leaves that it returns. They do not allocate.
use super::say_refused;
use blart_map::{TreeMap, Visits};
use std::ops::Bound;
use std::process::Abort;

type Map = TreeMap<u8, usize, 2>;

/// Walks over the pairs from 4 on. Takes the first, reads the last, and takes the one between,
/// which the cursor passes last.
fn step_and_take(rt: &impl Abort, map: &mut Map) {
    let mut cursor = map.cursor(Bound::Included(&4u8), Bound::Unbounded);
    let first = map
        .step(&mut cursor, &mut Visits::new())
        .expect(rt, "a pair");
    let taken = map.take_leaf(first);
    let last = map
        .step_back(&mut cursor, &mut Visits::new())
        .expect(rt, "a pair");
    let (key, value) = map.leaf(last);
    let read = (*key, *value);
    let between = map
        .step(&mut cursor, &mut Visits::new())
        .expect(rt, "a pair");
    let taken_then = map.take_leaf(between);
    assert!(rt; taken == (4, 40) && read == (8, 80) && taken_then == (5, 50));
    assert!(rt; map.step(&mut cursor, &mut Visits::new()).is_none());
}

#[test]
fn cursors(rt: HostRuntime) {
    let pairs = [(5, 50), (2, 20), (8, 80), (4, 40)];
    let Ok(mut map) = Map::from_array(rt.alloc(), pairs) else {
        say_refused(&rt);
        return;
    };
    step_and_take(&rt, &mut map);
    let (len, nodes) = (map.len(), map.inner_nodes());
    drop(map);
    assert!(rt; len == 2 && nodes == 1);
}
