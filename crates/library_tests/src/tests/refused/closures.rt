//! Closures. They run exactly if there is memory for what they return.
use super::say_refused;
use blart_map::TreeMap;
use std::process::Abort;

type Map = TreeMap<[u8; 2], usize, 2>;

/// The call that takes the closure.
#[derive(Clone, Copy)]
enum Way {
    OrInsertWith,
    OrInsertWithEntry,
    PrefixOrInsertWith,
    PrefixOrInsertWithEntry,
    KindOrInsertWithEntry,
    GetOrInsertWith,
}

const WAYS: [Way; 6] = [
    Way::OrInsertWith,
    Way::OrInsertWithEntry,
    Way::PrefixOrInsertWith,
    Way::PrefixOrInsertWithEntry,
    Way::KindOrInsertWithEntry,
    Way::GetOrInsertWith,
];

/// Inserts 7 by the call. Returns whether there was memory for it. The closure sets the mark.
fn puts(map: &mut Map, way: Way, key: [u8; 2], ran: &mut bool) -> bool {
    let make = || {
        *ran = true;
        7
    };
    match way {
        Way::OrInsertWith => map.entry(key).or_insert_with(make).is_ok(),
        Way::OrInsertWithEntry => map.entry(key).or_insert_with_entry(make).is_ok(),
        Way::PrefixOrInsertWith => map.prefix_entry(key).or_insert_with(make).is_ok(),
        Way::PrefixOrInsertWithEntry => map.prefix_entry(key).or_insert_with_entry(make).is_ok(),
        Way::KindOrInsertWithEntry => {
            map.prefix_entry(key)
                .kind()
                .or_insert_with_entry(make)
                .is_ok()
        }
        Way::GetOrInsertWith => map.get_or_insert_with(key, make).is_ok(),
    }
}

/// Does the same with a closure that takes a reference to the key.
fn puts_by_key(map: &mut Map, way: Way, key: [u8; 2], ran: &mut bool) -> bool {
    let make = |_: &[u8; 2]| {
        *ran = true;
        7
    };
    match way {
        Way::OrInsertWith => map.entry(key).or_insert_with_key(make).is_ok(),
        Way::OrInsertWithEntry => map.entry(key).or_insert_with_key_entry(make).is_ok(),
        Way::PrefixOrInsertWith => map.prefix_entry(key).or_insert_with_key(make).is_ok(),
        Way::PrefixOrInsertWithEntry => {
            map.prefix_entry(key).or_insert_with_key_entry(make).is_ok()
        }
        _ => map
            .prefix_entry(key)
            .kind()
            .or_insert_with_key_entry(make)
            .is_ok(),
    }
}

/// Checks that the closure runs exactly if a new value is inserted, and that the map is otherwise
/// unchanged. Returns whether the value is stored now.
fn assert_runs(
    rt: &(impl Abort + Print),
    map: &mut Map,
    way: Way,
    of_key: bool,
    key: [u8; 2],
) -> bool {
    let (before, was_there) = (map.len(), map.contains_key(&key));
    let mut ran = false;
    let put = if of_key {
        puts_by_key(map, way, key, &mut ran)
    } else {
        puts(map, way, key, &mut ran)
    };
    if !put {
        say_refused(rt);
    }
    let is_right = match map.get(&key) {
        Some(value) => put && *value == 7,
        None => !put,
    };
    assert!(rt; is_right && ran == (put && !was_there));
    assert!(rt; map.len() == before.wrapping_add(ran as usize));
    put
}

/// Inserts into an empty map, which allocates the leaf, and beside a pair, which allocates the
/// inner node. Then repeats both with memory for what was refused. The closure does not run if the
/// bytes are stored.
fn assert_both(rt: &(impl Abort + Print), map: &mut Map, way: Way, of_key: bool) {
    let first = assert_runs(rt, map, way, of_key, [1, 7]);
    let second = assert_runs(rt, map, way, of_key, [1, 9]);
    assert!(rt; map.inner_nodes() == (first && second) as usize);
    // Refusals pause.
    assert!(rt; assert_runs(rt, map, way, of_key, [1, 7]));
    assert!(rt; assert_runs(rt, map, way, of_key, [1, 9]));
    // Refusals resume.
    assert!(rt; map.inner_nodes() == 1);
}

/// Tries each call in a map of its own.
fn assert_ways(rt: &(impl Abort + AllocGlobal + Print), of_key: bool) {
    for way in WAYS {
        let mut map = Map::with_prefix_len(rt.alloc());
        assert_both(rt, &mut map, way, of_key);
        drop(map);
    }
}

/// One needs memory for a leaf, and the next for an inner node too.
#[test]
fn closures(rt: HostRuntime) {
    assert_ways(&rt, false);
}

/// The same with closures that get the key.
#[test]
fn closures_of_keys(rt: HostRuntime) {
    assert_ways(&rt, true);
}

/// Inserts a key of two bytes beside a key of three, which differs from it after the first byte. A
/// closure runs exactly if there is memory for that. The value of stored bytes is replaced whatever
/// memory there is.
fn put_beside(rt: &(impl Abort + Print), map: &mut TreeMap<&[u8], usize, 2>) -> bool {
    let (long, short): (&[u8], &[u8]) = (&[1, 2, 3], &[1, 9]);
    if map.try_insert(long, 1).is_err() {
        say_refused(rt);
        return false;
    }
    assert!(rt; matches!(map.try_insert(long, 5), Ok(Some(1))));
    let mut ran = false;
    let put = match map.try_entry(short) {
        Ok(entry) => entry
            .or_insert_with(|| {
                ran = true;
                3
            })
            .is_ok(),
        Err(_) => panic!(rt; "no key conflicts"),
    };
    if !put {
        say_refused(rt);
    }
    assert!(rt; ran == put && map.contains_key(&short) == put);
    assert!(rt; map.get(&long) == Some(&5) && map.inner_nodes() == put as usize);
    put
}

/// The same beside a stored key that is longer.
#[test]
fn a_closure_beside_a_longer_key(rt: HostRuntime) {
    let mut map = TreeMap::with_prefix_len(rt.alloc());
    let put = put_beside(&rt, &mut map);
    let len = map.len();
    drop(map);
    assert!(rt; !put || len == 2);
}
