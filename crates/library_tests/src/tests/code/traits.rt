//! Maps and sets by the language's traits.
ghost use Rattle.std.specs.Prelude.{List};

use blart::{Map, Set};
use blart_keys::{U32Key, ZKey};
use std::alloc::AllocError;
use std::iter::{Extend, Iterator};
use std::mem::try_take;
use std::process::Abort;

/// A map and a set, as fields of a struct that is cloned.
#[derive(Clone, Drop)]
struct Names {
    counts: Map<ZKey, u32>,
    known: Set<String>,
}

/// Returns the key of a text.
fn zkey(rt: &(impl Abort + AllocGlobal), text: &str) -> ZKey {
    ZKey::from_bytes(rt.alloc(), text.as_bytes()).expect(rt, "memory")
}

/// Fills the fields, clones the struct and changes the clone.
fn change_a_clone(rt: &(impl Abort + AllocGlobal), names: &mut Names) {
    names.counts.insert(zkey(rt, "car"), 1).expect(rt, "memory");
    let known = String::from_str(rt.alloc(), "car").expect(rt, "memory");
    names.known.try_insert(known).expect(rt, "memory");
    let mut copy = names.clone().expect(rt, "memory");
    let (counts, known) = (copy.counts == names.counts, copy.known == names.known);
    copy.counts.insert(zkey(rt, "card"), 2).expect(rt, "memory");
    let lens = (names.counts.len(), copy.counts.len());
    drop(copy);
    assert!(rt; counts && known);
    assert!(rt; lens == (1, 2));
}

#[test]
fn a_struct_with_maps_is_cloned(rt: HostRuntime) {
    let mut names = Names {
        counts: Map::new(rt.alloc()),
        known: Set::new(rt.alloc()),
    };
    change_a_clone(&rt, &mut names);
    drop(names);
}

/// Moves a map and a set out of their places. What remains is empty.
fn take_both(rt: &impl Abort, map: &mut Map<U32Key, u32>, set: &mut Set<u8>) {
    map.insert(U32Key::new(1), 10).expect(rt, "memory");
    set.insert(3).expect(rt, "memory");
    let taken = try_take(map).expect(rt, "memory");
    let elements = try_take(set).expect(rt, "memory");
    let lens = (taken.len(), elements.len(), map.len(), set.len());
    drop(taken);
    drop(elements);
    assert!(rt; lens == (1, 1, 0, 0));
}

#[test]
fn maps_are_taken(rt: HostRuntime) {
    let (mut map, mut set) = (Map::new(rt.alloc()), Set::new(rt.alloc()));
    take_both(&rt, &mut map, &mut set);
    drop(map);
    drop(set);
}

/// Takes what threads may share and send.
fn is_shared<T: Sync + Send>(_: &T) -> bool {
    true
}

/// Puts two pairs into a map.
fn fill(rt: &impl Abort, map: &mut Map<U32Key, u32>) {
    map.insert(U32Key::new(2), 20).expect(rt, "memory");
    map.insert(U32Key::new(1), 10).expect(rt, "memory");
}

/// Reads a map by two walks in turn.
fn read_twice(rt: &impl Abort, map: &Map<U32Key, u32>) {
    let (mut one, mut other) = (map.iter(), map.iter());
    assert!(rt; one.next() == other.next() && one.next() == other.next());
    assert!(rt; one.next() == other.next() && one.len() == other.len());
}

#[test]
fn maps_are_shared(rt: HostRuntime) {
    let mut map = Map::new(rt.alloc());
    fill(&rt, &mut map);
    let set: Set<u8> = Set::new(rt.alloc());
    let are_shared = is_shared(&map) && is_shared(&set) && is_shared(&map.iter());
    read_twice(&rt, &map);
    drop(map);
    drop(set);
    assert!(&rt; are_shared);
}

/// Adds items to any collection that takes them.
fn add_all<A: Drop, E: Extend<A>>(all: &mut E, items: Vec<A>) -> Result<(), AllocError>
    requires { (xs : List A) → E.can_extend all.old xs }
{
    all.extend(items)
}

/// Adds pairs to a map, first by value and then those of another map.
fn extend_map(rt: &(impl Abort + AllocGlobal), map: &mut Map<u8, u32>, other: &mut Map<u8, u32>) {
    map.insert(1, 10).expect(rt, "memory");
    let pairs = vec![in rt.alloc(); (3u8, 30u32), (1, 11)].expect(rt, "memory");
    add_all(map, pairs).expect(rt, "memory");
    other.insert(2, 20).expect(rt, "memory");
    other.insert(3, 31).expect(rt, "memory");
    Extend::extend(map, &*other).expect(rt, "memory");
    assert!(rt; map.len() == 3 && other.len() == 2);
    assert!(rt; map.values().eq(&[11, 20, 31]));
}

/// Adds elements to a set, first by value and then those of another set.
fn extend_set(rt: &(impl Abort + AllocGlobal), set: &mut Set<u8>, other: &mut Set<u8>) {
    set.insert(1).expect(rt, "memory");
    let elements = vec![in rt.alloc(); 3u8, 1].expect(rt, "memory");
    add_all(set, elements).expect(rt, "memory");
    other.insert(2).expect(rt, "memory");
    Extend::extend(set, &*other).expect(rt, "memory");
    assert!(rt; set.iter().eq(&[1, 2, 3]) && other.len() == 1);
}

#[test]
fn maps_and_sets_are_extended(rt: HostRuntime) {
    let (mut map, mut other) = (Map::new(rt.alloc()), Map::new(rt.alloc()));
    extend_map(&rt, &mut map, &mut other);
    drop(map);
    drop(other);
    let (mut set, mut other) = (Set::new(rt.alloc()), Set::new(rt.alloc()));
    extend_set(&rt, &mut set, &mut other);
    drop(set);
    drop(other);
}

/// Parts numbers into two sets, and pairs of numbers too.
#[test]
fn sets_are_parted(rt: HostRuntime) {
    let parts: Result<(Set<u8>, Set<u8>), AllocError> = (1..7u8).partition(rt.alloc(), |n| *n < 3);
    let (low, high) = parts.expect(&rt, "memory");
    let are_parted = low.iter().eq(&[1, 2]) && high.iter().eq(&[3, 4, 5, 6]);
    drop(low);
    drop(high);
    let both: Result<(Set<u8>, Set<u8>), AllocError> = (1..4u8).zip(4..7u8).unzip(rt.alloc());
    let (firsts, seconds) = both.expect(&rt, "memory");
    let are_unzipped = firsts.iter().eq(&[1, 2, 3]) && seconds.iter().eq(&[4, 5, 6]);
    drop(firsts);
    drop(seconds);
    assert!(rt; are_parted && are_unzipped);
}

/// Sets of numbers under names, and a map in a map.
#[derive(Drop)]
struct Tables {
    sets: Map<ZKey, Set<u8>>,
    maps: Map<u8, Map<u8, u32>>,
}

/// Fills sets and maps that `or_default` makes.
fn fill_tables(rt: &(impl Abort + AllocGlobal), tables: &mut Tables) {
    for (name, number) in [("car", 1u8), ("cat", 2), ("car", 3)] {
        let set = tables.sets.entry(zkey(rt, name)).or_default();
        set.expect(rt, "memory").insert(number).expect(rt, "memory");
        let entry = tables.maps.entry(number).or_default_entry();
        let map = entry.expect(rt, "memory").into_mut();
        map.insert(number, 10).expect(rt, "memory");
    }
    assert!(rt; tables.sets.len() == 2 && tables.sets.values().all(|set| !set.is_empty()));
    assert!(rt; tables.maps.len() == 3 && tables.maps.values().all(|map| map.len() == 1));
    let over = tables
        .sets
        .prefix_entry(zkey(rt, "car"))
        .kind()
        .or_default();
    assert!(rt; over.expect(rt, "memory").iter().eq(&[1, 3]));
}

#[test]
fn sets_and_maps_by_default(rt: HostRuntime) {
    let mut tables = Tables {
        sets: Map::new(rt.alloc()),
        maps: Map::new(rt.alloc()),
    };
    fill_tables(&rt, &mut tables);
    drop(tables);
}
