//! Tests of what is dropped when a request is refused: each value once.
use super::say_refused;
use blart_map::TreeMap;
use std::cell::Cell;
use std::iter::{DoubleEndedIterator, IntoIterator, Iterator};
use std::process::Abort;

/// A value that counts each drop.
struct Counted<'a> {
    drops: &'a Cell<usize>,
}

impl Drop for Counted<'_> {
    fn drop(self) {
        let Counted { drops } = self;
        drops.set(drops.get().wrapping_add(1));
    }
}

type Values<'a> = TreeMap<[u8; 2], Counted<'a>, 2>;

const KEYS: [[u8; 2]; 3] = [[2, 1], [1, 7], [2, 2]];

/// The call that inserts a value.
#[derive(Clone, Copy)]
enum Way {
    Insert,
    TryInsert,
    ReplaceEntry,
    PrefixInsert,
    OrInsert,
    PrefixOrInsert,
}

const WAYS: [Way; 6] = [
    Way::Insert,
    Way::TryInsert,
    Way::ReplaceEntry,
    Way::PrefixInsert,
    Way::OrInsert,
    Way::PrefixOrInsert,
];

/// Inserts a value for a new key. Returns whether there was memory.
fn puts<'a>(map: &mut Values<'a>, way: Way, key: [u8; 2], drops: &'a Cell<usize>) -> bool {
    let value = Counted { drops };
    match way {
        Way::Insert => map.insert(key, value).is_ok(),
        Way::TryInsert => map.try_insert(key, value).is_ok(),
        Way::ReplaceEntry => map.replace_entry(key, value).is_ok(),
        Way::PrefixInsert => map.prefix_insert(key, value).is_ok(),
        Way::OrInsert => map.entry(key).or_insert(value).is_ok(),
        Way::PrefixOrInsert => map.prefix_entry(key).or_insert(value).is_ok(),
    }
}

/// A refused value is dropped by the call. A stored one is dropped with its map.
#[test]
fn values(rt: HostRuntime) {
    for way in WAYS {
        let drops = Cell::new(0usize);
        let mut map = Values::with_prefix_len(rt.alloc());
        let put = puts(&mut map, way, [1, 7], &drops);
        let before = drops.get();
        drop(map);
        if !put {
            say_refused(&rt);
        }
        assert!(rt; before == !put as usize && drops.get() == 1);
    }
}

/// Returns a map of three values. A refused value is inserted again.
fn three_values<'a>(rt: &(impl Abort + AllocGlobal + Print), drops: &'a Cell<usize>) -> Values<'a> {
    let mut map = Values::with_prefix_len(rt.alloc());
    for key in KEYS {
        if !puts(&mut map, Way::Insert, key, drops) {
            say_refused(rt);
            // Refusals pause.
            assert!(rt; puts(&mut map, Way::Insert, key, drops));
            // Refusals resume.
        }
    }
    map
}

/// A refused `split_off` or `append` drops nothing.
#[test]
fn parts(rt: HostRuntime) {
    let drops = Cell::new(0usize);
    let mut map = three_values(&rt, &drops);
    let before = drops.get();
    let after = match map.split_off(&[2u8, 1]) {
        Ok(mut rest) => {
            if map.append(&mut rest).is_err() {
                say_refused(&rt);
            }
            let after = drops.get();
            drop(rest);
            after
        }
        Err(_) => {
            say_refused(&rt);
            drops.get()
        }
    };
    drop(map);
    assert!(rt; after == before && drops.get() == before.wrapping_add(3));
}

/// Each value that a refused `extend` or `from_iter` got is dropped once in all.
#[test]
fn given(rt: HostRuntime) {
    let drops = Cell::new(0usize);
    let given = three_values(&rt, &drops);
    let before = drops.get();
    let mut map = Values::with_prefix_len(rt.alloc());
    if map.extend(given.into_iter()).is_err() {
        say_refused(&rt);
    }
    let dropped = drops.get().wrapping_sub(before);
    let held = map.len();
    let made: Result<Values<'_>, _> = TreeMap::from_iter(rt.alloc(), map.into_iter());
    if made.is_err() {
        say_refused(&rt);
    }
    drop(made);
    assert!(rt; dropped.wrapping_add(held) == 3);
    assert!(rt; drops.get() == before.wrapping_add(3));
}
