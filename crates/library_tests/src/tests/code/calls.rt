//! Calls of maps that no line of a script makes.
use crate::tests::map_of;
use blart::{key_text_law, number_text_law};
use blart_map::{IntoIter, TreeMap};
use blart_set::TreeSet;
use std::alloc::AllocError;
use std::iter::{IntoIterator, Iterator};
use std::process::Abort;

/// Returns the digits of the values, in the order in which a loop yields the pairs.
fn digits_of(walk: IntoIter<u8, usize, 2>) -> usize {
    let mut digits = 0usize;
    for (_, value) in walk {
        digits = digits.wrapping_mul(10).wrapping_add(value);
    }
    digits
}

/// A map in a `for` loop, by shared reference and by value.
#[test]
fn maps_in_loops(rt: HostRuntime) {
    let map = map_of::<u8, usize, 2>(&rt, &[(5, 0), (3, 1), (8, 2)]);
    let mut digits = 0usize;
    for (_, value) in &map {
        digits = digits.wrapping_mul(10).wrapping_add(*value);
    }
    let digits_then = digits_of(map.into_iter());
    assert!(rt; digits == 102 && digits_then == 102);
}

/// `collect` makes a map of pairs, and a set of keys.
#[test]
fn maps_and_sets_collected(rt: HostRuntime) {
    let map = map_of::<u8, usize, 2>(&rt, &[(5, 0), (3, 1)]);
    let made: Result<TreeMap<u8, usize, 2>, AllocError> = map.into_iter().collect(rt.alloc());
    let map = made.expect(&rt, "memory");
    let is_map = map.len() == 2 && map.get(&3) == Some(&1);
    let made: Result<TreeSet<u8, 2>, AllocError> = map.into_keys().collect(rt.alloc());
    let set = made.expect(&rt, "memory");
    let is_set = set.len() == 2 && set.contains(&5);
    drop(set);
    assert!(rt; is_map && is_set);
}

/// Places a pair by an entry and takes it back.
fn place_only_key<const P: usize>(rt: &(impl Abort + AllocGlobal)) {
    let mut map = TreeMap::<[u8; 0], usize, P>::with_prefix_len(rt.alloc());
    let entry = map.entry([]).insert_entry(0).expect(rt, "memory");
    let removed = entry.remove();
    let is_empty = map.is_empty();
    drop(map);
    assert!(rt; removed == 0 && is_empty);
}

/// The entry of the only key of `[u8; 0]` is inserted and removed.
#[test]
fn the_only_key_of_its_type(rt: HostRuntime) {
    place_only_key::<0>(&rt);
    place_only_key::<1>(&rt);
    place_only_key::<2>(&rt);
    place_only_key::<8>(&rt);
    place_only_key::<16>(&rt);
    place_only_key::<64>(&rt);
}

/// Calls the laws, which do nothing.
#[test]
fn laws(rt: HostRuntime) {
    let map = map_of::<u8, usize, 2>(&rt, &[(5, 0), (3, 1)]);
    map.put_law();
    map.over_law();
    map.parts_law();
    let len = map.len();
    drop(map);
    let low = TreeSet::from_array(rt.alloc(), [1u8, 2]).expect(&rt, "memory");
    let high = TreeSet::<u8, 16>::from_array(rt.alloc(), [2u8, 3]).expect(&rt, "memory");
    low.union_law(&high);
    low.symmetric_difference_law(&high);
    let elements = (low.len(), high.len());
    drop(low);
    drop(high);
    key_text_law(&[1, 255]);
    number_text_law(256);
    assert!(rt; len == 2 && elements == (2, 2));
}
