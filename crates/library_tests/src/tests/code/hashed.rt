//! Tests of what a hasher is fed.
use crate::tests::map_of;
use blart_set::TreeSet;
use std::hash::{DefaultHasher, Hash, Hasher};

/// Returns the hash of a map or a set.
fn digest_of<T: Hash>(value: &T) -> u64 {
    let mut state = DefaultHasher::new();
    value.hash(&mut state);
    state.finish()
}

/// The hasher is fed the length, then each key and its value, or each element of a set. If there
/// are no pairs, it is fed the length alone.
#[test]
fn maps_and_sets(rt: HostRuntime) {
    let mut map = map_of::<u8, usize, 2>(&rt, &[(3, 0), (1, 1), (2, 2)]);
    let of_map = digest_of(&map);
    map.clear();
    let of_none = digest_of(&map);
    drop(map);
    let set = TreeSet::<u8, 2>::from_array(rt.alloc(), [3, 1, 2]).expect(&rt, "memory");
    let of_set = digest_of(&set);
    drop(set);
    assert!(rt; of_map == digest_of(&(3usize, (1u8, 1usize), (2u8, 2usize), (3u8, 0usize))));
    assert!(rt; of_none == digest_of(&0usize) && of_set == digest_of(&(3usize, 1u8, 2u8, 3u8)));
}
