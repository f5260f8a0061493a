//! Walks that are opened with a count of visits, which only proofs read.
use crate::tests::map_of;
use blart_map::{LeafId, TreeMap, Visits};
use std::iter::Iterator;
use std::ops::Bound;

type Map = TreeMap<u8, usize, 2>;

/// Returns the value of the first pair after the key 3.
fn after_three(map: &Map) -> Option<usize> {
    let mut visits = Visits::new();
    let mut cursor = map.cursor_counted(Bound::Excluded(&3u8), Bound::Unbounded, &mut visits);
    let id = map.step(&mut cursor, &mut visits)?;
    Some(*map.leaf(id).1)
}

/// Writes the value of the last key up to 5, and the value of the key 8.
fn write_two(map: &mut Map) {
    let mut visits = Visits::new();
    let mut walk = map.range_mut_counted(Bound::Unbounded, Bound::Included(&5u8), &mut visits);
    if let Some(value) = walk.next_back() {
        *value = 51;
    }
    let mut walk = map.prefix_mut_counted(&[8], &mut visits);
    if let Some(value) = walk.next() {
        *value = 81;
    }
}

/// Writes the value of the first pair, and takes the pair.
fn take_first(map: &mut Map) -> Option<(u8, usize)> {
    let mut visits = Visits::new();
    let mut walk = map.take_walk_counted(Bound::<&u8>::Unbounded, Bound::Unbounded, &mut visits);
    if let Some(value) = walk.lend() {
        *value = 31;
    }
    if walk.undecided() {
        return Some(walk.take());
    }
    None
}

/// Takes the first pair with a value above 60. The proof has to be told the type `LeafId`.
fn take_large(map: &mut Map) -> Option<(u8, usize)> {
    let _id: Option<LeafId> = None;
    let mut visits = Visits::new();
    let mut walk = map.extract_if_counted(
        Bound::<&u8>::Unbounded,
        Bound::Unbounded,
        |_, value| *value > 60,
        &mut visits,
    );
    walk.next()
}

/// A cursor, and walks that write, remove and extract.
#[test]
fn walks_opened_under_a_count(rt: HostRuntime) {
    let mut map = map_of::<u8, usize, 2>(&rt, &[(5, 50), (3, 30), (8, 80)]);
    let after = after_three(&map);
    write_two(&mut map);
    let written = (map.get(&5u8).copied(), map.get(&8u8).copied());
    let first = take_first(&mut map);
    let large = take_large(&mut map);
    let len = map.len();
    drop(map);
    assert!(rt; after == Some(50) && written == (Some(51), Some(81)));
    assert!(rt; first == Some((3, 31)) && large == Some((8, 81)) && len == 1);
}
