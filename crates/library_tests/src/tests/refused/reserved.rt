//! Room that is reserved, or refused. Insertions into reserved room are not refused.
use super::{key_of, say_refused};
use blart_map::TreeMap;
use blart_set::TreeSet;
use std::process::Abort;

type Map = TreeMap<[u8; 2], usize, 2>;

/// The insertions: whether by `try_insert`, the place of the key, and the room that is left after
/// it.
const CALLS: [(bool, usize, usize); 7] = [
    (false, 0, 4),
    (true, 1, 3),
    (false, 2, 2),
    (false, 3, 1),
    (false, 0, 1),
    (true, 0, 1),
    (true, 4, 0),
];

/// Inserts five pairs beside the stored one, if there is room for them. An insertion that adds no
/// pair leaves the room unchanged, and returns the value of the first.
fn fill(rt: &(impl Abort + Print), map: &mut Map) -> usize {
    let Ok(mut room) = map.reserve(5) else {
        say_refused(rt);
        return 0;
    };
    let mut is_well = true;
    for (is_tried, place, left) in CALLS {
        let key = key_of(place);
        let old = if room.left() == left { Some(0) } else { None };
        assert!(rt; room.left() > 0);
        let got = if is_tried {
            room.try_insert(key, place)
        } else {
            Ok(room.insert(key, place))
        };
        is_well = is_well && got == Ok(old) && room.left() == left;
    }
    drop(room);
    assert!(rt; is_well);
    5
}

/// Fills a map that has a pair, which is unchanged.
fn fill_beside(rt: &(impl Abort + Print), map: &mut Map) {
    if map.insert([4, 4], 7).is_err() {
        say_refused(rt);
        return;
    }
    let count = fill(rt, map);
    assert!(rt; map.len() == count.wrapping_add(1));
    assert!(rt; matches!(map.get(&[4u8, 4]), Some(7)));
}

#[test]
fn a_map_with_room_refuses_nothing(rt: HostRuntime) {
    let mut map = Map::with_prefix_len(rt.alloc());
    fill_beside(&rt, &mut map);
    drop(map);
}

/// Inserts two elements, if there is room for them. An insertion that adds none leaves the room
/// unchanged.
fn fill_set(rt: &(impl Abort + Print), set: &mut TreeSet<u8, 2>) -> usize {
    let Ok(mut room) = set.reserve(2) else {
        say_refused(rt);
        return 0;
    };
    let (is_new, is_new_again) = (room.insert(3), room.insert(3));
    let is_stored = matches!(room.try_insert(3), Ok(false));
    let is_other_new = room.insert(1);
    let left = room.left();
    drop(room);
    assert!(rt; is_new && !is_new_again && is_stored);
    assert!(rt; is_other_new && left == 0);
    2
}

#[test]
fn a_set_with_room_refuses_nothing(rt: HostRuntime) {
    let mut set = TreeSet::with_prefix_len(rt.alloc());
    let count = fill_set(&rt, &mut set);
    let len = set.len();
    drop(set);
    assert!(rt; len == count);
}
