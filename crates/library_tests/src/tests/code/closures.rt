//! Closures that count and write, and mutable references to values.
use super::assert_values;
use crate::tests::{map_of, put};
use blart_keys::I32Key;
use blart_map::TreeMap;
use std::iter::{DoubleEndedIterator, Iterator};
use std::ops::Bound;
use std::process::Abort;

/// Removes the even values, and doubles the others. Returns the values that were removed, as digits
/// after a 1.
fn extract_doubling<const P: usize>(map: &mut TreeMap<I32Key, usize, P>) -> usize {
    let walk = map.extract_if(Bound::<&I32Key>::Unbounded, Bound::Unbounded, |_, value| {
        let is_picked = *value % 2 == 0;
        if !is_picked {
            *value = value.wrapping_mul(2);
        }
        is_picked
    });
    let mut digits = 1usize;
    for (_, value) in walk {
        digits = digits.wrapping_mul(10).wrapping_add(value);
    }
    digits
}

/// Checks the map of the numbers below 10, each with itself as value.
fn doubles<const P: usize>(rt: &(impl Abort + AllocGlobal)) {
    let mut map: TreeMap<I32Key, usize, P> = TreeMap::with_prefix_len(rt.alloc());
    for key in 0..10u8 {
        put(rt, &mut map, I32Key::new(i32::from(key)), usize::from(key));
    }
    assert!(rt; extract_doubling(&mut map) == 102468);
    assert_values(rt, &map, &[2, 6, 10, 14, 18]);
    let (one, three, five) = (I32Key::new(1), I32Key::new(3), I32Key::new(5));
    assert!(rt;
        map.keys()
            .eq(&[one, three, five, I32Key::new(7), I32Key::new(9)])
    );
    drop(map);
}

/// Of ten values the even ones are removed and the others are doubled.
#[test]
fn values_are_written_and_picked(rt: HostRuntime) {
    doubles::<0>(&rt);
    doubles::<1>(&rt);
    doubles::<2>(&rt);
    doubles::<8>(&rt);
    doubles::<16>(&rt);
    doubles::<64>(&rt);
}

/// Removes a pair from each end with a closure that adds 1 to the value and to a counter of its
/// own, and picks the pair if the counter is even. Returns the two pairs and the counter.
fn extract_by_counter<const P: usize>(
    map: &mut TreeMap<u8, usize, P>,
) -> (Option<(u8, usize)>, Option<(u8, usize)>, usize) {
    let mut counter = 0usize;
    let mut walk = map.extract_if(Bound::<&u8>::Unbounded, Bound::Unbounded, |_, value| {
        *value = value.wrapping_add(1);
        counter = counter.wrapping_add(1);
        counter % 2 == 0
    });
    let first = walk.next();
    let last = walk.next_back();
    drop(walk);
    (first, last, counter)
}

/// Checks the map of the keys 1 to 6, all with the value 0.
fn counts<const P: usize>(rt: &(impl Abort + AllocGlobal)) {
    let mut map: TreeMap<u8, usize, P> = TreeMap::with_prefix_len(rt.alloc());
    for key in 1..7u8 {
        put(rt, &mut map, key, 0);
    }
    let (first, last, counter) = extract_by_counter(&mut map);
    assert!(rt; first == Some((2, 1)) && last == Some((5, 1)) && counter == 4);
    assert_values(rt, &map, &[1, 0, 0, 1]);
    assert!(rt; map.keys().eq(&[1, 3, 4, 6]));
    drop(map);
}

/// After a step from each end, a closure that picks by a counter of its own was called four times.
#[test]
fn a_closure_picks_by_its_own_counter(rt: HostRuntime) {
    counts::<0>(&rt);
    counts::<1>(&rt);
    counts::<2>(&rt);
    counts::<8>(&rt);
    counts::<16>(&rt);
    counts::<64>(&rt);
}

/// A map of bytes.
type Letters = TreeMap<u8, usize, 2>;

/// Adds the key to its value.
fn add_key(key: &u8, value: &mut usize) {
    *value = value.wrapping_add(usize::from(*key));
}

/// Adds each key to its value, and the keys that start with 20 once more.
fn call_on_each(rt: &impl Abort, map: &mut Letters) {
    map.iter_mut().for_each(add_key);
    assert_values(rt, map, &[10, 21, 32, 43, 54]);
    map.prefix_mut(&[20]).for_each(add_key);
    assert_values(rt, map, &[10, 41, 32, 43, 54]);
}

/// Numbers the values front to back, but for one at each end, which the walk has yielded before.
fn count_the_rest(map: &mut Letters) {
    let mut walk = map.values_mut();
    let _ = walk.next();
    let _ = walk.next_back();
    let mut count = 0;
    walk.for_each(|value| {
        *value = count;
        count = count.wrapping_add(1);
    });
}

/// The closure is called once on each value, in order: of all pairs, below a prefix, and after
/// steps from both ends.
#[test]
fn for_each_in_order(rt: HostRuntime) {
    let mut map: Letters = map_of(&rt, &[(10, 0), (20, 1), (30, 2), (40, 3), (50, 4)]);
    call_on_each(&rt, &mut map);
    count_the_rest(&mut map);
    assert_values(&rt, &map, &[10, 0, 1, 2, 54]);
    drop(map);
}
