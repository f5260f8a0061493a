//! Keys that are texts.
use super::assert_values;
use crate::tests::put;
use blart_keys::ZKey;
use blart_map::TreeMap;
use std::iter::Iterator;
use std::ops::Bound;
use std::process::Abort;

/// Titles of films, and remarks about them.
const FILMS: [(&str, &str); 4] = [
    ("Office Space", "a stapler is missed"),
    ("Pulp Fiction", "told out of order"),
    ("The Godfather", "an offer is made"),
    ("The Blues Brothers", "many cars are lost"),
];

fn watch<const P: usize>(rt: &impl Abort, films: &mut TreeMap<&str, &str, P>) {
    for (title, review) in FILMS {
        put(rt, films, title, review);
    }
    assert!(rt; !films.contains_key(&"Les Misérables") && films.len() == 4);
    assert!(rt; films.remove(&"The Blues Brothers").is_some());
    assert!(rt; films.get(&"Up!").is_none());
    assert!(rt; films.get(&"Office Space") == Some(&"a stapler is missed"));
    if films.contains_key(&"Office Space") {
        assert!(rt; films[&"Office Space"] == "a stapler is missed");
    }
    let left = ["Office Space", "Pulp Fiction", "The Godfather"];
    assert!(rt; films.keys().eq(&left));
}

/// Adds 100 to the values from B to Cheryl, and then doubles the values of the names that start
/// with C.
fn raise<const P: usize>(rt: &impl Abort, names: &mut TreeMap<&str, usize, P>) {
    for name in ["Alice", "Bob", "Carol", "Cheryl"] {
        put(rt, names, name, 0);
    }
    let (low, high) = ("B", "Cheryl");
    names
        .range_mut(Bound::Included(&low), Bound::Included(&high))
        .for_each(|_, value| *value = value.wrapping_add(100));
    names
        .prefix_mut(b"C")
        .for_each(|_, value| *value = value.wrapping_mul(2));
    assert_values(rt, names, &[0, 100, 200, 200]);
}

fn references<const P: usize>(rt: &(impl Abort + AllocGlobal)) {
    let mut films = TreeMap::with_prefix_len(rt.alloc());
    watch::<P>(rt, &mut films);
    drop(films);
    let mut names = TreeMap::with_prefix_len(rt.alloc());
    raise::<P>(rt, &mut names);
    drop(names);
}

/// Films by their titles, and names whose values are written in a walk.
#[test]
fn references_to_texts(rt: HostRuntime) {
    references::<0>(&rt);
    references::<1>(&rt);
    references::<2>(&rt);
    references::<8>(&rt);
    references::<16>(&rt);
    references::<64>(&rt);
}

/// Places the length of a text as its value.
fn place_length<const P: usize>(rt: &(impl Abort + AllocGlobal)) {
    let mut map: TreeMap<ZKey, usize, P> = TreeMap::with_prefix_len(rt.alloc());
    let key = ZKey::from_bytes(rt.alloc(), b"f").expect(rt, "memory");
    let placed = match map
        .entry(key)
        .or_insert_with_key(|key| key.to_bytes().len())
    {
        Ok(value) => *value,
        Err(_) => 0,
    };
    let len = map.len();
    drop(map);
    assert!(rt; placed == 1 && len == 1);
}

/// Places the length of a text as its value by a prefix entry, and returns the value.
fn enter<const P: usize>(
    rt: &(impl Abort + AllocGlobal),
    map: &mut TreeMap<ZKey, usize, P>,
) -> usize {
    let key = ZKey::from_bytes(rt.alloc(), b"f").expect(rt, "memory");
    match map
        .prefix_entry(key)
        .or_insert_with_key(|key| key.to_bytes().len())
    {
        Ok(value) => *value,
        Err(_) => 0,
    }
}

/// Places the length of a text in a map with no pairs.
fn place_by_prefix_entry<const P: usize>(rt: &(impl Abort + AllocGlobal)) {
    let mut map = TreeMap::with_prefix_len(rt.alloc());
    let placed = enter::<P>(rt, &mut map);
    let len = map.len();
    drop(map);
    assert!(rt; placed == 1 && len == 1);
}

/// The closure of `or_insert_with_key` gets the key.
#[test]
fn length_of_a_text(rt: HostRuntime) {
    place_length::<0>(&rt);
    place_length::<1>(&rt);
    place_length::<2>(&rt);
    place_length::<8>(&rt);
    place_length::<16>(&rt);
    place_length::<64>(&rt);
}

/// The same of a prefix entry.
#[test]
fn length_of_a_text_by_prefix_entry(rt: HostRuntime) {
    place_by_prefix_entry::<0>(&rt);
    place_by_prefix_entry::<1>(&rt);
    place_by_prefix_entry::<2>(&rt);
    place_by_prefix_entry::<8>(&rt);
    place_by_prefix_entry::<16>(&rt);
    place_by_prefix_entry::<64>(&rt);
}
