//! Prefix entries.
use super::{Fail, Map};
use crate::tests::map_of;
use blart_map::{PrefixEntry, PrefixKind, TreeMap};
use std::process::Abort;

/// A map of words.
type Words = TreeMap<&'static str, i32, 16>;

/// The example of `blart_map::InnerOccupiedEntry`.
fn inner_occupied_entry(rt: &impl Abort, mut map: Words) {
    // map is {"car": 1, "cat": 2}
    if let PrefixKind::Inner(entry) = map.prefix_entry("ca").kind() {
        assert!(rt; entry.get().is_none());
        *entry.insert(3) += 1;
    }
    assert!(rt; map.get(&"ca") == Some(&4));
    assert!(rt; map.len() == 1);
    drop(map);
}

/// The example of `blart_map::PrefixEntry`.
pub(super) fn prefix_entry(rt: &impl Abort, map: &mut Map<'_>) -> Result<(), Fail> {
    map.try_insert("car", 1)?;
    map.try_insert("cat", 2)?;
    *map.prefix_entry("ca").kind().or_insert(0)? = 1;
    assert!(rt; map.len() == 1);
    assert!(rt; map.get(&"ca") == Some(&1));
    Ok(())
}

/// The example of `blart_map::PrefixKind`.
pub(super) fn prefix_kind(rt: &impl Abort, map: &mut Map<'_>) -> Result<(), Fail> {
    match map.prefix_entry("cat").kind() {
        PrefixKind::Leaf(entry) => *entry.into_mut() = 1,
        PrefixKind::Inner(entry) => *entry.insert(0) = 2,
        PrefixKind::Vacant(entry) => *entry.insert(0)? = 3,
    }
    assert!(rt; map.get(&"cat") == Some(&3));
    Ok(())
}

/// The example of `blart_map::PrefixOccupied`.
fn prefix_occupied(rt: &impl Abort, mut map: Words) {
    // map is {"car": 1}
    if let PrefixEntry::Occupied(entry) = map.prefix_entry("ca") {
        assert!(rt; entry.get_key() == Some(&"car"));
        *entry.insert(2) = 3;
    }
    assert!(rt; map.get(&"ca") == Some(&3));
    drop(map);
}

/// The example of `blart_map::PrefixKind::or_insert_with_entry`, on an empty map.
fn made_entry(rt: &impl Abort, map: &mut Words) -> Result<(), Fail> {
    map.try_insert("car", 1)?;
    map.try_insert("cat", 2)?;
    let entry = map.prefix_entry("ca").kind().or_insert_with_entry(|| 3)?;
    assert!(rt; entry.remove_entry() == ("ca", 3));
    assert!(rt; map.is_empty());
    Ok(())
}

/// Calls the same method with the key, and with the default of the type: for a key that conflicts,
/// for one that is stored, and for one that is neither.
fn made_entries(rt: &impl Abort, map: &mut Words) -> Result<(), Fail> {
    map.try_insert("car", 1)?;
    map.try_insert("cat", 2)?;
    let of_key = |key: &&str| if *key == "ca" { 2 } else { 0 };
    let over = map
        .prefix_entry("ca")
        .kind()
        .or_insert_with_key_entry(of_key)?;
    assert!(rt; over.key() == &"ca" && over.get() == &2);
    let stored = map.prefix_entry("ca").kind().or_default_entry()?;
    assert!(rt; stored.key() == &"ca" && stored.get() == &2);
    let fresh = map.prefix_entry("dog").kind().or_default_entry()?;
    assert!(rt; fresh.key() == &"dog" && fresh.get() == &0);
    let over = map.prefix_entry("dogs").kind().or_default_entry()?;
    assert!(rt; over.remove_entry() == ("dogs", 0));
    assert!(rt; map.len() == 1);
    Ok(())
}

#[test]
fn as_shown(rt: HostRuntime) {
    inner_occupied_entry(&rt, map_of(&rt, &[("car", 1), ("cat", 2)]));
    prefix_occupied(&rt, map_of(&rt, &[("car", 1)]));
}

#[test]
fn entries_of_kinds(rt: HostRuntime) {
    let mut map = Words::new(rt.alloc());
    let is_made = made_entry(&rt, &mut map).is_ok();
    let are_made = made_entries(&rt, &mut map).is_ok();
    drop(map);
    assert!(rt; is_made && are_made);
}
