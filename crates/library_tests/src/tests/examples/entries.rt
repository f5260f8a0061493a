//! Entries of a map.
use super::{Fail, Map};
use blart_map::Entry;
use std::process::Abort;

/// The example of `blart_map::Entry`.
pub(super) fn entry(rt: &impl Abort, map: &mut Map<'_>) -> Result<(), Fail> {
    *map.try_entry("cat")?.or_insert(1)? = 2;
    let entry = map.try_entry("cat")?.and_modify(|value| *value = 3);
    assert!(rt; *entry.or_insert(0)? == 3);
    Ok(())
}

/// The example of `blart_map::OccupiedEntry`.
pub(super) fn occupied_entry(rt: &impl Abort, map: &mut Map<'_>) -> Result<(), Fail> {
    map.try_insert("cat", 1)?;
    if let Entry::Occupied(mut entry) = map.try_entry("cat")? {
        assert!(rt; entry.insert(2) == 1);
        assert!(rt; entry.remove_entry() == ("cat", 2));
    }
    assert!(rt; map.is_empty());
    Ok(())
}

/// The example of `blart_map::VacantEntry`.
pub(super) fn vacant_entry(rt: &impl Abort, map: &mut Map<'_>) -> Result<(), Fail> {
    if let Entry::Vacant(entry) = map.try_entry("cat")? {
        *entry.insert(1)? = 2;
    }
    assert!(rt; map.get(&"cat") == Some(&2));
    Ok(())
}
