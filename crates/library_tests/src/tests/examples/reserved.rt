//! A map and a set with reserved room.
use blart_map::TreeMap;
use blart_set::TreeSet;
use std::alloc::AllocError;
use std::process::Abort;

/// The example of `blart_map::Reserved`.
fn of_map(rt: &impl Abort, map: &mut TreeMap<u8, i32, 16>) -> Result<(), AllocError> {
    let mut room = map.reserve(2)?;
    assert!(rt; room.insert(7, 1) == None);
    assert!(rt; room.insert(7, 2) == Some(1));
    assert!(rt; room.left() == 1);
    drop(room);
    assert!(rt; map.get(&7u8) == Some(&2));
    Ok(())
}

/// The example of `blart_set::Reserved`.
fn of_set(rt: &impl Abort, set: &mut TreeSet<u8, 16>) -> Result<(), AllocError> {
    let mut room = set.reserve(2)?;
    assert!(rt; room.insert(7));
    assert!(rt; !room.insert(7));
    assert!(rt; room.left() == 1);
    drop(room);
    assert!(rt; set.contains(&7u8));
    Ok(())
}

#[test]
fn as_shown(rt: HostRuntime) {
    let mut map = TreeMap::new(rt.alloc());
    let of_map = of_map(&rt, &mut map);
    drop(map);
    let mut set = TreeSet::new(rt.alloc());
    let of_set = of_set(&rt, &mut set);
    drop(set);
    assert!(rt; of_map.is_ok() && of_set.is_ok());
}
