//! Closures that are passed to `retain_by`.
use super::Fail;
use blart_map::TreeMap;
use blart_set::TreeSet;
use std::process::Abort;

/// The example of `blart_map::TreeMap::retain_by`, on an empty map.
fn of_map(rt: &impl Abort, map: &mut TreeMap<&'static str, i32, 16>) -> Result<(), Fail> {
    map.try_insert("cat", 1)?;
    map.try_insert("dog", 2)?;
    let mut last = 0;
    map.retain_by(&mut |_, value| {
        last = *value;
        *value > 1
    });
    assert!(rt; last == 2);
    assert!(rt; map.first_key_value() == Some((&"dog", &2)));
    assert!(rt; map.len() == 1);
    Ok(())
}

/// The example of `blart_set::TreeSet::retain_by`, on an empty set.
fn of_set(rt: &impl Abort, set: &mut TreeSet<&'static str, 16>) -> Result<(), Fail> {
    set.try_insert("cat")?;
    set.try_insert("dog")?;
    let mut was_last = false;
    set.retain_by(&mut |element| {
        was_last = *element == "dog";
        was_last
    });
    assert!(rt; was_last);
    assert!(rt; set.len() == 1);
    Ok(())
}

#[test]
fn as_shown(rt: HostRuntime) {
    let mut map = TreeMap::new(rt.alloc());
    let of_map = of_map(&rt, &mut map);
    drop(map);
    let mut set = TreeSet::new(rt.alloc());
    let of_set = of_set(&rt, &mut set);
    drop(set);
    assert!(rt; of_map.is_ok() && of_set.is_ok());
}
