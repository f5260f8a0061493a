//! The code of the README.
use super::{Fail, Map};
use blart::zkey;
use blart_keys::ZKey;
use blart_map::TreeMap;
use prefix_router::{Mounts, Routes};
use std::alloc::Global;
use std::iter::Iterator;
use std::process::Abort;

/// The example of `blart_map::TreeMap`.
///
/// The README shows it with the last line of this function in the place of the line before.
pub(super) fn tree_map(rt: &impl Abort, alloc: Global) -> Result<(), Fail> {
    let mut map = TreeMap::new(alloc);
    let ran = insert_and_look_up(rt, &mut map);
    drop(map);
    ran
}

/// The calls of the example.
fn insert_and_look_up(rt: &impl Abort, map: &mut Map<'_>) -> Result<(), Fail> {
    map.try_insert("car", 1)?;
    map.try_insert("cat", 2)?;
    assert!(rt; map.get(&"cat") == Some(&2));
    assert!(rt; map.try_insert("ca", 3).is_err());
    assert!(rt; map.first_key_value() == Some((&"car", &1)));
    assert!(rt; map.prefix(b"ca").next() == Some((&"car", &1)));
    Ok(())
}

/// The example of `README::words`.
pub(super) fn words(rt: &impl Abort, alloc: Global) -> Result<(), Fail> {
    let mut words = blart::Map::new(alloc);
    let ran = count_words(rt, alloc, &mut words);
    drop(words);
    ran
}

/// The calls of the example.
fn count_words(
    rt: &impl Abort,
    alloc: Global,
    words: &mut blart::Map<ZKey, u32>,
) -> Result<(), Fail> {
    for word in ["car", "card", "cat", "car"] {
        let count = words
            .entry(ZKey::from_bytes(alloc, word.as_bytes())?)
            .or_default()?;
        *count = count.saturating_add(1);
    }
    assert!(rt; words.get(&zkey!("car")) == Some(&2));
    assert!(rt; words.prefix(b"car").count() == 2);
    Ok(())
}

/// The example of `README::fronts`.
pub(super) fn fronts(rt: &impl Abort, map: &mut Map<'_>) -> Result<(), Fail> {
    map.try_insert("/static/", 7)?;
    assert!(rt; map.prefix_get(&"/static/logo.png") == Some(&7));
    assert!(rt; map.prefix_get(&"/stat") == None);
    Ok(())
}

/// The example of `README::nested`.
pub(super) fn nested(rt: &impl Abort, alloc: Global) -> Result<(), Fail> {
    let mut routes = Routes::new(alloc);
    let ran = nest_and_resolve(rt, alloc, &mut routes);
    drop(routes);
    ran
}

/// The calls of the example.
fn nest_and_resolve(
    rt: &impl Abort,
    alloc: Global,
    routes: &mut Routes<usize>,
) -> Result<(), Fail> {
    routes.mount(Vec::from_slice(alloc, b"/")?, 1)?;
    routes.mount(Vec::from_slice(alloc, b"/api")?, 2)?;
    let target = routes.resolve(b"/api/v1/users").map(|(_, target)| *target);
    assert!(rt; target == Some(2));
    let target = routes.resolve(b"/about").map(|(_, target)| *target);
    assert!(rt; target == Some(1));
    Ok(())
}

/// The example of `README::router`.
pub(super) fn router(rt: &impl Abort, alloc: Global) -> Result<(), Fail> {
    let mut mounts = Mounts::new(alloc);
    let ran = mount_and_resolve(rt, alloc, &mut mounts);
    drop(mounts);
    ran
}

/// The calls of the example.
fn mount_and_resolve(
    rt: &impl Abort,
    alloc: Global,
    mounts: &mut Mounts<usize>,
) -> Result<(), Fail> {
    mounts.mount(Vec::from_slice(alloc, b"/api")?, 1)?;
    mounts.mount(Vec::from_slice(alloc, b"/app")?, 2)?;
    assert!(rt;
        mounts
            .mount(Vec::from_slice(alloc, b"/api/v1")?, 3)
            .is_err()
    );
    let target = mounts.resolve(b"/api/v1/users").map(|(_, target)| *target);
    assert!(rt; target == Some(1));
    Ok(())
}
