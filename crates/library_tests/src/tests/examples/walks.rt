//! Walks that yield mutable references, and walks that remove pairs.
use super::{Fail, Map};
use blart_map::PrefixKind;
use std::ops::Bound;
use std::process::Abort;

/// The example of `blart_map::IterMut`.
pub(super) fn iter_mut(rt: &impl Abort, map: &mut Map<'_>) -> Result<(), Fail> {
    map.try_insert("cat", 1)?;
    let mut walk = map.iter_mut();
    assert!(rt; walk.len() == 1);
    if let Some(value) = walk.next_back() {
        *value = 2;
    }
    assert!(rt; map.get(&"cat") == Some(&2));
    Ok(())
}

/// The example of `blart_map::ValuesMut`.
pub(super) fn values_mut(rt: &impl Abort, map: &mut Map<'_>) -> Result<(), Fail> {
    map.try_insert("cat", 1)?;
    let mut walk = map.values_mut();
    if let Some(value) = walk.next() {
        *value = 2;
    }
    assert!(rt; map.get(&"cat") == Some(&2));
    Ok(())
}

/// The example of `blart_map::RangeMut`.
pub(super) fn range_mut(rt: &impl Abort, map: &mut Map<'_>) -> Result<(), Fail> {
    map.try_insert("cat", 1)?;
    let low = "b";
    let mut walk = map.range_mut(Bound::Included(&low), Bound::Unbounded);
    if let Some(value) = walk.next() {
        *value = 2;
    }
    assert!(rt; map.get(&"cat") == Some(&2));
    Ok(())
}

/// The example of `blart_map::SubtreeIterMut`.
pub(super) fn subtree_iter_mut(rt: &impl Abort, map: &mut Map<'_>) -> Result<(), Fail> {
    map.try_insert("cat", 1)?;
    if let PrefixKind::Inner(entry) = map.prefix_entry("ca").kind() {
        let mut walk = entry.iter_mut();
        if let Some(value) = walk.next() {
            *value = 2;
        }
    }
    assert!(rt; map.get(&"cat") == Some(&2));
    Ok(())
}

/// The example of `blart_map::PrefixMut`.
pub(super) fn prefix_mut(rt: &impl Abort, map: &mut Map<'_>) -> Result<(), Fail> {
    map.try_insert("car", 1)?;
    map.try_insert("cat", 2)?;
    let mut walk = map.prefix_mut(b"ca");
    if let Some(value) = walk.next_back() {
        *value = 3;
    }
    assert!(rt; map.get(&"cat") == Some(&3));
    Ok(())
}

/// The example of `blart_map::TakeWalk`.
pub(super) fn take_walk(rt: &impl Abort, map: &mut Map<'_>) -> Result<(), Fail> {
    map.try_insert("cat", 1)?;
    let mut walk = map.take_walk(Bound::<&&str>::Unbounded, Bound::Unbounded);
    if let Some(value) = walk.lend() {
        *value = 2;
    }
    if walk.undecided() {
        assert!(rt; walk.take() == ("cat", 2));
    }
    assert!(rt; map.is_empty());
    Ok(())
}

/// The example of `blart_map::ExtractIf`.
pub(super) fn extract_if(rt: &impl Abort, map: &mut Map<'_>) -> Result<(), Fail> {
    map.try_insert("cat", 0)?;
    let mut walk = map.extract_if(
        Bound::<&&str>::Unbounded,
        Bound::Unbounded,
        |_, value| *value == 0,
    );
    assert!(rt; walk.next() == Some(("cat", 0)));
    assert!(rt; walk.next().is_none());
    drop(walk);
    Ok(())
}
