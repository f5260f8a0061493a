//! Sets, and walks over one.
use super::set_of;
use blart_map::TryInsertError;
use blart_set::TreeSet;
use std::iter::{DoubleEndedIterator, IntoIterator, Iterator};
use std::ops::Bound;
use std::process::Abort;

/// The example of `blart_set::TreeSet`.
fn tree_set(rt: &impl Abort, set: &mut TreeSet<&str, 16>) -> Result<(), TryInsertError> {
    assert!(rt; set.try_insert("cat")?);
    assert!(rt; set.try_insert("car")?);
    assert!(rt; !set.try_insert("cat")?);
    assert!(rt; set.try_insert("ca").is_err());
    assert!(rt; set.first() == Some(&"car"));
    Ok(())
}

/// The example of `blart_set::Iter`.
fn iter(rt: &impl Abort, set: &TreeSet<u8, 16>) {
    // set is {1, 2}
    let mut elements = set.iter();
    assert!(rt; elements.len() == 2);
    assert!(rt; elements.next_back() == Some(&2));
    drop(elements);
}

/// The example of `blart_set::Range`.
fn range(rt: &impl Abort, set: &TreeSet<u8, 16>) {
    // set is {1, 2, 3}
    let mut elements = set.range(Bound::Included(&2u8), Bound::Unbounded);
    assert!(rt; elements.next() == Some(&2));
    assert!(rt; elements.next_back() == Some(&3));
    assert!(rt; elements.next() == None);
    drop(elements);
}

/// The example of `blart_set::Prefix`.
fn prefix(rt: &impl Abort, set: &TreeSet<[u8; 2], 16>) {
    // set is {[1, 2], [3, 4]}
    let mut elements = set.prefix(&[3]);
    assert!(rt; elements.next() == Some(&[3, 4]));
    assert!(rt; elements.next() == None);
    drop(elements);
}

/// The example of `blart_set::IntoIter`.
fn into_iter(rt: &impl Abort, set: TreeSet<u8, 16>) {
    // set is {1, 2}
    let mut elements = set.into_iter();
    assert!(rt; elements.next() == Some(1));
    assert!(rt; elements.len() == 1);
    drop(elements);
}

/// The example of `blart_set::ExtractIf`.
fn extract_if(rt: &impl Abort, set: &mut TreeSet<u8, 16>) {
    // set is {1, 2, 3, 4}
    let mut walk = set.extract_if(Bound::<&u8>::Unbounded, Bound::Unbounded, |x| *x % 2 == 0);
    assert!(rt; walk.next_back() == Some(4));
    assert!(rt; walk.next() == Some(2));
    // dropped here, it leaves {1, 3}
    drop(walk);
}

#[test]
fn as_shown(rt: HostRuntime) {
    let mut set = TreeSet::new(rt.alloc());
    let ran = tree_set(&rt, &mut set);
    drop(set);
    ran.expect(&rt, "memory");
    let set = set_of(&rt, [1u8, 2]);
    iter(&rt, &set);
    into_iter(&rt, set);
    let set = set_of(&rt, [1u8, 2, 3]);
    range(&rt, &set);
    drop(set);
    let set = set_of(&rt, [[1u8, 2], [3, 4]]);
    prefix(&rt, &set);
    drop(set);
    let mut set = set_of(&rt, [1u8, 2, 3, 4]);
    extract_if(&rt, &mut set);
    drop(set);
}
