//! Keys.
use blart_keys::{
    AsBytes, I32Key, I64Key, Number, NumberKey, U16Key, U32Key, U64Key, U128Key, ZKey, ZKeyError,
    ZQuery, ZStr,
};
use blart_map::TreeMap;
use std::alloc::{AllocError, Global};
use std::cmp::{Ord, Ordering, PartialOrd};
use std::process::Abort;

/// The example of `blart_keys::Number`.
fn number(rt: &impl Abort) {
    assert!(rt; 258u16.to_key_bytes() == [1, 2]);
    assert!(rt; u16::from_key_bytes(&[1, 2]) == 258);
}

/// The example of `blart_keys::NumberKey`.
fn number_key(rt: &impl Abort) {
    let key: U32Key = NumberKey::new(258);
    assert!(rt; key == U32Key::from(258));
    assert!(rt; u32::from(key) == 258);
}

/// The example of `blart_keys::U16Key`.
fn u16_key(rt: &impl Abort) {
    let key = U16Key::new(258);
    assert!(rt; key.as_bytes() == [1, 2].as_slice());
    assert!(rt; U16Key::new(2) < key);
}

/// The example of `blart_keys::U32Key`.
fn u32_key(rt: &impl Abort) {
    let key = U32Key::new(258);
    assert!(rt; key.as_bytes() == [0, 0, 1, 2].as_slice());
    assert!(rt; U32Key::new(2) < key);
}

/// The example of `blart_keys::U64Key`.
fn u64_key(rt: &impl Abort) {
    let key = U64Key::new(258);
    assert!(rt; key.as_bytes() == [0, 0, 0, 0, 0, 0, 1, 2].as_slice());
    assert!(rt; U64Key::new(2) < key);
}

/// The example of `blart_keys::U128Key`.
fn u128_key(rt: &impl Abort) {
    let key = U128Key::new(1 << 64);
    assert!(rt; key.get() == 1 << 64);
    assert!(rt; U128Key::new(258) < key);
}

/// The example of `blart_keys::I32Key`.
fn i32_key(rt: &impl Abort) {
    let key = I32Key::new(-1);
    assert!(rt; key.as_bytes() == [0x7f, 0xff, 0xff, 0xff].as_slice());
    assert!(rt; key < I32Key::new(0));
}

/// The example of `blart_keys::I64Key`.
fn i64_key(rt: &impl Abort) {
    let key = I64Key::new(-1);
    assert!(rt; key.as_bytes()[..2] == [0x7f, 0xff]);
    assert!(rt; key < I64Key::new(0));
}

/// The example of `blart_keys::AsBytes`.
fn as_bytes(rt: &impl Abort) {
    let key = U32Key::new(258);
    assert!(rt; key.as_bytes() == [0, 0, 1, 2].as_slice());
}

/// The example of `blart_keys::OrderedBytes`.
fn ordered_bytes(rt: &impl Abort) {
    let (a, b) = (U32Key::new(1), U32Key::new(256));
    assert!(rt; a.cmp(&b) == Ordering::Less);
    assert!(rt; a.as_bytes().cmp(&b.as_bytes()) == Ordering::Less);
}

/// The example of `blart_keys::ZKey`.
fn zkey(rt: &impl Abort, alloc: Global) -> Result<(), ZKeyError> {
    let key = ZKey::from_bytes(alloc, b"ab")?;
    assert!(rt; key.as_bytes() == b"ab\0".as_slice());
    assert!(rt; key.to_bytes() == b"ab".as_slice());
    Ok(())
}

/// The example of `blart_keys::CloneBytes`.
fn clone_bytes(rt: &impl Abort, alloc: Global) -> Result<(), ZKeyError> {
    let key = ZKey::from_bytes(alloc, b"car")?;
    let copy = key.clone()?;
    assert!(rt; copy.as_bytes() == key.as_bytes());
    Ok(())
}

/// The example of `blart_keys::ZStr`.
fn zstr(rt: &impl Abort) {
    let key = ZStr::new("ab\0");
    assert!(rt; key.as_bytes() == b"ab\0".as_slice());
    assert!(rt; key.to_bytes() == b"ab".as_slice());
}

/// The example of `blart_keys::ZQuery`.
fn zquery(rt: &impl Abort, alloc: Global) -> Result<(), ZKeyError> {
    let mut query = ZQuery::new(alloc);
    query.set(b"ab")?;
    assert!(rt; query.as_bytes() == b"ab\0".as_slice());
    Ok(())
}

/// The example of `blart_keys::ZKeyError`.
fn zkey_error(rt: &impl Abort, alloc: Global) {
    let made = ZKey::from_bytes(alloc, b"a\0");
    assert!(rt; made.err() == Some(ZKeyError::InnerZero));
}

/// The example of `blart_keys::NoPrefixesBytes`.
fn no_prefixes_bytes(
    rt: &impl Abort,
    map: &mut TreeMap<U32Key, i32, 16>,
) -> Result<(), AllocError> {
    map.insert(U32Key::new(1), 1)?;
    map.insert(U32Key::new(2), 2)?;
    assert!(rt; map.len() == 2);
    Ok(())
}

#[test]
fn as_shown(rt: HostRuntime) {
    number(&rt);
    number_key(&rt);
    u16_key(&rt);
    u32_key(&rt);
    u64_key(&rt);
    u128_key(&rt);
    i32_key(&rt);
    i64_key(&rt);
    as_bytes(&rt);
    ordered_bytes(&rt);
    zkey(&rt, rt.alloc()).expect(&rt, "memory");
    clone_bytes(&rt, rt.alloc()).expect(&rt, "memory");
    zstr(&rt);
    zquery(&rt, rt.alloc()).expect(&rt, "memory");
    zkey_error(&rt, rt.alloc());
    let mut map = TreeMap::new(rt.alloc());
    let ran = no_prefixes_bytes(&rt, &mut map);
    drop(map);
    ran.expect(&rt, "memory");
}
