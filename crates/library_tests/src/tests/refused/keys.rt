//! Keys that end with a zero.
use super::say_refused;
use blart_keys::{AsBytes, ZKey, ZKeyError, ZQuery};
use std::alloc::AllocError;
use std::process::Abort;

/// A text that contains a zero has the error for that, whichever request is refused.
#[test]
fn zero_ended_keys(rt: HostRuntime) {
    for text in [b"ab" as &[u8], b"", b"a longer text than the first"] {
        let inner_zero = ZKey::from_bytes(rt.alloc(), &[1, 0, 2]);
        assert!(rt; matches!(inner_zero, Err(ZKeyError::InnerZero)));
        match ZKey::from_bytes(rt.alloc(), text) {
            Ok(key) => {
                let is_right = key.to_bytes() == text && key.as_bytes().last() == Some(&0);
                drop(key);
                assert!(rt; is_right);
            }
            Err(refused) => {
                say_refused(&rt);
                assert!(rt; refused == ZKeyError::Memory);
            }
        }
    }
}

/// A query that is set to a text of at most the length of one before needs no memory.
#[test]
fn queries(rt: HostRuntime) {
    let mut query = ZQuery::new(rt.alloc());
    let mut longest = None;
    for text in [
        b"ab" as &[u8],
        b"",
        b"a longer text than the first",
        b"short",
    ] {
        match query.set(text) {
            Ok(()) => {
                let is_right = query.as_bytes().last() == Some(&0);
                assert!(&rt; is_right && query.as_bytes().len() == text.len() + 1);
                longest = longest.max(Some(text.len()));
            }
            Err(refused) => {
                say_refused(&rt);
                assert!(&rt; refused == ZKeyError::Memory && query.as_bytes().is_empty());
                assert!(&rt; longest < Some(text.len()));
            }
        }
    }
    drop(query);
}

#[test]
fn a_copied_key(rt: HostRuntime) {
    let Ok(key) = ZKey::from_bytes(rt.alloc(), b"ab") else {
        say_refused(&rt);
        return;
    };
    let is_copied = match key.clone() {
        Ok(copy) => copy == key,
        Err(AllocError) => {
            say_refused(&rt);
            true
        }
    };
    let is_kept = key.as_bytes() == b"ab\0".as_slice();
    drop(key);
    assert!(rt; is_copied && is_kept);
}
