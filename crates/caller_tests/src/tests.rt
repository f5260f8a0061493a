//! Tests that run callers.
use crate::router::{Handler, asked};
use crate::words::{count_words, most_frequent};
use blart::{Map, TreeMap, ZKey};
use std::process::Abort;

/// The handler of a path in a table of routes.
#[test]
fn a_path_is_asked_for(rt: HostRuntime) {
    assert!(&rt; matches!(asked(rt.alloc()), Ok(Some(Handler::Users))));
}

/// The most frequent of the counted words that begin with a prefix.
#[test]
fn frequent_words(rt: HostRuntime) {
    let mut counts = TreeMap::new(rt.alloc());
    let line = "to be or not to be\tthat  is to belong";
    assert!(&rt; count_words(&mut counts, rt.alloc(), line).is_ok());
    assert_frequent(&rt, &counts, b"", &[(3, "to"), (2, "be"), (1, "belong")]);
    assert_frequent(&rt, &counts, b"be", &[(2, "be"), (1, "belong")]);
    drop(counts);
}

/// Asserts the most frequent words with a prefix, at most three.
fn assert_frequent(
    rt: &(impl Abort + AllocGlobal),
    counts: &Map<ZKey, u64>,
    prefix: &[u8],
    wanted: &[(u64, &str)],
) {
    let found = most_frequent(counts, rt.alloc(), prefix, 3).expect(rt, "memory");
    assert!(rt; found.len() == wanted.len());
    for (&(count, word), &(times, text)) in found.iter().zip(wanted.iter()) {
        assert!(rt; count == times && word.to_bytes() == text.as_bytes());
    }
}
