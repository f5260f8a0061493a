//! Tests, by what they show.

mod code;
mod examples;
mod program;
mod refused;

use blart_keys::AsBytes;
use blart_map::TreeMap;
use std::fmt::Display;
use std::process::Abort;

/// Inserts a pair whose bytes are not stored yet.
fn put<K: AsBytes + Drop, V: Drop, const P: usize>(
    rt: &impl Abort,
    map: &mut TreeMap<K, V, P>,
    key: K,
    value: V,
) {
    assert!(rt; matches!(map.try_insert(key, value), Ok(None)));
}

/// Returns a map of the pairs.
fn map_of<K: AsBytes + Copy, V: Copy, const P: usize>(
    rt: &(impl Abort + AllocGlobal),
    pairs: &[(K, V)],
) -> TreeMap<K, V, P> {
    let mut map = TreeMap::with_prefix_len(rt.alloc());
    for (key, value) in pairs {
        put(rt, &mut map, *key, *value);
    }
    map
}

/// Checks that `{}` writes the text for the value.
fn assert_display<T: Display>(rt: &(impl Abort + AllocGlobal), value: &T, want: &str) {
    let text = format!(in rt.alloc(); "{value}").expect(rt, "memory");
    let is_wanted = text.as_str() == want;
    drop(text);
    assert!(rt; is_wanted);
}
