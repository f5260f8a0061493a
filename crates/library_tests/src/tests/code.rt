//! Tests of what no script can say: how often keys are asked for their bytes, what a hasher is fed,
//! when keys and values are dropped, closures, keys that are texts, and calls that no line makes.

mod asked;
mod calls;
mod closures;
mod counted;
mod dropped;
mod hashed;
mod key_types;
mod nested;
mod reserved;
mod shapes;
mod texts;
mod traits;

use blart_keys::AsBytes;
use blart_map::TreeMap;
use std::iter::Iterator;
use std::process::Abort;

/// Returns a vector of the bytes.
fn vector(rt: &(impl Abort + AllocGlobal), bytes: &[u8]) -> Vec<u8> {
    Vec::from_slice(rt.alloc(), bytes).expect(rt, "memory")
}

/// Checks that the map has exactly these values, in this order.
fn assert_values<K: AsBytes + Drop, const P: usize>(
    rt: &impl Abort,
    map: &TreeMap<K, usize, P>,
    want: &[usize],
) {
    assert!(rt; map.len() == want.len());
    assert!(rt; map.values().eq(want));
}
