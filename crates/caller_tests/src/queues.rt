//! Pairs in order.
ghost use Rattle.std.specs.Prelude.{◌≡◌, ◌-◌, [], length, drop, slice_get, option_map};
ghost use Rattle.std.specs.declared.ops.Bound.TheVariants.{Excluded, Unbounded};
ghost use Rattle.blart.specs.Words.{pairs, bytes, between, shown, u32_bytes};

use blart::{AsBytes, Map, U32Key};
use std::ops::Bound;

/// Removes the least pair of a queue, and returns its value.
pub fn take_next<K: AsBytes + Drop, V: Drop>(queue: &mut Map<K, V>) -> Option<V>
    ensures least { result ≡ option_map (λ p. p.1) (slice_get (pairs queue.old) 0) }
    ensures rest { pairs queue.new ≡ drop 1 (pairs queue.old) }
    ensures len { length (pairs queue.new) ≡ length (pairs queue.old) - 1 }
{
    match queue.pop_first() {
        Some((_, value)) => Some(value),
        None => None,
    }
}

/// Removes all pairs of a queue, and returns their number.
pub fn to_end<K: AsBytes + Drop, V: Drop>(queue: &mut Map<K, V>) -> usize
    ensures count { result ≡ length (pairs queue.old) }
    ensures rest { pairs queue.new ≡ [] }
{
    let count = queue.len();
    for taken in 0..count {
        let _ = queue.pop_first();
    }
    count
}

/// Returns the first pair after a key.
pub fn following<'a, V>(times: &'a Map<U32Key, V>, key: U32Key) -> Option<(&'a U32Key, &'a V)>
    ensures { shown result
        ≡ slice_get
        (between (bytes u32_bytes) (pairs times.now) (Excluded (u32_bytes key)) Unbounded) 0 }
{
    times.range(Bound::Excluded(&key), Bound::Unbounded).next()
}
