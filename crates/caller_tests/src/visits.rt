//! The costs of look-ups and walks, in visits.
ghost use Rattle.std.specs.Prelude.{◌+◌, ◌≤◌, length, IfSome};
ghost use Rattle.blart.specs.Words.{pairs, bytes, between, bound_bytes, CanRange, longest, longer, opening};

use blart::map::Visits;
use blart::{AsBytes, Map};
use std::ops::Bound;

/// Returns the values of two keys, if both are stored. It makes at most one visit for each byte of
/// the keys, and two more. If it finds both, it has made two visits at least.
pub fn get_both<'a, K: AsBytes, V>(
    store: &'a Map<K, V>,
    one: &K,
    other: &K,
    visits: &mut Visits,
) -> Option<(&'a V, &'a V)>
    ensures at_most { visits.new.count
        ≤ visits.old.count + length (K.bytes one.now) + length (K.bytes other.now) + 2 }
    ensures at_least { IfSome result (λ _. visits.old.count + 2 ≤ visits.new.count) }
{
    let (_, first) = store.get_key_value_counted(one, visits)?;
    let (_, second) = store.get_key_value_counted(other, visits)?;
    Some((first, second))
}

/// Returns the values of the first two pairs within two bounds, if there are two. It makes at most
/// as many visits as it takes to open a walk, and one for each of the two pairs.
pub fn first_two<K: AsBytes, V: Copy, Q: AsBytes>(
    store: &Map<K, V>,
    low: Bound<&Q>,
    high: Bound<&Q>,
    visits: &mut Visits,
) -> Option<(V, V)>
    requires { CanRange (pairs store.now) (bound_bytes Q.bytes low) (bound_bytes Q.bytes high) }
    ensures { visits.new.count ≤ visits.old.count
        + opening (longer (bound_bytes Q.bytes low.entry) (bound_bytes Q.bytes high.entry))
        (longest (bytes K.bytes) (pairs store.now)) + 2 }
{
    let mut cursor = store.cursor_counted(low, high, visits);
    let first = store.step(&mut cursor, visits)?;
    let second = store.step(&mut cursor, visits)?;
    Some((*store.leaf(first).1, *store.leaf(second).1))
}

/// Sets the first value whose key starts with the bytes to 0. It makes at most as many visits as it
/// takes to open the walk.
pub fn clear_first<K: AsBytes>(store: &mut Map<K, u64>, front: &[u8], visits: &mut Visits)
    ensures { visits.new.count ≤ visits.old.count
        + opening (length front.now) (longest (bytes K.bytes) (pairs store.old)) }
{
    if let Some(value) = store.prefix_mut_counted(front, visits).next() {
        *value = 0;
    }
}

/// Returns the sum of the values within two bounds, modulo the range of `u64`. It makes at most as
/// many visits as it takes to open a walk, and one for each pair within the bounds.
pub fn sum_within<K: AsBytes, Q: AsBytes>(
    store: &Map<K, u64>,
    low: Bound<&Q>,
    high: Bound<&Q>,
    visits: &mut Visits,
) -> u64
    requires { CanRange (pairs store.now) (bound_bytes Q.bytes low) (bound_bytes Q.bytes high) }
    ensures { visits.new.count ≤ visits.old.count
        + opening (longer (bound_bytes Q.bytes low.entry) (bound_bytes Q.bytes high.entry))
        (longest (bytes K.bytes) (pairs store.now))
        + length (between (bytes K.bytes) (pairs store.now) (bound_bytes Q.bytes low.entry)
        (bound_bytes Q.bytes high.entry)) }
{
    let mut cursor = store.cursor_counted(low, high, visits);
    let mut sum = 0u64;
    'steps: while let Some(id) = store.step(&mut cursor, visits) {
        sum = sum.wrapping_add(*store.leaf(id).1);
    }
    sum
}
