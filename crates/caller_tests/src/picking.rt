//! Pairs that a closure picks.
ghost use Rattle.std.specs.Prelude.{◌≡◌, ◌+◌, ◌<◌, ◌^◌, leb, ltb, filter, map, not, take, slice_get, All, IfOk, OnOk, MatchOption};
ghost use Rattle.blart.specs.Words.{pairs, bytes, without, kept_pair, PutsAll};

use blart::map::LeafId;
use blart::{AsBytes, Map, NoPrefixesBytes, ZKey};
use std::alloc::{AllocError, Global};
use std::iter;
use std::iter::Iterator;
use std::ops::Bound;

/// Keeps the pairs whose value is at least the bound.
pub fn drop_below<K: AsBytes + Drop>(scores: &mut Map<K, u64>, bound: u64)
    ensures { pairs scores.new ≡ filter (λ p. leb bound p.1) (pairs scores.old) }
{
    scores.retain(|_, score| *score >= bound);
}

/// Keeps the first `count` pairs, with a closure that counts.
pub fn keep_first<K: AsBytes + Drop, V: Drop>(map: &mut Map<K, V>, count: usize)
    ensures { pairs map.new ≡ take count (pairs map.old) }
{
    let mut left = count;
    map.retain(|_, _| {
        let keeps = left > 0;
        left = left.saturating_sub(1);
        keeps
    });
}

/// Adds one to each value. No value may be the greatest of its type. The closure may not be called
/// on every pair, but on each of these.
pub fn raise_all<K: AsBytes + Drop>(counts: &mut Map<K, u32>)
    requires { All (λ p. p.1 + 1 < 2 ^ 32) (pairs counts.old) }
    ensures { pairs counts.new ≡ map (λ p. (p.0, p.1 + 1)) (pairs counts.old) }
{
    counts.retain(|_, count| {
        *count += 1;
        true
    });
}

/// Removes the pairs whose value is below a bound, and returns them as a vector, in ascending
/// order.
pub fn drain_below<K: AsBytes + Drop>(
    alloc: Global,
    scores: &mut Map<K, u64>,
    bound: u64,
) -> Result<Vec<(K, u64)>, AllocError>
    ensures { IfOk result
        (λ low. low.items ≡ filter (λ p. ltb p.1 bound) (pairs scores.old)) }
{
    let mut low = Vec::new(alloc);
    let count = scores.len();
    let mut walk = scores.extract_if(
        Bound::<&ZKey>::Unbounded,
        Bound::Unbounded,
        |_, score| *score < bound,
    );
    for _ in iter::repeat_n((), count) {
        match walk.next() {
            Some(pair) => low.push(pair)?,
            None => break,
        }
    }
    Ok(low)
}

/// Removes the first pair whose value is below a bound, if there is one, and no other. Returns it.
pub fn take_below<K: AsBytes + Drop>(scores: &mut Map<K, u64>, bound: u64) -> Option<(K, u64)>
    ensures first { result ≡ slice_get (filter (λ p. ltb p.1 bound) (pairs scores.old)) 0 }
    ensures left { MatchOption result (scores.new ≡ scores.old)
        (λ p. pairs scores.new ≡ without (bytes K.bytes) (pairs scores.old) (K.bytes p.0)) }
{
    let _id: Option<LeafId> = None;
    scores.law();
    let mut walk = scores.extract_if(
        Bound::<&ZKey>::Unbounded,
        Bound::Unbounded,
        |_, value| *value < bound,
    );
    walk.next()
}

/// Moves the pairs whose value is at least the bound to another map. If that has a key of the same
/// bytes, it keeps its own key and gets the new value.
pub fn move_above<K: NoPrefixesBytes + Drop>(
    from: &mut Map<K, u64>,
    to: &mut Map<K, u64>,
    bound: u64,
) -> Result<(), AllocError>
    ensures left { OnOk result
        (pairs from.new ≡ filter (λ p. not (leb bound p.1)) (pairs from.old)) }
    ensures moved { OnOk result (PutsAll (bytes K.bytes) kept_pair (pairs to.old)
        (filter (λ p. leb bound p.1) (pairs from.old)) (pairs to.new)) }
{
    let mut walk = from.take_walk(Bound::<&ZKey>::Unbounded, Bound::Unbounded);
    while let Some(value) = walk.lend() {
        if *value < bound {
            walk.keep();
        } else {
            let (key, value) = walk.take();
            to.insert(key, value)?;
        }
    }
    Ok(())
}
