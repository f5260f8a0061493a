//! Sums and counts over a part of a map.
ghost use Rattle.std.specs.Prelude.{◌≡◌, ◌<◌, ◌^◌, length, map, sum, true};
ghost use Rattle.std.specs.declared.ops.Bound.TheVariants.{Included, Excluded, Unbounded};
ghost use Rattle.blart.specs.Words.{pairs, bytes, between, under, in_order, string_bytes, u32_bytes};

use blart::{AsBytes, Map, U32Key};
use std::ops::Bound;

/// Returns the sum of the values whose keys start with a prefix.
pub fn sum_below(sales: &Map<String, u64>, front: &str) -> u64
    requires { sum (map (λ p. p.1)
        (under (bytes (λ k. string_bytes k)) (pairs sales.now) front.now)) < 2 ^ 64 }
    ensures { result
        ≡ sum (map (λ p. p.1) (under (bytes (λ k. string_bytes k)) (pairs sales.now) front.now)) }
{
    let mut total = 0;
    for sale in sales.prefix(front.as_bytes()) {
        total += *sale.1;
    }
    total
}

/// Does the same with a chain of iterators.
pub fn sum_below_chain(sales: &Map<String, u64>, front: &str) -> u64
    requires { sum (map (λ p. p.1)
        (under (bytes (λ k. string_bytes k)) (pairs sales.now) front.now)) < 2 ^ 64 }
    ensures { result
        ≡ sum (map (λ p. p.1) (under (bytes (λ k. string_bytes k)) (pairs sales.now) front.now)) }
{
    sales.prefix(front.as_bytes()).map(|pair| *pair.1).sum()
}

/// Returns the number of keys from `low` on and below `high`.
pub fn count_between(times: &Map<U32Key, u64>, low: U32Key, high: U32Key) -> usize
    requires { in_order (Included (u32_bytes low)) (Excluded (u32_bytes high)) ≡ true }
    ensures { result
        ≡ length (between (bytes u32_bytes) (pairs times.now) (Included (u32_bytes low))
        (Excluded (u32_bytes high))) }
{
    times
        .range(Bound::Included(&low), Bound::Excluded(&high))
        .count()
}

/// Returns the sum of all waits. Each wait is the sum of a pair's own time and the times of the
/// pairs with greater keys. It is a walk within a walk over the same map.
pub fn sum_of_waits<K: AsBytes>(times: &Map<K, u64>) -> u64
    requires { sum (map (λ p. sum (map (λ q. q.1) (between (bytes K.bytes) (pairs times.now)
        (Included (K.bytes p.0)) Unbounded))) (pairs times.now)) < 2 ^ 64 }
    ensures { result ≡ sum (map (λ p. sum (map (λ q. q.1) (between (bytes K.bytes) (pairs times.now)
        (Included (K.bytes p.0)) Unbounded))) (pairs times.now)) }
{
    let mut total = 0;
    for pair in times.iter() {
        let own = pair.0.as_bytes();
        for later in times.range(Bound::Included(&own), Bound::Unbounded) {
            total += *later.1;
        }
    }
    total
}
