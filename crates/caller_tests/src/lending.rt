//! Walks that write the values of a map.
ghost use Rattle.std.specs.Prelude.{◌≡◌, ◌+◌, ◌%◌, ◌^◌, ◌<◌, All, ℕ, List, length, map, min, cond, option_map, string_len};
ghost use Rattle.blart.specs.Words.{pairs, begins, value_at, zkey_bytes, LeavesPair, WritesWhere};

use blart::{AsBytes, Map, ZKey};

/// Adds one to each value whose key starts with a prefix.
pub fn raise_below<K: AsBytes>(scores: &mut Map<K, u64>, front: &[u8])
    ensures { pairs scores.new
        ≡ map (λ p. cond (begins front.now (K.bytes p.0)) (p.0, (p.1 + 1) % 2 ^ 64) p)
        (pairs scores.old) }
{
    let mut walk = scores.prefix_mut(front);
    while let Some(value) = walk.next() {
        *value = value.wrapping_add(1);
    }
}

/// Sets each value to the length of its key.
pub fn measure_all(lengths: &mut Map<String, usize>)
    ensures { pairs lengths.new ≡ map (λ p. (p.0, string_len p.0)) (pairs lengths.old) }
{
    let mut walk = lengths.iter_mut();
    while let Some(_seen) = walk.next() {
        let (key, value) = walk.pair();
        *value = key.len();
    }
}

/// Sets each value whose key starts with a prefix to the number of the key's bytes.
pub fn measure_below<K: AsBytes>(lengths: &mut Map<K, usize>, front: &[u8])
    ensures { pairs lengths.new
        ≡ map (λ p. cond (begins front.now (K.bytes p.0)) (p.0, length (K.bytes p.0)) p)
        (pairs lengths.old) }
{
    let mut walk = lengths.prefix_mut(front);
    while let Some(_seen) = walk.next() {
        let (key, value) = walk.pair();
        *value = key.as_bytes().len();
    }
}

/// Lowers each value that is above a cap to the cap.
pub fn cap_all<K: AsBytes>(scores: &mut Map<K, u64>, cap: u64)
    ensures { pairs scores.new ≡ map (λ p. (p.0, min p.1 cap)) (pairs scores.old) }
{
    scores.values_mut().for_each(|value| {
        if *value > cap {
            *value = cap;
        }
    });
}

/// Adds one to each value. The greatest value becomes 0.
pub fn age_all(ages: &mut Map<ZKey, u64>)
    ensures { (q : List ℕ) → value_at zkey_bytes (pairs ages.new) q
        ≡ option_map (λ v. (v + 1) % 2 ^ 64) (value_at zkey_bytes (pairs ages.old) q) }
{
    ages.values_mut().for_each(|age| *age = age.wrapping_add(1));
}

/// Sets each value whose key starts with a prefix to 0.
pub fn clear_below<K: AsBytes>(scores: &mut Map<K, u64>, front: &[u8])
    ensures { pairs scores.new
        ≡ map (λ p. cond (begins front.now (K.bytes p.0)) (p.0, 0) p) (pairs scores.old) }
{
    scores.prefix_mut(front).for_each(|_, value| *value = 0);
}

/// Adds one to each value. No value may be the greatest of its type.
pub fn raise_each<K: AsBytes>(scores: &mut Map<K, u64>)
    requires { All (λ p. p.1 + 1 < 2 ^ 64) (pairs scores.old) }
    ensures { pairs scores.new ≡ map (λ p. (p.0, p.1 + 1)) (pairs scores.old) }
{
    scores.values_mut().for_each(|value| *value += 1);
}

/// Calls a closure on each pair whose key starts with a prefix. The values that the closure
/// captures may change from call to call.
pub fn visit_below<K: AsBytes, F: FnMut(&K, &mut u64) + Drop>(
    scores: &mut Map<K, u64>,
    front: &[u8],
    visit: F,
)
    requires { F.IsAlwaysCallable visit }
    ensures { WritesWhere (LeavesPair F.FnMut) (λ p. begins front.now (K.bytes p.0))
        (pairs scores.old) visit (pairs scores.new) }
{
    scores.prefix_mut(front).for_each(visit);
}
