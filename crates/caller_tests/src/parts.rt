//! Maps that are split, joined, moved and compared.
ghost use Rattle.std.specs.Prelude.{◌≡◌, ℕ, List, true, OnOk, OnErr, IfOk, None, if◌then◌else◌};
ghost use Rattle.std.specs.Hash.DefaultHasher as sip;
ghost use Rattle.std.specs.List.{fold};
ghost use Rattle.blart.specs.Words.{pairs, pair_at, less, or_else, u32_bytes};

use blart::{AsBytes, Map, NoPrefixesBytes, U32Key};
use std::alloc::AllocError;
use std::hash::{DefaultHasher, Hash, Hasher};

/// Splits a map in two and joins it again. If the split fails, the map is unchanged.
pub fn part_and_join<V: Drop>(map: &mut Map<U32Key, V>, key: U32Key) -> Result<(), AllocError>
    ensures { OnOk result (pairs map.new ≡ pairs map.old) }
{
    map.law();
    let mut rest = map.split_off(&key)?;
    if let Err(refused) = map.append(&mut rest) {
        drop(rest);
        return Err(refused);
    }
    drop(rest);
    Ok(())
}

/// Moves all pairs of one map to another. They replace its pairs with the same bytes. If the call
/// fails, both maps are unchanged.
pub fn give_all<K: NoPrefixesBytes + Drop, V: Drop>(
    from: &mut Map<K, V>,
    to: &mut Map<K, V>,
) -> Result<(), AllocError>
    ensures given { OnOk result ((q : List ℕ) → pair_at K.bytes (pairs to.new) q
        ≡ or_else (pair_at K.bytes (pairs from.old) q) (pair_at K.bytes (pairs to.old) q)) }
    ensures refused { OnErr result ((from.new ≡ from.old) × (to.new ≡ to.old)) }
{
    to.append(from)
}

/// Keeps the pairs below a time, and returns those from that time on.
pub fn later<V: Drop>(
    times: &mut Map<U32Key, V>,
    from: U32Key,
) -> Result<Map<U32Key, V>, AllocError>
    ensures kept { OnOk result ((q : List ℕ) → pair_at u32_bytes (pairs times.new) q
        ≡ (if less q (u32_bytes from) then pair_at u32_bytes (pairs times.old) q else None)) }
    ensures given { IfOk result (λ rest. (q : List ℕ) → pair_at u32_bytes (pairs rest) q
        ≡ (if less q (u32_bytes from) then None else pair_at u32_bytes (pairs times.old) q)) }
    ensures refused { OnErr result (times.new ≡ times.old) }
{
    times.split_off(&from)
}

/// Returns the hash of a value.
fn digest_of<T: Hash>(value: &T) -> u64
    ensures { result ≡ sip.finish (fold sip.write sip.initial (T.hash_input value.now)) }
{
    let mut state = DefaultHasher::new();
    value.hash(&mut state);
    state.finish()
}

/// Returns whether two values differ or have the same hash.
fn agree<T: Eq + Hash>(left: &T, right: &T) -> bool
    ensures { result ≡ true }
{
    *left != *right || digest_of(left) == digest_of(right)
}

/// Returns whether two maps differ or have the same hash. It is always true: equal maps feed the
/// hasher equal words.
pub fn have_one_digest<K: AsBytes + Hash, V: Hash>(left: &Map<K, V>, right: &Map<K, V>) -> bool
    ensures { result ≡ true }
{
    agree(left, right)
}
