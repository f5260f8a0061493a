//! Moves of pairs from one place to another.
ghost use Rattle.std.specs.Prelude.{◌≡◌, ◌≢◌, ◌+◌, ℕ, List, true, false, length, slice_get, is_some, OnOk, IfOk, OnErr, IfSome, None, Some, if◌then◌else◌};
ghost use Rattle.std.specs.declared.ops.Bound.TheVariants.{Included, Excluded};
ghost use Rattle.blart.specs.Words.{pairs, bytes, between, in_order, pair_at, value_at, has, overlaps, slice_bytes, u32_bytes};

use blart::{AsBytes, Map, TryInsertError, U32Key};
use std::alloc::AllocError;
use std::iter::Iterator;
use std::ops::Bound;

/// Moves the pair of a key, and returns whether there was one. If the other map has the key, it
/// keeps its own key and gets the new value. If the call fails, both maps are unchanged.
pub fn move_one<K: AsBytes + Copy + Drop, V: Copy + Drop>(
    from: &mut Map<K, V>,
    to: &mut Map<K, V>,
    key: &K,
) -> Result<bool, TryInsertError>
    ensures moved { IfOk result (λ moved. moved ≡ has K.bytes (pairs from.old) (K.bytes key.now)) }
    ensures gone { OnOk result (pair_at K.bytes (pairs from.new) (K.bytes key.now) ≡ None) }
    ensures left { (q : List ℕ) → q ≢ K.bytes key.now
        → pair_at K.bytes (pairs from.new) q ≡ pair_at K.bytes (pairs from.old) q }
    ensures there { has K.bytes (pairs from.old) (K.bytes key.now) ≡ true
        → OnOk result (value_at K.bytes (pairs to.new) (K.bytes key.now)
        ≡ value_at K.bytes (pairs from.old) (K.bytes key.now)) }
    ensures new { has K.bytes (pairs from.old) (K.bytes key.now) ≡ true
        → has K.bytes (pairs to.old) (K.bytes key.now) ≡ false
        → OnOk result (pair_at K.bytes (pairs to.new) (K.bytes key.now)
        ≡ pair_at K.bytes (pairs from.old) (K.bytes key.now)) }
    ensures others { (q : List ℕ) → q ≢ K.bytes key.now
        → pair_at K.bytes (pairs to.new) q ≡ pair_at K.bytes (pairs to.old) q }
    ensures refused { OnErr result ((from.new ≡ from.old) × (to.new ≡ to.old)) }
{
    let Some((stored, value)) = from.get_key_value(key) else {
        return Ok(false);
    };
    to.try_insert(*stored, *value)?;
    from.remove(key);
    Ok(true)
}

/// Moves the first pair within the bounds, and returns whether there was one. If the call fails,
/// both maps are unchanged.
pub fn move_first_between<V: Copy + Drop>(
    from: &mut Map<U32Key, V>,
    to: &mut Map<U32Key, V>,
    low: U32Key,
    high: U32Key,
) -> Result<bool, AllocError>
    requires { in_order (Included (u32_bytes low)) (Excluded (u32_bytes high)) ≡ true }
    ensures moved { let within = between (bytes u32_bytes) (pairs from.old)
        (Included (u32_bytes low)) (Excluded (u32_bytes high))
        in IfOk result (λ moved. moved ≡ is_some (slice_get within 0)) }
    ensures there { let within = between (bytes u32_bytes) (pairs from.old)
        (Included (u32_bytes low)) (Excluded (u32_bytes high))
        in OnOk result (IfSome (slice_get within 0)
        (λ p. value_at u32_bytes (pairs to.new) (u32_bytes p.0) ≡ Some p.1)) }
    ensures gone { let within = between (bytes u32_bytes) (pairs from.old)
        (Included (u32_bytes low)) (Excluded (u32_bytes high))
        in OnOk result (IfSome (slice_get within 0)
        (λ p. pair_at u32_bytes (pairs from.new) (u32_bytes p.0) ≡ None)) }
    ensures refused { OnErr result ((from.new ≡ from.old) × (to.new ≡ to.old)) }
{
    let walk = from
        .range(Bound::Included(&low), Bound::Excluded(&high))
        .next();
    let Some((key, value)) = walk else {
        return Ok(false);
    };
    let (key, value) = (*key, *value);
    to.insert(key, value)?;
    from.remove(&key);
    Ok(true)
}

/// Moves the value of one key to another. If the insertion fails, the value and its old key are
/// gone.
pub fn rename(
    store: &mut Map<&'static str, u64>,
    from: &str,
    to: &'static str,
) -> Result<bool, TryInsertError>
    ensures renamed { IfOk result
        (λ renamed. renamed ≡ has slice_bytes (pairs store.old) from.now) }
    ensures put { has slice_bytes (pairs store.old) from.now ≡ true
        → OnOk result (value_at slice_bytes (pairs store.new) to.now
        ≡ value_at slice_bytes (pairs store.old) from.now) }
    ensures gone { from.now ≢ to.now → pair_at slice_bytes (pairs store.new) from.now ≡ None }
    ensures others { (q : List ℕ) → q ≢ from.now → q ≢ to.now
        → pair_at slice_bytes (pairs store.new) q ≡ pair_at slice_bytes (pairs store.old) q }
{
    let Some((_, value)) = store.remove_entry(&from) else {
        return Ok(false);
    };
    store.try_insert(to, value)?;
    Ok(true)
}

/// Inserts a pair, or returns it if its key conflicts.
pub fn add_or_give_back<K: AsBytes + Drop, V: Drop>(
    store: &mut Map<K, V>,
    key: K,
    value: V,
) -> Result<Option<(K, V)>, AllocError>
    ensures given_back { IfOk result (λ back. back
        ≡ (if overlaps K.bytes (pairs store.old) (K.bytes key) then Some (key, value) else None)) }
    ensures stored { overlaps K.bytes (pairs store.old) (K.bytes key) ≡ false
        → OnOk result (value_at K.bytes (pairs store.new) (K.bytes key) ≡ Some value) }
    ensures new { overlaps K.bytes (pairs store.old) (K.bytes key) ≡ false
        → has K.bytes (pairs store.old) (K.bytes key) ≡ false
        → OnOk result (pair_at K.bytes (pairs store.new) (K.bytes key) ≡ Some (key, value)) }
    ensures others { (q : List ℕ) → q ≢ K.bytes key
        → pair_at K.bytes (pairs store.new) q ≡ pair_at K.bytes (pairs store.old) q }
    ensures refused { OnErr result (store.new ≡ store.old) }
{
    if store.conflicts(&key) {
        return Ok(Some((key, value)));
    }
    match store.try_insert(key, value) {
        Ok(_) => Ok(None),
        Err(TryInsertError::Memory(refused)) => Err(refused),
        Err(TryInsertError::Prefix(_)) => unreachable!(),
    }
}

/// Returns the number of pairs after a removal.
pub fn len_without<K: AsBytes + Drop, V: Drop>(store: &mut Map<K, V>, key: &K) -> usize
    ensures { result + (if has K.bytes (pairs store.old) (K.bytes key.now) then 1 else 0)
        ≡ length (pairs store.old) }
{
    store.remove(key);
    store.len()
}
