//! Counts of words.
ghost use Rattle.std.specs.Prelude.{◌≡◌, ◌≢◌, ◌+◌, ◌<◌, ◌^◌, ℕ, List, true, false, not, unwrap_or, OnOk, IfOk, OnErr, Some};
ghost use Rattle.blart.specs.Words.{pairs, pair_at, value_at, has};

use blart::{Map, NoPrefixesBytes};
use std::alloc::AllocError;

/// Adds one to the count of a word, with a look-up and an insertion.
pub fn count<W: NoPrefixesBytes + Drop>(counts: &mut Map<W, u64>, word: W) -> Result<(), AllocError>
    requires { unwrap_or (value_at W.bytes (pairs counts.old) (W.bytes word)) 0 + 1 < 2 ^ 64 }
    ensures counted { OnOk result (value_at W.bytes (pairs counts.new) (W.bytes word)
        ≡ Some (unwrap_or (value_at W.bytes (pairs counts.old) (W.bytes word)) 0 + 1)) }
    ensures others { (q : List ℕ) → q ≢ W.bytes word
        → value_at W.bytes (pairs counts.new) q ≡ value_at W.bytes (pairs counts.old) q }
    ensures refused { OnErr result (counts.new ≡ counts.old) }
{
    let more = match counts.get(&word) {
        Some(n) => *n + 1,
        None => 1,
    };
    counts.insert(word, more)?;
    Ok(())
}

/// Adds one to the count of a word in place.
pub fn count_in_place<W: NoPrefixesBytes + Drop>(
    counts: &mut Map<W, u64>,
    word: W,
) -> Result<(), AllocError>
    requires { unwrap_or (value_at W.bytes (pairs counts.old) (W.bytes word)) 0 + 1 < 2 ^ 64 }
    ensures counted { OnOk result (value_at W.bytes (pairs counts.new) (W.bytes word)
        ≡ Some (unwrap_or (value_at W.bytes (pairs counts.old) (W.bytes word)) 0 + 1)) }
    ensures others { (q : List ℕ) → q ≢ W.bytes word
        → value_at W.bytes (pairs counts.new) q ≡ value_at W.bytes (pairs counts.old) q }
    ensures refused { OnErr result (counts.new ≡ counts.old) }
{
    match counts.get_mut(&word) {
        Some(n) => *n += 1,
        None => {
            counts.insert(word, 1)?;
        }
    }
    Ok(())
}

/// Inserts the pair unless its key is stored. Returns whether it did.
pub fn insert_if_absent<K: NoPrefixesBytes + Drop, V: Drop>(
    store: &mut Map<K, V>,
    key: K,
    value: V,
) -> Result<bool, AllocError>
    ensures added { IfOk result
        (λ added. added ≡ not (has K.bytes (pairs store.old) (K.bytes key))) }
    ensures there { OnOk result (has K.bytes (pairs store.new) (K.bytes key) ≡ true) }
    ensures new { has K.bytes (pairs store.old) (K.bytes key) ≡ false
        → OnOk result (pair_at K.bytes (pairs store.new) (K.bytes key) ≡ Some (key, value)) }
    ensures kept { has K.bytes (pairs store.old) (K.bytes key) ≡ true → store.new ≡ store.old }
    ensures others { (q : List ℕ) → q ≢ K.bytes key
        → pair_at K.bytes (pairs store.new) q ≡ pair_at K.bytes (pairs store.old) q }
    ensures refused { OnErr result (store.new ≡ store.old) }
{
    if store.contains_key(&key) {
        return Ok(false);
    }
    store.insert(key, value)?;
    Ok(true)
}
