//! Insertions of all items or none: the room is reserved first.
ghost use Rattle.std.specs.Prelude.{◌≡◌, ◌≢◌, ◌∷◌, [], true, ℕ, List, OnOk, OnErr, Some};
ghost use Rattle.blart.specs.Words.{pairs, bytes, pair_at, value_at, elements, stores, kept_pair, kept_item, PutsAll};

use blart::{Map, NoPrefixesBytes, Set};
use std::alloc::AllocError;

/// Sets the values of both keys. If the call fails, neither is set.
pub fn set_limits<K: NoPrefixesBytes + Drop>(
    limits: &mut Map<K, u64>,
    low: (K, u64),
    high: (K, u64),
) -> Result<(), AllocError>
    ensures high { OnOk result
        (value_at K.bytes (pairs limits.new) (K.bytes high.0) ≡ Some high.1) }
    ensures others { OnOk result ((q : List ℕ) → q ≢ K.bytes low.0 → q ≢ K.bytes high.0
        → pair_at K.bytes (pairs limits.new) q ≡ pair_at K.bytes (pairs limits.old) q) }
    ensures refused { OnErr result (limits.new ≡ limits.old) }
{
    let mut room = limits.reserve(2)?;
    room.insert(low.0, low.1);
    room.insert(high.0, high.1);
    Ok(())
}

/// Inserts all pairs in turn. If the call fails, none is inserted.
pub fn put_all<K: NoPrefixesBytes + Drop>(
    scores: &mut Map<K, u64>,
    batch: Vec<(K, u64)>,
) -> Result<(), AllocError>
    ensures put { OnOk result (PutsAll (bytes K.bytes) kept_pair (pairs scores.old) batch.items
        (pairs scores.new)) }
    ensures refused { OnErr result (scores.new ≡ scores.old) }
{
    let mut room = scores.reserve(batch.len())?;
    for (key, score) in batch {
        room.insert(key, score);
    }
    Ok(())
}

/// Adds both elements. If the call fails, neither is added.
pub fn add_both<K: NoPrefixesBytes + Drop>(set: &mut Set<K>, a: K, b: K) -> Result<(), AllocError>
    ensures put { OnOk result (PutsAll K.bytes kept_item (elements set.old) (a ∷ b ∷ [])
        (elements set.new)) }
    ensures refused { OnErr result (set.new ≡ set.old) }
{
    let mut room = set.reserve(2)?;
    room.insert(a);
    room.insert(b);
    Ok(())
}

/// Adds an element, after reserving the room for it.
pub fn add_one<K: NoPrefixesBytes + Drop>(set: &mut Set<K>, element: K) -> Result<(), AllocError>
    ensures added { OnOk result (stores K.bytes (elements set.new) (K.bytes element) ≡ true) }
    ensures others { OnOk result ((q : List ℕ) → q ≢ K.bytes element
        → stores K.bytes (elements set.new) q ≡ stores K.bytes (elements set.old) q) }
    ensures refused { OnErr result (set.new ≡ set.old) }
{
    let mut room = set.reserve(1)?;
    room.insert(element);
    Ok(())
}
