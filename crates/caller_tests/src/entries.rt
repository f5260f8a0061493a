//! Calls of entries.
ghost use Rattle.std.specs.Prelude.{◌≡◌, ◌≢◌, ◌+◌, ◌<◌, ◌^◌, ℕ, List, true, false, not, unwrap_or, OnOk, IfOk, OnErr, IfSome, None, Some, if◌then◌else◌, length};
ghost use Rattle.std.specs.FinSet as set;
ghost use denote.Builtin.{u64};
ghost use denote.Param.{number};
ghost use Rattle.blart.specs.Words.{pairs, bytes, fronts, Updates, pair_at, pair_at_front, value_at, value_at_front, has, overlaps, slice_bytes, zkey_bytes, EntryFits};

use blart::map::Entry;
use blart::{Map, NoPrefixesBytes, ZKey};
use std::alloc::AllocError;

/// Sets the score of a player to `next`, or to `first` if the player has none.
pub fn score(
    scores: &mut Map<ZKey, u64>,
    player: ZKey,
    next: u64,
    first: u64,
) -> Result<(), AllocError>
    ensures set { OnOk result (value_at zkey_bytes (pairs scores.new) (zkey_bytes player)
        ≡ Some (if has zkey_bytes (pairs scores.old) (zkey_bytes player) then next else first)) }
    ensures others { OnOk result ((q : List ℕ) → q ≢ zkey_bytes player
        → pair_at zkey_bytes (pairs scores.new) q ≡ pair_at zkey_bytes (pairs scores.old) q) }
    ensures refused { OnErr result (scores.new ≡ scores.old) }
{
    scores
        .entry(player)
        .and_modify(|score| *score = next)
        .or_insert_with(|| first)?;
    Ok(())
}

/// Removes a member if it is stored, else adds it. Returns whether it is stored now. If the call
/// fails, the members are unchanged.
pub fn toggle<V: Drop>(
    members: &mut Map<ZKey, V>,
    member: ZKey,
    value: V,
) -> Result<bool, AllocError>
    ensures turned { IfOk result
        (λ now. now ≡ not (has zkey_bytes (pairs members.old) (zkey_bytes member))) }
    ensures there { IfOk result
        (λ now. has zkey_bytes (pairs members.new) (zkey_bytes member) ≡ now) }
    ensures others { (q : List ℕ) → q ≢ zkey_bytes member
        → pair_at zkey_bytes (pairs members.new) q ≡ pair_at zkey_bytes (pairs members.old) q }
    ensures refused { OnErr result (members.new ≡ members.old) }
{
    match members.entry(member) {
        Entry::Occupied(entry) => {
            entry.remove();
            Ok(false)
        }
        Entry::Vacant(entry) => {
            entry.insert(value)?;
            Ok(true)
        }
    }
}

/// Sets the target of a route that is stored or overlaps none. Returns whether it did.
pub fn set_route(
    routes: &mut Map<&'static str, u32>,
    front: &'static str,
    target: u32,
) -> Result<bool, AllocError>
    ensures done { IfOk result
        (λ done. done ≡ not (overlaps slice_bytes (pairs routes.old) front.now)) }
    ensures set { IfOk result (λ done. done ≡ true
        → value_at slice_bytes (pairs routes.new) front.now ≡ Some target) }
    ensures others { (q : List ℕ) → q ≢ front.now
        → pair_at slice_bytes (pairs routes.new) q ≡ pair_at slice_bytes (pairs routes.old) q }
    ensures refused { OnErr result (routes.new ≡ routes.old) }
{
    let entry = match routes.try_entry(front) {
        Ok(entry) => entry,
        Err(_) => return Ok(false),
    };
    *entry.or_insert(0)? = target;
    Ok(true)
}

/// Inserts a value and takes it back.
pub fn borrow_place<V: Drop>(store: &mut Map<ZKey, V>, key: ZKey, value: V) -> Result<V, AllocError>
    ensures value { IfOk result (λ back. back ≡ value) }
    ensures gone { OnOk result (pair_at zkey_bytes (pairs store.new) (zkey_bytes key) ≡ None) }
    ensures others { OnOk result ((q : List ℕ) → q ≢ zkey_bytes key
        → pair_at zkey_bytes (pairs store.new) q ≡ pair_at zkey_bytes (pairs store.old) q) }
    ensures refused { OnErr result (store.new ≡ store.old) }
{
    match store.entry(key) {
        Entry::Vacant(entry) => Ok(entry.insert_entry(value)?.remove()),
        Entry::Occupied(mut entry) => {
            entry.insert(value);
            Ok(entry.remove())
        }
    }
}

/// Inserts a value if the key is new, and takes it back. The map's pairs and its number of inner
/// nodes are unchanged.
pub fn try_place<V: Drop>(store: &mut Map<ZKey, V>, key: ZKey, value: V) -> Result<V, AllocError>
    ensures value { IfOk result (λ back. back ≡ value) }
    ensures same { pairs store.new ≡ pairs store.old }
    ensures nodes { set.len (fronts (bytes zkey_bytes) (pairs store.new))
        ≡ set.len (fronts (bytes zkey_bytes) (pairs store.old)) }
{
    match store.entry(key) {
        Entry::Vacant(entry) => {
            let entry = entry.insert_entry(value)?;
            Ok(entry.remove())
        }
        Entry::Occupied(_) => Ok(value),
    }
}

/// Adds one to the count of a word of any key type, by its entry.
pub fn tally<W: NoPrefixesBytes + Drop>(counts: &mut Map<W, u64>, word: W) -> Result<(), AllocError>
    requires fits { EntryFits W.row u64 (number 16) W.AsBytes }
    requires small { unwrap_or (value_at W.bytes (pairs counts.old) (W.bytes word)) 0 + 1 < 2 ^ 64 }
    ensures counted { OnOk result (value_at W.bytes (pairs counts.new) (W.bytes word)
        ≡ Some (unwrap_or (value_at W.bytes (pairs counts.old) (W.bytes word)) 0 + 1)) }
    ensures others { (q : List ℕ) → q ≢ W.bytes word
        → pair_at W.bytes (pairs counts.new) q ≡ pair_at W.bytes (pairs counts.old) q }
    ensures refused { OnErr result (counts.new ≡ counts.old) }
{
    *counts.entry(word).or_insert(0)? += 1;
    Ok(())
}

/// Adds one to the count of a word of any key type, with the map's call that returns a mutable
/// reference.
pub fn count_at<W: NoPrefixesBytes + Drop>(
    counts: &mut Map<W, u64>,
    word: W,
) -> Result<(), AllocError>
    requires { unwrap_or (value_at W.bytes (pairs counts.old) (W.bytes word)) 0 + 1 < 2 ^ 64 }
    ensures counted { OnOk result (value_at W.bytes (pairs counts.new) (W.bytes word)
        ≡ Some (unwrap_or (value_at W.bytes (pairs counts.old) (W.bytes word)) 0 + 1)) }
    ensures others { (q : List ℕ) → q ≢ W.bytes word
        → pair_at W.bytes (pairs counts.new) q ≡ pair_at W.bytes (pairs counts.old) q }
    ensures refused { OnErr result (counts.new ≡ counts.old) }
{
    *counts.get_or_insert(word, 0)? += 1;
    Ok(())
}

/// Sets the target of the route that is a prefix of the path, and returns the old target.
pub fn redirect(routes: &mut Map<&'static str, u32>, path: &'static str, target: u32) -> Option<u32>
    ensures old { result ≡ value_at_front slice_bytes (pairs routes.old) path.now }
    ensures none { result ≡ None → routes.new ≡ routes.old }
    ensures set { IfSome result
        (λ old. IfSome (pair_at_front slice_bytes (pairs routes.old) path.now)
        (λ p. Updates slice_bytes (pairs routes.old) (pairs routes.new) p.0.now
        (Some (p.0, target)))) }
{
    match routes.prefix_get_key_value_mut(&path) {
        Some(mut entry) => {
            let old = entry.insert(target);
            let _written = entry.into_mut();
            Some(old)
        }
        None => None,
    }
}

/// Sets the value of the first pair. Returns whether there is one.
pub fn set_first(scores: &mut Map<ZKey, u64>, next: u64) -> bool
    ensures none { result ≡ false → scores.new ≡ scores.old }
    ensures len { length (pairs scores.new) ≡ length (pairs scores.old) }
{
    match scores.first_entry() {
        Some(mut entry) => {
            entry.insert(next);
            true
        }
        None => false,
    }
}

/// Sets the score of a player who has one. Returns whether the player has one.
pub fn update_score(scores: &mut Map<ZKey, u64>, player: ZKey, next: u64) -> bool
    ensures is_player { result ≡ has zkey_bytes (pairs scores.old) (zkey_bytes player) }
    ensures set { result ≡ true
        → value_at zkey_bytes (pairs scores.new) (zkey_bytes player) ≡ Some next }
    ensures none { result ≡ false → scores.new ≡ scores.old }
{
    match scores.entry(player) {
        Entry::Occupied(mut entry) => {
            let _old = entry.insert(next);
            true
        }
        Entry::Vacant(entry) => {
            entry.into_key();
            false
        }
    }
}
