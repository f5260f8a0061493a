//! Calls of prefix entries.
ghost use Rattle.std.specs.Prelude.{◌≡◌, ◌≢◌, ◌+◌, ◌<◌, ◌^◌, ℕ, List, true, false, unwrap_or, IfOk, OnOk, OnErr, None, Some};
ghost use Rattle.blart.specs.Words.{pairs, pair_at, value_at, overlaps, related, slice_bytes, zkey_bytes, PrefixEntryFits};
ghost use denote.Param.{number};

use blart::map::{PrefixEntry, PrefixKind, PrefixOccupied};
use blart::{AsBytes, Map, ZKey};
use std::alloc::AllocError;

/// Replaces the routes that a route overlaps by that route. Returns whether there were any.
pub fn merge_routes(routes: &mut Map<&'static str, u32>, front: &'static str, target: u32) -> bool
    ensures merged { result ≡ overlaps slice_bytes (pairs routes.old) front.now }
    ensures set { result ≡ true → value_at slice_bytes (pairs routes.new) front.now ≡ Some target }
    ensures gone { result ≡ true → (q : List ℕ) → q ≢ front.now → related q front.now ≡ true
        → pair_at slice_bytes (pairs routes.new) q ≡ None }
    ensures others { result ≡ true → (q : List ℕ) → q ≢ front.now → related q front.now ≡ false
        → pair_at slice_bytes (pairs routes.new) q ≡ pair_at slice_bytes (pairs routes.old) q }
{
    match routes.prefix_entry(front).kind() {
        PrefixKind::Inner(entry) => {
            *entry.insert_entry(0).into_mut() = target;
            true
        }
        PrefixKind::Leaf(_) => false,
        PrefixKind::Vacant(_) => false,
    }
}

/// Sets the target of a route, in the place of the routes that it overlaps, by a `match` on the
/// entry itself.
pub fn set_over(
    routes: &mut Map<&'static str, u32>,
    front: &'static str,
    target: u32,
) -> Result<(), AllocError>
    ensures set { OnOk result (value_at slice_bytes (pairs routes.new) front.now ≡ Some target) }
    ensures others { (q : List ℕ) → q ≢ front.now → related q front.now ≡ false
        → pair_at slice_bytes (pairs routes.new) q ≡ pair_at slice_bytes (pairs routes.old) q }
    ensures refused { OnErr result (routes.new ≡ routes.old) }
{
    match routes.prefix_entry(front) {
        PrefixEntry::Occupied(PrefixOccupied::Leaf(entry)) => {
            *entry.into_mut() = target;
        }
        PrefixEntry::Occupied(PrefixOccupied::Inner(entry)) => {
            *entry.insert_entry(0).into_mut() = target;
        }
        PrefixEntry::Vacant(entry) => {
            *entry.insert(0)? = target;
        }
    }
    Ok(())
}

/// Adds one to the count of a word. The word replaces those that it overlaps. Its count starts at 0
/// if it is not stored.
pub fn count_over(counts: &mut Map<ZKey, u64>, word: ZKey) -> Result<(), AllocError>
    requires { unwrap_or (value_at zkey_bytes (pairs counts.old) (zkey_bytes word)) 0 + 1 < 2 ^ 64 }
    ensures counted { OnOk result (value_at zkey_bytes (pairs counts.new) (zkey_bytes word)
        ≡ Some (unwrap_or (value_at zkey_bytes (pairs counts.old) (zkey_bytes word)) 0 + 1)) }
{
    let n = counts.prefix_entry(word).or_insert_entry(0)?.into_mut();
    *n += 1;
    Ok(())
}

/// Sets the target of a section, in the place of the sections that it overlaps, with one call of
/// its entry's kind.
pub fn set_section(
    sections: &mut Map<ZKey, u64>,
    section: ZKey,
    target: u64,
) -> Result<(), AllocError>
    ensures set { OnOk result
        (value_at zkey_bytes (pairs sections.new) (zkey_bytes section) ≡ Some target) }
    ensures others { (q : List ℕ) → q ≢ zkey_bytes section → related q (zkey_bytes section) ≡ false
        → pair_at zkey_bytes (pairs sections.new) q ≡ pair_at zkey_bytes (pairs sections.old) q }
    ensures refused { OnErr result (sections.new ≡ sections.old) }
{
    *sections.prefix_entry(section).kind().or_insert(0)? = target;
    Ok(())
}

/// Returns the target of a section. If it has none, it first gets this one, in the place of the
/// sections that it overlaps.
pub fn target_or(
    sections: &mut Map<ZKey, u64>,
    section: ZKey,
    target: u64,
) -> Result<u64, AllocError>
    ensures found { IfOk result
        (λ v. value_at zkey_bytes (pairs sections.new) (zkey_bytes section) ≡ Some v) }
    ensures refused { OnErr result (sections.new ≡ sections.old) }
{
    let entry = sections
        .prefix_entry(section)
        .kind()
        .or_insert_with_entry(|| target)?;
    Ok(*entry.into_mut())
}

/// Inserts a pair of any key type, in the place of those that it overlaps.
pub fn put_over<K: AsBytes + Drop, V: Drop>(
    map: &mut Map<K, V>,
    key: K,
    value: V,
) -> Result<(), AllocError>
    requires { PrefixEntryFits K.row V.row (number 16) K.AsBytes }
    ensures set { OnOk result (value_at K.bytes (pairs map.new) (K.bytes key) ≡ Some value) }
    ensures refused { OnErr result (map.new ≡ map.old) }
{
    map.prefix_entry(key).kind().insert_entry(value)?.into_mut();
    Ok(())
}

/// Does the same for words, whose entries fit.
pub fn put_word_over(map: &mut Map<ZKey, u64>, word: ZKey, value: u64) -> Result<(), AllocError>
    ensures set { OnOk result (value_at zkey_bytes (pairs map.new) (zkey_bytes word) ≡ Some value) }
    ensures refused { OnErr result (map.new ≡ map.old) }
{
    put_over(map, word, value)
}
