//! Look-ups, insertions and removals.
ghost use Rattle.std.specs.Prelude.{◌≡◌, ◌≢◌, ◌<◌, ◌≤◌, ◌⊎◌, ℕ, List, [], length, true, false, is_some, unwrap_or, option_map, Some, None};
ghost use Rattle.blart_keys.specs.Bytes.{related};
ghost use Rattle.blart_keys.specs.Content.{under, without};
ghost use Rattle.blart_keys.specs.KeyBytes.{vec_bytes};
ghost use Rattle.blart_keys.specs.Outside.{outside};
ghost use Rattle.blart_keys.specs.Steps.{bytes};
ghost use Rattle.blart_keys.specs.Stored.{overlaps, pair_at_front, value_at};
ghost use Rattle.blart_c.specs.Held.{held, key_length};

use crate::codes::{ADDED, CONFLICT, NO_MEMORY, REPLACED};
use crate::handle::ArtMap;
use blart_map::TryInsertError;
use std::alloc::Global;

/// Returns how many pairs there are.
///
/// Cost: reads a count.
#[unsafe(no_mangle)]
pub extern "C" fn art_len(map: &mut ArtMap) -> usize
    ensures count { result ≡ length (held map.old) }
    ensures same { held map.new ≡ held map.old }
{
    map.tree().map.len()
}

/// Returns whether the key is stored, and writes its value. If it is not, nothing is written.
///
/// Cost: at most n + 1 visits, if the key has n bytes. A visit is a read of an inner node or of a
/// pair.
#[unsafe(no_mangle)]
pub extern "C" fn art_get(map: &mut ArtMap, key: &[u8], value: &mut u64) -> bool
    ensures found { result ≡ is_some (value_at vec_bytes (held map.old) key.now) }
    ensures value { value.new ≡ unwrap_or (value_at vec_bytes (held map.old) key.now) value.old }
    ensures same { held map.new ≡ held map.old }
{
    match map.tree().map.get(&key) {
        Some(stored) => {
            *value = *stored;
            true
        }
        None => false,
    }
}

/// Returns whether a stored key is a prefix of the query, and writes the length of that key and its
/// value. There is at most one. If there is none, nothing is written.
///
/// Cost: at most n + 1 visits, if the query has n bytes.
#[unsafe(no_mangle)]
pub extern "C" fn art_prefix_get(
    map: &mut ArtMap,
    query: &[u8],
    len: &mut usize,
    value: &mut u64,
) -> bool
    ensures found { result ≡ is_some (pair_at_front vec_bytes (held map.old) query.now) }
    ensures len { len.new
        ≡ unwrap_or (option_map key_length
        (pair_at_front vec_bytes (held map.old) query.now)) len.old }
    ensures value { value.new
        ≡ unwrap_or (option_map (λ pair. pair.1)
        (pair_at_front vec_bytes (held map.old) query.now)) value.old }
    ensures same { held map.new ≡ held map.old }
{
    match map.tree().map.prefix_get_key_value(&query) {
        Some((key, stored)) => {
            *len = key.as_slice().len();
            *value = *stored;
            true
        }
        None => false,
    }
}

/// Gives the key the value. Returns `ADDED` if the key was new. If it was stored, returns
/// `REPLACED` and writes the value that it had to `old`. Returns `CONFLICT` exactly if the key is a
/// proper prefix of a stored key, or a stored key is one of it. Returns `NO_MEMORY` if memory runs
/// out: the key is copied before it is looked up, so a stored key may need memory too. After
/// `CONFLICT` and `NO_MEMORY` the map is unchanged. `*old` is unchanged unless the code is
/// `REPLACED`.
///
/// Cost: copies the key, and then makes an insertion.
#[unsafe(no_mangle)]
pub extern "C" fn art_insert(
    map: &mut ArtMap,
    alloc: Global,
    key: &[u8],
    value: u64,
    old: &mut u64,
) -> u32
    ensures codes { result ≤ NO_MEMORY }
    ensures added { result ≡ ADDED → value_at vec_bytes (held map.old) key.now ≡ None }
    ensures replaced { result ≡ REPLACED
        → value_at vec_bytes (held map.old) key.now ≡ Some old.new }
    ensures unwritten { result ≢ REPLACED → old.new ≡ old.old }
    ensures stored { result < CONFLICT
        → value_at vec_bytes (held map.new) key.now ≡ Some value }
    ensures others { (q : List ℕ) → q ≢ key.now
        → value_at vec_bytes (held map.new) q ≡ value_at vec_bytes (held map.old) q }
    ensures conflict { result ≡ CONFLICT → overlaps vec_bytes (held map.old) key.now ≡ true }
    ensures free { result ≢ CONFLICT → overlaps vec_bytes (held map.old) key.now ≡ false }
    ensures refused { CONFLICT ≤ result → held map.new ≡ held map.old }
{
    let Ok(own) = Vec::from_slice(alloc, key) else {
        return if map.tree().map.conflicts(&key) {
            CONFLICT
        } else {
            NO_MEMORY
        };
    };
    match map.tree().map.try_insert(own, value) {
        Ok(Some(before)) => {
            *old = before;
            REPLACED
        }
        Ok(None) => ADDED,
        Err(TryInsertError::Prefix(_)) => CONFLICT,
        Err(TryInsertError::Memory(_)) => NO_MEMORY,
    }
}

/// Gives the key the value, in place of all pairs whose keys are related to it: keys of which it is
/// a prefix, and a key that is a prefix of it. Returns `ADDED`, or `NO_MEMORY` if memory runs out,
/// and then the map is unchanged.
///
/// Cost: copies the key. Then one descent, and one for each related pair but one. If there are
/// none, an insertion.
#[unsafe(no_mangle)]
pub extern "C" fn art_overwrite(map: &mut ArtMap, alloc: Global, key: &[u8], value: u64) -> u32
    ensures codes { (result ≡ ADDED) ⊎ (result ≡ NO_MEMORY) }
    ensures stored { result ≡ ADDED → value_at vec_bytes (held map.new) key.now ≡ Some value }
    ensures gone { result ≡ ADDED → (q : List ℕ) → related q key.now ≡ true → q ≢ key.now
        → value_at vec_bytes (held map.new) q ≡ None }
    ensures others { (q : List ℕ) → related q key.now ≡ false
        → value_at vec_bytes (held map.new) q ≡ value_at vec_bytes (held map.old) q }
    ensures refused { result ≡ NO_MEMORY → held map.new ≡ held map.old }
{
    let Ok(own) = Vec::from_slice(alloc, key) else {
        return NO_MEMORY;
    };
    match map.tree().map.prefix_insert(own, value) {
        Ok(()) => ADDED,
        Err(_) => NO_MEMORY,
    }
}

/// Removes the key. Returns whether it was stored, and writes the value that it had. If it was not,
/// nothing is written.
///
/// Cost: one descent. Does not allocate.
#[unsafe(no_mangle)]
pub extern "C" fn art_remove(map: &mut ArtMap, key: &[u8], value: &mut u64) -> bool
    ensures found { result ≡ is_some (value_at vec_bytes (held map.old) key.now) }
    ensures value { value.new ≡ unwrap_or (value_at vec_bytes (held map.old) key.now) value.old }
    ensures rest { held map.new ≡ without (bytes vec_bytes) (held map.old) key.now }
{
    match map.tree().map.remove(&key) {
        Some(before) => {
            *value = before;
            true
        }
        None => false,
    }
}

/// Removes the pairs whose keys begin with these bytes, and returns how many there were.
///
/// Cost: a few descents, however many pairs there are, and drops the removed pairs. Does not
/// allocate.
#[unsafe(no_mangle)]
pub extern "C" fn art_remove_prefix(map: &mut ArtMap, prefix: &[u8]) -> usize
    ensures rest { held map.new ≡ outside (bytes vec_bytes) (held map.old) prefix.now }
    ensures count { result ≡ length (under (bytes vec_bytes) (held map.old) prefix.now) }
{
    map.tree().map.remove_prefix(prefix)
}

/// Removes all pairs.
///
/// Cost: drops each pair. It keeps the memory until the map is freed.
#[unsafe(no_mangle)]
pub extern "C" fn art_clear(map: &mut ArtMap)
    ensures { held map.new ≡ [] }
{
    map.tree().map.clear();
}
