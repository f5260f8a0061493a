//! The first pair, the last one, and the pair beside a key.
ghost use Rattle.std.specs.Prelude.{◌≡◌, length};
ghost use Rattle.blart_c.specs.Held.{above, below, first_of, held, last_of};
ghost use Rattle.blart_c.specs.Copied.{code_of, key_after, length_after, value_after};

use crate::copying::copy_out;
use crate::handle::ArtMap;
use std::ops::Bound;

/// Copies out the first pair, in the order of the keys' bytes. Returns `FOUND`; or `NONE` if the
/// map has no pair, and then nothing is written; or `TOO_SMALL` if the key is longer than the
/// buffer `key`, and then only its length is written, to `len`.
///
/// Cost: one visit, and copies the key.
#[unsafe(no_mangle)]
pub extern "C" fn art_first(
    map: &mut ArtMap,
    key: &mut [u8],
    len: &mut usize,
    value: &mut u64,
) -> u32
    ensures code { result ≡ code_of (first_of (held map.old)) (length key.old) }
    ensures key { key.new ≡ key_after (first_of (held map.old)) key.old }
    ensures len { len.new ≡ length_after (first_of (held map.old)) len.old }
    ensures value { value.new
        ≡ value_after (first_of (held map.old)) (length key.old) value.old }
    ensures same { held map.new ≡ held map.old }
{
    copy_out(map.tree().map.first_key_value(), key, len, value)
}

/// Copies out the last pair, like [`art_first`].
///
/// Cost: one visit, and copies the key.
#[unsafe(no_mangle)]
pub extern "C" fn art_last(
    map: &mut ArtMap,
    key: &mut [u8],
    len: &mut usize,
    value: &mut u64,
) -> u32
    ensures code { result ≡ code_of (last_of (held map.old)) (length key.old) }
    ensures key { key.new ≡ key_after (last_of (held map.old)) key.old }
    ensures len { len.new ≡ length_after (last_of (held map.old)) len.old }
    ensures value { value.new ≡ value_after (last_of (held map.old)) (length key.old) value.old }
    ensures same { held map.new ≡ held map.old }
{
    copy_out(map.tree().map.last_key_value(), key, len, value)
}

/// Copies out the first pair whose key is greater than `after`, like [`art_first`]. `after` need
/// not be stored.
///
/// Cost: an opening and one visit, and copies the key.
#[unsafe(no_mangle)]
pub extern "C" fn art_next(
    map: &mut ArtMap,
    after: &[u8],
    key: &mut [u8],
    len: &mut usize,
    value: &mut u64,
) -> u32
    ensures code { result ≡ code_of (first_of (above (held map.old) after.now)) (length key.old) }
    ensures key { key.new ≡ key_after (first_of (above (held map.old) after.now)) key.old }
    ensures len { len.new ≡ length_after (first_of (above (held map.old) after.now)) len.old }
    ensures value { value.new
        ≡ value_after (first_of (above (held map.old) after.now)) (length key.old) value.old }
    ensures same { held map.new ≡ held map.old }
{
    let next = map
        .tree()
        .map
        .range(Bound::Excluded(&after), Bound::Unbounded)
        .next();
    copy_out(next, key, len, value)
}

/// Copies out the last pair whose key is less than `before`, like [`art_first`]. `before` need not
/// be stored.
///
/// Cost: an opening and one visit, and copies the key.
#[unsafe(no_mangle)]
pub extern "C" fn art_prev(
    map: &mut ArtMap,
    before: &[u8],
    key: &mut [u8],
    len: &mut usize,
    value: &mut u64,
) -> u32
    ensures code { result ≡ code_of (last_of (below (held map.old) before.now)) (length key.old) }
    ensures key { key.new ≡ key_after (last_of (below (held map.old) before.now)) key.old }
    ensures len { len.new ≡ length_after (last_of (below (held map.old) before.now)) len.old }
    ensures value { value.new
        ≡ value_after (last_of (below (held map.old) before.now)) (length key.old) value.old }
    ensures same { held map.new ≡ held map.old }
{
    let prev = map
        .tree()
        .map
        .range(Bound::Unbounded, Bound::Excluded(&before))
        .next_back();
    copy_out(prev, key, len, value)
}
