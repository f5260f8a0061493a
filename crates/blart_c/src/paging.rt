//! Many pairs are copied out in one call.
ghost use Rattle.std.specs.Prelude.{◌≡◌, ◌+◌, ◌++◌, ◌≤◌, ◌<◌, ◌⊎◌, IsTrue, not, length, take, drop};
ghost use Rattle.blart_keys.specs.Bounds.{bound_bytes};
ghost use Rattle.blart_keys.specs.Content.{between};
ghost use Rattle.blart_keys.specs.KeyBytes.{slice_bytes, vec_bytes};
ghost use Rattle.blart_keys.specs.Steps.{bytes};
ghost use Rattle.blart_map.specs.Content.{pairs};
ghost use Rattle.blart_c.specs.Paged.{IsPage};

use crate::tree::Tree;
use blart_map::{DEFAULT_PREFIX_LEN, Range, bounds_in_order};
use std::ops::Bound;

/// Copies out the pairs between two bounds, as many as there is room for.
pub(crate) fn page_between(
    tree: &Tree,
    start: Bound<&&[u8]>,
    end: Bound<&&[u8]>,
    keys: &mut [u8],
    ends: &mut [usize],
    values: &mut [u64],
    needed: &mut usize,
) -> usize
    ensures { IsPage
        (between (bytes vec_bytes) (pairs tree.now.map)
        (bound_bytes slice_bytes start.entry) (bound_bytes slice_bytes end.entry))
        result keys.old keys.new ends.old ends.new values.old values.new needed.new }
{
    if !bounds_in_order(start, end) {
        *needed = 0;
        return 0;
    }
    copy_page(tree.map.range(start, end), keys, ends, values, needed)
}

/// Copies out pairs, as many as there is room for.
pub(crate) fn copy_page(
    pairs: Range<'_, Vec<u8>, u64, DEFAULT_PREFIX_LEN>,
    keys: &mut [u8],
    ends: &mut [usize],
    values: &mut [u64],
    needed: &mut usize,
) -> usize
    ensures { IsPage pairs.entry result keys.old keys.new ends.old ends.new
        values.old values.new needed.new }
{
    let mut count = 0;
    let mut used = 0;
    for (key, value) in pairs {
        let bytes = key.as_slice();
        let n = bytes.len();
        if !has_room(count, ends, values) || !append(keys, used, bytes) {
            *needed = n;
            return count;
        }
        used += n;
        ends[count] = used;
        values[count] = *value;
        count += 1;
    }
    *needed = 0;
    count
}

/// Returns whether there is room for one more pair after `count` pairs.
fn has_room(count: usize, ends: &[usize], values: &[u64]) -> bool
    ensures yes { IsTrue result → (count < length ends.now) × (count < length values.now) }
    ensures no { IsTrue (not result) → (length ends.now ≤ count) ⊎ (length values.now ≤ count) }
{
    count < ends.len() && count < values.len()
}

/// Writes the bytes after the first `used`, and returns whether there is room for them. If there is
/// not, nothing is written.
fn append(keys: &mut [u8], used: usize, bytes: &[u8]) -> bool
    requires { used ≤ length keys.old }
    ensures fits { IsTrue result → used + length bytes.now ≤ length keys.old }
    ensures put { IsTrue result → keys.new
        ≡ take used keys.old ++ bytes.now ++ drop (used + length bytes.now) keys.old }
    ensures full { IsTrue (not result) → length keys.old < used + length bytes.now }
    ensures kept { IsTrue (not result) → keys.new ≡ keys.old }
{
    let n = bytes.len();
    if n > keys.len() - used {
        return false;
    }
    keys[used..used + n].copy_from_slice(bytes);
    true
}
