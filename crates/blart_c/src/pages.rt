//! Pages: many pairs by one call.
ghost use Rattle.std.specs.Prelude.{◌≡◌};
ghost use Rattle.blart_keys.specs.Content.{between, under};
ghost use Rattle.blart_keys.specs.Bounds.{bound_bytes};
ghost use Rattle.blart_keys.specs.KeyBytes.{slice_bytes, vec_bytes};
ghost use Rattle.blart_keys.specs.Steps.{bytes};
ghost use Rattle.blart_c.specs.Held.{held};
ghost use Rattle.blart_map.specs.Content.{pairs};
ghost use Rattle.blart_c.specs.Paged.{IsPage, end_at, later, start_at};

use crate::handle::ArtMap;
use crate::paging::page_between;
use crate::tree::Tree;
use blart_keys::is_less;
use std::ops::Bound;

/// Copies out the pairs from the key `from` on, in order, as many as there is room for, and returns
/// how many these are. If `skip` is true, a pair with the key `from` itself is left out: a caller
/// passes the last key of the page before.
///
/// The keys' bytes lie one after another in `keys`, the end of each in `ends`, and the values in
/// `values`. What is left of the buffers is unchanged. `needed` becomes the length of the key that
/// follows the page, or 0 if none does.
///
/// Cost: an opening, and one visit for each pair that it reads: those that it copies out, and the
/// next.
#[unsafe(no_mangle)]
pub extern "C" fn art_page(
    map: &mut ArtMap,
    from: &[u8],
    skip: bool,
    keys: &mut [u8],
    ends: &mut [usize],
    values: &mut [u64],
    needed: &mut usize,
) -> usize
    ensures page { IsPage
        (between (bytes vec_bytes) (held map.old) (start_at skip from.now) Bound.Unbounded)
        result keys.old keys.new ends.old ends.new values.old values.new needed.new }
    ensures same { held map.new ≡ held map.old }
{
    let start = start_bound(&from, skip);
    page_between(
        map.tree(),
        start,
        Bound::Unbounded,
        keys,
        ends,
        values,
        needed,
    )
}

/// Copies out the pairs from the key `from` up to the key `to`, like [`art_page`]. If `with_to` is
/// false, a pair with the key `to` itself is left out.
///
/// Cost: as for [`art_page`].
#[unsafe(no_mangle)]
pub extern "C" fn art_range_page(
    map: &mut ArtMap,
    from: &[u8],
    skip: bool,
    to: &[u8],
    with_to: bool,
    keys: &mut [u8],
    ends: &mut [usize],
    values: &mut [u64],
    needed: &mut usize,
) -> usize
    ensures page { IsPage
        (between (bytes vec_bytes) (held map.old) (start_at skip from.now) (end_at with_to to.now))
        result keys.old keys.new ends.old ends.new values.old values.new needed.new }
    ensures same { held map.new ≡ held map.old }
{
    let start = start_bound(&from, skip);
    let end = end_bound(&to, with_to);
    page_between(map.tree(), start, end, keys, ends, values, needed)
}

/// Copies out the pairs from the key `from` on whose keys begin with `prefix`, like [`art_page`].
///
/// Cost: two openings, and one visit for each pair that it reads: the last one with the prefix,
/// those that it copies out, and the next.
#[unsafe(no_mangle)]
pub extern "C" fn art_prefix_page(
    map: &mut ArtMap,
    prefix: &[u8],
    from: &[u8],
    skip: bool,
    keys: &mut [u8],
    ends: &mut [usize],
    values: &mut [u64],
    needed: &mut usize,
) -> usize
    ensures page { IsPage
        (under (bytes vec_bytes)
        (between (bytes vec_bytes) (held map.old) (start_at skip from.now) Bound.Unbounded)
        prefix.now)
        result keys.old keys.new ends.old ends.new values.old values.new needed.new }
    ensures same { held map.new ≡ held map.old }
{
    prefix_page(map.tree(), prefix, from, skip, keys, ends, values, needed)
}

/// Copies out the pairs from the key `from` on whose keys begin with `prefix`: those up to the last
/// of them.
fn prefix_page<'a>(
    tree: &Tree,
    prefix: &'a [u8],
    from: &'a [u8],
    skip: bool,
    keys: &mut [u8],
    ends: &mut [usize],
    values: &mut [u64],
    needed: &mut usize,
) -> usize
    ensures { IsPage
        (under (bytes vec_bytes)
        (between (bytes vec_bytes) (pairs tree.now.map) (start_at skip from.now) Bound.Unbounded)
        prefix.now)
        result keys.old keys.new ends.old ends.new values.old values.new needed.new }
{
    tree.map.law();
    let Some((last, _)) = tree.map.prefix(prefix).next_back() else {
        *needed = 0;
        return 0;
    };
    let last = last.as_slice();
    let start = later_bound(&prefix, &from, skip);
    page_between(
        tree,
        start,
        Bound::Included(&last),
        keys,
        ends,
        values,
        needed,
    )
}

/// Returns the bound from which a page below a prefix begins: the prefix, if `from` is less.
fn later_bound<'a, 'b>(prefix: &'a &'b [u8], from: &'a &'b [u8], skip: bool) -> Bound<&'a &'b [u8]>
    ensures { bound_bytes slice_bytes result ≡ later skip from.now.now prefix.now.now }
{
    if is_less(from, prefix) {
        Bound::Included(prefix)
    } else {
        start_bound(from, skip)
    }
}

/// Returns the bound from which a page begins.
fn start_bound<'a, 'b>(from: &'a &'b [u8], skip: bool) -> Bound<&'a &'b [u8]>
    ensures { bound_bytes slice_bytes result ≡ start_at skip from.now.now }
{
    if skip {
        Bound::Excluded(from)
    } else {
        Bound::Included(from)
    }
}

/// Returns the bound up to which a page goes.
fn end_bound<'a, 'b>(to: &'a &'b [u8], with_to: bool) -> Bound<&'a &'b [u8]>
    ensures { bound_bytes slice_bytes result ≡ end_at with_to to.now.now }
{
    if with_to {
        Bound::Included(to)
    } else {
        Bound::Excluded(to)
    }
}
