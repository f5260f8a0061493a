//! Some tables of mounts. In each of them no path is a prefix of another.
ghost use Rattle.std.specs.Prelude.{◌≡◌, ◌≢◌, ◌+◌, ◌*◌, ◌<◌, ◌≤◌, ◌&&◌, ℕ, List, true, false, not, length, leb, max, is_some, option_copied, position, OnOk, OnErr, IfSome, Some, None};
ghost use Rattle.blart_keys.specs.Bounds.{is_from_start, slice_bound};
ghost use Rattle.blart_keys.specs.Bytes.{begins, less};
ghost use Rattle.blart_keys.specs.KeyBytes.{vec_bytes};
ghost use Rattle.blart_keys.specs.Stored.{pair_at, value_at, has, kept, overlaps, shown, Updates};
ghost use Rattle.blart_map.specs.Content.{pairs};
ghost use Rattle.prefix_router.specs.Best.{IsBest, is_longer, is_shorter, better, StartsUnder};
ghost use Rattle.prefix_router.specs.Tables.{all_mounts};

use blart_keys::is_less;
use blart_map::{DEFAULT_PREFIX_LEN, TreeMap, TryInsertError, Visits};
use std::alloc::{AllocError, Global};
use std::iter::Iterator;
use std::ops::Bound;

/// Mounts of which no path is a prefix of another.
pub(crate) type Table<V> = TreeMap<Vec<u8>, V, DEFAULT_PREFIX_LEN>;

/// A mount that is lent: its path and its target.
pub(crate) type Mount<'a, V> = (&'a Vec<u8>, &'a V);

/// Sets the target of a mounted path, and returns the old one. The place is that of the first table
/// that has the path.
pub(crate) fn set_target<V: Drop>(
    tables: &mut Vec<Table<V>>,
    place: usize,
    path: Vec<u8>,
    target: V,
) -> Option<V>
    requires { position (λ table. has vec_bytes (pairs table) path.items) tables.old.items
        ≡ Some place }
    ensures old { result ≡ value_at vec_bytes (all_mounts tables.old.items) path.items }
    ensures some { is_some result ≡ true }
    ensures updates { Updates vec_bytes (all_mounts tables.old.items)
        (all_mounts tables.new.items) path.items
        (Some (kept vec_bytes (all_mounts tables.old.items) (path, target))) }
    ensures len { length (all_mounts tables.new.items) ≡ length (all_mounts tables.old.items) }
    ensures tables { length tables.new.items ≡ length tables.old.items }
{
    let table = &mut tables[place];
    table.law();
    match table.try_insert(path, target) {
        Ok(old) => old,
        Err(_) => unreachable!(),
    }
}

/// Mounts a target at a path at which nothing is mounted: in the first table in which the path does
/// not conflict, or in a new one. If the call fails, the tables are unchanged.
pub(crate) fn add<V: Drop>(
    tables: &mut Vec<Table<V>>,
    alloc: Global,
    path: Vec<u8>,
    target: V,
) -> Result<(), AllocError>
    requires { pair_at vec_bytes (all_mounts tables.old.items) path.items ≡ None }
    ensures updates { OnOk result (Updates vec_bytes (all_mounts tables.old.items)
        (all_mounts tables.new.items) path.items (Some (path, target))) }
    ensures len { OnOk result
        (length (all_mounts tables.new.items) ≡ length (all_mounts tables.old.items) + 1) }
    ensures tables { length tables.new.items ≤ length tables.old.items + 1 }
    ensures flat { overlaps vec_bytes (all_mounts tables.old.items) path.items ≡ false
        → length tables.new.items ≤ max (length tables.old.items) 1 }
    ensures err { OnErr result (tables.new.items ≡ tables.old.items) }
{
    match free_table(tables, path.as_slice()) {
        Some(place) => put(&mut tables[place], path, target),
        None => {
            tables.reserve(1)?;
            let mut table = TreeMap::new(alloc);
            if let Err(error) = put(&mut table, path, target) {
                drop(table);
                return Err(error);
            }
            tables.push_reserved(table);
            Ok(())
        }
    }
}

/// Mounts a target in a table, at a path at which nothing is mounted and which does not conflict.
/// If the call fails, the table is unchanged.
fn put<V: Drop>(table: &mut Table<V>, path: Vec<u8>, target: V) -> Result<(), AllocError>
    requires absent { pair_at vec_bytes (pairs table.old) path.items ≡ None }
    requires free { overlaps vec_bytes (pairs table.old) path.items ≡ false }
    ensures updates { OnOk result (Updates vec_bytes (pairs table.old) (pairs table.new)
        path.items (Some (path, target))) }
    ensures len { OnOk result (length (pairs table.new) ≡ length (pairs table.old) + 1) }
    ensures err { OnErr result (table.new ≡ table.old) }
{
    match table.try_insert(path, target) {
        Ok(_) => Ok(()),
        Err(TryInsertError::Memory(error)) => Err(error),
        Err(TryInsertError::Prefix(_)) => unreachable!(),
    }
}

/// Removes a mounted path, and returns its target. The place is that of the first table that has
/// the path.
pub(crate) fn take<V: Drop>(tables: &mut Vec<Table<V>>, place: usize, path: &[u8]) -> Option<V>
    requires { position (λ table. has vec_bytes (pairs table) path.now) tables.old.items
        ≡ Some place }
    ensures old { result ≡ value_at vec_bytes (all_mounts tables.old.items) path.now }
    ensures some { is_some result ≡ true }
    ensures others { (r : List ℕ) → r ≢ path.now
        → pair_at vec_bytes (all_mounts tables.new.items) r
        ≡ pair_at vec_bytes (all_mounts tables.old.items) r }
    ensures len { length (all_mounts tables.new.items) + 1
        ≡ length (all_mounts tables.old.items) }
    ensures tables { length tables.new.items ≡ length tables.old.items }
{
    let table = &mut tables[place];
    table.remove(&path)
}

/// Drops the table at a place, if it has no mounts.
pub(crate) fn drop_empty<V: Drop>(tables: &mut Vec<Table<V>>, place: usize)
    requires { place < length tables.old.items }
    ensures same { all_mounts tables.new.items ≡ all_mounts tables.old.items }
    ensures tables { length tables.new.items ≤ length tables.old.items }
{
    let is_empty = tables[place].is_empty();
    if is_empty {
        drop(tables.remove(place));
    }
}

/// Returns the place of the first table that has the path.
pub(crate) fn table_of<V>(tables: &[Table<V>], path: &[u8]) -> Option<usize>
    ensures { result ≡ position (λ table. has vec_bytes (pairs table) path.now) tables.now }
{
    tables.iter().position(|table| table.contains_key(&path))
}

/// Returns the place of the first table in which the path conflicts with no other.
pub(crate) fn free_table<V>(tables: &[Table<V>], path: &[u8]) -> Option<usize>
    ensures { result
        ≡ position (λ table. not (overlaps vec_bytes (pairs table) path.now)) tables.now }
{
    tables.iter().position(|table| !table.conflicts(&path))
}

/// Returns the target that is mounted at the path.
pub(crate) fn target_at<'a, V>(tables: &'a [Table<V>], path: &[u8]) -> Option<&'a V>
    ensures { option_copied result ≡ value_at vec_bytes (all_mounts tables.now) path.now }
{
    for table in tables {
        if let Some(target) = table.get(&path) {
            return Some(target);
        }
    }
    None
}

/// Returns the mount with the longest path that is a prefix of `path`, and counts the visits.
pub(crate) fn longest<'a, V>(
    tables: &'a [Table<V>],
    path: &[u8],
    visits: &mut Visits,
) -> Option<Mount<'a, V>>
    ensures best { IsBest vec_bytes (λ r. begins r path.now) is_longer
        (all_mounts tables.now) (shown result) }
    ensures counted { visits.new.count
        ≤ visits.old.count + length tables.now * (length path.now + 1) }
    ensures grows { visits.old.count ≤ visits.new.count }
    ensures some_counted { IfSome result (λ _. visits.old.count < visits.new.count) }
{
    let mut best = None;
    for table in tables {
        best = longer(best, front_in(table, path, visits));
    }
    best
}

/// Returns the mount with the shortest path that is a prefix of `path` and has `least` bytes or
/// more.
pub(crate) fn shortest<'a, V>(
    tables: &'a [Table<V>],
    path: &[u8],
    least: usize,
) -> Option<Mount<'a, V>>
    ensures { IsBest vec_bytes (λ r. begins r path.now && leb least (length r)) is_shorter
        (all_mounts tables.now) (shown result) }
{
    let mut best = None;
    for table in tables {
        best = shorter(best, long_front_in(table, path, least));
    }
    best
}

/// Returns the mount with the least path that is not before the bound and begins with `front`.
pub(crate) fn first_under<'a, V>(
    tables: &'a [Table<V>],
    front: &[u8],
    low: Bound<&[u8]>,
) -> Option<Mount<'a, V>>
    requires { StartsUnder front.now (slice_bound low) }
    ensures { IsBest vec_bytes (λ r. is_from_start (slice_bound low.entry) r && begins front.now r)
        less (all_mounts tables.now) (shown result) }
{
    let mut best = None;
    for table in tables {
        best = lesser(best, first_in(table, front, low));
    }
    best
}

/// Returns the mount of a table whose path is a prefix of `path`, and counts the visits.
fn front_in<'a, V>(table: &'a Table<V>, path: &[u8], visits: &mut Visits) -> Option<Mount<'a, V>>
    ensures best { IsBest vec_bytes (λ r. begins r path.now) is_longer
        (pairs table.now) (shown result) }
    ensures counted { visits.new.count ≤ visits.old.count + length path.now + 1 }
    ensures grows { visits.old.count ≤ visits.new.count }
    ensures some_counted { IfSome result (λ _. visits.old.count < visits.new.count) }
{
    table.law();
    table.prefix_get_key_value_counted(&path, visits)
}

/// Returns the mount of a table whose path is a prefix of `path`, if it has `least` bytes or more.
fn long_front_in<'a, V>(table: &'a Table<V>, path: &[u8], least: usize) -> Option<Mount<'a, V>>
    ensures { IsBest vec_bytes (λ r. begins r path.now && leb least (length r)) is_shorter
        (pairs table.now) (shown result) }
{
    table.law();
    match table.prefix_get_key_value(&path) {
        Some(front) => if least <= front.0.len() {
            Some(front)
        } else {
            None
        },
        None => None,
    }
}

/// Returns the first mount of a table that is not before the bound, if its path begins with
/// `front`.
fn first_in<'a, V>(table: &'a Table<V>, front: &[u8], low: Bound<&[u8]>) -> Option<Mount<'a, V>>
    requires { StartsUnder front.now (slice_bound low) }
    ensures { IsBest vec_bytes (λ r. is_from_start (slice_bound low.entry) r && begins front.now r)
        less (pairs table.now) (shown result) }
{
    table.law();
    match table.range(low.as_ref(), Bound::Unbounded).next() {
        Some(pair) => if pair.0.starts_with(front) {
            Some(pair)
        } else {
            None
        },
        None => None,
    }
}

/// Returns the mount with the longer path, or the one there is.
fn longer<'a, V>(one: Option<Mount<'a, V>>, other: Option<Mount<'a, V>>) -> Option<Mount<'a, V>>
    ensures { shown result ≡ better vec_bytes is_longer (shown one.entry) (shown other.entry) }
{
    match (one, other) {
        (Some(x), Some(y)) => Some(if x.0.len() < y.0.len() { y } else { x }),
        (Some(x), None) => Some(x),
        (None, y) => y,
    }
}

/// Returns the mount with the shorter path, or the one there is.
fn shorter<'a, V>(one: Option<Mount<'a, V>>, other: Option<Mount<'a, V>>) -> Option<Mount<'a, V>>
    ensures { shown result ≡ better vec_bytes is_shorter (shown one.entry) (shown other.entry) }
{
    match (one, other) {
        (Some(x), Some(y)) => Some(if y.0.len() < x.0.len() { y } else { x }),
        (Some(x), None) => Some(x),
        (None, y) => y,
    }
}

/// Returns the mount with the lesser path, or the one there is.
fn lesser<'a, V>(one: Option<Mount<'a, V>>, other: Option<Mount<'a, V>>) -> Option<Mount<'a, V>>
    ensures { shown result ≡ better vec_bytes less (shown one.entry) (shown other.entry) }
{
    match (one, other) {
        (Some(x), Some(y)) => Some(if is_less(y.0, x.0) { y } else { x }),
        (Some(x), None) => Some(x),
        (None, y) => y,
    }
}
