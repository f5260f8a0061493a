//! Runs both maps in turn on the same keys.
use crate::bulk_rows::time_bulk;
use crate::joins::Joiner;
use crate::keys::{Key, Made};
use crate::maps::{Contestant, Copied, Ours, Theirs};
use crate::mount_rows::time_mounts;
use crate::readings::{FirstBytes, Lengths};
use crate::resolvers::{Resolver, Sorted};
use crate::set_rows::time_sets;
use crate::sets::{OurSet, SetContestant, TheirSet};
use crate::sheet::Sheet;
use crate::stores::{filled, remade};
use crate::wishes::{Group, Wishes};
use crate::workload::Workload;
use blart_keys::{AsBytes, NoPrefixesBytes};
use prefix_router::Mounts;

/// The number of times that each map is timed. The least time counts.
const ROUNDS: usize = 3;

/// Times both maps in turn on keys of one type. The calls that require a key type whose keys cannot
/// conflict are timed on keys of a second type.
pub(crate) fn contest<K: Key, F: Made + NoPrefixesBytes>(
    rt: &HostRuntime,
    workload: &Workload<K>,
    wishes: Wishes,
    sheet: &mut Sheet,
) {
    for _ in 0..ROUNDS {
        sheet.begin_run(true);
        run_maps::<Ours<K>, Ours<F>>(rt, workload, wishes, sheet);
        run_others::<OurSet, Mounts<u64>, Mounts<u64>, K>(rt, workload, wishes, sheet);
        sheet.begin_run(false);
        run_maps::<Theirs<K>, Theirs<F>>(rt, workload, wishes, sheet);
        run_others::<TheirSet, Theirs<Vec<u8>>, Sorted, K>(rt, workload, wishes, sheet);
    }
}

/// Times the calls of a map that the arguments ask for.
fn run_maps<M: Copied, J: Joiner>(
    rt: &HostRuntime,
    workload: &Workload<M::Key>,
    wishes: Wishes,
    sheet: &mut Sheet,
) {
    if wishes.asks_for(Group::Pairs) {
        time_pairs::<M>(rt, workload, sheet);
    }
    if wishes.asks_for(Group::Bulk) {
        time_bulk::<M, J>(rt, workload, sheet);
    }
}

/// Times the calls of a set and of tables of mounts that the arguments ask for. Does nothing if the
/// keys are arrays.
fn run_others<S: SetContestant, T: Resolver, V: Resolver, K: AsBytes>(
    rt: &HostRuntime,
    workload: &Workload<K>,
    wishes: Wishes,
    sheet: &mut Sheet,
) {
    if workload.kind.is_of_arrays() {
        return;
    }
    if wishes.asks_for(Group::Sets) {
        time_sets::<S, K>(rt, workload, sheet);
    }
    if wishes.asks_for(Group::Mounts) {
        time_mounts::<T, V, K>(rt, workload, sheet);
    }
}

/// Times the calls on single pairs, and walks.
fn time_pairs<M: Contestant>(rt: &HostRuntime, workload: &Workload<M::Key>, sheet: &mut Sheet) {
    let mut map = M::empty(rt.alloc());
    time_store(rt, &mut map, workload, sheet);
    drop(map);
    let mut map = M::empty(rt.alloc());
    time_store_reserved(rt, &mut map, workload, sheet);
    drop(map);
    time_rest::<M>(rt, workload, sheet);
}

/// Times a map from its first insertion to its last removal.
fn time_store<M: Contestant>(
    rt: &HostRuntime,
    map: &mut M,
    workload: &Workload<M::Key>,
    sheet: &mut Sheet,
) {
    let keys = remade(rt.alloc(), &workload.keys, sheet);
    sheet.start(rt);
    let stored = map.store(keys);
    sheet.end(rt);
    let sum = sheet.checked(stored);
    sheet.note("insert", workload.keys.len(), sum);
    time_look_ups(rt, map, workload, sheet);
    time_changes(rt, map, workload, sheet);
}

/// Times insertions into reserved room of an empty map.
fn time_store_reserved<M: Contestant>(
    rt: &HostRuntime,
    map: &mut M,
    workload: &Workload<M::Key>,
    sheet: &mut Sheet,
) {
    let keys = remade(rt.alloc(), &workload.keys, sheet);
    sheet.start(rt);
    let stored = map.store_reserved(keys);
    sheet.end(rt);
    let sum = sheet.checked(stored);
    sheet.note("insert, reserved", workload.keys.len(), sum);
}

/// Times look-ups, and walks that borrow the map.
fn time_look_ups<M: Contestant>(
    rt: &HostRuntime,
    map: &M,
    workload: &Workload<M::Key>,
    sheet: &mut Sheet,
) {
    let count = workload.keys.len();
    sheet.start(rt);
    let sum = map.look_up(&workload.hits);
    sheet.stop(rt, "hit", count, sum);
    sheet.start(rt);
    let sum = map.look_up(&workload.misses);
    sheet.stop(rt, "miss", count, sum);
    sheet.start(rt);
    let sum = map.walk::<Lengths>();
    sheet.stop(rt, "iter", count, sum);
    sheet.start(rt);
    let sum = map.walk::<FirstBytes>();
    sheet.stop(rt, "iter, keys", count, sum);
    sheet.start(rt);
    let sum = map.range(&workload.hits);
    sheet.stop(rt, "range of 100", count.min(10_000), sum);
    sheet.start(rt);
    let sum = map.prefix(&workload.fronts);
    sheet.stop(rt, "prefix", workload.fronts.len(), sum);
}

/// Times a call that changes all values, and the removal of each pair.
fn time_changes<M: Contestant>(
    rt: &HostRuntime,
    map: &mut M,
    workload: &Workload<M::Key>,
    sheet: &mut Sheet,
) {
    let count = workload.keys.len();
    sheet.start(rt);
    let sum = map.raise();
    sheet.stop(rt, "iter_mut", count, sum);
    sheet.start(rt);
    let sum = map.remove(&workload.hits);
    sheet.stop(rt, "remove", count, sum);
}

/// Times calls that go over all pairs and keep or take them.
fn time_rest<M: Contestant>(rt: &HostRuntime, workload: &Workload<M::Key>, sheet: &mut Sheet) {
    let count = workload.keys.len();
    let mut map: M = filled(rt.alloc(), &workload.keys, sheet);
    sheet.start(rt);
    let sum = map.retain();
    sheet.stop(rt, "retain", count, sum);
    drop(map);
    let map: M = filled(rt.alloc(), &workload.keys, sheet);
    sheet.start(rt);
    let sum = map.take_apart();
    sheet.stop(rt, "into_iter", count, sum);
}
