//! Times calls of sets.
use crate::sets::{Merge, SetContestant};
use crate::sheet::Sheet;
use crate::workload::Workload;
use blart_keys::AsBytes;

/// Times the walks over two sets. Of every six keys the first set has four and the second three.
/// They share two of these.
pub(crate) fn time_sets<S: SetContestant, K: AsBytes>(
    rt: &HostRuntime,
    workload: &Workload<K>,
    sheet: &mut Sheet,
) {
    let mut one = S::empty(rt.alloc());
    let mut other = S::empty(rt.alloc());
    let left = store_every(rt, &mut one, workload, 3, sheet);
    let right = store_every(rt, &mut other, workload, 2, sheet);
    time_merges(rt, &one, &other, left.saturating_add(right), sheet);
    drop(one);
    drop(other);
}

/// Stores the keys whose place is no multiple of `number` in an empty set.
fn store_every<S: SetContestant, K: AsBytes>(
    rt: &HostRuntime,
    set: &mut S,
    workload: &Workload<K>,
    number: usize,
    sheet: &mut Sheet,
) -> u64 {
    let mut keys = Vec::new(rt.alloc());
    let pushed = workload.every(number, &mut keys);
    sheet.check(pushed);
    let stored = set.store(keys);
    sheet.checked(stored)
}

/// Times the four merges of two sets that have `count` elements together.
fn time_merges<S: SetContestant>(
    rt: &HostRuntime,
    one: &S,
    other: &S,
    count: u64,
    sheet: &mut Sheet,
) {
    let count = count as usize;
    sheet.start(rt);
    let sum = one.merge_sum(other, Merge::Union);
    sheet.stop(rt, "union", count, sum);
    sheet.start(rt);
    let sum = one.merge_sum(other, Merge::Intersection);
    sheet.stop(rt, "intersection", count, sum);
    sheet.start(rt);
    let sum = one.merge_sum(other, Merge::Difference);
    sheet.stop(rt, "difference", count, sum);
    sheet.start(rt);
    let sum = one.merge_sum(other, Merge::SymmetricDifference);
    sheet.stop(rt, "symmetric_difference", count, sum);
}
