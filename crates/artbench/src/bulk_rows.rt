//! Times calls that insert, move, copy or remove many pairs at once.
use crate::failure::Failure;
use crate::joins::{Joiner, place};
use crate::maps::{Contestant, Copied};
use crate::readings::{Lengths, Order};
use crate::sheet::Sheet;
use crate::stores::{filled, remade};
use crate::workload::Workload;
use blart_keys::AsBytes;

/// Times maps that are made from many pairs, filled in order, joined, copied and split.
pub(crate) fn time_bulk<M: Copied, J: Joiner>(
    rt: &HostRuntime,
    workload: &Workload<M::Key>,
    sheet: &mut Sheet,
) {
    time_from_vec::<J, M::Key>(rt, &workload.keys, sheet);
    time_in_order::<J, M::Key>(rt, &workload.sorted, sheet);
    time_append::<J, M::Key>(rt, "append after", &workload.sorted, sheet);
    time_append::<J, M::Key>(rt, "append among", &workload.keys, sheet);
    let mut map: M = filled(rt.alloc(), &workload.keys, sheet);
    time_copy(rt, &map, workload.keys.len(), sheet);
    time_part(rt, &mut map, &workload.sorted, sheet);
    drop(map);
}

/// Times the construction of a map from all pairs, in random order, and a walk over it.
fn time_from_vec<J: Joiner, K: AsBytes>(rt: &HostRuntime, keys: &[K], sheet: &mut Sheet) {
    let mut items = Vec::new(rt.alloc());
    let placed = place(rt.alloc(), keys, &mut items);
    sheet.check(placed);
    sheet.start(rt);
    let made = J::of(rt.alloc(), items);
    sheet.stop(rt, "from_vec", keys.len(), 0);
    match made {
        Ok(map) => {
            time_walk(rt, &map, keys.len(), sheet);
            drop(map);
        }
        Err(_) => sheet.fail(Failure::Memory),
    }
}

/// Times a walk over a new map.
fn time_walk<J: Joiner>(rt: &HostRuntime, map: &J, count: usize, sheet: &mut Sheet) {
    sheet.start(rt);
    let sum = map.walk::<Order>();
    sheet.stop(rt, "iter, from_vec", count, sum);
}

/// Times insertions one by one, in order.
fn time_in_order<J: Joiner, K: AsBytes>(rt: &HostRuntime, sorted: &[K], sheet: &mut Sheet) {
    let keys = remade(rt.alloc(), sorted, sheet);
    let mut map = J::empty(rt.alloc());
    sheet.start(rt);
    let stored = map.store(keys);
    sheet.end(rt);
    sheet.checked(stored);
    sheet.note("insert in order", sorted.len(), map.walk::<Order>());
    drop(map);
}

/// Times an `append` of a map of the second half of the keys to a map of the first half.
fn time_append<J: Joiner, K: AsBytes>(
    rt: &HostRuntime,
    call: &'static str,
    keys: &[K],
    sheet: &mut Sheet,
) {
    let (to, from) = keys.split_at(keys.len() / 2);
    let mut map: J = filled(rt.alloc(), to, sheet);
    let mut other: J = filled(rt.alloc(), from, sheet);
    sheet.start(rt);
    let joined = map.join(&mut other);
    sheet.end(rt);
    sheet.check(joined);
    sheet.note(call, from.len(), map.walk::<Order>());
    drop(map);
    drop(other);
}

/// Times a copy of a map, and the comparison of both.
fn time_copy<M: Copied>(rt: &HostRuntime, map: &M, count: usize, sheet: &mut Sheet) {
    sheet.start(rt);
    let copied = map.copy();
    sheet.end(rt);
    match copied {
        Ok(copy) => {
            time_eq(rt, map, &copy, count, sheet);
            drop(copy);
        }
        Err(_) => sheet.fail(Failure::Memory),
    }
}

/// Notes the sum over a copy, and times its comparison with the map.
fn time_eq<M: Contestant>(rt: &HostRuntime, map: &M, copy: &M, count: usize, sheet: &mut Sheet) {
    sheet.note("clone", count, copy.walk::<Lengths>());
    sheet.start(rt);
    let sum = u64::from(map == copy);
    sheet.stop(rt, "eq", count, sum);
}

/// Times the split of a map at the key in the middle.
fn time_part<M: Contestant>(rt: &HostRuntime, map: &mut M, sorted: &[M::Key], sheet: &mut Sheet) {
    let half = sorted.len() / 2;
    let Some(from) = sorted.get(half) else {
        return;
    };
    sheet.start(rt);
    let parted = map.part(from);
    sheet.end(rt);
    match parted {
        Ok(rest) => {
            let sum = map.walk::<Lengths>().wrapping_mul(3);
            sheet.note(
                "split_off half",
                half,
                sum.wrapping_add(rest.walk::<Lengths>()),
            );
            drop(rest);
        }
        Err(_) => sheet.fail(Failure::Memory),
    }
}
