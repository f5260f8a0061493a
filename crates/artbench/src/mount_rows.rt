//! Times the look-ups of paths in a table of mounts.
use crate::failure::Failure;
use crate::resolvers::Resolver;
use crate::sheet::Sheet;
use crate::stores::remade;
use crate::workload::Workload;
use blart_keys::AsBytes;

/// Times as many paths as there are keys, over a tenth as many mounts, beside a map with ranges and
/// beside a vector with a binary search.
pub(crate) fn time_mounts<T: Resolver, V: Resolver, K: AsBytes>(
    rt: &HostRuntime,
    workload: &Workload<K>,
    sheet: &mut Sheet,
) {
    let mut paths = Vec::new(rt.alloc());
    let pushed = workload.paths(&mut paths);
    sheet.check(pushed);
    time_paths::<T, K>(rt, workload, "resolve", &paths, sheet);
    time_paths::<V, K>(rt, workload, "resolve (vector)", &paths, sheet);
    drop(paths);
}

/// Times a table of mounts.
fn time_paths<T: Resolver, K: AsBytes>(
    rt: &HostRuntime,
    workload: &Workload<K>,
    call: &'static str,
    paths: &[Vec<u8>],
    sheet: &mut Sheet,
) {
    let mounts = sorted_mounts(rt, &workload.keys, sheet);
    let mut table = T::empty(rt.alloc());
    let stored = table.store(mounts);
    sheet.checked(stored);
    sheet.start(rt);
    let sum = table.resolve_all(paths);
    sheet.stop(rt, call, paths.len(), sum);
    drop(table);
}

/// Returns the bytes of the first tenth of the keys, in order.
fn sorted_mounts<K: AsBytes>(rt: &HostRuntime, keys: &[K], sheet: &mut Sheet) -> Vec<Vec<u8>> {
    let (first, _) = keys.split_at(keys.len() / 10);
    let mut mounts: Vec<Vec<u8>> = remade(rt.alloc(), first, sheet);
    if mounts.sort().is_err() {
        sheet.fail(Failure::Memory);
    }
    mounts
}
