//! Each test has the text of an example in the documents of a type.

mod calls;
mod entries;
mod keys;
mod merges;
mod prefix_entries;
mod readme;
mod reserved;
mod retaining;
mod sets;
mod walks;

use blart_keys::{NoPrefixesBytes, ZKeyError};
use blart_map::{InsertPrefixError, TreeMap, TryInsertError};
use blart_set::TreeSet;
use std::alloc::AllocError;
use std::process::Abort;

/// The map of the examples.
type Map<'a> = TreeMap<&'a str, i32, 16>;

/// Returns a set of the elements.
fn set_of<K: NoPrefixesBytes + Copy, const N: usize>(
    rt: &(impl Abort + AllocGlobal),
    elements: [K; N],
) -> TreeSet<K, 16> {
    TreeSet::from_array(rt.alloc(), elements).expect(rt, "memory")
}

/// The reason why an example ended before its last line.
#[derive(Clone, Copy)]
enum Fail {
    Memory,
    Conflict,
}

impl From<AllocError> for Fail {
    fn from(_: AllocError) -> Fail {
        Fail::Memory
    }
}

impl From<InsertPrefixError> for Fail {
    fn from(_: InsertPrefixError) -> Fail {
        Fail::Conflict
    }
}

impl From<ZKeyError> for Fail {
    fn from(_: ZKeyError) -> Fail {
        Fail::Conflict
    }
}

impl From<TryInsertError> for Fail {
    fn from(error: TryInsertError) -> Fail {
        match error {
            TryInsertError::Prefix(_) => Fail::Conflict,
            TryInsertError::Memory(_) => Fail::Memory,
        }
    }
}

/// Most examples take the same map one after the other. Each finds in it what the examples before
/// it left.
#[test]
fn of_maps(rt: HostRuntime) {
    let mut map = Map::new(rt.alloc());
    let ran = [
        calls::insert_prefix_error(&rt, &mut map),
        calls::try_insert_error(&rt, &mut map),
        entries::entry(&rt, &mut map),
        /// It leaves no pair.
        entries::occupied_entry(&rt, &mut map),
        entries::vacant_entry(&rt, &mut map),
        walks::iter_mut(&rt, &mut map),
        walks::values_mut(&rt, &mut map),
        walks::range_mut(&rt, &mut map),
        walks::subtree_iter_mut(&rt, &mut map),
        /// It leaves no pair.
        walks::take_walk(&rt, &mut map),
        prefix_entries::prefix_kind(&rt, &mut map),
        walks::extract_if(&rt, &mut map),
        walks::prefix_mut(&rt, &mut map),
        prefix_entries::prefix_entry(&rt, &mut map),
        readme::fronts(&rt, &mut map),
        readme::tree_map(&rt, rt.alloc()),
        readme::words(&rt, rt.alloc()),
        readme::router(&rt, rt.alloc()),
        readme::nested(&rt, rt.alloc()),
    ];
    drop(map);
    for result in ran {
        assert!(rt; result.is_ok());
    }
    calls::call(&rt, rt.alloc()).expect(&rt, "memory");
}
