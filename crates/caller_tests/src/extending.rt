//! Vectors that are added to a map or a set, by the language's trait `Extend`.
ghost use Rattle.std.specs.Prelude.{List, OnOk};
ghost use Rattle.blart.specs.Words.{pairs, elements, bytes, kept_pair, kept_item, PutsAll};

use blart::{NoPrefixesBytes, TreeMap, TreeSet};
use std::alloc::AllocError;
use std::iter::Extend;

/// Adds the items of a vector to any collection that takes them.
pub fn add_all<A: Drop, E: Extend<A>>(all: &mut E, items: Vec<A>) -> Result<(), AllocError>
    requires { (xs : List A) → E.can_extend all.old xs }
    ensures { OnOk result (E.extend_gives all.old items.items all.new) }
{
    all.extend(items)
}

/// Inserts the pairs of a vector into a map, one after another.
pub fn add_pairs<K: NoPrefixesBytes + Drop, V: Drop, const P: usize>(
    map: &mut TreeMap<K, V, P>,
    items: Vec<(K, V)>,
) -> Result<(), AllocError>
    ensures { OnOk result
        (PutsAll (bytes K.bytes) kept_pair (pairs map.old) items.items (pairs map.new)) }
{
    add_all(map, items)
}

/// Inserts the elements of a vector into a set, one after another.
pub fn add_elements<K: NoPrefixesBytes + Drop, const P: usize>(
    set: &mut TreeSet<K, P>,
    items: Vec<K>,
) -> Result<(), AllocError>
    ensures { OnOk result
        (PutsAll K.bytes kept_item (elements set.old) items.items (elements set.new)) }
{
    add_all(set, items)
}
