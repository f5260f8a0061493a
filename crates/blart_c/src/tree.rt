//! The map that a handle leads to.
ghost use Rattle.std.specs.Prelude.{◌≡◌, []};
ghost use Rattle.blart_map.specs.Content.{pairs};

use blart_map::{DEFAULT_PREFIX_LEN, TreeMap};
use std::alloc::Global;

/// A map of byte strings and numbers.
#[derive(Drop)]
pub struct Tree {
    pub(crate) map: TreeMap<Vec<u8>, u64, DEFAULT_PREFIX_LEN>,
}

impl Tree {
    /// Returns a map with no pairs. Does not allocate.
    pub(crate) fn new(alloc: Global) -> Tree
        ensures { pairs result.map ≡ [] }
    {
        Tree {
            map: TreeMap::new(alloc),
        }
    }
}
