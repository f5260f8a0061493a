//! Maps that iterators are collected into.
ghost use Rattle.std.specs.Prelude.{[]};
ghost use Rattle.blart_keys.specs.Bulk.{PutsAll};
ghost use Rattle.blart_keys.specs.Steps.{bytes};
ghost use Rattle.blart_keys.specs.Stored.{kept_pair};
ghost use Rattle.blart_map.specs.Content.{pairs};

use crate::map::TreeMap;
use blart_keys::NoPrefixesBytes;
use std::alloc::{AllocError, Global};
use std::iter::{FromIterator, IntoIterator};

impl<K: NoPrefixesBytes + Drop, V: Drop, const PREFIX_LEN: usize> FromIterator<(K, V)>
    for TreeMap<K, V, PREFIX_LEN> {
    type Alloc = Global;

    ghost from_iter_gives = { λ xs map. PutsAll (bytes K.bytes) kept_pair [] xs (pairs map) };

    /// Returns a map of the pairs that the iterator yields, like the call of the same name of
    /// [`TreeMap`]. So `items.collect(alloc)?` makes a map.
    ///
    /// Cost: as for [`TreeMap::from_iter`].
    fn from_iter<U: IntoIterator<Item = (K, V)>>(
        alloc: Global,
        items: U,
    ) -> Result<Self, AllocError> {
        let items = items.into_iter();
        TreeMap::<K, V, PREFIX_LEN>::from_iter(alloc, items)
    }
}
