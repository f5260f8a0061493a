//! Sets as collections of the elements of an iterator.
ghost use Rattle.std.specs.Prelude.{[]};
ghost use Rattle.blart_keys.specs.Bulk.{PutsAll};
ghost use Rattle.blart_keys.specs.Stored.{kept_item};
ghost use Rattle.blart_set.specs.Elements.{elements};

use crate::set::TreeSet;
use blart_keys::NoPrefixesBytes;
use std::alloc::{AllocError, Global};
use std::iter::{FromIterator, IntoIterator};

impl<K: NoPrefixesBytes + Drop, const PREFIX_LEN: usize> FromIterator<K>
    for TreeSet<K, PREFIX_LEN> {
    type Alloc = Global;

    ghost from_iter_gives = { λ xs set. PutsAll K.bytes kept_item [] xs (elements set) };

    /// Returns a set of the elements that the iterator yields, like the call of the same name of
    /// [`TreeSet`]. So `items.collect(alloc)?` makes a set.
    ///
    /// Cost: as for [`TreeSet::from_iter`].
    fn from_iter<U: IntoIterator<Item = K>>(alloc: Global, items: U) -> Result<Self, AllocError> {
        let items = items.into_iter();
        TreeSet::<K, PREFIX_LEN>::from_iter(alloc, items)
    }
}
