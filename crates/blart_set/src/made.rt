//! Empty sets, as the language's traits make them.
ghost use Rattle.std.specs.Prelude.{◌≡◌, []};
ghost use Rattle.blart_set.specs.Elements.{elements};

use crate::set::TreeSet;
use blart_keys::AsBytes;
use std::alloc::{AllocError, Global};
use std::default::{Emptied, MadeWith};

impl<K: AsBytes, const PREFIX_LEN: usize> MadeWith<Global> for TreeSet<K, PREFIX_LEN> {
    ghost is_made_with = { λ set. elements set ≡ [] };

    /// Returns a set with no elements. So `or_default` of the standard maps makes one.
    ///
    /// Cost: none.
    fn made_with(alloc: Global) -> Self {
        TreeSet::with_prefix_len(alloc)
    }
}

impl<K: AsBytes, const PREFIX_LEN: usize> Emptied for TreeSet<K, PREFIX_LEN> {
    ghost is_emptied = { λ set. elements set ≡ [] };

    /// Returns a set with no elements. So `mem::try_take` moves a set out of its place.
    ///
    /// Cost: none.
    fn emptied(like: &Self) -> Result<Self, AllocError> {
        Ok(TreeSet::with_prefix_len(like.alloc))
    }
}
