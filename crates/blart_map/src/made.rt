//! Empty maps, as the language's traits make them.
ghost use Rattle.std.specs.Prelude.{◌≡◌, []};
ghost use Rattle.blart_keys.specs.Stored.{HasNothing};
ghost use Rattle.blart_map.specs.Content.{pairs};

use crate::map::TreeMap;
use blart_keys::AsBytes;
use std::alloc::{AllocError, Global};
use std::default::{Emptied, MadeWith};

impl<K: AsBytes, V, const PREFIX_LEN: usize> MadeWith<Global> for TreeMap<K, V, PREFIX_LEN> {
    ghost is_made_with = { λ map. (pairs map ≡ []) × HasNothing K.bytes (pairs map) };

    /// Returns a map with no pairs. With this, `or_default` works on a map of maps.
    ///
    /// Cost: none.
    fn made_with(alloc: Global) -> Self {
        TreeMap::with_prefix_len(alloc)
    }
}

impl<K: AsBytes, V, const PREFIX_LEN: usize> Emptied for TreeMap<K, V, PREFIX_LEN> {
    ghost is_emptied = { λ map. (pairs map ≡ []) × HasNothing K.bytes (pairs map) };

    /// Returns a map with no pairs. With this, `mem::try_take` takes a map out of a variable.
    ///
    /// Cost: none.
    fn emptied(like: &Self) -> Result<Self, AllocError> {
        Ok(TreeMap::with_prefix_len(like.alloc))
    }
}
