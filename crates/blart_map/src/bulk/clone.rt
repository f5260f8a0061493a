//! Clones of maps.
ghost use Rattle.std.specs.Prelude.{◌≡◌, ◌≢◌, [], Contains, IfOk, OnErr};
ghost use Rattle.blart_map.specs.Bulk.{AreClones};
ghost use Rattle.blart_map.specs.Content.{pairs};

use crate::map::TreeMap;
use blart_keys::{AsBytes, CloneBytes};
use std::alloc::AllocError;
use std::clone::Clone;

impl<K: AsBytes + Clone, V: Clone, const PREFIX_LEN: usize> TreeMap<K, V, PREFIX_LEN> {
    /// Returns a map of clones of the pairs, or an error if it or a clone fails to allocate. A
    /// clone of a stored key must have the same bytes. If the map is empty, it does not allocate.
    ///
    /// Cost: clones each pair, and allocates and copies each record as it is, spare ones too. It
    /// makes no look-up.
    ///
    /// ```
    /// let copy = map.clone()?;
    /// assert!(copy == map);
    /// ```
    #[tactic(auto, unfolding(crate::specs::Content::pairs))]
    pub fn clone(&self) -> Result<Self, AllocError>
        requires { (k j : K) (v : V) → Contains (pairs self.now) (k, v) → K.is_clone k j
            → K.bytes j ≡ K.bytes k }
        ensures cloned { IfOk result (λ copy.
            AreClones K.bytes K.is_clone V.is_clone (pairs self.now) (pairs copy)) }
        ensures refused { OnErr result (pairs self.now ≢ []) }
    {
        if self.is_empty() {
            return Ok(TreeMap::with_prefix_len(self.alloc));
        }
        Ok(TreeMap {
            tree: self.tree.clone()?,
            alloc: self.alloc,
        })
    }
}

impl<K: CloneBytes, V: Clone, const PREFIX_LEN: usize> Clone for TreeMap<K, V, PREFIX_LEN> {
    ghost is_clone = { λ map copy.
        AreClones K.bytes K.is_clone V.is_clone (pairs map) (pairs copy) };

    ghost is_infallible = { λ map. pairs map ≡ [] };

    /// Returns a map of clones of the pairs, like the call of the same name of [`TreeMap`]. So a
    /// struct with a map may derive `Clone`.
    ///
    /// Cost: as for [`TreeMap::clone`].
    fn clone(&self) -> Result<Self, AllocError> {
        TreeMap::<K, V, PREFIX_LEN>::clone(self)
    }
}
