//! A second set of the same elements.
ghost use Rattle.std.specs.Prelude.{◌≡◌, ◌≢◌, [], IfOk, OnErr};
ghost use Rattle.blart_set.specs.Clones.{KeepsBytes, AreElementClones};
ghost use Rattle.blart_set.specs.Elements.{elements};

use crate::set::TreeSet;
use blart_keys::{AsBytes, CloneBytes};
use std::alloc::AllocError;
use std::clone::Clone;

impl<K: AsBytes + Clone, const PREFIX_LEN: usize> TreeSet<K, PREFIX_LEN> {
    /// Returns a set of clones of the elements, or an error if it fails to allocate. A clone of an
    /// element has the same bytes.
    ///
    /// The elements are cloned before the inner nodes are allocated: if a later allocation fails,
    /// the clones are dropped. If the set is empty, it does not allocate.
    ///
    /// Cost: clones each element, and allocates and copies each record as it is, spare ones too. It
    /// makes no look-up.
    ///
    /// ```
    /// let copy = set.clone()?;
    /// assert!(copy == set);
    /// ```
    #[tactic(auto, unfolding(crate::specs::Elements::elements))]
    pub fn clone(&self) -> Result<Self, AllocError>
        requires { KeepsBytes K.bytes K.is_clone (elements self.now) }
        ensures cloned { IfOk result (λ copy.
            AreElementClones K.bytes K.is_clone (elements self.now) (elements copy)) }
        ensures refused { OnErr result (elements self.now ≢ []) }
    {
        match self.map.clone() {
            Ok(map) => Ok(TreeSet {
                map,
                alloc: self.alloc,
            }),
            Err(refused) => Err(refused),
        }
    }
}

impl<K: CloneBytes, const PREFIX_LEN: usize> Clone for TreeSet<K, PREFIX_LEN> {
    ghost is_clone = { λ set copy.
        AreElementClones K.bytes K.is_clone (elements set) (elements copy) };

    ghost is_infallible = { λ set. elements set ≡ [] };

    /// Returns a set of clones of the elements, like the call of the same name of [`TreeSet`]. So a
    /// struct with a set may derive `Clone`.
    ///
    /// Cost: as for [`TreeSet::clone`].
    fn clone(&self) -> Result<Self, AllocError> {
        TreeSet::<K, PREFIX_LEN>::clone(self)
    }
}
