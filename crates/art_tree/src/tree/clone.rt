//! Clones of trees.
ghost use Rattle.std.specs.Prelude.{◌≡◌, map, Contains, IfOk};
ghost use Rattle.art_tree.specs.Clones.{AreClones};

use crate::tree::Tree;
use crate::tree::skeleton::Skeleton;
use blart_keys::AsBytes;
use std::alloc::AllocError;

impl<K: AsBytes + Clone, V: Clone, const PREFIX_LEN: usize> Tree<K, V, PREFIX_LEN> {
    /// Returns a tree of clones of the pairs, each with the same id, or an error if it fails to
    /// allocate.
    ///
    /// Cost: allocates as much memory as this tree has, and clones each key and each value.
    pub fn clone(&self) -> Result<Self, AllocError>
        requires { (k j : K) (v : V) → Contains (map (λ p. p.1) self.now.pairs) (k, v)
            → K.is_clone k j → K.bytes j ≡ K.bytes k }
        ensures cloned { IfOk result (λ copy. AreClones K.bytes K.is_clone V.is_clone
            (map (λ p. p.1) self.now.pairs) (map (λ p. p.1) copy.pairs)) }
        ensures numbers { IfOk result (λ copy.
            map (λ p. p.0) copy.pairs ≡ map (λ p. p.0) self.now.pairs) }
    {
        Ok(Tree {
            leaves: self.leaves.clone()?,
            skeleton: Skeleton {
                nodes: self.skeleton.nodes.clone()?,
                root: self.skeleton.root,
            },
        })
    }
}
