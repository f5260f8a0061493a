//! Calls that replace pairs, and that return mutable references to values.
ghost use Rattle.std.specs.Prelude.{◌≡◌, ◌+◌, ◌<◌, ◌≤◌, [], option_map, Some, OnOk, OnErr};
ghost use Rattle.std.specs.Borrow.{sem};
ghost use Rattle.art_tree.specs.Leaves.{leaf_in, Has, OthersStand, with_pair, bytes};
ghost use Rattle.art_tree.specs.Content.{room};
ghost use Rattle.art_tree.specs.Takes.{MayTake};
ghost use Rattle.art_tree.specs.TreeLends.{lends_leaf};

use crate::tree::Tree;
use art_slots::LeafId;
use blart_keys::AsBytes;
use std::alloc::AllocError;

impl<K: AsBytes + Drop, V: Drop, const PREFIX_LEN: usize> Tree<K, V, PREFIX_LEN> {
    /// Replaces the pair of a leaf, and returns the old pair. The new key must be related to the
    /// old key and to no other. The other leaves are unchanged. Does not allocate.
    ///
    /// Cost: reads the leaf.
    pub fn swap(&mut self, id: LeafId, key: K, value: V) -> (K, V)
        requires has { Has self.old.pairs id }
        requires may { MayTake K.bytes self.old.pairs id (K.bytes key) }
        ensures value { leaf_in self.old.pairs id ≡ Some result }
        ensures pairs { self.new.pairs ≡ with_pair self.old.pairs id (key, value) }
        ensures now { leaf_in self.new.pairs id ≡ Some (key, value) }
        ensures others { OthersStand self.old.pairs self.new.pairs id }
        ensures spares { self.new.spares ≡ self.old.spares }
    {
        self.leaves.law();
        self.leaves.exchange(id, key, value)
    }

    /// Drops every pair and every spare record. Does not allocate.
    ///
    /// Cost: drops each pair. It keeps the memory until the tree is dropped, and counts it as no
    /// room.
    pub fn clear(&mut self)
        ensures pairs { self.new.pairs ≡ [] }
        ensures room { room self.new ≡ 0 }
    {
        self.leaves.clear();
        self.skeleton.nodes.clear();
        self.skeleton.root = None;
    }

    /// Makes room for `count` placements, or returns an error if it fails to allocate. The pairs
    /// are unchanged in both cases.
    ///
    /// Cost: allocates for `count` pairs.
    pub fn reserve(&mut self, count: usize) -> Result<(), AllocError>
        ensures pairs { self.new.pairs ≡ self.old.pairs }
        ensures grows { room self.old ≤ room self.new }
        ensures ok { OnOk result (count ≤ room self.new) }
        ensures refused { OnErr result (0 < count) }
    {
        self.leaves.reserve(count)?;
        self.skeleton.nodes.reserve(count)
    }
}

impl<K: AsBytes, V, const PREFIX_LEN: usize> Tree<K, V, PREFIX_LEN> {
    /// Returns the key of a leaf, and a mutable reference to its value.
    ///
    /// Cost: reads the leaf.
    pub fn leaf_mut(&mut self, id: LeafId) -> (&K, &mut V)
        requires { Has self.old.pairs id }
        ensures* writes_back { sem 𝓛
            (lends_leaf K.row V.row PREFIX_LEN.row K.AsBytes self.entry id result.1) }
        ensures value { leaf_in self.old.pairs id ≡ Some (result.0.now, result.1.now) }
    {
        self.leaves.get_mut(id)
    }

    /// Returns a mutable reference to the value of a leaf.
    ///
    /// Cost: reads the leaf.
    pub fn value_mut(&mut self, id: LeafId) -> &mut V
        requires { Has self.old.pairs id }
        ensures* writes_back { sem 𝓛
            (lends_leaf K.row V.row PREFIX_LEN.row K.AsBytes self.entry id result) }
        ensures value { option_map (λ p. p.1) (leaf_in self.old.pairs id) ≡ Some result.now }
    {
        self.leaf_mut(id).1
    }
}
