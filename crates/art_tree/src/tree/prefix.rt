//! Removals of all pairs with a prefix.
ghost use Rattle.std.specs.Prelude.{◌≡◌, ℕ, length, Some};
ghost use Rattle.blart_keys.specs.Content.{IsContent, under};
ghost use Rattle.blart_keys.specs.Outside.{outside};
ghost use Rattle.art_tree.specs.Calls.Pruning.{IsSubtreeWith};
ghost use Rattle.art_tree.specs.Invariant.Shape.{Shape};
ghost use Rattle.art_tree.specs.Invariant.Sound.{IsSound};
ghost use Rattle.art_tree.specs.Leaves.{leaf_in, keys_in, bytes};
ghost use Rattle.art_tree.specs.Seeks.{ends};
ghost use Rattle.art_kinds.specs.Nodes.{at};

use crate::tree::Tree;
use crate::tree::descent::Subtree;
use crate::tree::seek::subtree_below;
use crate::tree::skeleton::Skeleton;
use art_rows::Leaves;
use art_slots::{LeafId, Visits};
use blart_keys::AsBytes;

impl<K: AsBytes + Drop, V: Drop, const PREFIX_LEN: usize> Tree<K, V, PREFIX_LEN> {
    /// Removes every pair whose bytes begin with these, and returns the number of removed pairs.
    /// Each other id names the pair that it named. Does not return an error.
    ///
    /// Cost: like one call of [`Tree::span`] and one of [`Tree::remove`]. Besides, it frees
    /// each removed leaf and inner node, with no further descent.
    pub fn remove_prefix(&mut self, prefix: &[u8]) -> usize
        ensures rest { self.new.pairs ≡ outside (bytes K.bytes) self.old.pairs prefix.now }
        ensures others { (id : ℕ) (x : K × V) → leaf_in self.new.pairs id ≡ Some x
            → leaf_in self.old.pairs id ≡ Some x }
        ensures count { result ≡ length (under (bytes K.bytes) self.old.pairs prefix.now) }
    {
        self.law();
        let before = self.len();
        self.remove_subtree(prefix);
        before - self.len()
    }

    /// Removes the pairs whose bytes begin with these.
    fn remove_subtree(&mut self, prefix: &[u8])
        ensures { self.new.pairs ≡ outside (bytes K.bytes) self.old.pairs prefix.now }
    {
        let Some(root) = self.skeleton.root else {
            return;
        };
        let mut visits = Visits::new();
        let nodes = &self.skeleton.nodes;
        let Some(subtree) = subtree_below(&self.leaves, nodes, &root, prefix, &mut visits) else {
            return;
        };
        prune(&mut self.leaves, &mut self.skeleton, &subtree, prefix);
        self.leaves.law();
        self.remove(subtree.last);
    }
}

/// Removes the leaves of a subtree except for the last, and redirects the edge above it to the
/// last.
fn prune<K: AsBytes + Drop, V: Drop, const P: usize>(
    leaves: &mut Leaves<K, V>,
    skeleton: &mut Skeleton<P>,
    subtree: &Subtree,
    prefix: &[u8],
)
    requires sound { IsSound K.bytes P leaves.old skeleton.old.nodes skeleton.old.root }
    requires subtree { (s : Shape P (keys_in K.bytes leaves.old.pairs) (at skeleton.old.nodes)
        skeleton.old.root)
        → IsSubtreeWith (keys_in K.bytes leaves.old.pairs) (at skeleton.old.nodes)
        skeleton.old.root s.front_of prefix.now subtree.now }
    requires ends { ends (under (bytes K.bytes) leaves.old.pairs prefix.now)
        ≡ Some (subtree.now.first, subtree.now.last) }
    ensures sound { IsSound K.bytes P leaves.new skeleton.new.nodes skeleton.new.root }
    ensures ends { ends (under (bytes K.bytes) leaves.new.pairs prefix.now)
        ≡ Some (subtree.now.last, subtree.now.last) }
    ensures rest { outside (bytes K.bytes) leaves.new.pairs prefix.now
        ≡ outside (bytes K.bytes) leaves.old.pairs prefix.now }
{
    skeleton.free_subtree(&subtree.above, &subtree.child, &subtree.last);
    remove_leaves(leaves, subtree.first, subtree.last, prefix);
    leaves.law();
}

/// Removes the leaves from `first` up to `last`, except for `last`. These are the leaves whose
/// bytes begin with the prefix.
fn remove_leaves<K: AsBytes + Drop, V: Drop>(
    leaves: &mut Leaves<K, V>,
    first: LeafId,
    last: LeafId,
    prefix: &[u8],
)
    requires content { IsContent (bytes K.bytes) leaves.old.pairs }
    requires ends { ends (under (bytes K.bytes) leaves.old.pairs prefix.now) ≡ Some (first, last) }
    ensures content { IsContent (bytes K.bytes) leaves.new.pairs }
    ensures ends { ends (under (bytes K.bytes) leaves.new.pairs prefix.now) ≡ Some (last, last) }
    ensures rest { outside (bytes K.bytes) leaves.new.pairs prefix.now
        ≡ outside (bytes K.bytes) leaves.old.pairs prefix.now }
    ensures stood { (j : ℕ) (x : K × V) → leaf_in leaves.new.pairs j ≡ Some x
        → leaf_in leaves.old.pairs j ≡ Some x }
{
    let mut id = first;
    'each: while id != last {
        leaves.law();
        let at = leaves.position_of(id);
        let mut seen = at;
        let Some(next) = leaves.next_from(id, &mut seen) else {
            unreachable!()
        };
        leaves.remove(id, at);
        id = next;
    }
}
