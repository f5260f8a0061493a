//! Trees that are taken apart, and trees that are made of pairs.
ghost use Rattle.std.specs.Prelude.{◌≡◌, ◌≤◌, length};
ghost use Rattle.blart_keys.specs.Content.{IsContent};
ghost use Rattle.blart_keys.specs.Steps.{bytes};
ghost use Rattle.art_tree.specs.Pairs.{pairs_of};

use crate::pair_list::Pairs;
use crate::tree::Tree;
use crate::tree::build::{Frame, build};
use crate::tree::skeleton::Skeleton;
use blart_keys::AsBytes;

impl<K: AsBytes, V, const PREFIX_LEN: usize> Tree<K, V, PREFIX_LEN> {
    /// Returns the pairs in byte order. Does not allocate.
    ///
    /// Cost: frees the inner nodes at once. A removal of a pair from the list then changes no node.
    pub fn into_pairs(self) -> Pairs<K, V>
        ensures { result.pairs ≡ pairs_of self.pairs }
    {
        let Tree { leaves, skeleton } = self;
        drop(skeleton);
        Pairs { leaves }
    }

    /// Returns a tree of these pairs. The bytes of their keys must ascend, and no key's bytes may
    /// be a prefix of another's. The frame must be for at least as many pairs. Does not allocate.
    ///
    /// Cost: reads each key once or twice, and makes each inner node once, with all its children.
    /// That is faster than a placement of each pair.
    pub fn from_pairs(pairs: Pairs<K, V>, frame: Frame<PREFIX_LEN>) -> Self
        requires content { IsContent (bytes K.bytes) pairs.pairs }
        requires room { length pairs.pairs ≤ frame }
        ensures { pairs_of result.pairs ≡ pairs.pairs }
    {
        let Pairs { leaves } = pairs;
        let Frame { nodes, loose } = frame;
        let mut nodes = nodes;
        let mut loose = loose;
        let root = build(&leaves, &mut nodes, &mut loose);
        drop(loose);
        Tree {
            leaves,
            skeleton: Skeleton { nodes, root },
        }
    }
}
