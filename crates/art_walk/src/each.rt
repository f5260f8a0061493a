//! Calls of a closure on each value that a cursor has left.
ghost use Rattle.art_tree.specs.Leaves.{AreDistinct};
ghost use Rattle.art_tree.specs.Pairs.{pairs_of};
ghost use Rattle.art_walk.specs.Cursor.{leaves_left, FitsIn};
ghost use Rattle.art_walk.specs.EachWritten.{CallableInTurn, WritesLeft, LeavesValue, TakesAtValue, LeavesPair, TakesAtPair};

use crate::cursor::Cursor;
use art_tree::{Tree, Visits};
use blart_keys::AsBytes;

/// Calls the closure once on each value that the cursor has left, from front to back. Each value is
/// then what the closure wrote. Does not allocate.
///
/// Cost: each call of the closure takes a step of the cursor and reads one leaf.
pub fn write_values<K: AsBytes, V, F: FnMut(&mut V) + Drop, const PREFIX_LEN: usize>(
    tree: &mut Tree<K, V, PREFIX_LEN>,
    mut cursor: Cursor,
    mut f: F,
)
    requires fits { FitsIn cursor tree.old.pairs }
    requires callable { CallableInTurn (LeavesValue F.FnMut) (TakesAtValue F.FnMut) f
        (pairs_of (leaves_left cursor tree.old.pairs)) }
    ensures writes { WritesLeft (LeavesValue F.FnMut) (leaves_left cursor tree.old.pairs)
        tree.old.pairs f tree.new.pairs }
    ensures distinct { AreDistinct tree.old.pairs }
{
    tree.law();
    'leaves: while let Some(id) = cursor.step(tree, &mut Visits::new()) {
        let (_, value) = tree.leaf_mut(id);
        f(value);
    }
}

/// Like [`write_values`], and the closure gets the key of each value too.
///
/// Cost: as for [`write_values`].
pub fn write_pairs<K: AsBytes, V, F: FnMut(&K, &mut V) + Drop, const PREFIX_LEN: usize>(
    tree: &mut Tree<K, V, PREFIX_LEN>,
    mut cursor: Cursor,
    mut f: F,
)
    requires fits { FitsIn cursor tree.old.pairs }
    requires callable { CallableInTurn (LeavesPair F.FnMut) (TakesAtPair F.FnMut) f
        (pairs_of (leaves_left cursor tree.old.pairs)) }
    ensures writes { WritesLeft (LeavesPair F.FnMut) (leaves_left cursor tree.old.pairs)
        tree.old.pairs f tree.new.pairs }
    ensures distinct { AreDistinct tree.old.pairs }
{
    tree.law();
    'leaves: while let Some(id) = cursor.step(tree, &mut Visits::new()) {
        let (key, value) = tree.leaf_mut(id);
        f(key, value);
    }
}
