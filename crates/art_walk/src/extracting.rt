//! Removes pairs that a closure picks, as a cursor passes them.
ghost use Rattle.std.specs.Prelude.{◌<◌, length, reverse, IfSome};
ghost use Rattle.std.specs.Map.Calls.{CallableOnEachPair, CalledAtPair, TakesPair};
ghost use Rattle.art_tree.specs.Pairs.{pairs_of};
ghost use Rattle.art_walk.specs.Cursor.{leaves_left, FitsIn};
ghost use Rattle.art_walk.specs.Extracting.{stands_at, ExtractsFirstTrue};

use crate::cursor::Cursor;
use art_tree::{Tree, Visits};
use blart_keys::AsBytes;

/// Calls the closure once on each pair that the cursor has left, from the first on, up to the first
/// pair for which it returns `true`. Removes that pair and returns it, or returns `None` if there
/// is no such pair. The pairs before it remain, with the values that the closure left. Does not
/// return an error.
///
/// Cost: each call of the closure takes a step of the cursor and reads one leaf. The pair that is
/// returned takes one descent.
pub fn extract_first<
    K: AsBytes + Drop,
    V: Drop,
    F: FnMut(&K, &mut V) -> bool,
    const PREFIX_LEN: usize,
>(tree: &mut Tree<K, V, PREFIX_LEN>, cursor: &mut Cursor, pred: &mut F) -> Option<(K, V)>
    requires fits { FitsIn cursor.old tree.old.pairs }
    requires callable { CallableOnEachPair (CalledAtPair F.FnMut) (TakesPair F.FnMut) pred.old
        (pairs_of (leaves_left cursor.old tree.old.pairs)) }
    ensures fits { FitsIn cursor.new tree.new.pairs }
    ensures extracts { ExtractsFirstTrue F.FnMut
        (stands_at tree.old.pairs pred.old (leaves_left cursor.old tree.old.pairs)) result
        (stands_at tree.new.pairs pred.new (leaves_left cursor.new tree.new.pairs)) }
    ensures callable { CallableOnEachPair (CalledAtPair F.FnMut) (TakesPair F.FnMut) pred.new
        (pairs_of (leaves_left cursor.new tree.new.pairs)) }
    ensures fewer { IfSome result (λ _. length (leaves_left cursor.new tree.new.pairs)
        < length (leaves_left cursor.old tree.old.pairs)) }
{
    tree.law();
    'pairs: while let Some(id) = cursor.step(tree, &mut Visits::new()) {
        let (key, value) = tree.leaf_mut(id);
        if pred(key, value) {
            return Some(tree.remove(id));
        }
    }
    None
}

/// Like [`extract_first`], from the last pair on.
///
/// Cost: as for [`extract_first`].
pub fn extract_last<
    K: AsBytes + Drop,
    V: Drop,
    F: FnMut(&K, &mut V) -> bool,
    const PREFIX_LEN: usize,
>(tree: &mut Tree<K, V, PREFIX_LEN>, cursor: &mut Cursor, pred: &mut F) -> Option<(K, V)>
    requires fits { FitsIn cursor.old tree.old.pairs }
    requires callable { CallableOnEachPair (CalledAtPair F.FnMut) (TakesPair F.FnMut) pred.old
        (pairs_of (reverse (leaves_left cursor.old tree.old.pairs))) }
    ensures fits { FitsIn cursor.new tree.new.pairs }
    ensures extracts { ExtractsFirstTrue F.FnMut
        (stands_at tree.old.pairs pred.old (reverse (leaves_left cursor.old tree.old.pairs))) result
        (stands_at tree.new.pairs pred.new (reverse (leaves_left cursor.new tree.new.pairs))) }
    ensures callable { CallableOnEachPair (CalledAtPair F.FnMut) (TakesPair F.FnMut) pred.new
        (pairs_of (reverse (leaves_left cursor.new tree.new.pairs))) }
    ensures fewer { IfSome result (λ _. length (leaves_left cursor.new tree.new.pairs)
        < length (leaves_left cursor.old tree.old.pairs)) }
{
    tree.law();
    'pairs: while let Some(id) = cursor.step_back(tree, &mut Visits::new()) {
        let (key, value) = tree.leaf_mut(id);
        if pred(key, value) {
            return Some(tree.remove(id));
        }
    }
    None
}
