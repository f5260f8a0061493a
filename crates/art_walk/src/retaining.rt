//! Keeps the pairs that a closure picks.
ghost use Rattle.std.specs.Map.Calls.{CallableOnEachPair, CalledAtPair, TakesPair};
ghost use Rattle.blart_keys.specs.Walks.{AsksPair};
ghost use Rattle.art_tree.specs.Pairs.{pairs_of};
ghost use Rattle.art_walk.specs.Asking.{RetainsBy};

use crate::cursor::Cursor;
use art_tree::{Tree, Visits};
use blart_keys::AsBytes;

/// Calls the closure once on each pair, in byte order of the keys, and removes the pairs for which
/// it returns `false`. The others remain, with the values that the closure left. Does not return an
/// error.
///
/// The closure is passed by mutable reference, so its last state shows that it was not called
/// again.
///
/// Cost: each call of the closure takes a step of the cursor and reads one leaf. Each removed pair
/// takes one descent.
pub fn retain_by<K: AsBytes + Drop, V: Drop, F: FnMut(&K, &mut V) -> bool, const PREFIX_LEN: usize>(
    tree: &mut Tree<K, V, PREFIX_LEN>,
    f: &mut F,
)
    requires { CallableOnEachPair (CalledAtPair F.FnMut) (TakesPair F.FnMut) f.old
        (pairs_of tree.old.pairs) }
    ensures { RetainsBy (AsksPair F.FnMut) (pairs_of tree.old.pairs) f.old
        (pairs_of tree.new.pairs) f.new }
{
    tree.law();
    let mut cursor = Cursor::all(tree);
    'pairs: while let Some(id) = cursor.step(tree, &mut Visits::new()) {
        let (key, value) = tree.leaf_mut(id);
        if f(key, value) {
            continue;
        }
        let _pair = tree.remove(id);
    }
}
