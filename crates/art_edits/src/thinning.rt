//! Removes all related pairs but one.
ghost use Rattle.std.specs.Prelude.{Some};
ghost use Rattle.blart_keys.specs.Steps.{bytes};
ghost use Rattle.art_edits.specs.Spans.{Spans, LeavesOne};

use art_tree::{LeafId, Tree};
use blart_keys::AsBytes;

/// Removes the pairs that are related to the query, except for the last. They are the pairs from
/// the leaf `first` through the leaf `last`.
pub fn leave_one<K: AsBytes + Drop, V: Drop, const P: usize>(
    tree: &mut Tree<K, V, P>,
    first: LeafId,
    last: LeafId,
    query: &[u8],
)
    requires { Spans K.bytes tree.old.pairs query.now first last }
    ensures { LeavesOne K.bytes tree.old.pairs query.now last tree.new.pairs }
{
    let mut id = first;
    'thin: while id != last {
        tree.law();
        let Some(next) = tree.next_of(id) else {
            unreachable!()
        };
        tree.remove(id);
        id = next;
    }
    tree.law();
}
