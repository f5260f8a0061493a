//! Moves the pairs of one tree into another.
ghost use Rattle.std.specs.Prelude.{◌≡◌, ◌≢◌, ◌≤◌, [], length, OnOk, OnErr};
ghost use Rattle.blart_keys.specs.Bulk.{IsAppended};
ghost use Rattle.blart_keys.specs.Content.{IsContent};
ghost use Rattle.blart_keys.specs.Steps.{bytes};
ghost use Rattle.art_tree.specs.Content.{room};
ghost use Rattle.art_tree.specs.Pairs.{pairs_of};

use crate::parting::take_pairs;
use crate::placing::{insert_absent_reserved, replace_reserved};
use art_tree::{Pairs, Tree};
use blart_keys::NoPrefixesBytes;
use std::alloc::{AllocError, Global};
use std::mem::swap;

/// Moves all pairs of one tree into another. Makes room first. If both have the same bytes, the
/// pair of `from` is kept. The pairs of the smaller tree are inserted one by one. An error leaves
/// both trees unchanged.
pub fn move_into<K: NoPrefixesBytes + Drop, V: Drop, const P: usize>(
    from: &mut Tree<K, V, P>,
    to: &mut Tree<K, V, P>,
    alloc: Global,
) -> Result<(), AllocError>
    ensures appended { OnOk result (IsAppended (bytes K.bytes) (pairs_of to.old.pairs)
        (pairs_of from.old.pairs) (pairs_of to.new.pairs)) }
    ensures emptied { OnOk result (from.new.pairs ≡ []) }
    ensures err { OnErr result (to.new.pairs ≡ to.old.pairs) }
    ensures from_err { OnErr result (from.new.pairs ≡ from.old.pairs) }
    ensures refused { OnErr result (to.old.pairs ≢ []) }
    ensures from_refused { OnErr result (from.old.pairs ≢ []) }
{
    from.law();
    to.law();
    if to.len() < from.len() {
        from.reserve(to.len())?;
        swap(from, to);
        add_all(take_pairs(from, alloc), to);
    } else {
        to.reserve(from.len())?;
        move_all(take_pairs(from, alloc), to);
    }
    Ok(())
}

/// Moves pairs into a tree that has room for them. If both have the same bytes, the pair that is
/// moved wins.
fn move_all<K: NoPrefixesBytes + Drop, V: Drop, const P: usize>(
    from: Pairs<K, V>,
    to: &mut Tree<K, V, P>,
)
    requires content { IsContent (bytes K.bytes) from.pairs }
    requires room { length from.pairs ≤ room to.old }
    ensures { IsAppended (bytes K.bytes) (pairs_of to.old.pairs) from.pairs
        (pairs_of to.new.pairs) }
{
    to.law();
    let mut from = from;
    while let Some((key, value)) = from.take_first() {
        replace_reserved(to, key, value);
    }
    drop(from);
}

/// Moves pairs into a tree that has room for them. If both have the same bytes, the pair of the
/// tree wins.
fn add_all<K: NoPrefixesBytes + Drop, V: Drop, const P: usize>(
    from: Pairs<K, V>,
    to: &mut Tree<K, V, P>,
)
    requires content { IsContent (bytes K.bytes) from.pairs }
    requires room { length from.pairs ≤ room to.old }
    ensures { IsAppended (bytes K.bytes) from.pairs (pairs_of to.old.pairs)
        (pairs_of to.new.pairs) }
{
    to.law();
    let mut from = from;
    while let Some((key, value)) = from.take_first() {
        insert_absent_reserved(to, key, value);
    }
    drop(from);
}
