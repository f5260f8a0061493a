//! Cuts a tree in two.
ghost use Rattle.std.specs.Prelude.{◌≡◌, ◌≤◌, ◌<◌, ◌+◌, ◌++◌, [], length, OnOk, IfOk, OnErr};
ghost use Rattle.art_tree.specs.Content.{room};
ghost use Rattle.art_tree.specs.Pairs.{pairs_of};

use crate::placing::place_reserved;
use art_tree::{Frame, Pairs, Tree};
use blart_keys::AsBytes;
use std::alloc::{AllocError, Global};
use std::mem::{replace, swap};

/// Moves the last `count` pairs of one tree into an empty tree. Returns an error if it fails to
/// allocate, and then both trees are unchanged.
///
/// If the pairs that stay are fewer, it moves those and exchanges the two trees. If neither part
/// has three times the pairs of the other, it makes both trees anew.
pub fn part<K: AsBytes + Drop, V: Drop, const P: usize>(
    from: &mut Tree<K, V, P>,
    to: &mut Tree<K, V, P>,
    count: usize,
    alloc: Global,
) -> Result<(), AllocError>
    requires enough { count ≤ length from.old.pairs }
    requires empty { to.old.pairs ≡ [] }
    ensures whole { OnOk result
        (pairs_of from.old.pairs ≡ pairs_of from.new.pairs ++ pairs_of to.new.pairs) }
    ensures moved { OnOk result (length (pairs_of to.new.pairs) ≡ count) }
    ensures err { OnErr result (from.new.pairs ≡ from.old.pairs) }
    ensures to_err { OnErr result (to.new.pairs ≡ to.old.pairs) }
    ensures refused { OnErr result (0 < count) }
    ensures low_refused { OnErr result (count < length from.old.pairs) }
{
    let low = from.len() - count;
    if low / 3 < count && count / 3 < low {
        return part_anew(from, to, low, count, alloc);
    }
    if low <= count {
        to.reserve(low)?;
        move_first(from, to, low);
        swap(from, to);
    } else {
        to.reserve(count)?;
        move_last(from, to, count);
    }
    Ok(())
}

/// Makes one tree of the first `low` pairs of a tree and another of the last `count`. Returns an
/// error if it fails to allocate, and then both trees are unchanged.
fn part_anew<K: AsBytes + Drop, V: Drop, const P: usize>(
    from: &mut Tree<K, V, P>,
    to: &mut Tree<K, V, P>,
    low: usize,
    count: usize,
    alloc: Global,
) -> Result<(), AllocError>
    requires parts { low + count ≡ length from.old.pairs }
    ensures whole { OnOk result
        (pairs_of from.old.pairs ≡ pairs_of from.new.pairs ++ pairs_of to.new.pairs) }
    ensures moved { OnOk result (length (pairs_of to.new.pairs) ≡ count) }
    ensures err { OnErr result (from.new.pairs ≡ from.old.pairs) }
    ensures to_err { OnErr result (to.new.pairs ≡ to.old.pairs) }
{
    from.law();
    let (mut lower, low_frame, high_frame) = memory_for(alloc, low, count)?;
    let mut upper = take_pairs(from, alloc);
    move_pairs(&mut upper, &mut lower, low);
    drop(replace(from, Tree::from_pairs(lower, low_frame)));
    drop(replace(to, Tree::from_pairs(upper, high_frame)));
    Ok(())
}

/// Removes all pairs of a tree, and returns them. The inner nodes are freed at once.
pub(crate) fn take_pairs<K: AsBytes + Drop, V: Drop, const P: usize>(
    tree: &mut Tree<K, V, P>,
    alloc: Global,
) -> Pairs<K, V>
    ensures all { result.pairs ≡ pairs_of tree.old.pairs }
    ensures none { tree.new.pairs ≡ [] }
{
    replace(tree, Tree::new(alloc)).into_pairs()
}

/// Returns a list with room for `low` pairs, and memory for the inner nodes of two trees, of `low`
/// pairs and of `count`.
fn memory_for<K: Drop, V: Drop, const P: usize>(
    alloc: Global,
    low: usize,
    count: usize,
) -> Result<(Pairs<K, V>, Frame<P>, Frame<P>), AllocError>
    ensures none { IfOk result (λ m. m.0.pairs ≡ []) }
    ensures room { IfOk result (λ m. low ≤ m.0.end_room) }
    ensures below { IfOk result (λ m. low ≤ m.1) }
    ensures from { IfOk result (λ m. count ≤ m.2) }
{
    let mut pairs = Pairs::new(alloc);
    if let Err(refused) = pairs.reserve(low) {
        drop(pairs);
        return Err(refused);
    }
    match frames_for(alloc, low, count) {
        Ok((low_frame, high_frame)) => Ok((pairs, low_frame, high_frame)),
        Err(refused) => {
            drop(pairs);
            Err(refused)
        }
    }
}

/// Returns memory for the inner nodes of two trees, of `low` pairs and of `count`.
fn frames_for<const P: usize>(
    alloc: Global,
    low: usize,
    count: usize,
) -> Result<(Frame<P>, Frame<P>), AllocError>
    ensures below { IfOk result (λ m. low ≤ m.0) }
    ensures from { IfOk result (λ m. count ≤ m.1) }
{
    let low_frame = Frame::new(alloc, low)?;
    match Frame::new(alloc, count) {
        Ok(high_frame) => Ok((low_frame, high_frame)),
        Err(refused) => {
            drop(low_frame);
            Err(refused)
        }
    }
}

/// Moves the first `count` pairs of one list to the end of another list. That list is empty and has
/// room for them.
fn move_pairs<K: Drop, V: Drop>(from: &mut Pairs<K, V>, to: &mut Pairs<K, V>, count: usize)
    requires enough { count ≤ length from.old.pairs }
    requires empty { to.old.pairs ≡ [] }
    requires room { count ≤ to.old.end_room }
    ensures whole { from.old.pairs ≡ to.new.pairs ++ from.new.pairs }
    ensures moved { length to.new.pairs ≡ count }
{
    for _ in 0..count {
        let Some((key, value)) = from.take_first() else {
            unreachable!()
        };
        to.push(key, value);
    }
}

/// Moves the last `count` pairs of one tree into an empty tree that has room for them.
fn move_last<K: AsBytes + Drop, V: Drop, const P: usize>(
    from: &mut Tree<K, V, P>,
    to: &mut Tree<K, V, P>,
    count: usize,
)
    requires enough { count ≤ length from.old.pairs }
    requires empty { to.old.pairs ≡ [] }
    requires room { count ≤ room to.old }
    ensures whole { pairs_of from.old.pairs
        ≡ pairs_of from.new.pairs ++ pairs_of to.new.pairs }
    ensures moved { length (pairs_of to.new.pairs) ≡ count }
{
    from.law();
    for _ in 0..count {
        from.law();
        let Some(id) = from.last() else {
            unreachable!()
        };
        let (key, value) = from.remove(id);
        place_reserved(to, key, value);
    }
}

/// Moves the first `count` pairs of one tree into an empty tree that has room for them.
fn move_first<K: AsBytes + Drop, V: Drop, const P: usize>(
    from: &mut Tree<K, V, P>,
    to: &mut Tree<K, V, P>,
    count: usize,
)
    requires enough { count ≤ length from.old.pairs }
    requires empty { to.old.pairs ≡ [] }
    requires room { count ≤ room to.old }
    ensures whole { pairs_of from.old.pairs
        ≡ pairs_of to.new.pairs ++ pairs_of from.new.pairs }
    ensures moved { length (pairs_of to.new.pairs) ≡ count }
{
    from.law();
    for _ in 0..count {
        let Some(id) = from.first() else {
            unreachable!()
        };
        let (key, value) = from.remove(id);
        place_reserved(to, key, value);
    }
}
