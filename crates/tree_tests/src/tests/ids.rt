//! The ids of leaves: each remains valid while its leaf does, and is used again after that.
ghost use Rattle.std.specs.Prelude.{◌<◌};

use super::{add, memory};
use art_tree::{LeafId, Tree, Visits};
use std::fs::Files;
use std::process::Abort;

type Key = [u8; 4];

/// How many bytes a key may have at each place, so that nodes of several kinds fill and split.
const LETTERS: usize = 20;

/// The first of some numbers in no order, the same ones at each run.
const RANDOM: usize = 88172645463325252;

/// Goes on to the next random number. Returns it modulo the bound.
fn next_below(random: &mut usize, bound: usize) -> usize
    requires { 0 < bound }
    ensures { result < bound }
{
    *random ^= *random << 13;
    *random ^= *random >> 7;
    *random ^= *random << 17;
    *random % bound
}

/// The next letter of a key.
fn next_letter(random: &mut usize) -> u8 {
    next_below(random, LETTERS) as u8
}

/// The next key. No key is a prefix of another, since all have the same length.
fn next_key(random: &mut usize) -> Key {
    [
        next_letter(random),
        next_letter(random),
        next_letter(random),
        next_letter(random),
    ]
}

/// A pair that is in the tree, and the id that its placement returned.
#[derive(Clone, Copy)]
struct Kept {
    key: Key,
    value: usize,
    id: LeafId,
}

/// The id still names the pair.
fn assert_named<const P: usize>(rt: &impl Abort, tree: &Tree<Key, usize, P>, kept: &Kept) {
    let mut visits = Visits::new();
    let found = tree.search(&kept.key, &mut visits);
    let found = found.expect(rt, "a pair");
    let (key, value) = tree.leaf(found, &mut visits);
    assert!(rt; (found, *key, *value) == (kept.id, kept.key, kept.value));
}

/// The ids of a few random pairs still name them.
fn assert_some_named<const P: usize>(
    rt: &impl Abort,
    tree: &Tree<Key, usize, P>,
    kept: &Vec<Kept>,
    random: &mut usize,
) {
    for _ in 0..3 {
        if kept.len() > 0 {
            let at = next_below(random, kept.len());
            assert_named(rt, tree, &kept[at]);
        }
    }
}

/// Places a pair with a random key, unless the key is stored. Its id is that of no other leaf.
fn place_one<const P: usize>(
    rt: &impl Abort,
    tree: &mut Tree<Key, usize, P>,
    kept: &mut Vec<Kept>,
    random: &mut usize,
    value: usize,
) {
    let key = next_key(random);
    if tree.search(&key, &mut Visits::new()).is_some() {
        return;
    }
    let id = add(rt, tree, key, value);
    for other in kept.iter() {
        assert!(rt; other.id != id);
    }
    kept.push(Kept { key, value, id }).expect(rt, "memory");
}

/// Takes out a random pair, if there is one.
fn take_one<const P: usize>(
    rt: &impl Abort,
    tree: &mut Tree<Key, usize, P>,
    kept: &mut Vec<Kept>,
    random: &mut usize,
) {
    if kept.len() > 0 {
        let at = next_below(random, kept.len());
        let gone = kept.swap_remove(at);
        let taken = tree.take(&gone.key);
        assert!(rt; taken == Some((gone.key, gone.value)));
    }
}

/// Of 10,000 steps about every fourth takes a pair out, and each other one places a pair.
fn come_and_stay<const P: usize>(rt: &(impl Abort + AllocGlobal)) {
    let mut tree = Tree::<Key, usize, P>::new(rt.alloc());
    let mut kept = Vec::new(rt.alloc());
    let mut random = RANDOM;
    for step in 0..10_000usize {
        if next_below(&mut random, 4) == 0 {
            take_one(rt, &mut tree, &mut kept, &mut random);
        } else {
            place_one(rt, &mut tree, &mut kept, &mut random, step);
        }
        assert_some_named(rt, &tree, &kept, &mut random);
        assert!(rt; tree.len() == kept.len());
    }
    for pair in kept.iter() {
        assert_named(rt, &tree, pair);
    }
    let len = kept.len();
    drop(kept);
    drop(tree);
    assert!(rt; len > 4000);
}

/// After random insertions and removals each id names its pair, at three lengths of prefixes.
#[test]
fn ids_stay(rt: HostRuntime) {
    come_and_stay::<0>(&rt);
    come_and_stay::<2>(&rt);
    come_and_stay::<16>(&rt);
}

/// A call that removes a pair.
#[derive(Clone, Copy)]
enum Removal {
    Take,
    Remove,
    RemovePrefix,
    Clear,
}

/// Removes the pair of a key.
fn remove_by<const P: usize>(
    rt: &impl Abort,
    tree: &mut Tree<Key, usize, P>,
    key: &Key,
    removal: Removal,
) {
    let is_removed = match removal {
        Removal::Take => tree.take(key).is_some(),
        Removal::Remove => match tree.search(key, &mut Visits::new()) {
            Some(id) => tree.remove(id).1 == 1,
            None => false,
        },
        Removal::RemovePrefix => tree.remove_prefix(key) == 1,
        Removal::Clear => {
            tree.clear();
            true
        }
    };
    assert!(rt; is_removed);
}

/// A pair comes and goes.
fn come_and_go<const P: usize>(
    rt: &impl Abort,
    tree: &mut Tree<Key, usize, P>,
    removal: Removal,
    count: usize,
) {
    for _ in 0..count {
        let key = [1, 2, 3, 4];
        add(rt, tree, key, 1);
        remove_by(rt, tree, &key, removal);
    }
}

/// A pair that comes and goes 100,000 times takes less than 1 MB, after the program has run for a
/// while. A cell that is not used again would take more than 16 bytes each time.
fn assert_steady<const P: usize>(
    rt: &(impl Abort + AllocGlobal + Files),
    tree: &mut Tree<Key, usize, P>,
    removal: Removal,
) {
    let _ = memory(rt, "VmRSS:");
    come_and_go(rt, tree, removal, 5_000);
    let before = memory(rt, "VmRSS:");
    come_and_go(rt, tree, removal, 100_000);
    let after = memory(rt, "VmRSS:");
    assert!(rt; after.saturating_sub(before) < 1_000_000 / 1024);
}

/// Keeps an id, unless it is kept.
fn note(rt: &impl Abort, ids: &mut Vec<LeafId>, id: LeafId) {
    if !ids.contains(&id) {
        ids.push(id).expect(rt, "memory");
    }
}

/// The placements of a pair that comes and goes 1,000 times return at most 16 ids.
fn assert_few_ids<const P: usize>(
    rt: &(impl Abort + AllocGlobal),
    tree: &mut Tree<Key, usize, P>,
    removal: Removal,
) {
    let mut ids: Vec<LeafId> = Vec::new(rt.alloc());
    for _ in 0..1_000usize {
        let key = [1, 2, 3, 4];
        note(rt, &mut ids, add(rt, tree, key, 1));
        remove_by(rt, tree, &key, removal);
    }
    let count = ids.len();
    drop(ids);
    assert!(rt; count <= 16);
}

/// A pair comes and goes in a tree of 100 pairs.
fn used_again_in<const P: usize>(rt: &(impl Abort + AllocGlobal + Files), removal: Removal) {
    let mut tree = Tree::<Key, usize, P>::new(rt.alloc());
    for value in 0..100u8 {
        add(rt, &mut tree, [value / 10, value % 10, 3, 5], 0);
    }
    assert_few_ids(rt, &mut tree, removal);
    assert_steady(rt, &mut tree, removal);
    let len = tree.len();
    drop(tree);
    assert!(rt; len == 100);
}

/// The same at each of three prefix lengths.
fn assert_used_again(rt: &(impl Abort + AllocGlobal + Files), removal: Removal) {
    used_again_in::<0>(rt, removal);
    used_again_in::<2>(rt, removal);
    used_again_in::<16>(rt, removal);
}

#[test]
fn ids_are_used_again_after_take(rt: HostRuntime) {
    assert_used_again(&rt, Removal::Take);
}

#[test]
fn ids_are_used_again_after_remove(rt: HostRuntime) {
    assert_used_again(&rt, Removal::Remove);
}

#[test]
fn ids_are_used_again_after_remove_prefix(rt: HostRuntime) {
    assert_used_again(&rt, Removal::RemovePrefix);
}

#[test]
fn ids_are_used_again_after_clear(rt: HostRuntime) {
    let mut tree = Tree::<Key, usize, 2>::new(rt.alloc());
    assert_few_ids(&rt, &mut tree, Removal::Clear);
    let is_empty = tree.is_empty();
    drop(tree);
    assert!(rt; is_empty);
}

/// How many pairs there are while 10,000 others come and go, each at a place of its own.
const STAYING: usize = 300;

/// Pairs come at random places, and random pairs go. Since each id is used again, there are few.
fn change_places<const P: usize>(rt: &(impl Abort + AllocGlobal)) {
    let mut tree = Tree::<Key, usize, P>::new(rt.alloc());
    let mut kept = Vec::new(rt.alloc());
    let mut ids: Vec<LeafId> = Vec::new(rt.alloc());
    let mut random = RANDOM;
    for step in 0..STAYING {
        place_one(rt, &mut tree, &mut kept, &mut random, step);
    }
    for step in 0..10_000usize {
        place_one(rt, &mut tree, &mut kept, &mut random, step);
        if let Some(last) = kept.last() {
            note(rt, &mut ids, last.id);
        }
        take_one(rt, &mut tree, &mut kept, &mut random);
        assert_some_named(rt, &tree, &kept, &mut random);
    }
    let count = ids.len();
    drop(ids);
    drop(kept);
    drop(tree);
    assert!(rt; count <= 2 * STAYING);
}

#[test]
fn ids_are_used_again_at_other_places(rt: HostRuntime) {
    change_places::<0>(&rt);
    change_places::<2>(&rt);
    change_places::<16>(&rt);
}
