//! Steps from leaf to leaf, while pairs are placed beside the leaves.

use super::add;
use art_tree::{LeafId, Position, Tree, Visits};
use std::process::Abort;

type Key = [u8; 2];

/// How many pairs there are at first. Pair n has the number 4n + 2.
const PAIRS: usize = 600;

/// The key of a number less than 65,536. The keys are in the order of the numbers.
fn key_of(number: usize) -> Key {
    [(number / 256 % 256) as u8, (number % 256) as u8]
}

/// A walk by ids from leaf to leaf, which holds no reference to the tree.
#[derive(Clone, Copy)]
struct Steps {
    at: Option<LeafId>,
    seen: Position,
}

/// The walk is at the pair of a number. It goes on to the next leaf, or back to the leaf before.
fn pass<const P: usize>(
    rt: &impl Abort,
    tree: &Tree<Key, usize, P>,
    steps: &mut Steps,
    number: usize,
    is_forward: bool,
) {
    let mut visits = Visits::new();
    let found = tree.search(&key_of(number), &mut visits);
    let found = found.expect(rt, "a pair");
    assert!(rt; steps.at == Some(found));
    let (key, value) = tree.leaf(found, &mut visits);
    assert!(rt; (*key, *value) == (key_of(number), number));
    steps.at = if is_forward {
        tree.next_from(found, &mut steps.seen)
    } else {
        tree.prev_from(found, &mut steps.seen)
    };
}

/// Places the pair of a number.
fn place<const P: usize>(rt: &impl Abort, tree: &mut Tree<Key, usize, P>, number: usize) {
    add(rt, tree, key_of(number), number);
}

/// A walk forward. At each pair of the first ones a pair is placed on both sides. The walk comes to
/// the one that is in front of it, and not to the other.
fn walk_forward<const P: usize>(rt: &impl Abort, tree: &mut Tree<Key, usize, P>) {
    let mut steps = Steps {
        at: tree.first(),
        seen: Position::unknown(),
    };
    for n in 0..PAIRS {
        place(rt, tree, 4 * n + 1);
        place(rt, tree, 4 * n + 3);
        pass(rt, tree, &mut steps, 4 * n + 2, true);
        pass(rt, tree, &mut steps, 4 * n + 3, true);
    }
    assert!(rt; steps.at.is_none());
}

/// A walk back over all of them. Once it has passed the last of three neighbours, a pair is placed
/// in front of them, to which it comes too.
fn walk_back<const P: usize>(rt: &impl Abort, tree: &mut Tree<Key, usize, P>) {
    let mut steps = Steps {
        at: tree.last(),
        seen: Position::unknown(),
    };
    for m in 0..PAIRS {
        let n = PAIRS - 1 - m;
        pass(rt, tree, &mut steps, 4 * n + 3, false);
        place(rt, tree, 4 * n);
        pass(rt, tree, &mut steps, 4 * n + 2, false);
        pass(rt, tree, &mut steps, 4 * n + 1, false);
        pass(rt, tree, &mut steps, 4 * n, false);
    }
    assert!(rt; steps.at.is_none());
}

/// Both walks, the second over what the first left.
fn walk_both_ways<const P: usize>(rt: &(impl Abort + AllocGlobal)) {
    let mut tree = Tree::<Key, usize, P>::new(rt.alloc());
    for n in 0..PAIRS {
        place(rt, &mut tree, 4 * n + 2);
    }
    walk_forward(rt, &mut tree);
    walk_back(rt, &mut tree);
    let len = tree.len();
    drop(tree);
    assert!(rt; len == 4 * PAIRS);
}

#[test]
fn steps_between_placements(rt: HostRuntime) {
    walk_both_ways::<0>(&rt);
    walk_both_ways::<2>(&rt);
    walk_both_ways::<16>(&rt);
}
