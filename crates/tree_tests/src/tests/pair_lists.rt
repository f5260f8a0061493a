//! Lists of pairs outside of any tree.
use super::{add, byte_of};
use art_tree::{Pairs, Tree};
use std::process::Abort;

/// Adds three pairs to an empty list, and replaces the value of the last.
fn add_three(rt: &impl Abort, pairs: &mut Pairs<u8, char>) {
    assert!(rt; (pairs.len(), pairs.last_key()) == (0, None));
    pairs.reserve(3).expect(rt, "memory");
    pairs.push(1, 'a');
    pairs.push(2, 'b');
    pairs.push(3, 'c');
    assert!(rt; (pairs.len(), pairs.last_key()) == (3, Some(&3)));
    assert!(rt; pairs.replace_last('d') == 'c');
}

/// Takes the three pairs from both ends.
fn take_three(rt: &impl Abort, pairs: &mut Pairs<u8, char>) {
    let taken = [
        pairs.take_first(),
        pairs.take_last(),
        pairs.take_last(),
        pairs.take_first(),
        pairs.take_last(),
    ];
    let wanted = [Some((1, 'a')), Some((3, 'd')), Some((2, 'b')), None, None];
    assert!(rt; taken == wanted);
}

/// Pairs are added, the last value is replaced, and they are removed from both ends.
#[test]
fn a_list_of_three_pairs(rt: HostRuntime) {
    let mut pairs = Pairs::new(rt.alloc());
    add_three(&rt, &mut pairs);
    take_three(&rt, &mut pairs);
    drop(pairs);
}

/// Takes the first pair. Its key is at least this one. Returns the least key that may come next.
fn take_next(rt: &impl Abort, pairs: &mut Pairs<u8, usize>, least: usize) -> usize {
    let (key, value) = pairs.take_first().expect(rt, "a pair");
    assert!(rt; least <= key as usize && value < 200 && byte_of(value as u8) == key);
    key as usize + 1
}

/// A tree is taken apart into its pairs, in order.
#[test]
fn the_pairs_of_a_tree(rt: HostRuntime) {
    let mut tree = Tree::<u8, usize, 16>::new(rt.alloc());
    for step in 0..200u8 {
        add(&rt, &mut tree, byte_of(step), step as usize);
    }
    let mut pairs = tree.into_pairs();
    let mut least = 0;
    for left in (0..200usize).rev() {
        least = take_next(&rt, &mut pairs, least);
        assert!(rt; pairs.len() == left);
    }
    drop(pairs);
}
