//! Room in a tree.
ghost use Rattle.std.specs.Prelude.{◌≡◌};
ghost use Rattle.art_tree.specs.Content.{Fits};

use super::{key_of, say_refused};
use art_tree::{Point, Tree, Visits};
use std::process::Abort;

type Keys = Tree<[u8; 2], usize, 2>;

/// Checks that the tree has exactly the first `count` keys, each with its place as value, and
/// `nodes` inner nodes.
fn assert_keys(rt: &impl Abort, tree: &Keys, count: usize, nodes: usize) {
    assert!(rt; tree.len() == count && tree.inner_nodes() == nodes);
    for place in 0..count {
        let key = key_of(place);
        let is_there = match tree.get(&key, &mut Visits::new()) {
            Some((_, own, value)) => *own == key && *value == place,
            None => false,
        };
        assert!(rt; is_there);
    }
}

/// Makes room for the point of the next key. After a refusal the tree is unchanged, and a second
/// call succeeds.
fn room_at(rt: &(impl Abort + Print), tree: &mut Keys, point: &Point, count: usize)
    ensures pairs { tree.new.pairs ≡ tree.old.pairs }
    ensures fits { Fits tree.new point.now }
{
    let nodes = tree.inner_nodes();
    if tree.make_room(point).is_ok() {
        return;
    }
    say_refused(rt);
    assert_keys(rt, tree, count, nodes);
    // Refusals pause.
    tree.make_room(point).expect(rt, "no request is refused");
    // Refusals resume.
}

/// Places the next key at the point that was found before the room was made.
fn place_next(rt: &(impl Abort + Print), tree: &mut Keys, place: usize) {
    let key = key_of(place);
    let point = tree.point(&key);
    room_at(rt, tree, &point, place);
    match point {
        Point::Exact(_) | Point::Related { .. } => panic!(rt; "no key conflicts"),
        Point::Empty | Point::Free(_) => {
            tree.place(point, key, place);
        }
    }
}

/// The keys and the inner nodes of a tree are unchanged if `make_room` or `reserve` fails.
#[test]
fn make_room_and_reserve(rt: HostRuntime) {
    let mut tree = Keys::new(rt.alloc());
    for place in 0..5usize {
        place_next(&rt, &mut tree, place);
    }
    assert_keys(&rt, &tree, 5, 2);
    tree.reserve(0).expect(&rt, "no memory is asked for");
    if tree.reserve(100).is_err() {
        say_refused(&rt);
        assert_keys(&rt, &tree, 5, 2);
        // Refusals pause.
        tree.reserve(100).expect(&rt, "no request is refused");
        // Refusals resume.
    }
    assert_keys(&rt, &tree, 5, 2);
    drop(tree);
}
