//! Functions over a tree as users write them: the id of a leaf names its pair while others come,
//! go and change.
ghost use Rattle.std.specs.Prelude.{◌≡◌, ◌≢◌, option_map, Some, None};
ghost use Rattle.art_tree.specs.Leaves.{leaf_in, Has};
ghost use Rattle.art_tree.specs.Content.{Fits, IsOpen};
ghost use Rattle.art_tree.specs.Points.{IsGood};
ghost use Rattle.art_tree.specs.Takes.{MayTake};

use art_tree::{LeafId, Point, Tree, Visits};
use blart_keys::AsBytes;

/// Places a pair at a point. The id of another leaf still names its pair.
pub fn place_beside<K: AsBytes + Drop, V: Drop, const P: usize>(
    tree: &mut Tree<K, V, P>,
    point: Point,
    key: K,
    value: V,
    other: LeafId,
) -> LeafId
    ghost stored: { K × V }
    requires good { IsGood K.bytes tree.old.pairs point (K.bytes key) }
    requires open { IsOpen point }
    requires fits { Fits tree.old point }
    requires there { leaf_in tree.old.pairs other ≡ Some stored }
    ensures placed { leaf_in tree.new.pairs result ≡ Some (key, value) }
    ensures stays { leaf_in tree.new.pairs other ≡ Some stored }
    ensures differs { result ≢ other }
{
    tree.place(point, key, value)
}

/// Places a pair at a point, and returns the value of another leaf, read by its id.
pub fn read_beside<K: AsBytes + Drop, const P: usize>(
    tree: &mut Tree<K, u64, P>,
    point: Point,
    key: K,
    value: u64,
    other: LeafId,
) -> u64
    requires good { IsGood K.bytes tree.old.pairs point (K.bytes key) }
    requires open { IsOpen point }
    requires fits { Fits tree.old point }
    requires has { Has tree.old.pairs other }
    ensures { option_map (λ p. p.1) (leaf_in tree.old.pairs other) ≡ Some result }
{
    tree.place(point, key, value);
    *tree.leaf(other, &mut Visits::new()).1
}

/// Removes a leaf, and returns its pair. The id of another leaf still names its pair.
pub fn remove_beside<K: AsBytes + Drop, V: Drop, const P: usize>(
    tree: &mut Tree<K, V, P>,
    id: LeafId,
    other: LeafId,
) -> (K, V)
    ghost stored: { K × V }
    requires has { Has tree.old.pairs id }
    requires differs { other ≢ id }
    requires there { leaf_in tree.old.pairs other ≡ Some stored }
    ensures gone { leaf_in tree.new.pairs id ≡ None }
    ensures stays { leaf_in tree.new.pairs other ≡ Some stored }
{
    tree.remove(id)
}

/// Replaces the pair of a leaf, and returns the old one. The id of another leaf still names its
/// pair.
pub fn swap_beside<K: AsBytes + Drop, V: Drop, const P: usize>(
    tree: &mut Tree<K, V, P>,
    id: LeafId,
    key: K,
    value: V,
    other: LeafId,
) -> (K, V)
    ghost stored: { K × V }
    requires has { Has tree.old.pairs id }
    requires may { MayTake K.bytes tree.old.pairs id (K.bytes key) }
    requires differs { other ≢ id }
    requires there { leaf_in tree.old.pairs other ≡ Some stored }
    ensures swapped { leaf_in tree.new.pairs id ≡ Some (key, value) }
    ensures stays { leaf_in tree.new.pairs other ≡ Some stored }
{
    tree.swap(id, key, value)
}
