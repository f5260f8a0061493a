//! Insertions of one pair.
//!
//! A key type is *disjoint* if no key's bytes are a proper prefix of another key's bytes. Such keys
//! never conflict. The calls in the last two columns take only keys of a disjoint type. The calls
//! in a column *reserved*, and `place_ready`, do not allocate, since the tree has room for the
//! pair. The others may fail to allocate.
//!
//! The first column says what a call does if the bytes are stored: it *sets* the value and keeps
//! the key, *replaces* the pair, *skips* the new pair, or *returns* the leaf and the new pair. The
//! calls of the last row must get bytes that are not stored.
//!
//! | | | reserved | disjoint | disjoint, reserved |
//! |---|---|---|---|---|
//! | sets | `insert` | `insert_reserved` | `insert_disjoint` | `insert_disjoint_reserved` |
//! | replaces | `replace` | | | `replace_reserved` |
//! | skips | | | | `insert_absent_reserved` |
//! | returns | `Tree::add` | `Tree::add_within` | `add_disjoint` | `add_disjoint_reserved` |
//! | not stored | `room_for`, then `place_ready` | `place_reserved` | | |
ghost use Rattle.std.specs.Prelude.{◌≡◌, ◌≢◌, ◌+◌, ◌<◌, ◌≤◌, ℕ, true, false, option_map, Some, None, Ok, IfOk, OnErr};
ghost use Rattle.blart_keys.specs.Content.{stores, conflict, IsContent, IsPut};
ghost use Rattle.blart_keys.specs.Steps.{bytes as pair_bytes, Puts, Inserts};
ghost use Rattle.blart_keys.specs.Stored.{kept, pair_at};
ghost use Rattle.art_tree.specs.Content.{room};
ghost use Rattle.art_tree.specs.Leaves.{AreDistinct, bytes};
ghost use Rattle.art_tree.specs.Points.{IsGood};
ghost use Rattle.art_tree.specs.declared.tree.point.Point.TheVariants.{Exact, Related};
ghost use Rattle.art_tree.specs.Pairs.{pairs_of};
ghost use Rattle.art_edits.specs.Places.{IsReady, IsPlaced};
ghost use Rattle.art_edits.specs.Reserved.{as_tried, added, added_ok};
ghost use Rattle.art_tree.specs.Adding.{Adds};
ghost use Rattle.art_tree.specs.declared.tree.add.Added.TheVariants.{Conflict};

use art_tree::{Added, LeafId, Point, Tree, Visits};
use blart_keys::{AsBytes, InsertPrefixError, NoPrefixesBytes, TryInsertError};
use std::alloc::AllocError;
use std::mem;

/// Makes room for a pair with this key, which is related to no stored key, and returns its point.
/// Returns an error if it fails to allocate. The pairs are unchanged in both cases.
pub fn room_for<K: AsBytes + Drop, V: Drop, const P: usize>(
    tree: &mut Tree<K, V, P>,
    key: &K,
) -> Result<Point, AllocError>
    requires absent { stores (bytes K.bytes) tree.old.pairs (K.bytes key.now) ≡ false }
    requires free { conflict (bytes K.bytes) tree.old.pairs (K.bytes key.now) ≡ false }
    ensures pairs { tree.new.pairs ≡ tree.old.pairs }
    ensures ready { IfOk result (λ point. IsReady K.bytes tree.new point (K.bytes key.now)) }
    ensures content { IsContent (bytes K.bytes) tree.old.pairs }
{
    tree.law();
    let point = tree.point(key.as_bytes());
    match point {
        Point::Empty | Point::Free(_) => {
            tree.make_room(&point)?;
            Ok(point)
        }
        Point::Exact(_) | Point::Related { .. } => unreachable!(),
    }
}

/// Places a pair at a point that is ready for its key, and returns its leaf. Does not allocate.
pub fn place_ready<K: AsBytes + Drop, V: Drop, const P: usize>(
    tree: &mut Tree<K, V, P>,
    point: Point,
    key: K,
    value: V,
) -> LeafId
    requires ready { IsReady K.bytes tree.old point (K.bytes key) }
    ensures placed { IsPlaced K.bytes tree.old.pairs key value result tree.new.pairs }
{
    tree.law();
    let id = tree.place(point, key, value);
    tree.law();
    id
}

/// Returns the point of a key of a disjoint type. It is never `Related`.
pub fn point_of_disjoint<K: NoPrefixesBytes, V, const P: usize>(
    tree: &Tree<K, V, P>,
    key: &K,
) -> Point
    ensures good { IsGood K.bytes tree.now.pairs result (K.bytes key.now) }
    ensures disjoint { (i j : ℕ) → result ≢ Related i j }
    ensures content { IsContent (bytes K.bytes) tree.now.pairs }
    ensures distinct { AreDistinct tree.now.pairs }
{
    tree.law();
    match tree.point(key.as_bytes()) {
        Point::Related { first, .. } => {
            let (other, _) = tree.leaf(first, &mut Visits::new());
            other.value_law();
            key.value_law();
            unreachable!()
        }
        point => point,
    }
}

/// Adds a pair with a key of a disjoint type, like [`Tree::add`].
fn add_disjoint<K: NoPrefixesBytes + Drop, V: Drop, const P: usize>(
    tree: &mut Tree<K, V, P>,
    key: K,
    value: V,
) -> Result<Added<LeafId, K, V>, AllocError>
    ensures added { Adds K.bytes tree.old tree.new (key, value) result }
    ensures disjoint { (i : ℕ) (k : K) (v : V) → result ≢ Ok (Conflict i k v) }
    ensures content { IsContent (bytes K.bytes) tree.old.pairs }
    ensures distinct { AreDistinct tree.old.pairs }
{
    tree.law();
    match tree.add(key, value) {
        Ok(Added::Conflict(first, key, _value)) => {
            let (other, _) = tree.leaf(first, &mut Visits::new());
            other.value_law();
            key.value_law();
            unreachable!()
        }
        added => added,
    }
}

/// Adds a pair with a key of a disjoint type, like [`Tree::add_within`].
fn add_disjoint_reserved<K: NoPrefixesBytes + Drop, V: Drop, const P: usize>(
    tree: &mut Tree<K, V, P>,
    key: K,
    value: V,
) -> Added<LeafId, K, V>
    requires { 0 < room tree.old }
    ensures added { Adds K.bytes tree.old tree.new (key, value) (Ok result) }
    ensures disjoint { (i : ℕ) (k : K) (v : V) → result ≢ Conflict i k v }
    ensures room { room tree.old ≤ room tree.new + 1 }
    ensures content { IsContent (bytes K.bytes) tree.old.pairs }
    ensures distinct { AreDistinct tree.old.pairs }
{
    tree.law();
    match tree.add_within(key, value) {
        Added::Conflict(first, key, _value) => {
            let (other, _) = tree.leaf(first, &mut Visits::new());
            other.value_law();
            key.value_law();
            unreachable!()
        }
        added => added,
    }
}

/// Places a pair whose key is related to no stored key. Uses the room of one pair.
pub(crate) fn place_reserved<K: AsBytes + Drop, V: Drop, const P: usize>(
    tree: &mut Tree<K, V, P>,
    key: K,
    value: V,
)
    requires absent { stores (pair_bytes K.bytes) (pairs_of tree.old.pairs) (K.bytes key) ≡ false }
    requires free { conflict (pair_bytes K.bytes) (pairs_of tree.old.pairs) (K.bytes key) ≡ false }
    requires room { 0 < room tree.old }
    ensures put { IsPut (pair_bytes K.bytes) (pairs_of tree.old.pairs) (key, value)
        (pairs_of tree.new.pairs) }
    ensures room { room tree.old ≤ room tree.new + 1 }
{
    match tree.add_within(key, value) {
        Added::Placed => {}
        Added::Stored(_id, _key, _value) => unreachable!(),
        Added::Conflict(_first, _key, _value) => unreachable!(),
    }
}

/// Replaces the pair with the same bytes, or adds the pair. Uses the room of at most one pair.
pub(crate) fn replace_reserved<K: NoPrefixesBytes + Drop, V: Drop, const P: usize>(
    tree: &mut Tree<K, V, P>,
    key: K,
    value: V,
)
    requires room { 0 < room tree.old }
    ensures put { IsPut (pair_bytes K.bytes) (pairs_of tree.old.pairs) (key, value)
        (pairs_of tree.new.pairs) }
    ensures room { room tree.old ≤ room tree.new + 1 }
{
    match add_disjoint_reserved(tree, key, value) {
        Added::Placed => {}
        Added::Stored(id, key, value) => {
            tree.swap(id, key, value);
        }
        Added::Conflict(_first, _key, _value) => unreachable!(),
    }
}

/// Adds a pair if its bytes are new, or else drops it. Uses the room of at most one pair.
pub(crate) fn insert_absent_reserved<K: NoPrefixesBytes + Drop, V: Drop, const P: usize>(
    tree: &mut Tree<K, V, P>,
    key: K,
    value: V,
)
    requires room { 0 < room tree.old }
    ensures added { stores (pair_bytes K.bytes) (pairs_of tree.old.pairs) (K.bytes key) ≡ false
        → IsPut (pair_bytes K.bytes) (pairs_of tree.old.pairs) (key, value)
        (pairs_of tree.new.pairs) }
    ensures stays { stores (pair_bytes K.bytes) (pairs_of tree.old.pairs) (K.bytes key) ≡ true
        → tree.new.pairs ≡ tree.old.pairs }
    ensures room { room tree.old ≤ room tree.new + 1 }
{
    match add_disjoint_reserved(tree, key, value) {
        Added::Placed => {}
        Added::Stored(_id, _key, _value) => {}
        Added::Conflict(_first, _key, _value) => unreachable!(),
    }
}

/// Inserts a pair like [`insert`], into a tree that has room for it. Returns an error if the key
/// conflicts. Uses the room of one pair if the pair is added.
pub fn insert_reserved<K: AsBytes + Drop, V: Drop, const P: usize>(
    tree: &mut Tree<K, V, P>,
    key: K,
    value: V,
) -> Result<Option<V>, InsertPrefixError>
    requires { 0 < room tree.old }
    ensures put { Puts K.bytes (option_map (λ pair. pair.1)) (pairs_of tree.old.pairs) (key, value)
        (kept K.bytes (pairs_of tree.old.pairs) (key, value)) (as_tried result)
        (pairs_of tree.new.pairs) }
    ensures room { room tree.old ≤ room tree.new + added_ok result }
{
    tree.law();
    match tree.add_within(key, value) {
        Added::Placed => Ok(None),
        Added::Stored(id, _key, value) => Ok(Some(mem::replace(tree.value_mut(id), value))),
        Added::Conflict(_first, _key, _value) => Err(InsertPrefixError),
    }
}

/// Inserts a pair with a key of a disjoint type, like [`insert_reserved`].
pub fn insert_disjoint_reserved<K: NoPrefixesBytes + Drop, V: Drop, const P: usize>(
    tree: &mut Tree<K, V, P>,
    key: K,
    value: V,
) -> Option<V>
    requires { 0 < room tree.old }
    ensures old { result
        ≡ option_map (λ pair. pair.1) (pair_at K.bytes (pairs_of tree.old.pairs) (K.bytes key)) }
    ensures put { IsPut (pair_bytes K.bytes) (pairs_of tree.old.pairs)
        (kept K.bytes (pairs_of tree.old.pairs) (key, value)) (pairs_of tree.new.pairs) }
    ensures room { room tree.old ≤ room tree.new + added result }
{
    match add_disjoint_reserved(tree, key, value) {
        Added::Placed => None,
        Added::Stored(id, _key, value) => Some(mem::replace(tree.value_mut(id), value)),
        Added::Conflict(_first, _key, _value) => unreachable!(),
    }
}

/// Inserts a pair with a key of a disjoint type, like [`insert`]. Returns an error if it fails to
/// allocate, and the pairs are then unchanged.
pub fn insert_disjoint<K: NoPrefixesBytes + Drop, V: Drop, const P: usize>(
    tree: &mut Tree<K, V, P>,
    key: K,
    value: V,
) -> Result<Option<V>, AllocError>
    ensures put { Inserts K.bytes (pairs_of tree.old.pairs) (key, value)
        (kept K.bytes (pairs_of tree.old.pairs) (key, value)) result (pairs_of tree.new.pairs) }
    ensures err { OnErr result (tree.new.pairs ≡ tree.old.pairs) }
{
    match add_disjoint(tree, key, value) {
        Ok(Added::Placed) => Ok(None),
        Ok(Added::Stored(id, _key, value)) => Ok(Some(mem::replace(tree.value_mut(id), value))),
        Ok(Added::Conflict(_first, _key, _value)) => unreachable!(),
        Err(refused) => Err(refused),
    }
}

/// Sets the value of the stored key with the same bytes and returns the old value, or adds the
/// pair. A stored key is unchanged. Returns an error if the key conflicts or if it fails to
/// allocate, and the pairs are then unchanged.
pub fn insert<K: AsBytes + Drop, V: Drop, const P: usize>(
    tree: &mut Tree<K, V, P>,
    key: K,
    value: V,
) -> Result<Option<V>, TryInsertError>
    ensures put { Puts K.bytes (option_map (λ pair. pair.1)) (pairs_of tree.old.pairs) (key, value)
        (kept K.bytes (pairs_of tree.old.pairs) (key, value)) result (pairs_of tree.new.pairs) }
    ensures err { OnErr result (tree.new.pairs ≡ tree.old.pairs) }
{
    tree.law();
    match tree.add(key, value) {
        Ok(Added::Placed) => Ok(None),
        Ok(Added::Stored(stored, _key, value)) => {
            Ok(Some(mem::replace(tree.value_mut(stored), value)))
        }
        Ok(Added::Conflict(_first, _key, _value)) => Err(TryInsertError::Prefix(InsertPrefixError)),
        Err(refused) => Err(TryInsertError::Memory(refused)),
    }
}

/// Replaces the stored pair with the same bytes and returns the old pair, or adds the pair. Returns
/// an error if the key conflicts or if it fails to allocate, and the pairs are then unchanged.
pub fn replace<K: AsBytes + Drop, V: Drop, const P: usize>(
    tree: &mut Tree<K, V, P>,
    key: K,
    value: V,
) -> Result<Option<(K, V)>, TryInsertError>
    ensures put { Puts K.bytes (λ pair. pair) (pairs_of tree.old.pairs) (key, value) (key, value)
        result (pairs_of tree.new.pairs) }
    ensures err { OnErr result (tree.new.pairs ≡ tree.old.pairs) }
{
    tree.law();
    match tree.add(key, value) {
        Ok(Added::Placed) => Ok(None),
        Ok(Added::Stored(id, key, value)) => Ok(Some(tree.swap(id, key, value))),
        Ok(Added::Conflict(_first, _key, _value)) => Err(TryInsertError::Prefix(InsertPrefixError)),
        Err(refused) => Err(TryInsertError::Memory(refused)),
    }
}
