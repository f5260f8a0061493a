//! Pairs that are added by their keys.
ghost use Rattle.std.specs.Prelude.{◌≡◌, ◌+◌, ◌<◌, ◌≤◌, [], Some, Ok, IfOk, OnOk, OnErr};
ghost use Rattle.art_tree.specs.Leaves.{keys_in, room as leaves_room};
ghost use Rattle.art_tree.specs.Content.{room as room_of};
ghost use Rattle.art_tree.specs.Points.{IsFree};
ghost use Rattle.art_tree.specs.Invariant.Sound.{IsSound};
ghost use Rattle.art_tree.specs.Adding.{Adds};
ghost use Rattle.art_tree.specs.Calls.Placing.{IsShownIn, PutsPair};
ghost use Rattle.art_kinds.specs.Nodes.{at, room, SameNodes};

use crate::tree::Tree;
use crate::tree::place::{place_beside, place_first};
use crate::tree::point::{Gap, Point, point_below};
use crate::tree::skeleton::Skeleton;
use art_kinds::Nodes;
use art_rows::Leaves;
use art_slots::LeafId;
use blart_keys::AsBytes;
use std::alloc::AllocError;

/// The result of adding a pair.
#[derive(Drop)]
pub enum Added<Id, K, V> {
    /// The pair was placed. Its key was related to no stored key.
    Placed,
    /// This leaf has the bytes of the key. The pair is returned.
    Stored(Id, K, V),
    /// The key conflicts with stored keys. This leaf has the first of them. The pair is returned.
    Conflict(Id, K, V),
}

impl<K: AsBytes + Drop, V: Drop, const PREFIX_LEN: usize> Tree<K, V, PREFIX_LEN> {
    /// Adds a pair if its key is related to no stored key. Each other id names the pair that it
    /// named. Returns an error if it fails to allocate, and the pairs are then unchanged.
    ///
    /// This is [`Tree::point`], [`Tree::make_room`] and [`Tree::place`] in one call, with one
    /// descent.
    ///
    /// Cost: one descent. If no stored key is related to the key, it also allocates for one pair.
    pub fn add(&mut self, key: K, value: V) -> Result<Added<LeafId, K, V>, AllocError>
        ensures added { Adds K.bytes self.old self.new (key, value) result }
        ensures room { room_of self.old ≤ room_of self.new + 1 }
    {
        self.leaves.law();
        let root = match self.skeleton.root {
            Some(root) => root,
            None => {
                add_first(&mut self.leaves, &mut self.skeleton, key, value)?;
                return Ok(Added::Placed);
            }
        };
        match point_below(&self.leaves, &self.skeleton.nodes, &root, key.as_bytes()) {
            Point::Exact(id) => Ok(Added::Stored(id, key, value)),
            Point::Related { first, .. } => Ok(Added::Conflict(first, key, value)),
            Point::Empty => unreachable!(),
            Point::Free(gap) => {
                add_beside(&mut self.leaves, &mut self.skeleton, &gap, key, value)?;
                Ok(Added::Placed)
            }
        }
    }

    /// Adds a pair for which there is room, if its key is related to no stored key. Each other id
    /// names the pair that it named.
    ///
    /// Cost: as for [`Tree::add`], and does not allocate.
    pub fn add_within(&mut self, key: K, value: V) -> Added<LeafId, K, V>
        requires room { 0 < room_of self.old }
        ensures added { Adds K.bytes self.old self.new (key, value) (Ok result) }
        ensures room { room_of self.old ≤ room_of self.new + 1 }
    {
        self.leaves.law();
        let root = match self.skeleton.root {
            Some(root) => root,
            None => {
                place_first(&mut self.leaves, &mut self.skeleton, key, value);
                return Added::Placed;
            }
        };
        match point_below(&self.leaves, &self.skeleton.nodes, &root, key.as_bytes()) {
            Point::Exact(id) => Added::Stored(id, key, value),
            Point::Related { first, .. } => Added::Conflict(first, key, value),
            Point::Empty => unreachable!(),
            Point::Free(gap) => {
                let shown = Some(gap.fork);
                place_beside(
                    &mut self.leaves,
                    &mut self.skeleton,
                    &gap,
                    &shown,
                    key,
                    value,
                );
                Added::Placed
            }
        }
    }
}

/// Adds the first pair, and returns its leaf. Returns an error if it fails to allocate.
#[cold]
#[inline(never)]
fn add_first<K: AsBytes + Drop, V: Drop, const P: usize>(
    leaves: &mut Leaves<K, V>,
    skeleton: &mut Skeleton<P>,
    key: K,
    value: V,
) -> Result<LeafId, AllocError>
    requires whole { IsSound K.bytes P leaves.old skeleton.old.nodes skeleton.old.root }
    requires empty { leaves.old.pairs ≡ [] }
    ensures placed { IfOk result
        (λ id. PutsPair K.bytes leaves.old.pairs leaves.new.pairs id (key, value)) }
    ensures whole { OnOk result
        (IsSound K.bytes P leaves.new skeleton.new.nodes skeleton.new.root) }
    ensures room { leaves_room leaves.old ≤ leaves_room leaves.new + 1 }
    ensures nodes { skeleton.new.nodes ≡ skeleton.old.nodes }
    ensures pairs { OnErr result (leaves.new.pairs ≡ leaves.old.pairs) }
    ensures same { OnErr result (skeleton.new ≡ skeleton.old) }
{
    leaves.law();
    leaves.reserve(1)?;
    Ok(place_first(leaves, skeleton, key, value))
}

/// Adds a pair at a gap whose fork is right, and returns its leaf. Returns an error if it
/// fails to allocate.
fn add_beside<K: AsBytes + Drop, V: Drop, const P: usize>(
    leaves: &mut Leaves<K, V>,
    skeleton: &mut Skeleton<P>,
    gap: &Gap,
    key: K,
    value: V,
) -> Result<LeafId, AllocError>
    requires whole { IsSound K.bytes P leaves.old skeleton.old.nodes skeleton.old.root }
    requires free { IsFree K.bytes leaves.old.pairs gap.now (K.bytes key) }
    requires fork { IsShownIn P (keys_in K.bytes leaves.old.pairs) (at skeleton.old.nodes)
        skeleton.old.root gap.now.nearest gap.now.depth gap.now.fork }
    ensures placed { IfOk result
        (λ id. PutsPair K.bytes leaves.old.pairs leaves.new.pairs id (key, value)) }
    ensures whole { OnOk result
        (IsSound K.bytes P leaves.new skeleton.new.nodes skeleton.new.root) }
    ensures leaves_room { leaves_room leaves.old ≤ leaves_room leaves.new + 1 }
    ensures nodes_room { room skeleton.old.nodes ≤ room skeleton.new.nodes + 1 }
    ensures pairs { OnErr result (leaves.new.pairs ≡ leaves.old.pairs) }
    ensures nodes { OnErr result (SameNodes skeleton.old.nodes skeleton.new.nodes) }
    ensures root { OnErr result (skeleton.new.root ≡ skeleton.old.root) }
{
    leaves.law();
    make_room_beside(leaves, &mut skeleton.nodes)?;
    let shown = Some(gap.fork);
    Ok(place_beside(leaves, skeleton, gap, &shown, key, value))
}

/// Makes room for one more pair beside others. Returns an error if it fails to allocate.
pub(crate) fn make_room_beside<K: Drop, V: Drop, const P: usize>(
    leaves: &mut Leaves<K, V>,
    nodes: &mut Nodes<P>,
) -> Result<(), AllocError>
    ensures pairs { leaves.new.pairs ≡ leaves.old.pairs }
    ensures nodes { SameNodes nodes.old nodes.new }
    ensures leaves_room { leaves_room leaves.old ≤ leaves_room leaves.new }
    ensures nodes_room { room nodes.old ≤ room nodes.new }
    ensures fits { OnOk result ((0 < leaves_room leaves.new) × (0 < room nodes.new)) }
{
    leaves.reserve(1)?;
    nodes.reserve(1)
}
