//! The tree.
ghost use Rattle.std.specs.Prelude.{◌≡◌, ◌==◌, ◌+◌, ◌-◌, ◌<◌, ◌≤◌, [], length, map, Some, None, OnOk, OnErr};
ghost use Rattle.std.specs.FinSet as set;
ghost use Rattle.blart_keys.specs.Content.{IsContent, IsPut};
ghost use Rattle.blart_keys.specs.Steps.{bytes as pair_bytes};
ghost use Rattle.blart_keys.specs.Fronts.{fronts, parts};
ghost use Rattle.art_tree.specs.Leaves.{leaf_in, Has, AreDistinct, first_number, last_number, number_after, number_before, OthersStand, bytes};
ghost use Rattle.art_tree.specs.Content.{room, Fits, IsOpen};
ghost use Rattle.art_tree.specs.Invariant.Sound.{IsSound};
ghost use Rattle.art_tree.specs.Points.{IsGood};
ghost use Rattle.art_tree.specs.Longest.{longest};

pub mod add;
mod apart;
pub mod build;
mod change;
mod clone;
pub(crate) mod descent;
mod free_subtree;
mod place;
pub mod point;
mod prefix;
mod remove;
mod search;
mod seek;
pub(crate) mod skeleton;
pub(crate) mod stop;

use crate::lists::begins;
use crate::tree::add::make_room_beside;
use crate::tree::descent::children_of;
use crate::tree::place::place_at;
use crate::tree::point::{Point, point_below};
use crate::tree::skeleton::Skeleton;
use art_kinds::{Child, Nodes};
use art_rows::{Leaves, Position};
use art_slots::{LeafId, Visits};
use blart_keys::AsBytes;
use std::alloc::{AllocError, Global};
use std::marker::Model;

/// The number of bytes of a compressed prefix that an inner node keeps by default.
pub const DEFAULT_PREFIX_LEN: usize = 16;

/// Pairs of a key and a value, in the order of the keys' bytes. No key's bytes are a prefix of
/// another's. Each pair has a leaf, and the id of a leaf names it until the leaf is removed.
///
/// An inner node keeps the first `PREFIX_LEN` bytes of its compressed prefix. Any length will do,
/// also 0.
///
/// A removal may try to allocate a smaller inner node, and keeps the larger one if that fails. So
/// no removal returns an error.
#[derive(Drop)]
pub struct Tree<K: AsBytes, V, const PREFIX_LEN: usize> {
    pub(crate) leaves: Leaves<K, V>,
    pub(crate) skeleton: Skeleton<PREFIX_LEN>,
}

impl<K: AsBytes, V, const PREFIX_LEN: usize> Model for Tree<K, V, PREFIX_LEN> {
    ghost use Rattle.art_tree.specs.Content.{Content, content_code};

    ghost Value = { Content K V };

    ghost coded = { content_code K.code V.code };

    ghost use Rattle.art_tree.specs.Invariant.Sound.{IsSound};
    ghost use Rattle.art_kinds.specs.Nodes.{room};
    ghost use Rattle.art_tree.specs.Leaves.{room as leaves_room};

    ghost view = { λ t. record {
      pairs = t.leaves.pairs;
      spares = record { leaves = leaves_room t.leaves; nodes = room t.skeleton.nodes };
    } };

    ghost invariant = { λ t. IsSound K.bytes PREFIX_LEN t.leaves t.skeleton.nodes t.skeleton.root };
}

impl<K: AsBytes, V, const PREFIX_LEN: usize> Tree<K, V, PREFIX_LEN> {
    /// Returns a tree with no pairs. Does not allocate.
    ///
    /// Cost: none.
    pub fn new(alloc: Global) -> Self
        ensures pairs { result.pairs ≡ [] }
        ensures room { room result ≡ 0 }
    {
        Tree {
            leaves: Leaves::new(alloc),
            skeleton: Skeleton {
                nodes: Nodes::new(alloc),
                root: None,
            },
        }
    }

    /// Does nothing. Its contract says what holds of every tree: the pairs ascend by the bytes of
    /// their keys, no key's bytes are a prefix of another's, and no two leaves have the same id.
    ///
    /// Cost: none.
    pub fn law(&self)
        ensures content { IsContent (bytes K.bytes) self.now.pairs }
        ensures distinct { AreDistinct self.now.pairs }
    {
        self.leaves.law()
    }

    /// Returns the number of pairs.
    ///
    /// Cost: reads a count.
    pub fn len(&self) -> usize
        ensures { result ≡ length self.now.pairs }
    {
        self.leaves.len()
    }

    /// Returns `true` if there are no pairs.
    ///
    /// Cost: reads a count.
    pub fn is_empty(&self) -> bool
        ensures { result ≡ (length self.now.pairs == 0) }
    {
        self.len() == 0
    }

    /// Returns the first leaf, or `None` if the tree has no pairs.
    ///
    /// Cost: no visit.
    pub fn first(&self) -> Option<LeafId>
        ensures { result ≡ first_number self.now.pairs }
    {
        self.leaves.first()
    }

    /// Returns the last leaf, or `None` if the tree has no pairs.
    ///
    /// Cost: no visit.
    pub fn last(&self) -> Option<LeafId>
        ensures { result ≡ last_number self.now.pairs }
    {
        self.leaves.last()
    }

    /// Returns the leaf after a leaf, or `None` if it is the last.
    ///
    /// Cost: no visit.
    pub fn next_of(&self, id: LeafId) -> Option<LeafId>
        requires { Has self.now.pairs id }
        ensures { result ≡ number_after self.now.pairs id }
    {
        self.leaves.next_of(id)
    }

    /// Returns the leaf before a leaf, or `None` if it is the first.
    ///
    /// Cost: no visit.
    pub fn prev_of(&self, id: LeafId) -> Option<LeafId>
        requires { Has self.now.pairs id }
        ensures { result ≡ number_before self.now.pairs id }
    {
        self.leaves.prev_of(id)
    }

    /// Returns the leaf after a leaf, or `None` if it is the last.
    ///
    /// `seen` is a guess of the position of the given leaf. If it is right, no row is searched. The
    /// call sets it to the position of the returned leaf.
    ///
    /// Cost: no visit.
    #[inline(always)]
    pub fn next_from(&self, id: LeafId, seen: &mut Position) -> Option<LeafId>
        requires { Has self.now.pairs id }
        ensures { result ≡ number_after self.now.pairs id }
    {
        self.leaves.next_from(id, seen)
    }

    /// Returns the leaf before a leaf, or `None` if it is the first.
    ///
    /// `seen` is a guess of the position of the given leaf. If it is right, no row is searched. The
    /// call sets it to the position of the returned leaf.
    ///
    /// Cost: no visit.
    #[inline(always)]
    pub fn prev_from(&self, id: LeafId, seen: &mut Position) -> Option<LeafId>
        requires { Has self.now.pairs id }
        ensures { result ≡ number_before self.now.pairs id }
    {
        self.leaves.prev_from(id, seen)
    }

    /// Returns the pair of a leaf.
    ///
    /// Cost: one visit.
    pub fn leaf(&self, id: LeafId, visits: &mut Visits) -> (&K, &V)
        requires { Has self.now.pairs id }
        ensures value { leaf_in self.now.pairs id ≡ Some (result.0.now, result.1.now) }
        ensures counted { visits.new.count ≡ visits.old.count + 1 }
    {
        self.leaves.read(id, visits)
    }

    /// Returns the point of these bytes: the leaf that has them, the leaves that they conflict
    /// with, or the gap for them. In a tree with no pairs it is `Empty`. The point is good for
    /// these bytes while the pairs are unchanged.
    ///
    /// Cost: one descent.
    pub fn point(&self, query: &[u8]) -> Point
        ensures { IsGood K.bytes self.now.pairs result query.now }
    {
        match self.skeleton.root {
            None => Point::Empty,
            Some(root) => point_below(&self.leaves, &self.skeleton.nodes, &root, query),
        }
    }

    /// Returns the number of inner nodes. There is one at the longest common prefix of each two
    /// neighbouring keys. The number is less than the number of pairs, and 0 if there are no pairs.
    ///
    /// Cost: reads four counts.
    pub fn inner_nodes(&self) -> usize
        ensures value { result ≡ set.len (fronts (bytes K.bytes) self.now.pairs) }
        ensures fewer { result ≤ length self.now.pairs - 1 }
    {
        self.leaves.law();
        self.skeleton.nodes.live()
    }

    /// Returns the number of children of the inner node at this prefix, or 0 if there is no such
    /// node.
    ///
    /// Cost: at most L + 1 visits, if the longest key has L bytes. It makes at least one visit if
    /// there is such a node.
    pub fn children_at(&self, front: &[u8], visits: &mut Visits) -> usize
        ensures value { result ≡ set.len (parts (bytes K.bytes) self.now.pairs front.now) }
        ensures counted { visits.new.count
            ≤ visits.old.count + longest (bytes K.bytes) self.now.pairs + 1 }
        ensures grows { visits.old.count ≤ visits.new.count }
        ensures some_counted { 0 < result → visits.old.count < visits.new.count }
    {
        self.leaves.law();
        match self.skeleton.root {
            None => 0,
            Some(root) => {
                children_below(&self.leaves, &self.skeleton.nodes, &root, front, visits)
            }
        }
    }
}

impl<K: AsBytes + Drop, V: Drop, const PREFIX_LEN: usize> Tree<K, V, PREFIX_LEN> {
    /// Makes room for a placement at the point, or returns an error if it fails to allocate. The
    /// pairs are unchanged in both cases, and the point remains good.
    ///
    /// Cost: allocates for one pair.
    pub fn make_room(&mut self, point: &Point) -> Result<(), AllocError>
        ensures pairs { self.new.pairs ≡ self.old.pairs }
        ensures fits { OnOk result (Fits self.new point.now) }
        ensures room { room self.old ≤ room self.new }
        ensures refused { OnErr result (IsOpen point.now) }
    {
        match point {
            Point::Exact(_) | Point::Related { .. } => Ok(()),
            Point::Empty => self.leaves.reserve(1),
            Point::Free(_) => make_room_beside(&mut self.leaves, &mut self.skeleton.nodes),
        }
    }

    /// Places a pair, and returns its leaf. The point must be empty or free, good for the bytes of
    /// the key, and there must be room at it. Each other id names the pair that it named. Does not
    /// allocate.
    ///
    /// Cost: at most two reads of nodes. If they do not show that the fork of the point is still
    /// right, one descent by the nearest key too.
    pub fn place(&mut self, point: Point, key: K, value: V) -> LeafId
        requires good { IsGood K.bytes self.old.pairs point (K.bytes key) }
        requires open { IsOpen point }
        requires fits { Fits self.old point }
        ensures put { IsPut (pair_bytes K.bytes) (map (λ p. p.1) self.old.pairs) (key, value)
            (map (λ p. p.1) self.new.pairs) }
        ensures now { leaf_in self.new.pairs result ≡ Some (key, value) }
        ensures fresh { leaf_in self.old.pairs result ≡ None }
        ensures others { OthersStand self.old.pairs self.new.pairs result }
        ensures room { room self.old ≤ room self.new + 1 }
    {
        place_at(&mut self.leaves, &mut self.skeleton, &point, key, value)
    }
}

/// Returns the number of children of the inner node at this prefix, in a tree with some pairs.
fn children_below<K: AsBytes, V, const P: usize>(
    leaves: &Leaves<K, V>,
    nodes: &Nodes<P>,
    root: &Child,
    front: &[u8],
    visits: &mut Visits,
) -> usize
    requires { IsSound K.bytes P leaves.now nodes.now (Some root.now) }
    ensures value { result ≡ set.len (parts (bytes K.bytes) leaves.now.pairs front.now) }
    ensures counted { visits.new.count
        ≤ visits.old.count + longest (bytes K.bytes) leaves.now.pairs + 1 }
    ensures grows { visits.old.count ≤ visits.new.count }
    ensures some_counted { 0 < result → visits.old.count < visits.new.count }
{
    leaves.law();
    let Some(found) = children_of(nodes, root, front, visits) else {
        return 0;
    };
    let (key, _) = leaves.read(found.1, visits);
    if begins(front, key.as_bytes()) {
        found.0
    } else {
        0
    }
}
