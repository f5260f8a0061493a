//! The record of an inner node, and the operations on one record of a store.
ghost use Rattle.std.specs.Prelude.{◌≡◌, ◌+◌, ◌<◌, ◌≤◌, ◌^◌, take, length, None, IsSome, IsSomeAnd, OnOk, OnErr};
ghost use Rattle.art_kinds.specs.Edges.{child_at, AddsChild, DropsChild, RedirectsChild};
ghost use Rattle.art_kinds.specs.OneKinds.{FitsIn, IsOneKind, Rewires, Changes, Grows};
ghost use Rattle.art_slots.specs.Store.{slot_at};

use crate::records::children::Children;
use crate::records::ids::Child;
use art_slots::Store;
use std::alloc::AllocError;
use std::marker::Model;

/// An inner node: its depth, the first bytes of its compressed prefix, and its edges. The depth is
/// the number of bytes that all keys below the node share. A contract sees the node.
#[derive(Drop)]
pub(super) struct Inner<C: Children, const P: usize> {
    pub(super) depth: usize,
    /// The number of bytes of `prefix` that are used.
    pub(super) used: usize,
    pub(super) prefix: [u8; P],
    pub(super) edges: C,
}

impl<C: Children, const P: usize> Model for Inner<C, P> {
    ghost use Rattle.std.specs.Prelude.{take, length, ◌≤◌, ◌≡◌};
    ghost use Rattle.art_kinds.specs.Nodes.{Node, node_code};

    ghost Value = { Node };

    ghost coded = { node_code };

    ghost view = { λ s. record {
      depth = s.depth;
      prefix = take s.used s.prefix;
      edges = C.edges s.edges;
    } };

    ghost invariant = { λ s. (s.used ≤ P) × (length s.prefix ≡ P) };
}

impl<C: Children, const P: usize> Inner<C, P> {
    /// Returns a node. It keeps the first `P` bytes of `prefix`.
    #[inline(always)]
    pub(super) fn new(depth: usize, prefix: &[u8], edges: C) -> Self
        ensures { result
            ≡ record { depth = depth; prefix = take P prefix.now; edges = C.edges edges } }
    {
        let mut node = Inner {
            depth,
            used: 0,
            edges,
            prefix: [0; P],
        };
        node.used = copy_front(&mut node.prefix, prefix);
        node
    }

    /// Returns the node with other edges, which may be of another kind.
    #[inline(always)]
    pub(super) fn with_edges<D: Children>(self, edges: D) -> Inner<D, P>
        ensures { result ≡ record self { edges = D.edges edges } }
    {
        Inner {
            depth: self.depth,
            used: self.used,
            edges,
            prefix: self.prefix,
        }
    }
}

impl<C: Children, const P: usize> Clone for Inner<C, P> {
    ghost is_clone = { λ x y. y ≡ x };

    fn clone(&self) -> Result<Self, AllocError> {
        Ok(Inner {
            depth: self.depth,
            used: self.used,
            prefix: self.prefix,
            edges: self.edges.copy(),
        })
    }
}

/// Returns the number of edges of the node at a place.
#[inline(always)]
pub(super) fn count<C: Children, const P: usize>(store: &Store<Inner<C, P>>, place: usize) -> usize
    requires kind { IsOneKind P C.places store.now }
    requires live { IsSome (slot_at store.now place) }
    ensures count { IsSomeAnd (slot_at store.now place) (λ x. length x.edges ≡ result) }
    ensures fits { FitsIn C.places result }
{
    store.read(place).edges.count()
}

/// Adds an edge to a node that has a place for it.
#[inline(always)]
pub(super) fn add_edge<C: Children, const P: usize>(
    store: &mut Store<Inner<C, P>>,
    place: usize,
    byte: u8,
    to: Child,
)
    requires kind { IsOneKind P C.places store.old }
    requires room { IsSomeAnd (slot_at store.old place)
        (λ x. FitsIn C.places (length x.edges + 1)) }
    requires absent { IsSomeAnd (slot_at store.old place) (λ x. child_at x.edges byte ≡ None) }
    ensures kind { IsOneKind P C.places store.new }
    ensures changes { Changes (Rewires (λ a b. AddsChild a b byte to)) store.old store.new place }
{
    store.get_mut(place).edges.insert(byte, to);
}

/// Redirects an edge of a node.
#[inline(always)]
pub(super) fn redirect<C: Children, const P: usize>(
    store: &mut Store<Inner<C, P>>,
    place: usize,
    byte: u8,
    to: Child,
)
    requires kind { IsOneKind P C.places store.old }
    requires there { IsSomeAnd (slot_at store.old place) (λ x. IsSome (child_at x.edges byte)) }
    ensures kind { IsOneKind P C.places store.new }
    ensures changes { Changes
        (Rewires (λ a b. RedirectsChild a b byte to)) store.old store.new place }
{
    store.get_mut(place).edges.redirect(byte, to);
}

/// Removes an edge from a node.
#[inline(always)]
pub(super) fn remove_edge<C: Children, const P: usize>(
    store: &mut Store<Inner<C, P>>,
    place: usize,
    byte: u8,
)
    requires kind { IsOneKind P C.places store.old }
    requires there { IsSomeAnd (slot_at store.old place) (λ x. IsSome (child_at x.edges byte)) }
    ensures kind { IsOneKind P C.places store.new }
    ensures changes { Changes (Rewires (λ a b. DropsChild a b byte)) store.old store.new place }
{
    store.get_mut(place).edges.remove(byte);
}

/// Replaces a node's prefix with the first `P` bytes of `prefix`.
#[inline(always)]
pub(super) fn set_prefix<C: Children, const P: usize>(
    store: &mut Store<Inner<C, P>>,
    place: usize,
    prefix: &[u8],
)
    requires kind { IsOneKind P C.places store.old }
    requires live { IsSome (slot_at store.old place) }
    ensures kind { IsOneKind P C.places store.new }
    ensures changes { Changes
        (λ x y. y ≡ record x { prefix = take P prefix.now }) store.old store.new place }
{
    let record = store.get_mut(place);
    record.used = copy_front(&mut record.prefix, prefix);
}

/// Adds spare records until there are at least `count`. Returns an error if it fails to allocate.
/// The nodes are unchanged in both cases.
pub(super) fn reserve<C: Children, const P: usize>(
    store: &mut Store<Inner<C, P>>,
    count: usize,
) -> Result<(), AllocError>
    requires small { P < 2 ^ 62 }
    requires kind { IsOneKind P C.places store.old }
    ensures kind { IsOneKind P C.places store.new }
    ensures grows { Grows store.old store.new }
    ensures enough { OnOk result (count ≤ store.new.spare) }
    ensures refused { OnErr result (store.old.spare < count) }
{
    store.reserve(count)
}

/// Copies the first bytes of `from` to the front of `to`, as many as fit, and returns their number.
pub(super) fn copy_front(to: &mut [u8], from: &[u8]) -> usize
    ensures within { result ≤ length to.old }
    ensures copied { take result to.new ≡ take (length to.old) from.now }
{
    let count = if from.len() < to.len() {
        from.len()
    } else {
        to.len()
    };
    to[..count].copy_from_slice(&from[..count]);
    count
}
