//! The inner nodes under their numbers.
ghost use Rattle.std.specs.Prelude.{true, ◌≡◌, ℕ, ◌+◌, ◌%◌, ◌*◌, ◌/◌, ◌-◌, ◌<◌, ◌≤◌, ◌^◌, ◌++◌, ◌∷◌, length, take, drop, slice_get, None, Some, IsSome, is_some, IsSomeAnd, OnOk, IfOk, OnErr};
ghost use Rattle.art_kinds.specs.Edges.{child_at, Ascends, IsNext, IsPrevious, is_first, IsEnd};
ghost use Rattle.art_slots.specs.Store.{slot_at};
ghost use Rattle.art_kinds.specs.Narrow.{IsNarrow};
ghost use Rattle.art_kinds.specs.Refs.{edges_of};
ghost use Rattle.art_kinds.specs.Nodes.{at, live, room, FitsNew, FitsMore, HasPlace, Lowers, SameNodes, SameSpares, MoreSpares, Makes, Renames, AddsEdgeTo, Redirects, DropsEdge, Reprefixes, JoinsPrefix, CutsPrefix, Frees};

use crate::records::children::{self, Children};
use crate::records::few::Few;
use crate::records::full::Full;
use crate::records::ids::{Child, Edge, End, Kind, NodeId};
use crate::records::indexed::Indexed;
use crate::records::inner::{self, Inner, copy_front};
use art_slots::{Store, Visits};
use std::alloc::{AllocError, Global};
use std::marker::Model;

/// No record has a prefix of this length or longer. So the size of a record does not overflow.
const PREFIX_BOUND: usize = 1 << 62;

/// A reference to the edges of a node of any kind.
#[derive(Drop)]
pub(super) enum EdgesRef<'a> {
    Four(&'a Few<4>),
    Sixteen(&'a Few<16>),
    FortyEight(&'a Indexed),
    Full(&'a Full),
}

/// A shared reference to a node. A contract sees the node.
#[derive(Drop)]
pub struct NodeRef<'a, const P: usize> {
    depth: usize,
    used: usize,
    prefix: &'a [u8; P],
    edges: EdgesRef<'a>,
}

impl<'a, const P: usize> Model for NodeRef<'a, P> {
    ghost use Rattle.std.specs.Prelude.{take, length, ◌≤◌, ◌<◌, ◌^◌, ◌≡◌};
    ghost use Rattle.art_kinds.specs.Nodes.{Node, node_code};

    ghost Value = { Node };

    ghost coded = { node_code };

    ghost use Rattle.art_kinds.specs.Refs.{edges_of};

    ghost view = { λ r. record {
      depth = r.depth;
      prefix = take r.used r.prefix.now;
      edges = edges_of r.edges;
    } };

    ghost invariant = { λ r. (r.used ≤ P) × (length r.prefix.now ≡ P) × (P < 2 ^ 62) };
}

impl<'a, const P: usize> NodeRef<'a, P> {
    /// Returns a reference to a node, with this reference to its edges.
    #[inline(always)]
    fn new<C: Children>(record: &'a Inner<C, P>, edges: EdgesRef<'a>) -> Self
        requires small { P < 2 ^ 62 }
        requires edges { edges_of edges ≡ record.now.edges }
        ensures { result ≡ record.now }
    {
        NodeRef {
            depth: record.depth,
            used: record.used,
            prefix: &record.prefix,
            edges,
        }
    }

    /// Returns the depth of the node, which is the number of bytes that all keys below it share.
    pub fn depth(&self) -> usize
        ensures { result ≡ self.now.depth }
    {
        self.depth
    }

    /// Returns the number of edges.
    pub fn count(&self) -> usize
        ensures count { result ≡ length self.now.edges }
        ensures ascends { Ascends self.now.edges }
    {
        match &self.edges {
            EdgesRef::Four(edges) => edges.count(),
            EdgesRef::Sixteen(edges) => edges.count(),
            EdgesRef::FortyEight(edges) => edges.count(),
            EdgesRef::Full(edges) => edges.count(),
        }
    }

    /// Returns a byte of the stored part of the compressed prefix, if that part is long enough.
    pub fn prefix_byte(&self, at: usize) -> Option<u8>
        ensures { result ≡ slice_get self.now.prefix at }
    {
        if at < self.used {
            Some(self.prefix[at])
        } else {
            None
        }
    }

    /// Returns the stored part of the compressed prefix.
    pub fn prefix(&self) -> &'a [u8]
        ensures value { result.now ≡ self.now.prefix }
        ensures small { P < 2 ^ 62 }
    {
        let prefix = self.prefix;
        &prefix[..self.used]
    }

    /// Returns the child of the edge at a byte, if there is one.
    #[inline(always)]
    pub fn find(&self, byte: u8) -> Option<Child>
        ensures { result ≡ child_at self.now.edges byte }
    {
        match &self.edges {
            EdgesRef::Four(edges) => edges.find(byte),
            EdgesRef::Sixteen(edges) => edges.find(byte),
            EdgesRef::FortyEight(edges) => edges.find(byte),
            EdgesRef::Full(edges) => edges.find(byte),
        }
    }

    /// Returns the edge at an end: the one with the least byte, or the one with the greatest.
    pub fn end_edge(&self, end: End) -> Edge
        requires { 0 < length self.now.edges }
        ensures { IsEnd (is_first end) self.now.edges result }
    {
        match &self.edges {
            EdgesRef::Four(edges) => edges.end_edge(end),
            EdgesRef::Sixteen(edges) => edges.end_edge(end),
            EdgesRef::FortyEight(edges) => children::end_edge(*edges, end),
            EdgesRef::Full(edges) => children::end_edge(*edges, end),
        }
    }

    /// Returns the edge with the least byte greater than `byte`, if there is one.
    pub fn edge_after(&self, byte: u8) -> Option<Edge>
        ensures { IsNext self.now.edges byte result }
    {
        match &self.edges {
            EdgesRef::Four(edges) => edges.edge_after(byte),
            EdgesRef::Sixteen(edges) => edges.edge_after(byte),
            EdgesRef::FortyEight(edges) => children::edge_after(*edges, byte),
            EdgesRef::Full(edges) => children::edge_after(*edges, byte),
        }
    }

    /// Returns the edge with the greatest byte less than `byte`, if there is one.
    pub fn edge_before(&self, byte: u8) -> Option<Edge>
        ensures { IsPrevious self.now.edges byte result }
    {
        match &self.edges {
            EdgesRef::Four(edges) => edges.edge_before(byte),
            EdgesRef::Sixteen(edges) => edges.edge_before(byte),
            EdgesRef::FortyEight(edges) => children::edge_before(*edges, byte),
            EdgesRef::Full(edges) => children::edge_before(*edges, byte),
        }
    }
}

/// The inner nodes. A contract sees the node under each number, and the number of spare records of
/// each kind. Only `reserve`, `clone` and `narrow` allocate, and `narrow` keeps the larger node if
/// that fails.
#[derive(Drop)]
pub struct Nodes<const P: usize> {
    pub(super) fours: Store<Inner<Few<4>, P>>,
    pub(super) sixteens: Store<Inner<Few<16>, P>>,
    pub(super) forty_eights: Store<Inner<Indexed, P>>,
    pub(super) fulls: Store<Inner<Full, P>>,
}

impl<const P: usize> Model for Nodes<P> {
    ghost use Rattle.art_kinds.specs.Nodes.{Nodes as AllNodes, nodes_code};

    ghost Value = { AllNodes };

    ghost coded = { nodes_code };

    ghost use Rattle.std.specs.Prelude.{Some, None};
    ghost use Rattle.art_kinds.specs.OneKinds.{IsOneKind};

    ghost view = { λ s. record {
      fours = s.fours;
      sixteens = s.sixteens;
      forty_eights = s.forty_eights;
      fulls = s.fulls;
    } };

    ghost invariant = { λ s. record {
      fours : IsOneKind P (Some 4) s.fours;
      sixteens : IsOneKind P (Some 16) s.sixteens;
      forty_eights : IsOneKind P (Some 48) s.forty_eights;
      fulls : IsOneKind P None s.fulls;
    } };
}

impl<const P: usize> Nodes<P> {
    /// Returns a store with no nodes. Does not allocate.
    pub fn new(alloc: Global) -> Self
        ensures none { (j : ℕ) → at result j ≡ None }
        ensures live { live result ≡ 0 }
        ensures room { room result ≡ 0 }
    {
        Nodes {
            fours: Store::new(alloc),
            sixteens: Store::new(alloc),
            forty_eights: Store::new(alloc),
            fulls: Store::new(alloc),
        }
    }

    /// Returns a copy with the same nodes under the same numbers. Returns an error if it fails to
    /// allocate, or if a record with a prefix of `P` bytes may be too large.
    pub fn clone(&self) -> Result<Self, AllocError>
        ensures same { IfOk result (λ copy. SameNodes self.now copy) }
    {
        if P >= PREFIX_BOUND {
            return Err(AllocError);
        }
        Ok(Nodes {
            fours: self.fours.clone()?,
            sixteens: self.sixteens.clone()?,
            forty_eights: self.forty_eights.clone()?,
            fulls: self.fulls.clone()?,
        })
    }

    /// Returns the number of nodes.
    pub fn live(&self) -> usize
        ensures { result ≡ live self.now }
    {
        self.fours.used() + self.sixteens.used() + self.forty_eights.used() + self.fulls.used()
    }

    /// Returns `true` if there is a node under a number.
    pub fn has(&self, id: NodeId) -> bool
        ensures { result ≡ is_some (at self.now id) }
    {
        let parts = id.parts();
        match parts.kind {
            Kind::Four => self.fours.has(parts.place),
            Kind::Sixteen => self.sixteens.has(parts.place),
            Kind::FortyEight => self.forty_eights.has(parts.place),
            Kind::Full => self.fulls.has(parts.place),
        }
    }

    /// Returns the node under a number. One visit.
    #[inline(always)]
    pub fn read(&self, id: NodeId, visits: &mut Visits) -> NodeRef<'_, P>
        requires { IsSome (at self.now id) }
        ensures value { at self.now id ≡ Some result }
        ensures counted { visits.new.count ≡ visits.old.count + 1 }
        ensures ascends { Ascends result.edges }
    {
        visits.add_one();
        let node = self.node_at(id);
        // The count says that the bytes of the edges ascend.
        let _count = node.count();
        node
    }

    /// Returns the node under a number, without a visit.
    #[inline(always)]
    fn node_at(&self, id: NodeId) -> NodeRef<'_, P>
        requires { IsSome (at self.now id) }
        ensures value { at self.now id ≡ Some result }
    {
        let parts = id.parts();
        match parts.kind {
            Kind::Four => {
                let record = self.fours.read(parts.place);
                NodeRef::new(record, EdgesRef::Four(&record.edges))
            }
            Kind::Sixteen => {
                let record = self.sixteens.read(parts.place);
                NodeRef::new(record, EdgesRef::Sixteen(&record.edges))
            }
            Kind::FortyEight => {
                let record = self.forty_eights.read(parts.place);
                NodeRef::new(record, EdgesRef::FortyEight(&record.edges))
            }
            Kind::Full => {
                let record = self.fulls.read(parts.place);
                NodeRef::new(record, EdgesRef::Full(&record.edges))
            }
        }
    }

    /// Adds an edge to a node that has a place for it.
    pub fn add_edge(&mut self, id: NodeId, byte: u8, to: Child)
        requires place { HasPlace self.old id }
        requires absent { IsSomeAnd (at self.old id) (λ x. child_at x.edges byte ≡ None) }
        ensures added { AddsEdgeTo (at self.old) (at self.new) id byte to }
        ensures spares { Lowers (id % 4 + 1) self.old self.new }
        ensures live { live self.new ≡ live self.old }
    {
        let parts = id.parts();
        match parts.kind {
            Kind::Four => inner::add_edge(&mut self.fours, parts.place, byte, to),
            Kind::Sixteen => inner::add_edge(&mut self.sixteens, parts.place, byte, to),
            Kind::FortyEight => inner::add_edge(&mut self.forty_eights, parts.place, byte, to),
            Kind::Full => inner::add_edge(&mut self.fulls, parts.place, byte, to),
        }
    }

    /// Redirects an edge of a node.
    pub fn redirect(&mut self, id: NodeId, byte: u8, to: Child)
        requires { IsSomeAnd (at self.old id) (λ x. IsSome (child_at x.edges byte)) }
        ensures edges_with_child { Redirects (at self.old) (at self.new) id byte to }
        ensures spares { SameSpares self.old self.new }
        ensures live { live self.new ≡ live self.old }
    {
        let parts = id.parts();
        match parts.kind {
            Kind::Four => inner::redirect(&mut self.fours, parts.place, byte, to),
            Kind::Sixteen => inner::redirect(&mut self.sixteens, parts.place, byte, to),
            Kind::FortyEight => inner::redirect(&mut self.forty_eights, parts.place, byte, to),
            Kind::Full => inner::redirect(&mut self.fulls, parts.place, byte, to),
        }
    }

    /// Removes an edge from a node.
    pub fn remove_edge(&mut self, id: NodeId, byte: u8)
        requires { IsSomeAnd (at self.old id) (λ x. IsSome (child_at x.edges byte)) }
        ensures removed { DropsEdge (at self.old) (at self.new) id byte }
        ensures spares { MoreSpares self.old self.new }
        ensures live { live self.new ≡ live self.old }
    {
        let parts = id.parts();
        match parts.kind {
            Kind::Four => inner::remove_edge(&mut self.fours, parts.place, byte),
            Kind::Sixteen => inner::remove_edge(&mut self.sixteens, parts.place, byte),
            Kind::FortyEight => inner::remove_edge(&mut self.forty_eights, parts.place, byte),
            Kind::Full => inner::remove_edge(&mut self.fulls, parts.place, byte),
        }
    }

    /// Removes a node.
    #[cold]
    #[inline(never)]
    pub fn free(&mut self, id: NodeId)
        requires { IsSome (at self.old id) }
        ensures freed { Frees (at self.old) (at self.new) id }
        ensures live { live self.new + 1 ≡ live self.old }
        ensures spares { MoreSpares self.old self.new }
    {
        let parts = id.parts();
        match parts.kind {
            Kind::Four => self.fours.remove(parts.place),
            Kind::Sixteen => self.sixteens.remove(parts.place),
            Kind::FortyEight => self.forty_eights.remove(parts.place),
            Kind::Full => self.fulls.remove(parts.place),
        }
    }

    /// Makes a node with two edges, and returns its number. The node keeps the first `P` bytes of
    /// `prefix`. Does not allocate.
    #[cold]
    #[inline(never)]
    pub fn new_node(&mut self, depth: usize, prefix: &[u8], low: Edge, high: Edge) -> NodeId
        requires fits { FitsNew self.old }
        requires ascends { low.byte < high.byte }
        ensures made { Makes (at self.old) (at self.new) result depth (take P prefix.now) low high }
        ensures live { live self.new ≡ live self.old + 1 }
        ensures room { room self.old ≤ room self.new + 1 }
    {
        let fours = &mut self.fours;
        let node = Inner::new(depth, prefix, Few::pair(low, high));
        NodeId::of(Kind::Four, fours.fill(node))
    }

    /// Moves a full node of the kind of 4 to the kind of 16, and returns the number that it has
    /// then.
    #[cold]
    #[inline(never)]
    fn grow_four(&mut self, place: usize) -> NodeId
        requires full { IsSomeAnd (slot_at self.old.fours place) (λ x. length x.edges ≡ 4) }
        requires spare { 0 < self.old.sixteens.spare }
        ensures moved { Renames (at self.old) (at self.new) (4 * place) result }
        ensures place { HasPlace self.new result }
        ensures live { live self.new ≡ live self.old }
        ensures kind { result % 4 ≡ 1 }
        ensures spares { Lowers 1 self.old self.new }
    {
        let four = self.fours.take(place);
        let edges = Few::of_few(&four.edges);
        let at = self.sixteens.fill(four.with_edges(edges));
        NodeId::of(Kind::Sixteen, at)
    }

    /// Moves a full node of the kind of 16 to the kind of 48, and returns the number that it has
    /// then.
    #[cold]
    #[inline(never)]
    fn grow_sixteen(&mut self, place: usize) -> NodeId
        requires full { IsSomeAnd (slot_at self.old.sixteens place) (λ x. length x.edges ≡ 16) }
        requires spare { 0 < self.old.forty_eights.spare }
        ensures moved { Renames (at self.old) (at self.new) (4 * place + 1) result }
        ensures place { HasPlace self.new result }
        ensures live { live self.new ≡ live self.old }
        ensures kind { result % 4 ≡ 2 }
        ensures spares { Lowers 2 self.old self.new }
    {
        let sixteen = self.sixteens.take(place);
        let edges = Indexed::of_sixteen(&sixteen.edges);
        let at = self.forty_eights.fill(sixteen.with_edges(edges));
        NodeId::of(Kind::FortyEight, at)
    }

    /// Moves a full node of the kind of 48 to the kind of 256, and returns the number that it has
    /// then.
    #[cold]
    #[inline(never)]
    fn grow_forty_eight(&mut self, place: usize) -> NodeId
        requires full { IsSomeAnd (slot_at self.old.forty_eights place) (λ x. length x.edges ≡ 48) }
        requires spare { 0 < self.old.fulls.spare }
        ensures moved { Renames (at self.old) (at self.new) (4 * place + 2) result }
        ensures place { HasPlace self.new result }
        ensures live { live self.new ≡ live self.old }
        ensures kind { result % 4 ≡ 3 }
        ensures spares { Lowers 3 self.old self.new }
    {
        let indexed = self.forty_eights.take(place);
        let edges = Full::of_indexed(&indexed.edges);
        let at = self.fulls.fill(indexed.with_edges(edges));
        NodeId::of(Kind::Full, at)
    }

    /// Makes sure that a node has a place for one more edge, and returns the number that it has
    /// then. If it has no such place, it moves to the next larger kind. Does not allocate.
    pub fn widen(&mut self, id: NodeId) -> NodeId
        requires live { IsSome (at self.old id) }
        requires fits { FitsMore self.old id }
        ensures moved { Renames (at self.old) (at self.new) id result }
        ensures place { HasPlace self.new result }
        ensures live { live self.new ≡ live self.old }
        ensures spares { Lowers (result % 4) self.old self.new }
    {
        let parts = id.parts();
        match parts.kind {
            Kind::Four => {
                if inner::count(&self.fours, parts.place) < 4 {
                    id
                } else {
                    self.grow_four(parts.place)
                }
            }
            Kind::Sixteen => {
                if inner::count(&self.sixteens, parts.place) < 16 {
                    id
                } else {
                    self.grow_sixteen(parts.place)
                }
            }
            Kind::FortyEight => {
                if inner::count(&self.forty_eights, parts.place) < 48 {
                    id
                } else {
                    self.grow_forty_eight(parts.place)
                }
            }
            Kind::Full => id,
        }
    }

    /// Moves a node of the kind of 16 with at most 4 children to the kind of 4, and returns its
    /// place there. The nodes are unchanged if this fails to allocate.
    #[cold]
    #[inline(never)]
    fn shrink_sixteen(&mut self, place: usize) -> Result<usize, AllocError>
        requires few { IsSomeAnd (slot_at self.old.sixteens place) (λ x. length x.edges ≤ 4) }
        ensures moved { IfOk result
            (λ p. Renames (at self.old) (at self.new) (4 * place + 1) (4 * p)) }
        ensures small { IfOk result (λ p. p < 2 ^ 61) }
        ensures live { live self.new ≡ live self.old }
        ensures same { OnErr result (SameNodes self.old self.new) }
        ensures refused { OnErr result (self.old.fours.spare ≡ 0) }
    {
        inner::reserve(&mut self.fours, 1)?;
        let large = self.sixteens.take(place);
        let edges = Few::of_few(&large.edges);
        Ok(self.fours.fill(large.with_edges(edges)))
    }

    /// Moves a node of the kind of 48 with at most 16 children to the kind of 16, and returns its
    /// place there. The nodes are unchanged if this fails to allocate.
    #[cold]
    #[inline(never)]
    fn shrink_forty_eight(&mut self, place: usize) -> Result<usize, AllocError>
        requires few { IsSomeAnd (slot_at self.old.forty_eights place) (λ x. length x.edges ≤ 16) }
        ensures moved { IfOk result
            (λ p. Renames (at self.old) (at self.new) (4 * place + 2) (4 * p + 1)) }
        ensures small { IfOk result (λ p. p < 2 ^ 61) }
        ensures live { live self.new ≡ live self.old }
        ensures fours { self.new.fours ≡ self.old.fours }
        ensures same { OnErr result (SameNodes self.old self.new) }
        ensures refused { OnErr result (self.old.sixteens.spare ≡ 0) }
    {
        inner::reserve(&mut self.sixteens, 1)?;
        let large = self.forty_eights.take(place);
        let edges = Few::of_indexed(&large.edges);
        Ok(self.sixteens.fill(large.with_edges(edges)))
    }

    /// Moves a node of the kind of 256 with at most 48 children to the kind of 48, and returns its
    /// place there. The nodes are unchanged if this fails to allocate.
    #[cold]
    #[inline(never)]
    fn shrink_full(&mut self, place: usize) -> Result<usize, AllocError>
        requires few { IsSomeAnd (slot_at self.old.fulls place) (λ x. length x.edges ≤ 48) }
        ensures moved { IfOk result
            (λ p. Renames (at self.old) (at self.new) (4 * place + 3) (4 * p + 2)) }
        ensures small { IfOk result (λ p. p < 2 ^ 61) }
        ensures live { live self.new ≡ live self.old }
        ensures fours { self.new.fours ≡ self.old.fours }
        ensures sixteens { self.new.sixteens ≡ self.old.sixteens }
        ensures same { OnErr result (SameNodes self.old self.new) }
        ensures refused { OnErr result (self.old.forty_eights.spare ≡ 0) }
    {
        inner::reserve(&mut self.forty_eights, 1)?;
        let large = self.fulls.take(place);
        let edges = Indexed::of_full(&large.edges);
        Ok(self.forty_eights.fill(large.with_edges(edges)))
    }

    /// Does what `narrow` does, for a node of the kind of 16.
    fn narrow_sixteen(&mut self, place: usize) -> NodeId
        requires live { IsSome (slot_at self.old.sixteens place) }
        requires small { place < 2 ^ 61 }
        ensures moved { Renames (at self.old) (at self.new) (4 * place + 1) result }
        ensures narrow { IsNarrow self.old self.new result }
        ensures kind { result % 4 ≤ 1 }
        ensures live { live self.new ≡ live self.old }
    {
        let kept = NodeId::of(Kind::Sixteen, place);
        if inner::count(&self.sixteens, place) > 4 {
            return kept;
        }
        match self.shrink_sixteen(place) {
            Ok(at) => NodeId::of(Kind::Four, at),
            Err(_) => kept,
        }
    }

    /// Does what `narrow` does, for a node of the kind of 48.
    fn narrow_forty_eight(&mut self, place: usize) -> NodeId
        requires live { IsSome (slot_at self.old.forty_eights place) }
        requires small { place < 2 ^ 61 }
        ensures moved { Renames (at self.old) (at self.new) (4 * place + 2) result }
        ensures narrow { IsNarrow self.old self.new result }
        ensures kind { result % 4 ≤ 2 }
        ensures live { live self.new ≡ live self.old }
    {
        let kept = NodeId::of(Kind::FortyEight, place);
        if inner::count(&self.forty_eights, place) > 16 {
            return kept;
        }
        match self.shrink_forty_eight(place) {
            Ok(at) => self.narrow_sixteen(at),
            Err(_) => kept,
        }
    }

    /// Does what `narrow` does, for a node of the kind of 256.
    fn narrow_full(&mut self, place: usize) -> NodeId
        requires live { IsSome (slot_at self.old.fulls place) }
        requires small { place < 2 ^ 61 }
        ensures moved { Renames (at self.old) (at self.new) (4 * place + 3) result }
        ensures narrow { IsNarrow self.old self.new result }
        ensures live { live self.new ≡ live self.old }
    {
        let kept = NodeId::of(Kind::Full, place);
        if inner::count(&self.fulls, place) > 48 {
            return kept;
        }
        match self.shrink_full(place) {
            Ok(at) => self.narrow_forty_eight(at),
            Err(_) => kept,
        }
    }

    /// Moves a node to the smallest kind that has a place for each of its children, and returns the
    /// number that the node has then.
    ///
    /// It moves the node from kind to kind, and stops if it fails to allocate a record of the next
    /// smaller one. If that kind has a spare record, it does not allocate.
    pub fn narrow(&mut self, id: NodeId) -> NodeId
        requires { IsSome (at self.old id) }
        ensures moved { Renames (at self.old) (at self.new) id result }
        ensures narrow { IsNarrow self.old self.new result }
        ensures live { live self.new ≡ live self.old }
    {
        let parts = id.parts();
        match parts.kind {
            Kind::Four => id,
            Kind::Sixteen => self.narrow_sixteen(parts.place),
            Kind::FortyEight => self.narrow_forty_eight(parts.place),
            Kind::Full => self.narrow_full(parts.place),
        }
    }

    /// Makes room for `count` placements. Returns an error if it fails to allocate, or if a record
    /// with a prefix of `P` bytes may be too large. The nodes are unchanged in each case.
    #[inline(always)]
    pub fn reserve(&mut self, count: usize) -> Result<(), AllocError>
        ensures same { SameNodes self.old self.new }
        ensures room { room self.old ≤ room self.new }
        ensures fits { OnOk result (count ≤ room self.new) }
        ensures refused { OnErr result (0 < count) }
    {
        if self.has_spares(count) {
            return Ok(());
        }
        self.add_spares(count)
    }

    /// Returns `true` if each kind has `count` spare records, which are enough for `count`
    /// placements.
    #[inline(always)]
    fn has_spares(&self, count: usize) -> bool
        ensures { result ≡ true → count ≤ room self.now }
    {
        count <= self.fours.spare()
            && count <= self.sixteens.spare()
            && count <= self.forty_eights.spare()
            && count <= self.fulls.spare()
    }

    /// Does what `reserve` does, kind by kind. This is a function of its own, so that a call with
    /// enough spare records is a few comparisons.
    #[inline(never)]
    fn add_spares(&mut self, count: usize) -> Result<(), AllocError>
        ensures same { SameNodes self.old self.new }
        ensures room { room self.old ≤ room self.new }
        ensures fits { OnOk result (count ≤ room self.new) }
        ensures refused { OnErr result (0 < count) }
    {
        if count == 0 {
            return Ok(());
        }
        if P >= PREFIX_BOUND {
            return Err(AllocError);
        }
        inner::reserve(&mut self.fours, count)?;
        inner::reserve(&mut self.sixteens, outgrown(count, self.fours.used(), 4))?;
        inner::reserve(
            &mut self.forty_eights,
            outgrown(count, self.sixteens.used(), 13),
        )?;
        inner::reserve(
            &mut self.fulls,
            outgrown(count, self.forty_eights.used(), 33),
        )
    }

    /// Replaces a node's prefix with the first `P` bytes of `prefix`.
    pub fn set_prefix(&mut self, id: NodeId, prefix: &[u8])
        requires { IsSome (at self.old id) }
        ensures set { Reprefixes (at self.old) (at self.new) id (take P prefix.now) }
        ensures spares { SameSpares self.old self.new }
        ensures live { live self.new ≡ live self.old }
    {
        let parts = id.parts();
        match parts.kind {
            Kind::Four => inner::set_prefix(&mut self.fours, parts.place, prefix),
            Kind::Sixteen => inner::set_prefix(&mut self.sixteens, parts.place, prefix),
            Kind::FortyEight => inner::set_prefix(&mut self.forty_eights, parts.place, prefix),
            Kind::Full => inner::set_prefix(&mut self.fulls, parts.place, prefix),
        }
    }

    /// Puts the prefix of the node `upper` and a byte before the prefix of the node `id`, which
    /// keeps the first `P` bytes of the result.
    pub fn join_prefix(&mut self, id: NodeId, upper: NodeId, byte: u8)
        requires live { IsSome (at self.old id) }
        requires upper { IsSome (at self.old upper) }
        ensures joined { JoinsPrefix P (at self.old) (at self.new) id upper byte }
        ensures spares { SameSpares self.old self.new }
        ensures live { live self.new ≡ live self.old }
    {
        let above = self.node_at(upper);
        let node = self.node_at(id);
        let front = above.prefix();
        let rest = node.prefix();
        let mut prefix = [0; P];
        let start = copy_front(&mut prefix, front);
        let used = append(&mut prefix, start, byte, rest);
        self.set_prefix(id, &prefix[..used]);
    }

    /// Removes the first `count` bytes of a node's prefix.
    pub fn cut_prefix(&mut self, id: NodeId, count: usize)
        requires { IsSome (at self.old id) }
        ensures cut { CutsPrefix P (at self.old) (at self.new) id count }
        ensures spares { SameSpares self.old self.new }
        ensures live { live self.new ≡ live self.old }
    {
        let node = self.node_at(id);
        let kept = node.prefix();
        let rest = bytes_after(kept, count);
        let mut prefix = [0; P];
        let used = copy_front(&mut prefix, rest);
        self.set_prefix(id, &prefix[..used]);
    }

    /// Removes all nodes and all spare records.
    pub fn clear(&mut self)
        ensures none { (j : ℕ) → at self.new j ≡ None }
        ensures live { live self.new ≡ 0 }
        ensures room { room self.new ≡ 0 }
    {
        self.fours.clear();
        self.sixteens.clear();
        self.forty_eights.clear();
        self.fulls.clear();
    }
}

/// Returns the bytes after the first `count`.
fn bytes_after(bytes: &[u8], count: usize) -> &[u8]
    ensures { result.now ≡ drop count bytes.now }
{
    if count < bytes.len() {
        &bytes[count..]
    } else {
        &bytes[bytes.len()..]
    }
}

/// Writes `byte` and then `rest` after the first `used` bytes of `to`, as far as there is room.
/// Returns the number of bytes that are used then.
fn append(to: &mut [u8], used: usize, byte: u8, rest: &[u8]) -> usize
    requires { used ≤ length to.old }
    ensures within { result ≤ length to.old }
    ensures appended { take result to.new
        ≡ take (length to.old) (take used to.old ++ byte ∷ rest.now) }
{
    if used == to.len() {
        return used;
    }
    to[used] = byte;
    let start = used + 1;
    start + copy_front(&mut to[start..], rest)
}

/// Returns the greatest number of nodes that `count` placements can move out of a kind. Each of the
/// `live` nodes of the kind takes at least one placement. A node that comes into the kind takes
/// `takes` placements.
fn outgrown(count: usize, live: usize, takes: usize) -> usize
    requires { 0 < takes }
    ensures few { count ≤ live → result ≡ count }
    ensures many { live < count → result ≡ live + (count - live) / takes }
{
    if count <= live {
        count
    } else {
        live + (count - live) / takes
    }
}
