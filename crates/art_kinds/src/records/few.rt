//! A node with few children: their bytes in ascending order, and the children beside them.
ghost use Rattle.std.specs.Prelude.{◌≡◌, ◌<◌, ◌≤◌, [], ◌∷◌, length, take, Some};
ghost use Rattle.art_kinds.specs.Edges.{child_at, IsNext, IsPrevious, is_first, IsEnd, count_below, after, before, paired};

use crate::records::children::Children;
use crate::records::ids::{Child, Edge, End};
use crate::records::indexed::Indexed;
use crate::records::link::Link;
use std::marker::Model;

/// Up to `N` edges of a node. `N` is less than 256, so a byte holds the number of edges. A contract
/// sees the edges in ascending order of their bytes.
#[derive(Drop)]
pub(crate) struct Few<const N: usize> {
    /// The number of edges.
    pub(super) count: u8,
    /// The bytes of the edges in ascending order. Those after the first `count` have no meaning.
    pub(super) bytes: [u8; N],
    /// The children of the edges, each at the place of its byte.
    pub(super) children: [Link; N],
}

impl<const N: usize> Model for Few<N> {
    ghost use Rattle.std.specs.Prelude.{List, take};
    ghost use Rattle.art_kinds.specs.declared.records.ids.Edge.{Edge};
    ghost use Rattle.art_kinds.specs.Codes.{edge_code};
    ghost use Rattle.std.specs.Coded.{coded_list};
    ghost use Rattle.art_kinds.specs.Edges.{IsFew, paired};

    ghost Value = { List Edge };

    ghost coded = { coded_list edge_code };

    ghost view = { λ n. take n.count (paired n.bytes n.children) };

    ghost invariant = { λ n. IsFew n.count N n.bytes n.children };
}

impl<const N: usize> Few<N> {
    /// Returns the edge at an end: the one with the least byte, or the one with the greatest.
    pub(crate) fn end_edge(&self, end: End) -> Edge
        requires { 0 < length self.now }
        ensures { IsEnd (is_first end) self.now result }
    {
        let place = match end {
            End::First => 0,
            End::Last => self.count as usize - 1,
        };
        Edge {
            byte: self.bytes[place],
            to: self.children[place].child(),
        }
    }

    /// Returns the edge with the least byte greater than `byte`, if there is one.
    pub(crate) fn edge_after(&self, byte: u8) -> Option<Edge>
        ensures { IsNext self.now byte result }
    {
        after_in(
            &self.bytes[..self.count as usize],
            &self.children[..self.count as usize],
            byte,
        )
    }

    /// Returns the edge with the greatest byte less than `byte`, if there is one.
    pub(crate) fn edge_before(&self, byte: u8) -> Option<Edge>
        ensures { IsPrevious self.now byte result }
    {
        before_in(
            &self.bytes[..self.count as usize],
            &self.children[..self.count as usize],
            byte,
        )
    }

    /// Returns the same edges with room for `N` of them, in place of `M`.
    pub(crate) fn of_few<const M: usize>(few: &Few<M>) -> Self
        requires fits { N < 256 }
        requires few { length few.now ≤ N }
        ensures { result ≡ few.now }
    {
        let count = few.count as usize;
        let mut bytes = [0; N];
        let mut children = [Link::none(); N];
        bytes[..count].copy_from_slice(&few.bytes[..count]);
        children[..count].copy_from_slice(&few.children[..count]);
        Few {
            count: count as u8,
            bytes,
            children,
        }
    }
}

impl<const N: usize> Children for Few<N> {
    ghost edges = { λ s. s };

    ghost places = { Some N };

    fn copy(&self) -> Self {
        Few {
            count: self.count,
            bytes: self.bytes,
            children: self.children,
        }
    }

    fn count(&self) -> usize {
        let _children: &[Link; N] = &self.children;
        self.count as usize
    }

    fn find(&self, byte: u8) -> Option<Child> {
        find_in(
            &self.bytes[..self.count as usize],
            &self.children[..self.count as usize],
            byte,
        )
    }

    fn insert(&mut self, byte: u8, to: Child) {
        let count = self.count as usize;
        let place = place_of(&self.bytes[..count], byte);
        self.bytes.copy_within(place..count, place + 1);
        self.children.copy_within(place..count, place + 1);
        self.bytes[place] = byte;
        self.children[place] = Link::of(to);
        self.count += 1;
    }

    /// The edges after the removed edge move up by one place.
    fn remove(&mut self, byte: u8) {
        let count = self.count as usize;
        let place = place_of(&self.bytes[..count], byte);
        self.bytes.copy_within(place + 1..count, place);
        self.children.copy_within(place + 1..count, place);
        self.count -= 1;
    }

    fn redirect(&mut self, byte: u8, to: Child) {
        let place = place_of(&self.bytes[..self.count as usize], byte);
        self.children[place] = Link::of(to);
    }
}

/// Returns the child of the first edge at a byte, if there is one.
fn find_in(bytes: &[u8], children: &[Link], byte: u8) -> Option<Child>
    requires { length children.now ≡ length bytes.now }
    ensures { result ≡ child_at (paired bytes.now children.now) byte }
{
    for i in 0..bytes.len() {
        if bytes[i] == byte {
            return Some(children[i].child());
        }
    }
    None
}

/// Returns the first edge with a byte greater than `byte`, if there is one.
fn after_in(bytes: &[u8], children: &[Link], byte: u8) -> Option<Edge>
    requires { length children.now ≡ length bytes.now }
    ensures { result ≡ after (paired bytes.now children.now) byte }
{
    for i in 0..bytes.len() {
        if byte < bytes[i] {
            return Some(Edge {
                byte: bytes[i],
                to: children[i].child(),
            });
        }
    }
    None
}

/// Returns the last edge with a byte less than `byte`, if there is one. The search ends at the
/// first byte that is not less.
fn before_in(bytes: &[u8], children: &[Link], byte: u8) -> Option<Edge>
    requires { length children.now ≡ length bytes.now }
    ensures { result ≡ before (paired bytes.now children.now) byte }
{
    let mut found = None;
    for i in 0..bytes.len() {
        if byte <= bytes[i] {
            return found;
        }
        found = Some(Edge {
            byte: bytes[i],
            to: children[i].child(),
        });
    }
    found
}

/// Returns the number of bytes less than `byte`. The count ends at the first byte that is not less.
fn place_of(bytes: &[u8], byte: u8) -> usize
    ensures count { result ≡ count_below bytes.now byte }
    ensures within { result ≤ length bytes.now }
{
    let mut place = 0;
    for next in bytes {
        if byte <= *next {
            return place;
        }
        place += 1;
    }
    place
}

impl Few<4> {
    /// Returns two edges.
    pub(crate) fn pair(low: Edge, high: Edge) -> Self
        requires { low.byte < high.byte }
        ensures { result ≡ low ∷ high ∷ [] }
    {
        let (first, second) = (Link::of(low.to), Link::of(high.to));
        Few {
            count: 2,
            bytes: [low.byte, high.byte, 0, 0],
            children: [first, second, first, first],
        }
    }
}

impl Few<16> {
    /// Returns the edges of a larger node that has at most 16 edges.
    pub(crate) fn of_indexed(indexed: &Indexed) -> Self
        requires { length indexed.now ≤ 16 }
        ensures { result ≡ indexed.now }
    {
        let mut edges = Few {
            count: 0,
            bytes: [0; 16],
            children: [Link::none(); 16],
        };
        // The count says that the bytes of the edges ascend and are less than 256.
        let _count = indexed.count();
        for next in 0..256usize {
            if let Some(to) = indexed.find(next as u8) {
                edges.insert(next as u8, to);
            }
        }
        edges
    }
}
