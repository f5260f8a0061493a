//! The edges of a node, in any of the four kinds.
ghost use Rattle.std.specs.Prelude.{◌≡◌, ◌<◌, ◌≤◌, ℕ, ◌+◌, List, Option, IsSome, None, length};
ghost use Rattle.art_kinds.specs.declared.records.ids.Edge.{Edge};
ghost use Rattle.art_kinds.specs.Edges.{child_at, Ascends, AddsChild, DropsChild, RedirectsChild, IsFrom, IsNext, IsPrevious, is_first, IsEnd};
ghost use Rattle.art_kinds.specs.OneKinds.{FitsIn};

use crate::records::ids::{Child, Edge, End};

/// The edges of a node, as one of the kinds of node keeps them.
pub(crate) trait Children: Drop {
    /// The edges in ascending order of their bytes.
    ghost edges: { Self → List Edge };

    /// The greatest number of edges, or `None` if there is a place for each byte.
    ghost places: { Option ℕ };

    /// Returns a copy with the same edges.
    fn copy(&self) -> Self
        ensures { edges result ≡ edges self.now };

    /// Returns the number of edges.
    fn count(&self) -> usize
        ensures count { result ≡ length (edges self.now) }
        ensures ascends { Ascends (edges self.now) }
        ensures bytes { (c : ℕ) → 256 ≤ c → child_at (edges self.now) c ≡ None };

    /// Returns the child of the edge at a byte, if there is one.
    fn find(&self, byte: u8) -> Option<Child>
        ensures { result ≡ child_at (edges self.now) byte };

    /// Adds an edge at a byte that has none.
    fn insert(&mut self, byte: u8, to: Child)
        requires room { FitsIn places (length (edges self.old) + 1) }
        requires absent { child_at (edges self.old) byte ≡ None }
        ensures { AddsChild (edges self.old) (edges self.new) byte to };

    /// Removes the edge at a byte.
    fn remove(&mut self, byte: u8)
        requires { IsSome (child_at (edges self.old) byte) }
        ensures { DropsChild (edges self.old) (edges self.new) byte };

    /// Redirects the edge at a byte.
    fn redirect(&mut self, byte: u8, to: Child)
        requires { IsSome (child_at (edges self.old) byte) }
        ensures { RedirectsChild (edges self.old) (edges self.new) byte to };
}

/// Returns the edge with the least byte that is not less than `start`, if there is one. Looks at
/// each byte from `start` on.
fn edge_from<C: Children>(node: &C, start: usize) -> Option<Edge>
    requires { start ≤ 256 }
    ensures { IsFrom (C.edges node.now) start result }
{
    // The count says that the bytes of the edges are less than 256.
    let _count = node.count();
    for next in start..256 {
        if let Some(to) = node.find(next as u8) {
            return Some(Edge {
                byte: next as u8,
                to,
            });
        }
    }
    None
}

/// Returns the edge with the greatest byte less than `end`, if there is one. Looks at each byte
/// before `end`.
fn edge_below<C: Children>(node: &C, end: usize) -> Option<Edge>
    requires { end ≤ 256 }
    ensures { IsPrevious (C.edges node.now) end result }
{
    let mut next = end;
    while next > 0 {
        next -= 1;
        if let Some(to) = node.find(next as u8) {
            return Some(Edge {
                byte: next as u8,
                to,
            });
        }
    }
    None
}

/// Returns the edge at an end: the one with the least byte, or the one with the greatest.
pub(crate) fn end_edge<C: Children>(node: &C, end: End) -> Edge
    requires { 0 < length (C.edges node.now) }
    ensures { IsEnd (is_first end) (C.edges node.now) result }
{
    // The count says that the bytes of the edges are less than 256.
    let _count = node.count();
    let found = match end {
        End::First => edge_from(node, 0),
        End::Last => edge_below(node, 256),
    };
    match found {
        Some(edge) => edge,
        None => unreachable!(),
    }
}

/// Returns the edge with the least byte greater than `byte`, if there is one.
pub(crate) fn edge_after<C: Children>(node: &C, byte: u8) -> Option<Edge>
    ensures { IsNext (C.edges node.now) byte result }
{
    edge_from(node, byte as usize + 1)
}

/// Returns the edge with the greatest byte less than `byte`, if there is one.
pub(crate) fn edge_before<C: Children>(node: &C, byte: u8) -> Option<Edge>
    ensures { IsPrevious (C.edges node.now) byte result }
{
    edge_below(node, byte as usize)
}
