//! The numbers of inner nodes, and the edges between nodes and children.
ghost use Rattle.std.specs.Prelude.{◌≡◌, ◌+◌, ◌*◌, ◌%◌, ◌<◌, ◌^◌};
ghost use Rattle.art_kinds.specs.Numbers.{digit, kind_of, number};

use art_slots::LeafId;
use std::marker::Model;

/// The kind of an inner node: the number of children that its record has places for.
#[derive(Clone, Copy, PartialEq, Eq)]
pub enum Kind {
    Four,
    Sixteen,
    FortyEight,
    Full,
}

/// The number of an inner node, less than 2^63: 4 times its place among the records of its kind,
/// plus 0 to 3 for the kind. A contract sees the number.
#[derive(Clone, Copy, PartialEq, Eq)]
pub struct NodeId {
    pub(super) number: usize,
}

impl Model for NodeId {
    ghost use Rattle.std.specs.Prelude.{ℕ, refl};
    ghost use Rattle.std.specs.Coded.{coded_ℕ};

    ghost Value = { ℕ };

    ghost coded = { coded_ℕ };

    ghost view = { λ a. a.number };

    ghost use Rattle.std.specs.Prelude.{◌<◌, ◌^◌};

    ghost invariant = { λ a. a.number < 2 ^ 63 };

    ghost inverse = { λ n. record { number = n } };

    ghost inverse_ok = { λ a h. refl };
}

/// The kind of a node's record, and the place of the record among those of its kind.
#[derive(Clone, Copy)]
pub(super) struct Parts {
    pub(super) kind: Kind,
    pub(super) place: usize,
}

impl NodeId {
    /// Returns the number of the node at a place of a kind.
    #[inline(always)]
    pub(super) fn of(kind: Kind, place: usize) -> Self
        requires { place < 2 ^ 61 }
        ensures { result ≡ 4 * place + digit kind }
    {
        let digit = match kind {
            Kind::Four => 0,
            Kind::Sixteen => 1,
            Kind::FortyEight => 2,
            Kind::Full => 3,
        };
        NodeId {
            number: 4 * place + digit,
        }
    }

    /// Returns the kind and the place.
    #[inline(always)]
    #[tactic(auto, using(crate::specs::Numbers::digit_kind))]
    pub(super) fn parts(self) -> Parts
        ensures number { number result ≡ self }
        ensures small { result.place < 2 ^ 61 }
    {
        Parts {
            kind: self.kind(),
            place: self.number / 4,
        }
    }

    /// Returns the kind of the node's record.
    #[inline(always)]
    pub fn kind(self) -> Kind
        ensures { result ≡ kind_of (self % 4) }
    {
        match self.number % 4 {
            0 => Kind::Four,
            1 => Kind::Sixteen,
            2 => Kind::FortyEight,
            _ => Kind::Full,
        }
    }
}

/// A child of an inner node: a leaf, or another inner node.
#[derive(Clone, Copy)]
pub enum Child {
    Leaf(LeafId),
    Inner(NodeId),
}

/// An edge of a node: a byte and the child that it leads to.
#[derive(Clone, Copy)]
pub struct Edge {
    pub byte: u8,
    pub to: Child,
}

/// An end of edges or leaves in ascending order.
#[derive(Clone, Copy)]
pub enum End {
    First,
    Last,
}
