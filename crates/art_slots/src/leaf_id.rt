//! The ids of leaves.
ghost use Rattle.std.specs.Prelude.{◌≡◌, ◌<◌, ◌^◌};

use std::marker::Model;

/// The id of a leaf, less than 2^61. It is the number of the cell that the leaf is in, and a leaf
/// stays in its cell until it is removed. A contract sees the number.
#[derive(Clone, Copy, PartialEq, Eq)]
pub struct LeafId {
    pub(crate) number: usize,
}

impl Model for LeafId {
    ghost use Rattle.std.specs.Prelude.{ℕ, refl};
    ghost use Rattle.std.specs.Coded.{coded_ℕ};

    ghost Value = { ℕ };

    ghost coded = { coded_ℕ };

    ghost view = { λ a. a.number };

    ghost use Rattle.std.specs.Prelude.{◌<◌, ◌^◌};

    ghost invariant = { λ a. a.number < 2 ^ 61 };

    ghost inverse = { λ n. record { number = n } };

    ghost inverse_ok = { λ a h. refl };
}

impl LeafId {
    /// Returns the id with this number, which must be less than 2^61.
    ///
    /// Cost: none.
    pub fn new(number: usize) -> Self
        requires { number < 2 ^ 61 }
        ensures { result ≡ number }
    {
        LeafId { number }
    }

    /// Returns the number.
    ///
    /// Cost: none.
    pub fn number(self) -> usize
        ensures value { result ≡ self }
        ensures small { result < 2 ^ 61 }
    {
        self.number
    }
}
