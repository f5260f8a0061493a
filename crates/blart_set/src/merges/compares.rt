//! A count of comparisons that only proofs read.
ghost use Rattle.std.specs.Prelude.{◌≡◌, ◌+◌};

use blart_map::Visits;
use std::marker::Model;

/// The number of comparisons of elements that a merge made. Its size at run time is zero. A
/// contract sees the number.
///
/// ```
/// let mut compares = Compares::new();
/// compares.add_one();
/// ```
#[derive(Drop)]
pub struct Compares {
    made: Visits,
}

impl Model for Compares {
    ghost use Rattle.std.specs.Prelude.{ℕ};

    ghost Value = { ℕ };

    ghost view = { λ c. c.made.count };
}

impl Compares {
    /// Returns a count of no comparisons.
    ///
    /// Cost: none.
    pub fn new() -> Compares
        ensures { result ≡ 0 }
    {
        Compares {
            made: Visits::new(),
        }
    }

    /// Counts one more comparison.
    ///
    /// Cost: none.
    pub fn add_one(&mut self)
        ensures { self.new ≡ self.old + 1 }
    {
        self.made.add_one();
    }
}
