//! A count that only proofs read.
ghost use Rattle.std.specs.Prelude.{◌≡◌, ℕ, ◌+◌};
ghost use Rattle.std.specs.Borrow.{ftrue};

use std::marker::Model;

/// The number of visits: how many inner nodes and pairs of leaves were read. It is no value at run
/// time. A clause reads the number as `count`.
#[derive(Drop)]
pub struct Visits {
    pub ghost count: { ℕ },
}

impl Model for Visits {
    ghost also_owns = { λ _. ftrue };
}

impl Visits {
    /// Returns a count of no visits.
    ///
    /// Cost: none.
    pub fn new() -> Visits
        ensures { result.count ≡ 0 }
    {
        Visits {}
    }

    /// Returns a count of one visit more.
    fn next(&self) -> Visits
        ensures { result.count ≡ self.now.count + 1 }
    {
        Visits {}
    }

    /// Counts one more visit.
    ///
    /// Cost: none.
    pub fn add_one(&mut self)
        ensures { self.new.count ≡ self.old.count + 1 }
    {
        *self = self.next();
    }
}
