//! Neighbouring numbers of a row.
ghost use Rattle.std.specs.Prelude.{◌≡◌, [], ◌∷◌, ◌++◌};
ghost use Rattle.std.specs.Option.{MatchOption};

use art_slots::LeafId;
use std::marker::Model;

/// Neighbouring numbers of a row, all less than 2^32. A contract sees the list of the numbers.
#[derive(Drop)]
pub struct Run<'a> {
    pub(crate) low: &'a [u32],
}

impl<'a> Model for Run<'a> {
    ghost use Rattle.std.specs.Prelude.{List, ℕ};
    ghost use Rattle.std.specs.Coded.{coded_list, coded_ℕ};

    ghost Value = { List ℕ };

    ghost coded = { coded_list coded_ℕ };

    ghost view = { λ r. r.low.now };
}

impl<'a> Run<'a> {
    /// Returns a run with no numbers.
    pub fn empty() -> Self
        ensures { result ≡ [] }
    {
        Run { low: &[] }
    }

    /// Returns a run of these numbers.
    #[inline(always)]
    pub(crate) fn new(low: &'a [u32]) -> Self
        ensures { result ≡ low.now }
    {
        Run { low }
    }

    /// Removes the first number, and returns it.
    #[inline(always)]
    pub(crate) fn split_off_first(&mut self) -> Option<LeafId>
        ensures { MatchOption result (self.old ≡ []) (λ n. self.old ≡ n ∷ self.new) }
    {
        let (number, rest) = self.low.split_first()?;
        self.low = rest;
        Some(LeafId::new(*number as usize))
    }

    /// Removes the last number, and returns it.
    #[inline(always)]
    pub(crate) fn split_off_last(&mut self) -> Option<LeafId>
        ensures { MatchOption result (self.old ≡ []) (λ n. self.old ≡ self.new ++ n ∷ []) }
    {
        let (number, rest) = self.low.split_last()?;
        self.low = rest;
        Some(LeafId::new(*number as usize))
    }
}
