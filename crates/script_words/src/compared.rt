//! Keys that count their comparisons.
ghost use Rattle.std.specs.Prelude.{refl};
ghost use Rattle.std.specs.Cmp.{partial_order_from_own_ties};
ghost use Rattle.std.specs.Cmp.Rules.{comparing};
ghost use Rattle.std.specs.Cmp.Lexicographic.{slice_cmp};
ghost use Rattle.std.specs.Ordering.{nat_cmp, on, as_partial_cmp};
ghost use Rattle.std.proofs.lemmas.Slice.Eq.{bytes_eq-Decides};
ghost use Rattle.blart_keys.specs.Keys.{AreBytes};
ghost use borrow.Author.Rules.{rules};

use crate::text::{Shown, Text, show_bytes};
use blart_keys::{AsBytes, OrderedBytes};
use std::cell::Cell;
use std::cmp::Ordering;

/// The bytes of a key, and a count of its comparisons with other keys.
#[derive(Clone, Copy)]
#[derive_where(PartialEq, Eq)]
pub struct Compared<'a> {
    /// The bytes.
    pub bytes: &'a [u8],
    /// The number of comparisons of keys.
    #[derive_where(skip)]
    pub count: &'a Cell<u64>,
}

impl PartialOrd for Compared<'_> {
    ghost partial_cmp = { as_partial_cmp (on (λ k. k.bytes.now) (slice_cmp nat_cmp)) };

    ghost laws = { partial_order_from_own_ties (Prim.search (comparing, rules)) (Prim.search (comparing, rules)) };

    fn partial_cmp(&self, other: &Self) -> Option<Ordering> {
        Some(self.cmp(other))
    }
}

impl Ord for Compared<'_> {
    ghost cmp = { on (λ k. k.bytes.now) (slice_cmp nat_cmp) };

    ghost total = { Prim.search (comparing, rules) };

    ghost matches_partial_cmp = { Prim.search (comparing, rules) };

    ghost matches_eq = { Prim.search (comparing, rules) };

    fn cmp(&self, other: &Self) -> Ordering {
        self.count.set(self.count.get().wrapping_add(1));
        self.bytes.cmp(&other.bytes)
    }
}

impl AsBytes for Compared<'_> {
    ghost bytes = { λ k. k.bytes.now };

    ghost IsValue = { λ k. AreBytes k.bytes.now };

    fn as_bytes(&self) -> &[u8] {
        self.bytes
    }

    fn value_law(&self) {
        self.bytes.value_law()
    }
}

impl OrderedBytes for Compared<'_> {
    ghost ordered = { λ x y a b. refl };

    ghost equal_bytes = { λ x y a b. bytes_eq-Decides x.bytes.now y.bytes.now };
}

impl Shown for Compared<'_> {
    fn show(&self, text: &mut Text) {
        show_bytes(self.bytes, text);
    }
}
