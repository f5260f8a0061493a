//! Orders of sets.
ghost use Rattle.std.specs.Cmp.{on_po, on_total};
ghost use Rattle.std.specs.Cmp.Lexicographic.{slice_cmp, slice_partial_cmp, lists_po, lists_total, lists_agrees, lists_ties};
ghost use Rattle.blart_set.specs.Elements.{elements};

use crate::set::TreeSet;
use blart_keys::AsBytes;
use std::cmp::{Ord, Ordering, PartialOrd};

impl<K: AsBytes + PartialOrd, const PREFIX_LEN: usize> PartialOrd for TreeSet<K, PREFIX_LEN> {
    ghost partial_cmp = { λ s t. slice_partial_cmp K.partial_cmp (elements s) (elements t) };

    ghost laws = { on_po (λ s. elements s) (lists_po K.PartialOrd.laws) };

    /// Compares the first two elements that are not equal, by their own order. If there are none,
    /// the set with fewer elements is less. Returns `None` if those two elements cannot be
    /// compared.
    ///
    /// Cost: one pass over both sets, up to these elements.
    fn partial_cmp(&self, other: &Self) -> Option<Ordering> {
        self.map.partial_cmp(&other.map)
    }
}

impl<K: AsBytes + Ord, const PREFIX_LEN: usize> Ord for TreeSet<K, PREFIX_LEN> {
    ghost cmp = { λ s t. slice_cmp K.cmp (elements s) (elements t) };

    ghost total = { on_total (λ s. elements s) (lists_total K.total) };

    ghost matches_partial_cmp = { λ x y. lists_agrees K.matches_partial_cmp
        (elements x) (elements y) };

    ghost matches_eq = { λ x y. lists_ties K.cmp K.matches_eq (elements x) (elements y) };

    /// Compares the first two elements that are not equal, by their own order. If there are none,
    /// the set with fewer elements is less.
    ///
    /// Cost: one pass over both sets, up to these elements.
    ///
    /// ```
    /// // left is {1, 2, 3}, right is {1, 2, 4}
    /// assert!(left < right);
    /// ```
    fn cmp(&self, other: &Self) -> Ordering {
        self.map.cmp(&other.map)
    }
}
