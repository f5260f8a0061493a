//! Equality of sets.
ghost use Rattle.std.specs.Cmp.{on_per, on_equiv};
ghost use Rattle.std.specs.Cmp.Lexicographic.{pointwise, lists_per, lists_equiv};
ghost use Rattle.blart_set.specs.Elements.{elements};

use crate::set::TreeSet;
use blart_keys::AsBytes;
use std::cmp::{Eq, PartialEq};

impl<K: AsBytes + PartialEq, const PREFIX_LEN: usize> PartialEq for TreeSet<K, PREFIX_LEN> {
    ghost eq = { λ s t. pointwise K.eq (elements s) (elements t) };

    ghost laws = { on_per (λ s. elements s) (lists_per K.PartialEq.laws) };

    /// Returns `true` if both sets have the same number of elements, and the elements in the same
    /// positions are equal by their own `==`.
    ///
    /// Cost: one pass over both sets, up to the first difference. If the numbers of elements
    /// differ, it reads none.
    ///
    /// ```
    /// assert!(left == right);
    /// ```
    fn eq(&self, other: &Self) -> bool {
        self.map == other.map
    }
}

impl<K: AsBytes + Eq, const PREFIX_LEN: usize> Eq for TreeSet<K, PREFIX_LEN> {
    ghost laws = { on_equiv (λ s. elements s) (lists_equiv K.Eq.laws) };
}
