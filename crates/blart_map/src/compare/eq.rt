//! Equality of maps.
ghost use Rattle.std.specs.Prelude.{◌&&◌};
ghost use Rattle.std.specs.Cmp.{on_per, and_per, on_equiv, and_equiv};
ghost use Rattle.std.specs.Cmp.Lexicographic.{pointwise, lists_per, lists_equiv};
ghost use Rattle.blart_map.specs.Content.{pairs};

use crate::map::TreeMap;
use blart_keys::AsBytes;
use std::cmp::{Eq, PartialEq};

impl<K: AsBytes + PartialEq, V: PartialEq, const PREFIX_LEN: usize> PartialEq
    for TreeMap<K, V, PREFIX_LEN> {
    ghost eq = { λ m n. pointwise (λ p q. K.eq p.0 q.0 && V.eq p.1 q.1) (pairs m) (pairs n) };

    ghost laws = { on_per (λ m. pairs m)
        (lists_per (and_per (on_per (λ p. p.0) K.PartialEq.laws) (on_per (λ p. p.1) V.PartialEq.laws))) };

    /// Returns `true` if both maps have the same number of pairs, and the keys and the values at
    /// each place are equal by their own `==`.
    ///
    /// Cost: one read of each pair of both maps, up to the first difference. If the numbers of
    /// pairs differ, it reads none.
    ///
    /// ```
    /// assert!(left == right);
    /// ```
    fn eq(&self, other: &Self) -> bool {
        self.len() == other.len() && art_walk::eq(&mut self.iter(), &mut other.iter())
    }
}

impl<K: AsBytes + Eq, V: Eq, const PREFIX_LEN: usize> Eq for TreeMap<K, V, PREFIX_LEN> {
    ghost laws = { on_equiv (λ m. pairs m)
        (lists_equiv (and_equiv (on_equiv (λ p. p.0) K.Eq.laws) (on_equiv (λ p. p.1) V.Eq.laws))) };
}
