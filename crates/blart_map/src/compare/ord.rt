//! Orders of maps.
ghost use Rattle.std.specs.Cmp.{on_po, then_po, on_total, then_total, then_agrees, both_tied};
ghost use Rattle.std.specs.Cmp.Lexicographic.{slice_cmp, slice_partial_cmp, lists_po, lists_total, lists_agrees, lists_ties};
ghost use Rattle.std.specs.Ordering.{ordering_then, partial_ordering_then};
ghost use Rattle.blart_map.specs.Content.{pairs};

use crate::map::TreeMap;
use blart_keys::AsBytes;
use std::cmp::{Ord, Ordering, PartialOrd};

impl<K: AsBytes + PartialOrd, V: PartialOrd, const PREFIX_LEN: usize> PartialOrd
    for TreeMap<K, V, PREFIX_LEN> {
    ghost partial_cmp = { λ m n. slice_partial_cmp
        (λ p q. partial_ordering_then (K.partial_cmp p.0 q.0) (V.partial_cmp p.1 q.1))
        (pairs m) (pairs n) };

    ghost laws = { on_po (λ m. pairs m)
        (lists_po (then_po (on_po (λ p. p.0) K.PartialOrd.laws) (on_po (λ p. p.1) V.PartialOrd.laws))) };

    /// Compares the first two pairs that are not equal, by the keys' own order and then by the
    /// values'. If there are no such pairs, the map with fewer pairs is less. Returns `None` if
    /// those two pairs cannot be compared.
    ///
    /// Cost: one read of each pair of both maps, up to those two.
    fn partial_cmp(&self, other: &Self) -> Option<Ordering> {
        art_walk::partial_cmp(&mut self.iter(), &mut other.iter())
    }
}

impl<K: AsBytes + Ord, V: Ord, const PREFIX_LEN: usize> Ord for TreeMap<K, V, PREFIX_LEN> {
    ghost cmp = { λ m n. slice_cmp
        (λ p q. ordering_then (K.cmp p.0 q.0) (V.cmp p.1 q.1)) (pairs m) (pairs n) };

    ghost total = { on_total (λ m. pairs m)
        (lists_total (then_total (on_total (λ p. p.0) K.total) (on_total (λ p. p.1) V.total))) };

    ghost matches_partial_cmp = { λ x y. lists_agrees
        (then_agrees (λ p q. K.matches_partial_cmp p.0 q.0) (λ p q. V.matches_partial_cmp p.1 q.1))
        (pairs x) (pairs y) };

    ghost matches_eq = { λ x y.
        let by_key = K.cmp in
        let by_value = V.cmp in
        lists_ties (λ p q. ordering_then (by_key p.0 q.0) (by_value p.1 q.1))
        (λ p q. both_tied _ _ (by_key p.0 q.0) (by_value p.1 q.1)
        (K.matches_eq p.0 q.0) (V.matches_eq p.1 q.1))
        (pairs x) (pairs y) };

    /// Compares the first two pairs that are not equal, by the keys' own order and then by the
    /// values'. If there are no such pairs, the map with fewer pairs is less.
    ///
    /// Cost: one read of each pair of both maps, up to those two.
    ///
    /// ```
    /// left.try_insert("ab", 1)?;
    /// right.try_insert("ab", 1)?;
    /// right.try_insert("b", 0)?;
    /// assert!(left < right);
    /// ```
    fn cmp(&self, other: &Self) -> Ordering {
        art_walk::cmp(&mut self.iter(), &mut other.iter())
    }
}
