//! Comparisons of two walks, and the hash of one.
ghost use Rattle.std.specs.Prelude.{◌≡◌, ◌&&◌, ◌++◌, length};
ghost use Rattle.std.specs.Cmp.Lexicographic.{pointwise, slice_cmp, slice_partial_cmp};
ghost use Rattle.std.specs.Hash as fed;
ghost use Rattle.std.specs.List.{fold};
ghost use Rattle.std.specs.Ordering.{ordering_then, partial_ordering_then};

use crate::iter::Iter;
use std::cmp::{Ord, Ordering, PartialEq, PartialOrd};
use std::hash::{Hash, Hasher};
use std::iter::Iterator;

/// Returns `true` if each pair equals the other pair at its place. Both walks must have the same
/// number of pairs.
///
/// Cost: one pass over both walks, up to the first difference.
pub fn eq<K: PartialEq, V: PartialEq, const P: usize>(
    left: &mut Iter<'_, K, V, P>,
    right: &mut Iter<'_, K, V, P>,
) -> bool
    requires { length left.old ≡ length right.old }
    ensures { result
        ≡ pointwise (λ p q. K.eq p.0 q.0 && V.eq p.1 q.1) left.old right.old }
{
    while let Some((key, value)) = left.next() {
        let Some((other, its)) = right.next() else {
            return false;
        };
        if !pair_eq(key, value, other, its) {
            return false;
        }
    }
    true
}

/// Returns `true` if two pairs have equal keys and equal values.
fn pair_eq<K: PartialEq, V: PartialEq>(key: &K, value: &V, other: &K, its: &V) -> bool
    ensures { result ≡ (K.eq key.now other.now && V.eq value.now its.now) }
{
    key == other && value == its
}

/// Compares two lists of pairs. The first two pairs that are not equal decide, or else the lengths.
/// Returns `None` if those pairs cannot be compared.
///
/// Cost: one pass over both walks, up to the pairs that decide.
pub fn partial_cmp<K: PartialOrd, V: PartialOrd, const P: usize>(
    left: &mut Iter<'_, K, V, P>,
    right: &mut Iter<'_, K, V, P>,
) -> Option<Ordering>
    ensures { result
        ≡ slice_partial_cmp
        (λ p q. partial_ordering_then (K.partial_cmp p.0 q.0) (V.partial_cmp p.1 q.1))
        left.old right.old }
{
    while let Some((key, value)) = left.next() {
        let Some((other, its)) = right.next() else {
            return Some(Ordering::Greater);
        };
        let found = pair_partial_cmp(key, value, other, its);
        if !matches!(found, Some(Ordering::Equal)) {
            return found;
        }
    }
    match right.next() {
        Some(_) => Some(Ordering::Less),
        None => Some(Ordering::Equal),
    }
}

/// Compares two pairs by their keys, or by their values if the keys are equal. Returns `None` if
/// these cannot be compared.
fn pair_partial_cmp<K: PartialOrd, V: PartialOrd>(
    key: &K,
    value: &V,
    other: &K,
    its: &V,
) -> Option<Ordering>
    ensures { result
        ≡ partial_ordering_then (K.partial_cmp key.now other.now)
        (V.partial_cmp value.now its.now) }
{
    match key.partial_cmp(other) {
        Some(Ordering::Equal) => value.partial_cmp(its),
        found => found,
    }
}

/// Compares two lists of pairs. The first two pairs that are not equal decide, or else the lengths.
///
/// Cost: one pass over both walks, up to the pairs that decide.
pub fn cmp<K: Ord, V: Ord, const P: usize>(
    left: &mut Iter<'_, K, V, P>,
    right: &mut Iter<'_, K, V, P>,
) -> Ordering
    ensures { result
        ≡ slice_cmp (λ p q. ordering_then (K.cmp p.0 q.0) (V.cmp p.1 q.1))
        left.old right.old }
{
    while let Some((key, value)) = left.next() {
        let Some((other, its)) = right.next() else {
            return Ordering::Greater;
        };
        let found = pair_cmp(key, value, other, its);
        if found.is_ne() {
            return found;
        }
    }
    match right.next() {
        Some(_) => Ordering::Less,
        None => Ordering::Equal,
    }
}

/// Compares two pairs by their keys, or by their values if the keys are equal.
fn pair_cmp<K: Ord, V: Ord>(key: &K, value: &V, other: &K, its: &V) -> Ordering
    ensures { result ≡ ordering_then (K.cmp key.now other.now) (V.cmp value.now its.now) }
{
    match key.cmp(other) {
        Ordering::Equal => value.cmp(its),
        found => found,
    }
}

/// Feeds a hasher the number of pairs, and then each key and its value.
///
/// Cost: one pass.
pub fn hash<K: Hash, V: Hash, H: Hasher, const P: usize>(walk: Iter<'_, K, V, P>, state: &mut H)
    ensures { state.new
        ≡ fold H.write state.old
        (fed.slice (λ p. K.hash_input p.0 ++ V.hash_input p.1) walk.entry) }
{
    let mut walk = walk;
    state.write_usize(walk.len());
    while let Some((key, value)) = walk.next() {
        key.hash(state);
        value.hash(state);
    }
}
