//! Walks and look-ups that are proved by their lemmas.
ghost use Rattle.std.specs.Prelude.{◌≡◌, ◌++◌, true, map, reverse, option_copied, IfOk};
ghost use Rattle.blart.specs.Words.{pairs, value_at, has};

use blart::{AsBytes, Map};
use std::alloc::{AllocError, Global};
use std::iter::{DoubleEndedIterator, Iterator};

/// Returns the values from both ends in turn: those from the front, and those from the back. The
/// first, followed by the second in reverse, are all values.
pub fn from_both_ends<K: AsBytes>(
    alloc: Global,
    scores: &Map<K, u64>,
) -> Result<(Vec<u64>, Vec<u64>), AllocError>
    ensures { IfOk result
        (λ ends. map (λ p. p.1) (pairs scores.now) ≡ ends.0.items ++ reverse ends.1.items) }
{
    let mut fronts = Vec::new(alloc);
    let mut backs = Vec::new(alloc);
    let mut walk = scores.values();
    'both: while let Some(front) = walk.next() {
        fronts.push(*front)?;
        if let Some(back) = walk.next_back() {
            backs.push(*back)?;
        }
    }
    Ok((fronts, backs))
}

/// Returns the value of a stored key. The look-up searches for a stored prefix of its bytes.
#[tactic(auto, using(blart::proofs::CallerLemmas::before_agrees))]
pub fn get_by_front<'a, K: AsBytes, V>(store: &'a Map<K, V>, key: &K) -> Option<&'a V>
    requires { has K.bytes (pairs store.now) (K.bytes key.now) ≡ true }
    ensures { option_copied result ≡ value_at K.bytes (pairs store.now) (K.bytes key.now) }
{
    store.law();
    store.prefix_get(key)
}
