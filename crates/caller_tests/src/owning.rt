//! Walks that consume a map.
ghost use Rattle.std.specs.Prelude.{◌≡◌, map, IfOk};
ghost use Rattle.blart.specs.Words.{pairs};

use blart::{AsBytes, Map};
use std::alloc::{AllocError, Global};
use std::iter::{IntoIterator, Iterator};

/// Returns the pairs of a map as a vector, in the order of their keys' bytes.
pub fn into_vec<K: AsBytes + Drop, V: Drop>(
    alloc: Global,
    map: Map<K, V>,
) -> Result<Vec<(K, V)>, AllocError>
    ensures { IfOk result (λ taken. taken.items ≡ pairs map) }
{
    let mut pairs = Vec::new(alloc);
    for (key, value) in map {
        pairs.push((key, value))?;
    }
    Ok(pairs)
}

/// Returns the values of a map as a vector, in the order of their keys' bytes.
pub fn into_values_vec<K: AsBytes + Drop>(
    alloc: Global,
    scores: Map<K, u64>,
) -> Result<Vec<u64>, AllocError>
    ensures { IfOk result (λ values. values.items ≡ map (λ pair. pair.1) (pairs scores)) }
{
    let mut values = Vec::new(alloc);
    for value in scores.into_values() {
        values.push(value)?;
    }
    Ok(values)
}
