//! Sets: merges of two, and loops over one.
ghost use Rattle.std.specs.Prelude.{◌≡◌, ◌↔◌, ◌||◌, true, false, filter, length, ltb, All, IfOk, IsTrue, if◌then◌else◌};
ghost use Rattle.blart.specs.Words.{elements, difference, intersection, less, IsUnion, KeepsBytes, MakesClones, stores};

use blart::{AsBytes, NoPrefixesBytes, OrderedBytes, TreeSet};
use std::alloc::{AllocError, Global};
use std::clone::Clone;
use std::iter::Iterator;

/// Returns a set of the elements of both.
pub fn join<K: OrderedBytes + NoPrefixesBytes + Clone, const P: usize>(
    a: &TreeSet<K, P>,
    b: &TreeSet<K, P>,
) -> Result<TreeSet<K, P>, AllocError>
    requires left { KeepsBytes K.bytes K.is_clone (elements a.now) }
    requires right { KeepsBytes K.bytes K.is_clone (elements b.now) }
    ensures { MakesClones K.bytes K.is_clone elements
        (IsUnion K.bytes (elements a.now) (elements b.now)) result }
{
    a | b
}

/// Returns the elements of a set as a vector, in ascending order.
pub fn all_of<K: AsBytes + Copy, const P: usize>(
    alloc: Global,
    set: &TreeSet<K, P>,
) -> Result<Vec<K>, AllocError>
    ensures { IfOk result (λ all. all.items ≡ elements set.now) }
{
    let mut all = Vec::new(alloc);
    for element in set {
        all.push(*element)?;
    }
    Ok(all)
}

/// Keeps the bytes below a bound.
pub fn keep_below<const P: usize>(set: &mut TreeSet<u8, P>, bound: u8)
    ensures { elements set.new ≡ filter (λ n. ltb n bound) (elements set.old) }
{
    set.retain(|n| *n < bound);
}

/// Returns the number of elements that both sets have.
pub fn count_shared<K: OrderedBytes, const P: usize>(a: &TreeSet<K, P>, b: &TreeSet<K, P>) -> usize
    ensures { result ≡ length (intersection K.bytes (elements a.now) (elements b.now)) }
{
    a.intersection(b).count()
}

/// Returns the elements that both sets have as a vector, in ascending order.
pub fn shared_of<K: OrderedBytes + Copy, const P: usize>(
    alloc: Global,
    a: &TreeSet<K, P>,
    b: &TreeSet<K, P>,
) -> Result<Vec<K>, AllocError>
    ensures { IfOk result (λ both. both.items
        ≡ intersection K.bytes (elements a.now) (elements b.now)) }
{
    let mut both = Vec::new(alloc);
    for element in a.intersection(b) {
        both.push(*element)?;
    }
    Ok(both)
}

/// Returns the elements of the second set that the first lacks as a vector, in ascending order.
pub fn new_to<K: OrderedBytes + Copy, const P: usize>(
    alloc: Global,
    seen: &TreeSet<K, P>,
    found: &TreeSet<K, P>,
) -> Result<Vec<K>, AllocError>
    ensures { IfOk result (λ new. new.items
        ≡ difference K.bytes (elements found.now) (elements seen.now)) }
{
    found.difference(seen).copied().collect(alloc)
}

/// Returns whether all elements asked for are granted.
#[tactic(auto, using(blart::proofs::CallerLemmas::lacks_none))]
pub fn grants_all<K: OrderedBytes, const P: usize>(
    granted: &TreeSet<K, P>,
    asked: &TreeSet<K, P>,
) -> bool
    ensures { IsTrue result
        ↔ All (λ x. stores K.bytes (elements granted.now) (K.bytes x) ≡ true) (elements asked.now) }
{
    asked.is_subset(granted)
}

/// Returns whether an element is stored after its insertion.
pub fn is_there<K: NoPrefixesBytes + Copy, const P: usize>(
    set: &mut TreeSet<K, P>,
    element: K,
) -> Result<bool, AllocError>
    ensures { IfOk result (λ there. there ≡ true) }
{
    set.insert(element)?;
    Ok(set.contains(&element))
}

/// Returns whether an element is stored after it replaced all that are related to it.
pub fn takes_place<K: AsBytes + Copy, const P: usize>(
    set: &mut TreeSet<K, P>,
    element: K,
) -> Result<bool, AllocError>
    ensures { IfOk result (λ there. there ≡ true) }
{
    set.prefix_insert(element)?;
    Ok(set.contains(&element))
}

/// Returns whether the bytes are in a set after it took another's elements.
pub fn has_moved<K: NoPrefixesBytes + Drop, const P: usize>(
    set: &mut TreeSet<K, P>,
    other: &mut TreeSet<K, P>,
    bytes: &[u8],
) -> Result<bool, AllocError>
    ensures { IfOk result (λ there. there ≡ (stores K.bytes (elements other.old) bytes.now
        || stores K.bytes (elements set.old) bytes.now)) }
{
    set.append(other)?;
    Ok(set.contains(&bytes))
}

/// Returns whether the bytes are in a set after all elements from a bound on were split off.
pub fn is_left<K: AsBytes + Drop, const P: usize>(
    set: &mut TreeSet<K, P>,
    bound: &[u8],
    bytes: &[u8],
) -> Result<bool, AllocError>
    ensures { IfOk result (λ left. left ≡ (if less bytes.now bound.now
        then stores K.bytes (elements set.old) bytes.now else false)) }
{
    drop(set.split_off(&bound)?);
    Ok(set.contains(&bytes))
}
