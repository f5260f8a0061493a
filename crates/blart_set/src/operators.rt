//! Merges of two sets as new sets.
ghost use Rattle.std.specs.Prelude.{◌≡◌, List, [], map, IfOk, OnErr, Some};
ghost use Rattle.std.specs.Iterator.{IsFinite, Drains};
ghost use Rattle.std.specs.List.{AllZip};
ghost use denote.Ref.{Bor};
ghost use Rattle.blart_keys.specs.Bulk.{PutsAll};
ghost use Rattle.blart_keys.specs.Merges.{IsUnion, IsSymmetricDifference, intersection, difference};
ghost use Rattle.blart_keys.specs.Stored.{kept_item};
ghost use Rattle.blart_set.specs.Clones.{KeepsBytes, MakesClones};
ghost use Rattle.blart_set.specs.Elements.{elements};

use crate::set::TreeSet;
use blart_keys::{NoPrefixesBytes, OrderedBytes};
use std::alloc::{AllocError, Global};
use std::clone::Clone;
use std::iter::Iterator;
use std::ops::{BitAnd, BitOr, BitXor, Sub};

impl<'a, 'b, K: OrderedBytes + NoPrefixesBytes + Clone, const PREFIX_LEN: usize> BitOr<
    &'b TreeSet<K, PREFIX_LEN>,
> for &'a TreeSet<K, PREFIX_LEN> {
    type Output = Result<TreeSet<K, PREFIX_LEN>, AllocError>;

    ghost can_bitor = { λ a b. KeepsBytes K.bytes K.is_clone (elements a.now)
        × KeepsBytes K.bytes K.is_clone (elements b.now) };

    ghost bitor_gives = { λ a b r. MakesClones K.bytes K.is_clone elements
        (IsUnion K.bytes (elements a.now) (elements b.now)) r };

    /// Returns a set of clones of the elements of [`TreeSet::union`]. A clone of an element has the
    /// same bytes. Returns an error only if either set has an element.
    ///
    /// Cost: a merge, and allocates a vector of the clones. Then as for [`TreeSet::from_vec`].
    ///
    /// ```
    /// // a is {1, 2, 3, 5}, b is {2, 4, 5, 6}
    /// let both = (&a | &b)?;
    /// assert_eq!(both.len(), 6);
    /// ```
    fn bitor(
        self,
        other: &'b TreeSet<K, PREFIX_LEN>,
    ) -> Result<TreeSet<K, PREFIX_LEN>, AllocError> {
        of_clones(self.alloc, self.union(other))
    }
}

impl<'a, 'b, K: OrderedBytes + NoPrefixesBytes + Clone, const PREFIX_LEN: usize> BitAnd<
    &'b TreeSet<K, PREFIX_LEN>,
> for &'a TreeSet<K, PREFIX_LEN> {
    type Output = Result<TreeSet<K, PREFIX_LEN>, AllocError>;

    ghost can_bitand = { λ a b. KeepsBytes K.bytes K.is_clone (elements a.now) };

    ghost bitand_gives = { λ a b r. MakesClones K.bytes K.is_clone elements
        (λ U. U ≡ intersection K.bytes (elements a.now) (elements b.now)) r };

    /// Returns a set of clones of the elements of [`TreeSet::intersection`]. A clone of an element
    /// has the same bytes. Returns an error only if some bytes are in both sets.
    ///
    /// Cost: a merge, and allocates a vector of the clones. Then as for [`TreeSet::from_vec`].
    fn bitand(
        self,
        other: &'b TreeSet<K, PREFIX_LEN>,
    ) -> Result<TreeSet<K, PREFIX_LEN>, AllocError> {
        self.law();
        of_clones(self.alloc, self.intersection(other))
    }
}

impl<'a, 'b, K: OrderedBytes + NoPrefixesBytes + Clone, const PREFIX_LEN: usize> Sub<
    &'b TreeSet<K, PREFIX_LEN>,
> for &'a TreeSet<K, PREFIX_LEN> {
    type Output = Result<TreeSet<K, PREFIX_LEN>, AllocError>;

    ghost can_sub = { λ a b. KeepsBytes K.bytes K.is_clone (elements a.now) };

    ghost sub_gives = { λ a b r. MakesClones K.bytes K.is_clone elements
        (λ U. U ≡ difference K.bytes (elements a.now) (elements b.now)) r };

    /// Returns a set of clones of the elements of [`TreeSet::difference`]. A clone of an element
    /// has the same bytes. Returns an error only if the right set lacks the bytes of some element
    /// of the left one.
    ///
    /// Cost: a merge, and allocates a vector of the clones. Then as for [`TreeSet::from_vec`].
    fn sub(self, other: &'b TreeSet<K, PREFIX_LEN>) -> Result<TreeSet<K, PREFIX_LEN>, AllocError> {
        self.law();
        of_clones(self.alloc, self.difference(other))
    }
}

impl<'a, 'b, K: OrderedBytes + NoPrefixesBytes + Clone, const PREFIX_LEN: usize> BitXor<
    &'b TreeSet<K, PREFIX_LEN>,
> for &'a TreeSet<K, PREFIX_LEN> {
    type Output = Result<TreeSet<K, PREFIX_LEN>, AllocError>;

    ghost can_bitxor = { λ a b. KeepsBytes K.bytes K.is_clone (elements a.now)
        × KeepsBytes K.bytes K.is_clone (elements b.now) };

    ghost bitxor_gives = { λ a b r. MakesClones K.bytes K.is_clone elements
        (IsSymmetricDifference K.bytes (elements a.now) (elements b.now)) r };

    /// Returns a set of clones of the elements of [`TreeSet::symmetric_difference`]. A clone of an
    /// element has the same bytes. Returns an error only if one of the sets has an element whose
    /// bytes the other lacks.
    ///
    /// Cost: a merge, and allocates a vector of the clones. Then as for [`TreeSet::from_vec`].
    fn bitxor(
        self,
        other: &'b TreeSet<K, PREFIX_LEN>,
    ) -> Result<TreeSet<K, PREFIX_LEN>, AllocError> {
        of_clones(self.alloc, self.symmetric_difference(other))
    }
}

/// Returns a set of clones of the elements that the iterator yields, inserted one after another.
fn of_clones<'x, K: NoPrefixesBytes + Clone, I: Iterator<Item = &'x K>, const P: usize>(
    alloc: Global,
    items: I,
) -> Result<TreeSet<K, P>, AllocError>
where
    K: 'x,
    requires can { I.can_next items }
    requires ends { IsFinite (I.remaining items) }
    ensures made { IfOk result (λ set. (xs : List (Bor K)) × (ys : List K)
        × Drains I.next_gives items xs × AllZip K.is_clone (map (λ x. x.now) xs) ys
        × PutsAll K.bytes kept_item [] ys (elements set)) }
    ensures refused { OnErr result ((x : Bor K) × (rest : I) × I.next_gives items (Some x) rest) }
{
    let mut clones = Vec::new(alloc);
    for item in items {
        clones.push(item.clone()?)?;
    }
    TreeSet::from_vec(alloc, clones)
}
