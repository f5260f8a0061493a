//! New sets of given elements.
ghost use Rattle.std.specs.Prelude.{◌≡◌, ◌≢◌, [], List, map, IfOk, OnOk, OnErr, Some};
ghost use Rattle.std.specs.Iterator.{IsFinite, Drains};
ghost use Rattle.blart_keys.specs.Bulk.{PutsAll};
ghost use Rattle.blart_keys.specs.Stored.{kept_item};
ghost use Rattle.blart_set.specs.Elements.{elements};

use crate::set::TreeSet;
use blart_keys::NoPrefixesBytes;
use blart_map::TreeMap;
use std::alloc::{AllocError, Global};
use std::iter::Iterator;

impl<K: NoPrefixesBytes + Drop, const PREFIX_LEN: usize> TreeSet<K, PREFIX_LEN> {
    /// Returns a set of the elements that the iterator yields, inserted one after another, like
    /// [`TreeSet::insert`]. Of elements with the same bytes the first is stored. Returns an error
    /// only if there is an element. If there are none, it does not allocate.
    ///
    /// It first collects the elements into a vector, and then calls [`TreeSet::from_vec`].
    ///
    /// Cost: allocates the vector, and then as for [`TreeSet::from_vec`].
    pub fn from_iter<I: Iterator<Item = K>>(alloc: Global, items: I) -> Result<Self, AllocError>
        requires can { I.can_next items }
        requires ends { IsFinite (I.remaining items) }
        ensures made { IfOk result (λ set. (xs : List K) × Drains I.next_gives items xs
            × PutsAll K.bytes kept_item [] xs (elements set)) }
        ensures refused { OnErr result ((x : K) × (rest : I) × I.next_gives items (Some x) rest) }
    {
        let mut all = Vec::new(alloc);
        for item in items {
            if let Err(refused) = all.push(item) {
                drop(all);
                return Err(refused.into());
            }
        }
        TreeSet::from_vec(alloc, all)
    }

    /// Returns a set of the elements, inserted one after another, like [`TreeSet::insert`]. Of
    /// elements with the same bytes the first is stored. Returns an error only if there is an
    /// element. If there are none, it does not allocate.
    ///
    /// The set is a map of units, which [`TreeMap::from_vec`] makes. That call sorts the elements
    /// by their bytes if it can allocate for it, and then makes each inner node once. So the
    /// elements lie in order, and an iterator over the set finds them side by side.
    ///
    /// Cost: allocates a vector of pairs, and then as for [`TreeMap::from_vec`].
    ///
    /// ```
    /// let set = TreeSet::from_vec(alloc, vec![in alloc; 3u8, 1, 2]?)?;
    /// assert_eq!(set.first(), Some(&1));
    /// ```
    pub fn from_vec(alloc: Global, items: Vec<K>) -> Result<Self, AllocError>
        ensures made { IfOk result
            (λ set. PutsAll K.bytes kept_item [] items.items (elements set)) }
        ensures refused { OnErr result (items.items ≢ []) }
    {
        let pairs = with_units(alloc, items)?;
        let map = TreeMap::from_vec(alloc, pairs)?;
        Ok(TreeSet { map, alloc })
    }
}

impl<K: NoPrefixesBytes + Copy, const PREFIX_LEN: usize> TreeSet<K, PREFIX_LEN> {
    /// Returns a set of the elements, inserted one after another, like [`TreeSet::insert`]. Of
    /// elements with the same bytes the first is stored. Returns an error only if there is an
    /// element. If there are none, it does not allocate.
    ///
    /// Cost: an insertion for each element.
    ///
    /// ```
    /// let set = TreeSet::from_array(alloc, [3u8, 1, 2])?;
    /// assert_eq!(set.len(), 3);
    /// ```
    pub fn from_array<const N: usize>(alloc: Global, items: [K; N]) -> Result<Self, AllocError>
        ensures made { IfOk result (λ set. PutsAll K.bytes kept_item [] items (elements set)) }
        ensures refused { OnErr result (items ≢ []) }
    {
        let mut set = TreeSet::with_prefix_len(alloc);
        match set.put_copies(&items) {
            Ok(()) => Ok(set),
            Err(refused) => {
                drop(set);
                Err(refused)
            }
        }
    }

    /// Inserts copies of the elements, one after another.
    fn put_copies(&mut self, items: &[K]) -> Result<(), AllocError>
        ensures put { OnOk result
            (PutsAll K.bytes kept_item (elements self.old) items.now (elements self.new)) }
        ensures refused { OnErr result (items.now ≢ []) }
    {
        for item in items {
            self.put(*item)?;
        }
        Ok(())
    }
}

/// Returns the elements, each with a unit.
fn with_units<K: Drop>(alloc: Global, items: Vec<K>) -> Result<Vec<(K, ())>, AllocError>
    ensures units { IfOk result (λ pairs. map (λ p. p.0) pairs.items ≡ items.items) }
    ensures refused { OnErr result (items.items ≢ []) }
{
    let mut pairs = Vec::with_capacity(alloc, items.len())?;
    for item in items {
        pairs.push_reserved((item, ()));
    }
    Ok(pairs)
}
