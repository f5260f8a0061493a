//! Insertions of the pairs of an iterator.
ghost use Rattle.std.specs.Prelude.{◌≡◌, false, map, OnOk, OnErr};
ghost use Rattle.std.specs.Iterator.{IsFinite};
ghost use Rattle.std.specs.Map.Iter.{deref_pair};
ghost use Rattle.blart_keys.specs.Bulk.{PutsAll};
ghost use Rattle.blart_keys.specs.Content.{at, stores, IsPut};
ghost use Rattle.blart_keys.specs.Steps.{bytes};
ghost use Rattle.blart_keys.specs.Stored.{kept_pair};
ghost use Rattle.blart_map.specs.Bulk.{TakesItems};
ghost use Rattle.blart_map.specs.Content.{pairs};

use crate::map::TreeMap;
use blart_keys::NoPrefixesBytes;
use std::alloc::AllocError;
use std::iter::{Extend, IntoIterator, Iterator};

impl<K: NoPrefixesBytes + Drop, V: Drop, const PREFIX_LEN: usize> TreeMap<K, V, PREFIX_LEN> {
    /// Inserts the pairs that the iterator yields, one after another, like [`TreeMap::insert`]. If
    /// pairs have the same bytes, the first key is kept, with the last value.
    ///
    /// Returns an error only at a pair whose bytes are new. That pair is dropped, and the pairs
    /// before it are kept.
    ///
    /// Cost: an insertion for each pair.
    ///
    /// ```
    /// map.extend(vec![in alloc; (U32Key::new(2), 'b'), (U32Key::new(1), 'a')]?.into_iter())?;
    /// assert_eq!(map.len(), 2);
    /// ```
    pub fn extend<I: Iterator<Item = (K, V)>>(&mut self, items: I) -> Result<(), AllocError>
        requires can { I.can_next items }
        requires ends { IsFinite (I.remaining items) }
        ensures { TakesItems I.next_gives items result
            (λ xs. PutsAll (bytes K.bytes) kept_pair (pairs self.old) xs (pairs self.new))
            (λ x. stores (bytes K.bytes) (pairs self.new) (K.bytes x.0) ≡ false) }
    {
        for item in items {
            if let Err(refused) = self.put(item.0, item.1) {
                return Err(refused);
            }
        }
        Ok(())
    }

    /// Inserts one pair, like [`TreeMap::insert`], and drops the old value.
    pub(crate) fn put(&mut self, key: K, value: V) -> Result<(), AllocError>
        ensures put { OnOk result
            (IsPut (bytes K.bytes) (pairs self.old)
            (kept_pair (at (bytes K.bytes) (pairs self.old) (K.bytes key)) (key, value))
            (pairs self.new)) }
        ensures err { OnErr result (pairs self.new ≡ pairs self.old) }
        ensures new { OnErr result
            (stores (bytes K.bytes) (pairs self.new) (K.bytes key) ≡ false) }
    {
        self.insert(key, value)?;
        Ok(())
    }
}

impl<K: NoPrefixesBytes + Copy, V: Copy, const PREFIX_LEN: usize> TreeMap<K, V, PREFIX_LEN> {
    /// Inserts copies of the pairs that the iterator yields, one after another, like
    /// [`TreeMap::extend`].
    ///
    /// Cost: an insertion for each pair.
    ///
    /// ```
    /// map.extend_copied(other.iter())?;
    /// ```
    pub fn extend_copied<'x, I: Iterator<Item = (&'x K, &'x V)>>(
        &mut self,
        items: I,
    ) -> Result<(), AllocError>
    where
        K: 'x,
        V: 'x,
        requires can { I.can_next items }
        requires ends { IsFinite (I.remaining items) }
        ensures { TakesItems I.next_gives items result
            (λ xs. PutsAll (bytes K.bytes) kept_pair (pairs self.old) (map deref_pair xs)
            (pairs self.new))
            (λ x. stores (bytes K.bytes) (pairs self.new) (K.bytes x.0.now) ≡ false) }
    {
        for item in items {
            if let Err(refused) = self.put(*item.0, *item.1) {
                return Err(refused);
            }
        }
        Ok(())
    }
}

impl<K: NoPrefixesBytes + Drop, V: Drop, const PREFIX_LEN: usize> Extend<(K, V)>
    for TreeMap<K, V, PREFIX_LEN> {
    ghost extend_gives = { λ old xs new. PutsAll (bytes K.bytes) kept_pair (pairs old) xs
        (pairs new) };

    /// Inserts the pairs that the iterator yields, like the call of the same name of [`TreeMap`].
    /// So a function that takes any collection extends a map.
    ///
    /// Cost: as for [`TreeMap::extend`].
    fn extend<U: IntoIterator<Item = (K, V)>>(&mut self, items: U) -> Result<(), AllocError> {
        let items = items.into_iter();
        TreeMap::extend(self, items)
    }
}

impl<'x, K: NoPrefixesBytes + Copy + 'x, V: Copy + 'x, const PREFIX_LEN: usize> Extend<
    (&'x K, &'x V),
> for TreeMap<K, V, PREFIX_LEN> {
    ghost extend_gives = { λ old xs new. PutsAll (bytes K.bytes) kept_pair (pairs old)
        (map deref_pair xs) (pairs new) };

    /// Inserts copies of the pairs that the iterator yields, like [`TreeMap::extend_copied`].
    ///
    /// Cost: as for [`TreeMap::extend_copied`].
    fn extend<U: IntoIterator<Item = (&'x K, &'x V)>>(
        &mut self,
        items: U,
    ) -> Result<(), AllocError> {
        let items = items.into_iter();
        self.extend_copied(items)
    }
}
