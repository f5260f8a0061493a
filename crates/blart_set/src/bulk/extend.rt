//! Insertions of the elements of an iterator, one after another.
ghost use Rattle.std.specs.Prelude.{◌≡◌, false, map, OnOk, OnErr};
ghost use Rattle.std.specs.Iterator.{IsFinite};
ghost use Rattle.blart_keys.specs.Bulk.{PutsAll};
ghost use Rattle.blart_keys.specs.Content.{at, stores, IsPut};
ghost use Rattle.blart_keys.specs.Stored.{kept_item};
ghost use Rattle.blart_map.specs.Bulk.{TakesItems};
ghost use Rattle.blart_set.specs.Elements.{elements};

use crate::set::TreeSet;
use blart_keys::NoPrefixesBytes;
use std::alloc::AllocError;
use std::iter::{Extend, IntoIterator, Iterator};

impl<K: NoPrefixesBytes + Drop, const PREFIX_LEN: usize> TreeSet<K, PREFIX_LEN> {
    /// Inserts the elements that the iterator yields, one after another, like [`TreeSet::insert`].
    /// Of elements with the same bytes the first is stored.
    ///
    /// Returns an error only at an element whose bytes are new. That element is dropped, and those
    /// before it are stored.
    ///
    /// Cost: an insertion for each element.
    ///
    /// ```
    /// set.extend(vec![in alloc; 3u8, 1, 2]?.into_iter())?;
    /// assert_eq!(set.len(), 3);
    /// ```
    pub fn extend<I: Iterator<Item = K>>(&mut self, items: I) -> Result<(), AllocError>
        requires can { I.can_next items }
        requires ends { IsFinite (I.remaining items) }
        ensures { TakesItems I.next_gives items result
            (λ xs. PutsAll K.bytes kept_item (elements self.old) xs (elements self.new))
            (λ x. stores K.bytes (elements self.new) (K.bytes x) ≡ false) }
    {
        for item in items {
            if let Err(refused) = self.put(item) {
                return Err(refused);
            }
        }
        Ok(())
    }

    /// Inserts one element.
    pub(crate) fn put(&mut self, element: K) -> Result<(), AllocError>
        ensures put { OnOk result
            (IsPut K.bytes (elements self.old)
            (kept_item (at K.bytes (elements self.old) (K.bytes element)) element)
            (elements self.new)) }
        ensures err { OnErr result (elements self.new ≡ elements self.old) }
        ensures new { OnErr result (stores K.bytes (elements self.new) (K.bytes element) ≡ false) }
    {
        self.insert(element)?;
        Ok(())
    }
}

impl<K: NoPrefixesBytes + Copy, const PREFIX_LEN: usize> TreeSet<K, PREFIX_LEN> {
    /// Inserts copies of the elements that the iterator yields, one after another, like
    /// [`TreeSet::extend`].
    ///
    /// Cost: an insertion for each element.
    ///
    /// ```
    /// set.extend_copied(other.iter())?;
    /// ```
    pub fn extend_copied<'x, I: Iterator<Item = &'x K>>(
        &mut self,
        items: I,
    ) -> Result<(), AllocError>
    where
        K: 'x,
        requires can { I.can_next items }
        requires ends { IsFinite (I.remaining items) }
        ensures { TakesItems I.next_gives items result
            (λ xs. PutsAll K.bytes kept_item (elements self.old)
            (map (λ x. x.now) xs) (elements self.new))
            (λ x. stores K.bytes (elements self.new) (K.bytes x.now) ≡ false) }
    {
        for item in items {
            if let Err(refused) = self.put(*item) {
                return Err(refused);
            }
        }
        Ok(())
    }
}

impl<K: NoPrefixesBytes + Drop, const PREFIX_LEN: usize> Extend<K> for TreeSet<K, PREFIX_LEN> {
    ghost extend_gives = { λ old xs new. PutsAll K.bytes kept_item (elements old) xs
        (elements new) };

    /// Inserts the elements that the iterator yields, like the call of the same name of
    /// [`TreeSet`]. So a function that takes any collection extends a set.
    ///
    /// Cost: as for [`TreeSet::extend`].
    fn extend<U: IntoIterator<Item = K>>(&mut self, items: U) -> Result<(), AllocError> {
        let items = items.into_iter();
        TreeSet::extend(self, items)
    }
}

impl<'x, K: NoPrefixesBytes + Copy + 'x, const PREFIX_LEN: usize> Extend<&'x K>
    for TreeSet<K, PREFIX_LEN> {
    ghost extend_gives = { λ old xs new. PutsAll K.bytes kept_item (elements old)
        (map (λ x. x.now) xs) (elements new) };

    /// Inserts copies of the elements that the iterator yields, like [`TreeSet::extend_copied`].
    ///
    /// Cost: as for [`TreeSet::extend_copied`].
    fn extend<U: IntoIterator<Item = &'x K>>(&mut self, items: U) -> Result<(), AllocError> {
        let items = items.into_iter();
        self.extend_copied(items)
    }
}
