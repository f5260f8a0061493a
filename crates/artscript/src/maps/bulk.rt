//! The calls that insert, move or copy many pairs at once.
ghost use Rattle.std.specs.Prelude.{◌≡◌};

use crate::maps::calls::Maps;
use blart_keys::{AsBytes, NoPrefixesBytes};
use blart_map::TreeMap;
use script_words::{
    Answered, FixedKey, MapName, ScriptKey, Shown, Text, Unanswered, Words, items_of,
};
use std::alloc::AllocError;
use std::iter::{IntoIterator, Iterator};
use std::mem;

impl<K: AsBytes + Drop, V: Drop, const PREFIX_LEN: usize> Maps<K, V, PREFIX_LEN> {
    /// Moves the pairs from the bytes on to the second map, which loses its own.
    pub(crate) fn split_off(&mut self, query: &Vec<u8>, text: &mut Text) {
        let rest = self.first.split_off(query);
        put(&mut self.second, rest, text);
    }
}

impl<K: AsBytes + Drop + Clone, const PREFIX_LEN: usize> Maps<K, u64, PREFIX_LEN> {
    /// Replaces the second map by a clone of the first.
    pub(crate) fn make_clone(&mut self, words: Words<'_>, text: &mut Text) -> Answered
        requires { (k j : K) → K.is_clone k j → K.bytes j ≡ K.bytes k }
    {
        words.end()?;
        let copy = self.first.clone();
        put(&mut self.second, copy, text);
        Ok(())
    }
}

impl<K: ScriptKey + NoPrefixesBytes, const PREFIX_LEN: usize> Maps<K, u64, PREFIX_LEN> {
    /// Moves the pairs of the second map to the first.
    pub(crate) fn append(&mut self, words: Words<'_>, text: &mut Text) -> Answered {
        words.end()?;
        self.first.append(&mut self.second).show(text);
        Ok(())
    }

    /// Makes the named call, which moves the pairs in, and appends its answer.
    pub(crate) fn take_items(
        &mut self,
        name: MapName,
        words: Words<'_>,
        text: &mut Text,
    ) -> Answered {
        let items: Vec<(K, u64)> = items_of(words)?;
        match name {
            MapName::Extend => self.first.extend(items.into_iter()).show(text),
            MapName::FromVec => {
                let made = TreeMap::from_vec(self.alloc, items);
                put(&mut self.first, made, text)
            }
            _ => {
                let made = TreeMap::from_iter(self.alloc, items.into_iter());
                put(&mut self.first, made, text)
            }
        }
        Ok(())
    }
}

impl<K: FixedKey, const PREFIX_LEN: usize> Maps<K, u64, PREFIX_LEN> {
    /// Makes the named call, which copies the pairs, and appends its answer.
    pub(crate) fn copy_items(
        &mut self,
        name: MapName,
        words: Words<'_>,
        text: &mut Text,
    ) -> Answered {
        let items: Vec<(K, u64)> = items_of(words)?;
        match name {
            MapName::ExtendCopied => self.extend_copied(&items, text),
            _ => self.put_two(&items, text),
        }
        drop(items);
        Ok(())
    }

    /// Inserts copies of the pairs in turn.
    fn extend_copied(&mut self, items: &[(K, u64)], text: &mut Text) {
        let lent = items.iter().map(|pair| (&pair.0, &pair.1));
        self.first.extend_copied(lent).show(text);
    }

    /// Replaces the first map by a map of the two pairs.
    fn put_two(&mut self, items: &[(K, u64)], text: &mut Text) {
        match items {
            [one, other] => {
                let made = TreeMap::from_array(self.alloc, [*one, *other]);
                put(&mut self.first, made, text);
            }
            _ => text.stop(Unanswered::NoCall),
        }
    }
}

/// Replaces the place's map by the new one, if that was made. Appends whether it was.
fn put<K: AsBytes + Drop, V: Drop, const P: usize>(
    place: &mut TreeMap<K, V, P>,
    made: Result<TreeMap<K, V, P>, AllocError>,
    text: &mut Text,
) {
    match made {
        Ok(map) => {
            drop(mem::replace(place, map));
            Ok::<(), AllocError>(()).show(text)
        }
        Err(refused) => Err::<(), AllocError>(refused).show(text),
    }
}
