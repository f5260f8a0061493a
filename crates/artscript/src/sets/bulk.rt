//! The calls that insert, move or copy many elements at once.
ghost use Rattle.std.specs.Prelude.{◌≡◌};

use crate::sets::calls::Sets;
use blart_keys::{AsBytes, NoPrefixesBytes};
use blart_set::TreeSet;
use script_words::{
    Answered, FixedKey, ScriptKey, SetName, Shown, Text, Unanswered, Words, items_of,
};
use std::alloc::AllocError;
use std::iter::{IntoIterator, Iterator};
use std::mem;

impl<K: AsBytes + Drop, const PREFIX_LEN: usize> Sets<K, PREFIX_LEN> {
    /// Moves the elements from the bytes on to the second set, which loses its own.
    pub(crate) fn split_off(&mut self, query: &Vec<u8>, text: &mut Text) {
        let rest = self.first.split_off(query);
        put(&mut self.second, rest, text);
    }
}

impl<K: AsBytes + Drop + Clone, const PREFIX_LEN: usize> Sets<K, PREFIX_LEN> {
    /// Replaces the second set by a clone of the first.
    pub(crate) fn make_clone(&mut self, words: Words<'_>, text: &mut Text) -> Answered
        requires { (k j : K) → K.is_clone k j → K.bytes j ≡ K.bytes k }
    {
        words.end()?;
        let copy = self.first.clone();
        put(&mut self.second, copy, text);
        Ok(())
    }
}

impl<K: ScriptKey + NoPrefixesBytes, const PREFIX_LEN: usize> Sets<K, PREFIX_LEN> {
    /// Moves the elements of the second set to the first.
    pub(crate) fn append(&mut self, words: Words<'_>, text: &mut Text) -> Answered {
        words.end()?;
        self.first.append(&mut self.second).show(text);
        Ok(())
    }

    /// Makes the named call, which moves the elements in, and appends its answer.
    pub(crate) fn take_items(
        &mut self,
        name: SetName,
        words: Words<'_>,
        text: &mut Text,
    ) -> Answered {
        let items: Vec<K> = items_of(words)?;
        match name {
            SetName::Extend => self.first.extend(items.into_iter()).show(text),
            SetName::FromVec => {
                let made = TreeSet::from_vec(self.alloc, items);
                put(&mut self.first, made, text)
            }
            _ => {
                let made = TreeSet::from_iter(self.alloc, items.into_iter());
                put(&mut self.first, made, text)
            }
        }
        Ok(())
    }
}

impl<K: FixedKey, const PREFIX_LEN: usize> Sets<K, PREFIX_LEN> {
    /// Makes the named call, which copies the elements, and appends its answer.
    pub(crate) fn copy_items(
        &mut self,
        name: SetName,
        words: Words<'_>,
        text: &mut Text,
    ) -> Answered {
        let items: Vec<K> = items_of(words)?;
        match name {
            SetName::ExtendCopied => self.first.extend_copied(items.iter()).show(text),
            _ => self.put_array(&items, text),
        }
        drop(items);
        Ok(())
    }

    /// Replaces the first set by a set of the two or three elements.
    fn put_array(&mut self, items: &[K], text: &mut Text) {
        match items {
            [one, other] => {
                let made = TreeSet::from_array(self.alloc, [*one, *other]);
                put(&mut self.first, made, text);
            }
            [one, other, last] => {
                let made = TreeSet::from_array(self.alloc, [*one, *other, *last]);
                put(&mut self.first, made, text);
            }
            _ => text.stop(Unanswered::NoCall),
        }
    }
}

/// Replaces the place's set by the new one, if that was made. Appends whether it was.
fn put<K: AsBytes + Drop, const P: usize>(
    place: &mut TreeSet<K, P>,
    made: Result<TreeSet<K, P>, AllocError>,
    text: &mut Text,
) {
    match made {
        Ok(set) => {
            drop(mem::replace(place, set));
            Ok::<(), AllocError>(()).show(text)
        }
        Err(refused) => Err::<(), AllocError>(refused).show(text),
    }
}
