//! Walks over one set, and walks that merge two.
ghost use Rattle.blart_keys.specs.Bounds.{bound_bytes, CanRange};
ghost use Rattle.blart_keys.specs.KeyBytes.{vec_bytes};
ghost use Rattle.blart_set.specs.Elements.{elements};

use crate::sets::calls::Sets;
use blart_keys::{AsBytes, OrderedBytes};
use blart_set::{TreeSet, bounds_in_order};
use script_words::{Answered, SetName, Shown, Text, Unanswered, Words, show_items, show_walk};
use std::iter::IntoIterator;
use std::mem;
use std::ops::Bound;

impl<K: AsBytes + Shown + Drop, const PREFIX_LEN: usize> Sets<K, PREFIX_LEN> {
    /// Walks over all elements.
    pub(crate) fn iter(&self, mut words: Words<'_>, text: &mut Text) -> Answered {
        let letters = words.last_steps()?;
        show_walk(self.first.iter(), letters, text);
        Ok(())
    }

    /// Walks over all elements and consumes the set.
    pub(crate) fn into_elements(&mut self, mut words: Words<'_>, text: &mut Text) -> Answered {
        let letters = words.last_steps()?;
        let set = mem::replace(&mut self.first, TreeSet::with_prefix_len(self.alloc));
        show_walk(set.into_iter(), letters, text);
        Ok(())
    }

    /// Makes the named call on the elements within two bounds, and appends its answer.
    pub(crate) fn within(
        &mut self,
        name: SetName,
        mut words: Words<'_>,
        text: &mut Text,
    ) -> Answered {
        let (start, end) = words.bounds()?;
        let answered = self.call_within(name, start.as_ref(), end.as_ref(), words, text);
        drop(start);
        drop(end);
        answered
    }

    /// Makes the named call, if the bounds are in order or the set is empty.
    fn call_within(
        &mut self,
        name: SetName,
        start: Bound<&Vec<u8>>,
        end: Bound<&Vec<u8>>,
        words: Words<'_>,
        text: &mut Text,
    ) -> Answered {
        if !self.first.is_empty() && !bounds_in_order(start, end) {
            return Err(Unanswered::NoCall);
        }
        match name {
            SetName::ExtractIf => self.extract_if(start, end, words, text),
            _ => self.range(start, end, words, text),
        }
    }

    /// Makes a call that walks over the elements within two bounds.
    fn range(
        &self,
        start: Bound<&Vec<u8>>,
        end: Bound<&Vec<u8>>,
        mut words: Words<'_>,
        text: &mut Text,
    ) -> Answered
        requires { CanRange (elements self.now.first) (bound_bytes vec_bytes start)
            (bound_bytes vec_bytes end) }
    {
        let letters = words.last_moves()?;
        show_walk(self.first.range(start, end), letters, text);
        Ok(())
    }

    /// Walks over the elements whose bytes start with the given ones.
    pub(crate) fn prefix(&self, mut words: Words<'_>, text: &mut Text) -> Answered {
        let front = words.bytes()?;
        let letters = words.last_moves()?;
        show_walk(self.first.prefix(&front), letters, text);
        drop(front);
        Ok(())
    }
}

impl<K: OrderedBytes + Shown + Drop, const PREFIX_LEN: usize> Sets<K, PREFIX_LEN> {
    /// Makes the named call, which merges both sets, and appends its answer.
    pub(crate) fn merge(&self, name: SetName, words: Words<'_>, text: &mut Text) -> Answered {
        words.end()?;
        match name {
            SetName::Union | SetName::UnionCounted => {
                show_items(self.first.union(&self.second), text)
            }
            SetName::Intersection | SetName::IntersectionCounted => {
                show_items(self.first.intersection(&self.second), text)
            }
            SetName::Difference | SetName::DifferenceCounted => {
                show_items(self.first.difference(&self.second), text)
            }
            _ => show_items(self.first.symmetric_difference(&self.second), text),
        }
        Ok(())
    }
}
