//! Comparisons of the first set with the second, and the first as text.
use crate::sets::calls::Sets;
use blart_keys::OrderedBytes;
use script_words::{Answered, SetName, Shown, Text, Words, have_one_digest, show_debug};
use std::fmt::Debug;
use std::hash::Hash;

impl<K: OrderedBytes + Hash + Debug + Drop, const PREFIX_LEN: usize> Sets<K, PREFIX_LEN> {
    /// Makes the named call, which compares the sets, and appends its answer.
    pub(crate) fn compare(&self, name: SetName, words: Words<'_>, text: &mut Text) -> Answered {
        words.end()?;
        match name {
            SetName::Equal => (self.first == self.second).show(text),
            SetName::PartialCmp => self.first.partial_cmp(&self.second).show(text),
            SetName::Cmp => self.first.cmp(&self.second).show(text),
            SetName::SameHash => have_one_digest(&self.first, &self.second).show(text),
            _ => show_debug(&self.first, text),
        }
        Ok(())
    }
}
