//! Comparisons of the first map with the second, and the first as text.
use crate::maps::calls::Maps;
use blart_keys::OrderedBytes;
use script_words::{Answered, MapName, Shown, Text, Words, have_one_digest, show_debug};
use std::fmt::Debug;
use std::hash::Hash;

impl<K: OrderedBytes + Hash + Debug + Drop, const PREFIX_LEN: usize> Maps<K, u64, PREFIX_LEN> {
    /// Makes the named call, which compares the maps, and appends its answer.
    pub(crate) fn compare(&self, name: MapName, words: Words<'_>, text: &mut Text) -> Answered {
        words.end()?;
        match name {
            MapName::Equal => (self.first == self.second).show(text),
            MapName::PartialCmp => self.first.partial_cmp(&self.second).show(text),
            MapName::Cmp => self.first.cmp(&self.second).show(text),
            MapName::SameHash => have_one_digest(&self.first, &self.second).show(text),
            _ => show_debug(&self.first, text),
        }
        Ok(())
    }
}
