//! Walks that consume the map.
use crate::maps::calls::Maps;
use blart_keys::AsBytes;
use blart_map::TreeMap;
use script_words::{Answered, MapName, Shown, Text, Words, show_walk};
use std::iter::IntoIterator;
use std::mem;

impl<K: AsBytes + Shown + Drop, V: Shown + Drop, const PREFIX_LEN: usize> Maps<K, V, PREFIX_LEN> {
    /// Makes the named call, which consumes the map, and appends its answer.
    pub(crate) fn own(&mut self, name: MapName, mut words: Words<'_>, text: &mut Text) -> Answered {
        let letters = words.last_steps()?;
        let map = mem::replace(&mut self.first, TreeMap::with_prefix_len(self.alloc));
        match name {
            MapName::IntoIter => show_walk(map.into_iter(), letters, text),
            MapName::IntoKeys => show_walk(map.into_keys(), letters, text),
            _ => show_walk(map.into_values(), letters, text),
        }
        Ok(())
    }
}
