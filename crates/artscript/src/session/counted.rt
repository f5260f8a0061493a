//! Maps whose values count the drops, and the calls of these maps.
use crate::maps::Maps;
use script_words::{Answered, MapName, Shown, Text, Words};
use std::alloc::{AllocError, Global};
use std::cell::Cell;

/// A number that counts each drop.
struct Counted<'a> {
    number: u64,
    drops: &'a Cell<u64>,
}

impl Drop for Counted<'_> {
    fn drop(self) {
        let Counted { number: _, drops } = self;
        drops.set(drops.get().wrapping_add(1));
    }
}

impl Shown for Counted<'_> {
    fn show(&self, text: &mut Text) {
        self.number.show(text);
    }
}

/// Maps from lists of bytes to such values.
#[derive(Drop)]
pub(crate) struct CountedMaps<'a, const PREFIX_LEN: usize> {
    maps: Maps<Vec<u8>, Counted<'a>, PREFIX_LEN>,
    drops: &'a Cell<u64>,
}

impl<'a, const PREFIX_LEN: usize> CountedMaps<'a, PREFIX_LEN> {
    /// Returns maps with no pairs. The cell counts the drops of their values.
    pub(crate) fn new(alloc: Global, drops: &'a Cell<u64>) -> Self {
        CountedMaps {
            maps: Maps::new(alloc),
            drops,
        }
    }

    /// Makes the named call with the words after it, and appends its answer.
    pub(crate) fn call(&mut self, name: MapName, words: Words<'_>, text: &mut Text) -> Answered {
        match name {
            MapName::TryInsert | MapName::ReplaceEntry | MapName::PrefixInsert => {
                self.place(name, words, text)
            }
            MapName::Drops => {
                words.end()?;
                self.drops.get().show(text);
                Ok(())
            }
            _ => self.maps.call_of_any(name, words, text),
        }
    }

    /// Makes a call that places a pair.
    fn place(&mut self, name: MapName, mut words: Words<'_>, text: &mut Text) -> Answered {
        let (key, number) = words.last_pair()?;
        let drops = self.drops;
        let value = Counted { number, drops };
        let map = &mut self.maps.first;
        match name {
            MapName::TryInsert => map.try_insert(key, value).show(text),
            MapName::ReplaceEntry => map.replace_entry(key, value).show(text),
            _ => map.prefix_insert(key, value).show(text),
        }
        Ok(())
    }
}
