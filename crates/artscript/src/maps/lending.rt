//! Walks that yield mutable references. Each value is written as the walk passes it.
ghost use Rattle.blart_keys.specs.Bounds.{bound_bytes, CanRange};
ghost use Rattle.blart_keys.specs.KeyBytes.{vec_bytes};
ghost use Rattle.blart_map.specs.Content.{pairs};

use crate::maps::calls::Maps;
use crate::maps::lent::{Lending, show_item, show_lending};
use blart_keys::AsBytes;
use blart_map::{IterMut, LendingWalk, ValuesMut};
use script_words::{Answered, MapName, Shown, Text, Words, raise, raised};
use std::ops::Bound;

impl<K: AsBytes + Shown + Drop, const PREFIX_LEN: usize> Maps<K, u64, PREFIX_LEN> {
    /// Adds to each value, and appends the pairs or the values.
    pub(crate) fn lend_all(
        &mut self,
        name: MapName,
        mut words: Words<'_>,
        text: &mut Text,
    ) -> Answered {
        let add = words.number()?;
        let letters = words.last_steps()?;
        match name {
            MapName::IterMut => show_lending(self.first.iter_mut(), add, letters, text),
            _ => show_lending(self.first.values_mut(), add, letters, text),
        }
        Ok(())
    }

    /// Adds to the values of the pairs within two bounds, and appends the pairs.
    pub(crate) fn range_mut(
        &mut self,
        start: Bound<&Vec<u8>>,
        end: Bound<&Vec<u8>>,
        mut words: Words<'_>,
        text: &mut Text,
    ) -> Answered
        requires { CanRange (pairs self.old.first) (bound_bytes vec_bytes start)
            (bound_bytes vec_bytes end) }
    {
        let add = words.number()?;
        let letters = words.last_moves()?;
        show_lending(self.first.range_mut(start, end), add, letters, text);
        Ok(())
    }

    /// Adds to the values of the pairs whose bytes start with the given ones, and appends the
    /// pairs.
    pub(crate) fn prefix_mut(
        &mut self,
        front: &Vec<u8>,
        mut words: Words<'_>,
        text: &mut Text,
    ) -> Answered {
        let add = words.number()?;
        let letters = words.last_moves()?;
        show_lending(self.first.prefix_mut(front), add, letters, text);
        Ok(())
    }
}

impl<K: AsBytes + Shown + Drop, const PREFIX_LEN: usize> Lending
    for ValuesMut<'_, K, u64, PREFIX_LEN> {
    fn front(&mut self, add: u64, part: &[u8], text: &mut Text) -> bool {
        show_item(raised(self.next(), add), part, text)
    }

    fn back(&mut self, add: u64, part: &[u8], text: &mut Text) -> bool {
        show_item(raised(self.next_back(), add), part, text)
    }

    fn left(&self) -> usize {
        self.len()
    }
}

// Adds to the value that a step yields, and appends its key and the value before. It is the same
// for each walk that tells the key.
macro_rules! show_raised {
    ($walk:expr, $step:ident, $add:expr, $part:expr, $text:expr) => {{
        if let Some(value) = $walk.$step() {
            let was = raise(value, $add);
            return show_item(Some(($walk.key(), was)), $part, $text);
        }
        false
    }};
}

impl<K: AsBytes + Shown + Drop, const PREFIX_LEN: usize> Lending
    for IterMut<'_, K, u64, PREFIX_LEN> {
    fn front(&mut self, add: u64, part: &[u8], text: &mut Text) -> bool {
        show_raised!(self, next, add, part, text)
    }

    fn back(&mut self, add: u64, part: &[u8], text: &mut Text) -> bool {
        show_raised!(self, next_back, add, part, text)
    }

    fn left(&self) -> usize {
        self.len()
    }
}

impl<K: AsBytes + Shown + Drop, M, const PREFIX_LEN: usize> Lending
    for LendingWalk<'_, K, u64, M, PREFIX_LEN> {
    fn front(&mut self, add: u64, part: &[u8], text: &mut Text) -> bool {
        show_raised!(self, next, add, part, text)
    }

    fn back(&mut self, add: u64, part: &[u8], text: &mut Text) -> bool {
        show_raised!(self, next_back, add, part, text)
    }
}
