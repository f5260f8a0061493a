//! The calls on the pairs within two bounds, or on those whose bytes start with given ones.
use crate::maps::calls::Maps;
use blart_keys::AsBytes;
use blart_map::bounds_in_order;
use script_words::{Answered, MapName, Shown, Text, Unanswered, Words};
use std::ops::Bound;

impl<K: AsBytes + Shown + Drop, const PREFIX_LEN: usize> Maps<K, u64, PREFIX_LEN> {
    /// Makes the named call on the pairs within two bounds, and appends its answer.
    pub(crate) fn within(
        &mut self,
        name: MapName,
        mut words: Words<'_>,
        text: &mut Text,
    ) -> Answered {
        let (start, end) = words.bounds()?;
        let answered = self.call_within(name, start.as_ref(), end.as_ref(), words, text);
        drop(start);
        drop(end);
        answered
    }

    /// Makes the named call, if the bounds are in order or the map is empty.
    fn call_within(
        &mut self,
        name: MapName,
        start: Bound<&Vec<u8>>,
        end: Bound<&Vec<u8>>,
        words: Words<'_>,
        text: &mut Text,
    ) -> Answered {
        if !self.first.is_empty() && !bounds_in_order(start, end) {
            return Err(Unanswered::NoCall);
        }
        match name {
            MapName::RangeMut => self.range_mut(start, end, words, text),
            MapName::ExtractIf => self.extract_if(start, end, words, text),
            MapName::TakeWalk => self.take_walk(start, end, words, text),
            _ => self.range(name, start, end, words, text),
        }
    }

    /// Makes the named call on the pairs whose bytes start with the given ones, and appends its
    /// answer.
    pub(crate) fn below(
        &mut self,
        name: MapName,
        mut words: Words<'_>,
        text: &mut Text,
    ) -> Answered {
        let front = words.bytes()?;
        let answered = match name {
            MapName::PrefixMut => self.prefix_mut(&front, words, text),
            _ => self.prefix(name, &front, words, text),
        };
        drop(front);
        answered
    }
}

/// Appends whether two bounds are in order.
pub(crate) fn show_order(mut words: Words<'_>, text: &mut Text) -> Answered {
    let (start, end) = words.bounds()?;
    let is_done = words.is_done();
    let in_order = bounds_in_order(start.as_ref(), end.as_ref());
    drop(start);
    drop(end);
    if !is_done {
        return Err(Unanswered::NoCall);
    }
    in_order.show(text);
    Ok(())
}
