//! The calls that do not change the maps.
ghost use Rattle.blart_keys.specs.Bounds.{bound_bytes, CanRange};
ghost use Rattle.blart_keys.specs.KeyBytes.{vec_bytes};
ghost use Rattle.blart_map.specs.Content.{pairs};

use crate::maps::calls::Maps;
use crate::maps::within::show_order;
use blart_keys::AsBytes;
use blart_map::Visits;
use script_words::{Answered, MapName, Shown, Text, Unanswered, Words, show_walk};
use std::ops::Bound;

impl<K: AsBytes + Shown + Drop, V: Shown + Drop, const PREFIX_LEN: usize> Maps<K, V, PREFIX_LEN> {
    /// Makes the named call, which does not change the maps, and appends its answer.
    pub(crate) fn look_up(&self, name: MapName, words: Words<'_>, text: &mut Text) -> Answered {
        match name {
            MapName::BoundsInOrder => show_order(words, text),
            MapName::Iter | MapName::Keys | MapName::Values => self.walk(name, words, text),
            MapName::Len
            | MapName::InnerNodes
            | MapName::IsEmpty
            | MapName::FirstKeyValue
            | MapName::LastKeyValue => self.tell(name, words, text),
            MapName::Get
            | MapName::PrefixGet
            | MapName::Index
            | MapName::ContainsKey
            | MapName::Conflicts
            | MapName::GetKeyValue
            | MapName::PrefixGetKeyValue
            | MapName::GetKeyValueCounted
            | MapName::PrefixGetKeyValueCounted => self.find(name, words, text),
            _ => Err(Unanswered::NoCall),
        }
    }

    /// Makes a call without arguments.
    fn tell(&self, name: MapName, words: Words<'_>, text: &mut Text) -> Answered {
        words.end()?;
        match name {
            MapName::Len => self.first.len().show(text),
            MapName::InnerNodes => self.first.inner_nodes().show(text),
            MapName::IsEmpty => self.first.is_empty().show(text),
            MapName::FirstKeyValue => self.first.first_key_value().show(text),
            _ => self.first.last_key_value().show(text),
        }
        Ok(())
    }

    /// Makes a call that searches for the bytes.
    fn find(&self, name: MapName, mut words: Words<'_>, text: &mut Text) -> Answered {
        let query = words.last_bytes()?;
        match name {
            MapName::Get => self.first.get(&query).show(text),
            MapName::PrefixGet => self.first.prefix_get(&query).show(text),
            MapName::ContainsKey => self.first.contains_key(&query).show(text),
            MapName::Conflicts => self.first.conflicts(&query).show(text),
            MapName::Index => self.index(&query, text),
            _ => self.find_pair(name, &query).show(text),
        }
        drop(query);
        Ok(())
    }

    /// Returns the pair that a look-up finds.
    fn find_pair(&self, name: MapName, query: &Vec<u8>) -> Option<(&K, &V)> {
        match name {
            MapName::GetKeyValue => self.first.get_key_value(query),
            MapName::PrefixGetKeyValue => self.first.prefix_get_key_value(query),
            MapName::GetKeyValueCounted => {
                self.first.get_key_value_counted(query, &mut Visits::new())
            }
            _ => self
                .first
                .prefix_get_key_value_counted(query, &mut Visits::new()),
        }
    }

    /// Appends the value at a key, which must be stored.
    fn index(&self, query: &Vec<u8>, text: &mut Text) {
        if !self.first.contains_key(query) {
            return text.stop(Unanswered::NoCall);
        }
        self.first[query].show(text);
    }

    /// Makes a call that walks over all pairs.
    fn walk(&self, name: MapName, mut words: Words<'_>, text: &mut Text) -> Answered {
        let steps = words.last_steps()?;
        match name {
            MapName::Iter => show_walk(self.first.iter(), steps, text),
            MapName::Keys => show_walk(self.first.keys(), steps, text),
            _ => show_walk(self.first.values(), steps, text),
        }
        Ok(())
    }

    /// Makes a call that walks over the pairs within two bounds.
    pub(crate) fn range(
        &self,
        name: MapName,
        start: Bound<&Vec<u8>>,
        end: Bound<&Vec<u8>>,
        mut words: Words<'_>,
        text: &mut Text,
    ) -> Answered
        requires { CanRange (pairs self.now.first) (bound_bytes vec_bytes start)
            (bound_bytes vec_bytes end) }
    {
        let steps = words.last_moves()?;
        let walk = match name {
            MapName::RangeCounted => self.first.range_counted(start, end, &mut Visits::new()),
            _ => self.first.range(start, end),
        };
        show_walk(walk, steps, text);
        Ok(())
    }

    /// Makes a call that walks over the pairs whose bytes start with the given ones.
    pub(crate) fn prefix(
        &self,
        name: MapName,
        front: &Vec<u8>,
        mut words: Words<'_>,
        text: &mut Text,
    ) -> Answered {
        let steps = words.last_moves()?;
        let walk = match name {
            MapName::PrefixCounted => self.first.prefix_counted(front, &mut Visits::new()),
            _ => self.first.prefix(front),
        };
        show_walk(walk, steps, text);
        Ok(())
    }
}
