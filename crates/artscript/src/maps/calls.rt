//! The two maps of a script, and the calls that change them.
ghost use Rattle.std.specs.Prelude.{◌≡◌, []};
ghost use denote.Builtin.{u64};
ghost use Rattle.blart_map.specs.Content.{pairs};
ghost use Rattle.blart_map.specs.EntryFits.{EntryFits, PrefixEntryFits};

use crate::entries::{enter_end, enter_related, try_enter};
use blart_keys::AsBytes;
use blart_map::TreeMap;
use script_words::{Answered, MapName, ScriptKey, Shown, Text, Words, written};
use std::alloc::Global;
use std::mem;

/// The two maps. Each call is a call of the first.
#[derive(Drop)]
pub struct Maps<K: AsBytes + Drop, V, const PREFIX_LEN: usize> {
    /// The map that is called.
    pub first: TreeMap<K, V, PREFIX_LEN>,
    pub(crate) second: TreeMap<K, V, PREFIX_LEN>,
    pub(crate) alloc: Global,
}

impl<K: AsBytes + Drop, V, const PREFIX_LEN: usize> Maps<K, V, PREFIX_LEN> {
    /// Returns two maps with no pairs.
    pub fn new(alloc: Global) -> Self
        ensures first { pairs result.first ≡ [] }
        ensures second { pairs result.second ≡ [] }
    {
        Maps {
            first: TreeMap::with_prefix_len(alloc),
            second: TreeMap::with_prefix_len(alloc),
            alloc,
        }
    }
}

impl<K: AsBytes + Shown + Drop, V: Shown + Drop, const PREFIX_LEN: usize> Maps<K, V, PREFIX_LEN> {
    /// Makes the named call, which maps with values of any type have, and appends its answer.
    pub(crate) fn call_of_any(
        &mut self,
        name: MapName,
        words: Words<'_>,
        text: &mut Text,
    ) -> Answered {
        match name {
            MapName::New | MapName::Clear | MapName::Swap => self.renew(name, words, text),
            MapName::PopFirst | MapName::PopLast => self.pop(name, words, text),
            MapName::Remove | MapName::RemoveEntry | MapName::RemovePrefix | MapName::SplitOff => {
                self.remove(name, words, text)
            }
            MapName::IntoIter | MapName::IntoKeys | MapName::IntoValues => self.own(
                name, words, text,
            ),
            _ => self.look_up(name, words, text),
        }
    }

    /// Makes a call that empties the first map, or swaps it with the second.
    fn renew(&mut self, name: MapName, words: Words<'_>, text: &mut Text) -> Answered {
        words.end()?;
        match name {
            MapName::New => drop(mem::replace(
                &mut self.first,
                TreeMap::with_prefix_len(self.alloc),
            )),
            MapName::Clear => self.first.clear(),
            _ => mem::swap(&mut self.first, &mut self.second),
        }
        ().show(text);
        Ok(())
    }

    /// Makes a call that removes the pair at one end.
    fn pop(&mut self, name: MapName, words: Words<'_>, text: &mut Text) -> Answered {
        words.end()?;
        let popped = match name {
            MapName::PopFirst => self.first.pop_first(),
            _ => self.first.pop_last(),
        };
        popped.show(text);
        Ok(())
    }

    /// Makes a call that removes the pair with the bytes, the pairs whose bytes start with them, or
    /// the pairs from them on.
    fn remove(&mut self, name: MapName, mut words: Words<'_>, text: &mut Text) -> Answered {
        let query = words.last_bytes()?;
        match name {
            MapName::Remove => self.first.remove(&query).show(text),
            MapName::RemovePrefix => self.first.remove_prefix(&query).show(text),
            MapName::RemoveEntry => self.first.remove_entry(&query).show(text),
            _ => self.split_off(&query, text),
        }
        drop(query);
        Ok(())
    }
}

impl<K: ScriptKey, const PREFIX_LEN: usize> Maps<K, u64, PREFIX_LEN> {
    /// Makes the named call with the words after it, and appends its answer.
    pub(crate) fn call(&mut self, name: MapName, words: Words<'_>, text: &mut Text) -> Answered
        requires entries { EntryFits K.row u64 PREFIX_LEN.row K.AsBytes }
        requires prefix_entries { PrefixEntryFits K.row u64 PREFIX_LEN.row K.AsBytes }
    {
        match name {
            MapName::TryEntry | MapName::PrefixEntry | MapName::FirstEntry | MapName::LastEntry =>
                self.enter(name, words, text),
            MapName::TryInsert | MapName::ReplaceEntry | MapName::PrefixInsert => {
                self.place(name, words, text)
            }
            MapName::GetMut | MapName::PrefixGetMut | MapName::PrefixGetKeyValueMut => {
                self.write(name, words, text)
            }
            MapName::Drive => self.drive(words, text),
            MapName::Retain => self.retain(words, text),
            MapName::ExtractIf
            | MapName::TakeWalk
            | MapName::Range
            | MapName::RangeCounted
            | MapName::RangeMut => self.within(name, words, text),
            MapName::Prefix | MapName::PrefixCounted | MapName::PrefixMut => {
                self.below(name, words, text)
            }
            MapName::IterMut | MapName::ValuesMut => self.lend_all(name, words, text),
            MapName::Equal
            | MapName::PartialCmp
            | MapName::Cmp
            | MapName::SameHash
            | MapName::DebugText => self.compare(name, words, text),
            _ => self.call_of_any(name, words, text),
        }
    }

    /// Makes a call of an entry that keys of every type have.
    fn enter(&mut self, name: MapName, words: Words<'_>, text: &mut Text) -> Answered
        requires entries { EntryFits K.row u64 PREFIX_LEN.row K.AsBytes }
        requires prefix_entries { PrefixEntryFits K.row u64 PREFIX_LEN.row K.AsBytes }
    {
        match name {
            MapName::TryEntry => try_enter(&mut self.first, words, text),
            MapName::PrefixEntry => enter_related(&mut self.first, words, text),
            MapName::FirstEntry => enter_end(&mut self.first, true, words, text),
            _ => enter_end(&mut self.first, false, words, text),
        }
    }

    /// Makes a call that places a pair.
    fn place(&mut self, name: MapName, mut words: Words<'_>, text: &mut Text) -> Answered {
        let (key, value) = words.last_pair()?;
        match name {
            MapName::TryInsert => self.first.try_insert(key, value).show(text),
            MapName::ReplaceEntry => self.first.replace_entry(key, value).show(text),
            _ => self.first.prefix_insert(key, value).show(text),
        }
        Ok(())
    }
}

impl<K: AsBytes + Shown + Drop, const PREFIX_LEN: usize> Maps<K, u64, PREFIX_LEN> {
    /// Makes a call that returns a mutable reference to a value.
    fn write(&mut self, name: MapName, mut words: Words<'_>, text: &mut Text) -> Answered {
        let (query, value): (Vec<u8>, u64) = words.last_pair()?;
        match name {
            MapName::GetMut => written(self.first.get_mut(&query), value).show(text),
            MapName::PrefixGetMut => written(self.first.prefix_get_mut(&query), value).show(text),
            _ => self.write_pair(&query, value, text),
        }
        drop(query);
        Ok(())
    }

    /// Makes the call that returns a mutable reference to the value of a pair.
    fn write_pair(&mut self, query: &Vec<u8>, value: u64, text: &mut Text) {
        match self.first.prefix_get_key_value_mut(query) {
            Some(mut entry) => {
                let old = entry.insert(value);
                Some((entry.key(), old)).show(text)
            }
            None => text.push(b"None"),
        }
    }
}
