//! The calls that only some key types have.
ghost use Rattle.std.specs.Prelude.{◌≡◌};
ghost use denote.Builtin.{u64};
ghost use Rattle.blart_map.specs.EntryFits.{EntryFits, PrefixEntryFits};

use crate::entries::enter;
use crate::maps::calls::Maps;
use blart_keys::NoPrefixesBytes;
use script_words::{Answered, FixedKey, MapName, ScriptKey, Shown, Text, Words, value_of};

impl<K: FixedKey, const PREFIX_LEN: usize> Maps<K, u64, PREFIX_LEN> {
    /// Makes the named call with the words after it, and appends its answer.
    pub fn call_of_fixed(&mut self, name: MapName, words: Words<'_>, text: &mut Text) -> Answered
        requires clones { (k j : K) → K.is_clone k j → K.bytes j ≡ K.bytes k }
        requires entries { EntryFits K.row u64 PREFIX_LEN.row K.AsBytes }
        requires prefix_entries { PrefixEntryFits K.row u64 PREFIX_LEN.row K.AsBytes }
    {
        match name {
            MapName::MakeClone => self.make_clone(words, text),
            MapName::ExtendCopied | MapName::FromArray => self.copy_items(name, words, text),
            _ => self.call_of_apart(name, words, text),
        }
    }
}

impl<K: ScriptKey + NoPrefixesBytes, const PREFIX_LEN: usize> Maps<K, u64, PREFIX_LEN> {
    /// Makes the named call with the words after it, and appends its answer.
    pub fn call_of_apart(&mut self, name: MapName, words: Words<'_>, text: &mut Text) -> Answered
        requires entries { EntryFits K.row u64 PREFIX_LEN.row K.AsBytes }
        requires prefix_entries { PrefixEntryFits K.row u64 PREFIX_LEN.row K.AsBytes }
    {
        match name {
            MapName::Entry => enter(&mut self.first, words, text),
            MapName::Insert | MapName::GetOrInsert => self.insert(name, words, text),
            MapName::Append => self.append(words, text),
            MapName::Extend | MapName::FromVec | MapName::FromIter => self.take_items(
                name, words, text,
            ),
            _ => self.call(name, words, text),
        }
    }

    /// Makes a call that places a pair whose key conflicts with no other.
    fn insert(&mut self, name: MapName, mut words: Words<'_>, text: &mut Text) -> Answered {
        let (key, value) = words.last_pair()?;
        match name {
            MapName::Insert => self.first.insert(key, value).show(text),
            _ => value_of(self.first.get_or_insert(key, value)).show(text),
        }
        Ok(())
    }
}
