//! The maps and the sets of one key type, and their calls.
ghost use Rattle.std.specs.Prelude.{◌≡◌};
ghost use denote.Builtin.{u64};
ghost use Rattle.blart_map.specs.EntryFits.{EntryFits, PrefixEntryFits};

use crate::maps::Maps;
use crate::session::counted::CountedMaps;
use crate::session::mounts::Table;
use crate::sets::Sets;
use blart_keys::{I32Key, U64Key, ZKey};
use script_words::{
    Answered, FixedKey, LineCall, MapName, ScriptKey, SetName, Tagged, Text, Unanswered, Words,
    named,
};
use std::alloc::{AllocError, Global};
use std::cell::Cell;
use std::mem;

/// Two maps and two sets.
#[derive(Drop)]
pub(crate) struct Part<K: ScriptKey, const PREFIX_LEN: usize> {
    pub(crate) maps: Maps<K, u64, PREFIX_LEN>,
    pub(crate) sets: Sets<K, PREFIX_LEN>,
}

impl<K: ScriptKey, const PREFIX_LEN: usize> Part<K, PREFIX_LEN> {
    /// Returns two maps and two sets, all empty.
    pub(crate) fn new(alloc: Global) -> Self {
        Part {
            maps: Maps::new(alloc),
            sets: Sets::new(alloc),
        }
    }
}

impl<const PREFIX_LEN: usize> Part<Vec<u8>, PREFIX_LEN> {
    /// Makes a call of the part whose keys are byte strings.
    fn call_of_bytes(&mut self, call: LineCall, words: Words<'_>, text: &mut Text) -> Answered {
        match call {
            LineCall::Map(MapName::MakeClone) => self.maps.make_clone(words, text),
            LineCall::Map(name) => self.maps.call(name, words, text),
            LineCall::Set(SetName::MakeClone) => self.sets.make_clone(words, text),
            LineCall::Set(name) => self.sets.call(name, words, text),
        }
    }
}

impl<K: FixedKey, const PREFIX_LEN: usize> Part<K, PREFIX_LEN> {
    /// Makes a call of a part whose keys have a fixed length.
    fn call_of_fixed(&mut self, call: LineCall, words: Words<'_>, text: &mut Text) -> Answered
        requires clones { (k j : K) → K.is_clone k j → K.bytes j ≡ K.bytes k }
        requires entries { EntryFits K.row u64 PREFIX_LEN.row K.AsBytes }
        requires prefix_entries { PrefixEntryFits K.row u64 PREFIX_LEN.row K.AsBytes }
    {
        match call {
            LineCall::Map(name) => self.maps.call_of_fixed(name, words, text),
            LineCall::Set(name) => self.sets.call_of_fixed(name, words, text),
        }
    }
}

impl<const PREFIX_LEN: usize> Part<ZKey, PREFIX_LEN> {
    /// Makes a call of the part whose keys are text.
    fn call_of_zkeys(&mut self, call: LineCall, words: Words<'_>, text: &mut Text) -> Answered {
        match call {
            LineCall::Map(name) => self.maps.call_of_apart(name, words, text),
            LineCall::Set(name) => self.sets.call_of_apart(name, words, text),
        }
    }
}

/// The name of a part.
#[derive(Clone, Copy)]
enum PartName {
    Bytes,
    Byte,
    Three,
    I32,
    U64,
    Zero,
    Tagged,
    Counted,
    Mounts,
}

/// The line that starts each part.
const NAMES: [(&str, PartName); 9] = [
    ("keys bytes", PartName::Bytes),
    ("keys u8", PartName::Byte),
    ("keys three", PartName::Three),
    ("keys i32", PartName::I32),
    ("keys u64", PartName::U64),
    ("keys zkey", PartName::Zero),
    ("keys tagged", PartName::Tagged),
    ("keys counted", PartName::Counted),
    ("mounts", PartName::Mounts),
];

/// The part of a script that the lines call, by its key type.
#[derive(Drop)]
pub(crate) enum Session<'a, const PREFIX_LEN: usize> {
    Bytes(Part<Vec<u8>, PREFIX_LEN>),
    Byte(Part<u8, PREFIX_LEN>),
    Three(Part<[u8; 3], PREFIX_LEN>),
    I32(Part<I32Key, PREFIX_LEN>),
    U64(Part<U64Key, PREFIX_LEN>),
    Zero(Part<ZKey, PREFIX_LEN>),
    Tagged(Part<Tagged, PREFIX_LEN>),
    Counted(CountedMaps<'a, PREFIX_LEN>),
    Mounts(Table),
}

impl<'a, const PREFIX_LEN: usize> Session<'a, PREFIX_LEN> {
    /// Returns the part with which every script starts.
    pub(crate) fn new(alloc: Global) -> Self {
        Session::Bytes(Part::new(alloc))
    }

    /// Returns the part that the line starts, if it starts one. The cell counts the drops of
    /// values.
    fn begun(alloc: Global, drops: &'a Cell<u64>, line: &[u8]) -> Option<Self> {
        Some(match named(&NAMES, line)? {
            PartName::Bytes => Session::Bytes(Part::new(alloc)),
            PartName::Byte => Session::Byte(Part::new(alloc)),
            PartName::Three => Session::Three(Part::new(alloc)),
            PartName::I32 => Session::I32(Part::new(alloc)),
            PartName::U64 => Session::U64(Part::new(alloc)),
            PartName::Zero => Session::Zero(Part::new(alloc)),
            PartName::Tagged => Session::Tagged(Part::new(alloc)),
            PartName::Counted => Session::Counted(CountedMaps::new(alloc, drops)),
            PartName::Mounts => Session::Mounts(Table::new(alloc)),
        })
    }

    /// Appends the answer to the line, or a question mark if it is no call.
    pub(crate) fn answer(&mut self, drops: &'a Cell<u64>, line: &[u8], text: &mut Text) {
        let start = text.as_slice().len();
        if let Err(why) = self.call(drops, line, text) {
            text.stop(why);
        }
        if text.take_no_call() {
            text.truncate(start);
            text.push(b"?");
        }
    }

    /// Makes the call on the line, or starts a part. Appends the answer.
    fn call(&mut self, drops: &'a Cell<u64>, line: &[u8], text: &mut Text) -> Answered {
        let alloc = text.alloc();
        if let Some(part) = Session::begun(alloc, drops, line) {
            drop(mem::replace(self, part));
            drops.set(0);
            text.push(b"()");
            return Ok(());
        }
        self.call_of_part(Words::new(line, b' ', alloc), text)
    }

    /// Makes the call that the words name, and appends its answer.
    fn call_of_part(&mut self, mut words: Words<'_>, text: &mut Text) -> Answered {
        if let Session::Mounts(table) = self {
            return table.call(words, text);
        }
        let call = LineCall::read(&mut words)?;
        match self {
            Session::Bytes(part) => part.call_of_bytes(call, words, text),
            Session::Byte(part) => part.call_of_fixed(call, words, text),
            Session::Three(part) => part.call_of_fixed(call, words, text),
            Session::I32(part) => part.call_of_fixed(call, words, text),
            Session::U64(part) => part.call_of_fixed(call, words, text),
            Session::Zero(part) => part.call_of_zkeys(call, words, text),
            Session::Tagged(part) => part.call_of_fixed(call, words, text),
            Session::Counted(part) => match call {
                LineCall::Map(name) => part.call(name, words, text),
                LineCall::Set(_) => Err(Unanswered::NoCall),
            },
            Session::Mounts(_) => Err(Unanswered::NoCall),
        }
    }
}
