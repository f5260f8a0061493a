//! The calls of prefix entries, and their words.
use crate::answered::Unanswered;
use crate::entry_calls::{EntryCall, EntryGroup, EntryLine};
use crate::names::named;
use crate::reading::Words;

/// A call of a prefix entry. An iterator has the letters of its steps, and an iterator of mutable
/// references also has the number that is added to each value.
#[derive(Clone, Copy)]
pub enum PrefixCall<'a> {
    /// A call that entries have too.
    Shared(EntryCall),
    /// A call that entries have too, of the entry's kind.
    OfKind(EntryLine),
    /// A call that only prefix entries have, or that differs from that of entries, with its number,
    /// or 0 if it has none.
    Own(PrefixName, u64),
    /// The iterator over the related pairs.
    Iter(Option<&'a [u8]>),
    /// The iterator over mutable references to their values.
    IterMut(u64, Option<&'a [u8]>),
}

/// The name of a call that only prefix entries have, or that differs from that of entries.
#[derive(Clone, Copy)]
pub enum PrefixName {
    GetKey,
    OccupiedKey,
    Get,
    OccupiedGetKey,
    GetMut,
    OccupiedInsert,
    OccupiedInsertEntry,
    InnerKey,
    InnerGet,
    InnerGetKey,
    InnerGetMut,
    InnerInsert,
    InnerInsertEntry,
    GetKeyValueMut,
}

/// The word that names each call.
const NAMES: [(&str, PrefixName); 14] = [
    ("get_key", PrefixName::GetKey),
    ("occupied_key", PrefixName::OccupiedKey),
    ("get", PrefixName::Get),
    ("occupied_get_key", PrefixName::OccupiedGetKey),
    ("get_mut", PrefixName::GetMut),
    ("occupied_insert", PrefixName::OccupiedInsert),
    ("occupied_insert_entry", PrefixName::OccupiedInsertEntry),
    ("inner_key", PrefixName::InnerKey),
    ("inner_get", PrefixName::InnerGet),
    ("inner_get_key", PrefixName::InnerGetKey),
    ("inner_get_mut", PrefixName::InnerGetMut),
    ("inner_insert", PrefixName::InnerInsert),
    ("inner_insert_entry", PrefixName::InnerInsertEntry),
    ("get_key_value_mut", PrefixName::GetKeyValueMut),
];

impl<'a> PrefixCall<'a> {
    /// Reads the call from the words that are left.
    pub fn read(words: Words<'a>) -> Result<PrefixCall<'a>, Unanswered> {
        let mut rest = words;
        let word = rest.word()?;
        if word == b"kind".as_slice() {
            return call_of_kind(EntryLine::after(None, rest)?);
        }
        if word == b"iter".as_slice() {
            return Ok(PrefixCall::Iter(rest.last_moves()?));
        }
        if word == b"iter_mut".as_slice() {
            let add = rest.number()?;
            return Ok(PrefixCall::IterMut(add, rest.last_moves()?));
        }
        match named(&NAMES, word) {
            Some(name) => Ok(PrefixCall::Own(name, rest.number_if(name.has_number())?)),
            None => Ok(PrefixCall::Shared(EntryCall::read(words)?)),
        }
    }
}

impl PrefixName {
    /// Returns `true` if a number follows the call's name.
    fn has_number(self) -> bool {
        matches!(
            self,
            PrefixName::GetMut
                | PrefixName::OccupiedInsert
                | PrefixName::OccupiedInsertEntry
                | PrefixName::InnerGetMut
                | PrefixName::InnerInsert
                | PrefixName::InnerInsertEntry
                | PrefixName::GetKeyValueMut
        )
    }
}

/// Returns the call of the entry's kind, if `PrefixKind` has it.
fn call_of_kind<'a>(line: EntryLine) -> Result<PrefixCall<'a>, Unanswered> {
    match line.call.name.group() {
        EntryGroup::Value | EntryGroup::Place => Ok(PrefixCall::OfKind(line)),
        _ => Err(Unanswered::NoCall),
    }
}
