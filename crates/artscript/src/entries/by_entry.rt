//! Calls of the entry that `entry` returns.
ghost use denote.Builtin.{u64};
ghost use Rattle.blart_map.specs.EntryFits.{EntryFits};

use crate::entries::kinds::{EntryOf, has_calls, kind_of};
use blart_keys::NoPrefixesBytes;
use blart_map::{Entry, TreeMap};
use script_words::{
    Answered, EntryGroup, EntryLine, EntryName, ScriptKey, Shown, Text, Unanswered, Words,
    length_of, value_of,
};
use std::alloc::AllocError;
use std::mem;

/// Makes a call of the entry for a key that never conflicts, and appends its answer.
pub fn enter<K: ScriptKey + NoPrefixesBytes, const P: usize>(
    map: &mut TreeMap<K, u64, P>,
    mut words: Words<'_>,
    text: &mut Text,
) -> Answered
    requires { EntryFits K.row u64 P.row K.AsBytes }
{
    let word = words.word()?;
    let line = EntryLine::read(words)?;
    let key = words.key_of(word)?;
    match line.call.name.group() {
        EntryGroup::Key => of_key(map, key, line, text),
        EntryGroup::Value => of_value(map, key, line, text),
        EntryGroup::Place | EntryGroup::Occupied => of_place(map, key, line, text),
        EntryGroup::Vacant => of_vacant(map, key, line, text),
    }
    Ok(())
}

/// Returns the entry if its kind has the call, after the addition of the line to its value. Appends
/// its kind.
fn open<'a, K: NoPrefixesBytes + Drop, const P: usize>(
    map: &'a mut TreeMap<K, u64, P>,
    key: K,
    line: EntryLine,
    text: &mut Text,
) -> Option<EntryOf<'a, K, P>>
    requires { EntryFits K.row u64 P.row K.AsBytes }
{
    let entry = map.entry(key);
    if !has_calls(&entry, line.call.name.group()) {
        text.stop(Unanswered::NoCall);
        return None;
    }
    text.push(kind_of(&entry));
    match line.add {
        Some(add) => Some(entry.and_modify(|value| *value = value.wrapping_add(add))),
        None => Some(entry),
    }
}

/// Appends the key of the entry.
fn of_key<K: NoPrefixesBytes + Shown + Drop, const P: usize>(
    map: &mut TreeMap<K, u64, P>,
    key: K,
    line: EntryLine,
    text: &mut Text,
)
    requires { EntryFits K.row u64 P.row K.AsBytes }
{
    if let Some(entry) = open(map, key, line, text) {
        entry.key().show(text);
    }
}

/// Appends the value of the reference that the call returns.
fn of_value<K: NoPrefixesBytes + Drop, const P: usize>(
    map: &mut TreeMap<K, u64, P>,
    key: K,
    line: EntryLine,
    text: &mut Text,
)
    requires { EntryFits K.row u64 P.row K.AsBytes }
{
    if let Some(entry) = open(map, key, line, text) {
        show_value!(entry, line.call, text);
    }
}

/// Appends the pair of the entry that the call returns, or the result of the next call on that
/// entry.
fn of_place<K: NoPrefixesBytes + Shown + Drop, const P: usize>(
    map: &mut TreeMap<K, u64, P>,
    key: K,
    line: EntryLine,
    text: &mut Text,
)
    requires { EntryFits K.row u64 P.row K.AsBytes }
{
    if let Some(entry) = open(map, key, line, text) {
        show_place!(entry, line, text);
    }
}

/// Appends the result of a call on a vacant entry.
fn of_vacant<K: NoPrefixesBytes + Shown + Drop, const P: usize>(
    map: &mut TreeMap<K, u64, P>,
    key: K,
    line: EntryLine,
    text: &mut Text,
)
    requires { EntryFits K.row u64 P.row K.AsBytes }
{
    if let Some(Entry::Vacant(entry)) = open(map, key, line, text) {
        show_vacant!(entry, line.call, text);
    }
}
