//! Calls of the prefix entry for a key.
//!
//! Each function makes an entry and uses it. So the entry's borrow of the map ends with the
//! function.
ghost use denote.Builtin.{u64};
ghost use Rattle.blart_map.specs.EntryFits.{PrefixEntryFits};

use crate::maps::lent::show_lending;
use blart_keys::AsBytes;
use blart_map::{PrefixEntry, PrefixKind, PrefixOccupied, TreeMap};
use script_words::{
    Answered, EntryCall, EntryGroup, EntryLine, EntryName, PrefixCall, PrefixName, ScriptKey,
    Shown, Text, Unanswered, Words, length_of, show_walk, value_of, written,
};
use std::alloc::AllocError;
use std::iter::{DoubleEndedIterator, Iterator};
use std::mem;

type MapOf<K, const P: usize> = TreeMap<K, u64, P>;

/// Makes a call of the prefix entry for a key, and appends its answer.
pub fn enter_related<K: ScriptKey, const P: usize>(
    map: &mut TreeMap<K, u64, P>,
    mut words: Words<'_>,
    text: &mut Text,
) -> Answered
    requires { PrefixEntryFits K.row u64 P.row K.AsBytes }
{
    let word = words.word()?;
    let call = PrefixCall::read(words)?;
    let key = words.key_of(word)?;
    match call {
        PrefixCall::Shared(call) => show_shared(map, key, call, text),
        PrefixCall::OfKind(line) => show_of_kind(map, key, line, text),
        PrefixCall::Own(name, number) => show_own(map, key, name, number, text),
        PrefixCall::Iter(letters) => walk_inner(map, key, letters, text),
        PrefixCall::IterMut(add, letters) => lend_inner(map, key, add, letters, text),
    }
    Ok(())
}

/// Makes a call that other entries have too.
fn show_shared<K: AsBytes + Shown + Drop, const P: usize>(
    map: &mut MapOf<K, P>,
    key: K,
    call: EntryCall,
    text: &mut Text,
)
    requires { PrefixEntryFits K.row u64 P.row K.AsBytes }
{
    match call.name.group() {
        EntryGroup::Key => show_key(map, key, false, text),
        EntryGroup::Value => show_value(map, key, call, text),
        EntryGroup::Place => show_place(map, key, call, text),
        EntryGroup::Occupied => show_leaf(map, key, call, text),
        EntryGroup::Vacant => show_vacant(map, key, call, text),
    }
}

/// Makes a call of the entry's kind.
fn show_of_kind<K: AsBytes + Shown + Drop, const P: usize>(
    map: &mut MapOf<K, P>,
    key: K,
    line: EntryLine,
    text: &mut Text,
)
    requires { PrefixEntryFits K.row u64 P.row K.AsBytes }
{
    match line.call.name.group() {
        EntryGroup::Value => show_kind_value(map, key, line.call, text),
        _ => show_kind_place(map, key, line, text),
    }
}

/// Makes a call that only prefix entries have, or that differs for them.
fn show_own<K: AsBytes + Shown + Drop, const P: usize>(
    map: &mut MapOf<K, P>,
    key: K,
    name: PrefixName,
    number: u64,
    text: &mut Text,
)
    requires { PrefixEntryFits K.row u64 P.row K.AsBytes }
{
    match name {
        PrefixName::GetKey => show_key(map, key, true, text),
        PrefixName::OccupiedKey
        | PrefixName::Get
        | PrefixName::OccupiedGetKey
        | PrefixName::GetMut => show_related(map, key, name, number, text),
        PrefixName::OccupiedInsert | PrefixName::OccupiedInsertEntry => {
            set_related(map, key, name, number, text)
        }
        _ => show_inner(map, key, name, number, text),
    }
}

/// Returns the word for the entry's kind, and a space.
fn kind_of<K: AsBytes, const P: usize>(
    entry: &PrefixEntry<'_, K, u64, P, MapOf<K, P>>,
) -> &'static [u8] {
    match entry {
        PrefixEntry::Occupied(related) => kind_of_related(related),
        PrefixEntry::Vacant(_) => b"Vacant ",
    }
}

/// Returns the word for the kind of an occupied entry, and a space.
fn kind_of_related<K: AsBytes, const P: usize>(
    related: &PrefixOccupied<'_, K, u64, P, MapOf<K, P>>,
) -> &'static [u8] {
    match related {
        PrefixOccupied::Leaf(_) => b"Leaf ",
        PrefixOccupied::Inner(_) => b"Inner ",
    }
}

/// Appends the key of the entry, or the key of its pair if it has one.
fn show_key<K: AsBytes + Shown + Drop, const P: usize>(
    map: &mut MapOf<K, P>,
    key: K,
    is_found: bool,
    text: &mut Text,
)
    requires { PrefixEntryFits K.row u64 P.row K.AsBytes }
{
    let entry = map.prefix_entry(key);
    text.push(kind_of(&entry));
    if is_found {
        entry.get_key().show(text);
    } else {
        entry.key().show(text);
    }
    drop(entry);
}

/// Appends the value of the reference that the call returns.
fn show_value<K: AsBytes + Drop, const P: usize>(
    map: &mut MapOf<K, P>,
    key: K,
    call: EntryCall,
    text: &mut Text,
)
    requires { PrefixEntryFits K.row u64 P.row K.AsBytes }
{
    let entry = map.prefix_entry(key);
    text.push(kind_of(&entry));
    show_value!(entry, call, text)
}

/// Appends the pair of the entry that the call returns.
fn show_place<K: AsBytes + Shown + Drop, const P: usize>(
    map: &mut MapOf<K, P>,
    key: K,
    call: EntryCall,
    text: &mut Text,
)
    requires { PrefixEntryFits K.row u64 P.row K.AsBytes }
{
    let entry = map.prefix_entry(key);
    text.push(kind_of(&entry));
    let placed = match call.name {
        EntryName::OrInsertEntry => entry.or_insert_entry(call.number),
        EntryName::OrDefaultEntry => entry.or_default_entry(),
        EntryName::OrInsertWithEntry => entry.or_insert_with_entry(|| call.number),
        EntryName::OrInsertWithKeyEntry => entry.or_insert_with_key_entry(length_of),
        _ => entry.insert_entry(call.number),
    };
    show_pair!(placed, text)
}

/// Appends the value of the reference that the call on the entry's kind returns.
fn show_kind_value<K: AsBytes + Drop, const P: usize>(
    map: &mut MapOf<K, P>,
    key: K,
    call: EntryCall,
    text: &mut Text,
)
    requires { PrefixEntryFits K.row u64 P.row K.AsBytes }
{
    let entry = map.prefix_entry(key);
    text.push(kind_of(&entry));
    let entry = entry.kind();
    show_value!(entry, call, text)
}

/// Appends the pair of the entry that the call on the entry's kind returns, or the result of the
/// next call on that entry.
fn show_kind_place<K: AsBytes + Shown + Drop, const P: usize>(
    map: &mut MapOf<K, P>,
    key: K,
    line: EntryLine,
    text: &mut Text,
)
    requires { PrefixEntryFits K.row u64 P.row K.AsBytes }
{
    let entry = map.prefix_entry(key);
    text.push(kind_of(&entry));
    let entry = entry.kind();
    show_place!(entry, line, text)
}

/// Appends the result of a call on an occupied entry, whose key is related to keys of the map.
fn show_related<K: AsBytes + Shown + Drop, const P: usize>(
    map: &mut MapOf<K, P>,
    key: K,
    name: PrefixName,
    number: u64,
    text: &mut Text,
)
    requires { PrefixEntryFits K.row u64 P.row K.AsBytes }
{
    let mut entry = map.prefix_entry(key);
    text.push(kind_of(&entry));
    match &mut entry {
        PrefixEntry::Occupied(related) => match name {
            PrefixName::OccupiedKey => related.key().show(text),
            PrefixName::Get => related.get().show(text),
            PrefixName::OccupiedGetKey => related.get_key().show(text),
            _ => written(related.get_mut(), number).show(text),
        },
        PrefixEntry::Vacant(_) => text.stop(Unanswered::NoCall),
    }
    drop(entry);
}

/// Replaces the related pairs by one pair, and appends the result of the call.
fn set_related<K: AsBytes + Shown + Drop, const P: usize>(
    map: &mut MapOf<K, P>,
    key: K,
    name: PrefixName,
    number: u64,
    text: &mut Text,
)
    requires { PrefixEntryFits K.row u64 P.row K.AsBytes }
{
    let PrefixEntry::Occupied(related) = map.prefix_entry(key) else {
        return text.stop(Unanswered::NoCall);
    };
    text.push(kind_of_related(&related));
    match name {
        PrefixName::OccupiedInsert => (*related.insert(number)).show(text),
        _ => {
            let place = related.insert_entry(number);
            (place.key(), place.get()).show(text)
        }
    }
}

/// Appends the result of a call on an entry at one pair. `or_insert_entry` returns it unchanged.
/// Its `get` and `get_mut` are those of every prefix entry with pairs.
fn show_leaf<K: AsBytes + Shown + Drop, const P: usize>(
    map: &mut MapOf<K, P>,
    key: K,
    call: EntryCall,
    text: &mut Text,
)
    requires { PrefixEntryFits K.row u64 P.row K.AsBytes }
{
    let entry = map.prefix_entry(key);
    text.push(kind_of(&entry));
    if !matches!(entry, PrefixEntry::Occupied(PrefixOccupied::Leaf(_))) {
        return text.stop(Unanswered::NoCall);
    }
    match entry.or_insert_entry(0) {
        Ok(mut place) => show_occupied!(place, call, text),
        Err(refused) => text.stop(Unanswered::Memory(refused)),
    }
}

/// Appends the result of a call on an entry in the place of several pairs.
fn show_inner<K: AsBytes + Shown + Drop, const P: usize>(
    map: &mut MapOf<K, P>,
    key: K,
    name: PrefixName,
    number: u64,
    text: &mut Text,
)
    requires { PrefixEntryFits K.row u64 P.row K.AsBytes }
{
    let PrefixKind::Inner(mut inner) = map.prefix_entry(key).kind() else {
        return text.stop(Unanswered::NoCall);
    };
    text.push(b"Inner ");
    match name {
        PrefixName::InnerKey => inner.key().show(text),
        PrefixName::InnerGet => inner.get().show(text),
        PrefixName::InnerGetKey => inner.get_key().show(text),
        PrefixName::InnerGetMut => written(inner.get_mut(), number).show(text),
        PrefixName::InnerInsert => (*inner.insert(number)).show(text),
        PrefixName::InnerInsertEntry => {
            let place = inner.insert_entry(number);
            (place.key(), place.get()).show(text)
        }
        _ => match inner.get_key_value_mut() {
            Some(mut place) => {
                let old = place.insert(number);
                Some((place.key(), old)).show(text)
            }
            None => text.push(b"None"),
        },
    }
}

/// Walks over the pairs that the entry would replace.
fn walk_inner<K: AsBytes + Shown + Drop, const P: usize>(
    map: &mut MapOf<K, P>,
    key: K,
    letters: Option<&[u8]>,
    text: &mut Text,
)
    requires { PrefixEntryFits K.row u64 P.row K.AsBytes }
{
    match map.prefix_entry(key).kind() {
        PrefixKind::Inner(inner) => {
            text.push(b"Inner ");
            show_walk(inner.iter(), letters, text);
        }
        _ => text.stop(Unanswered::NoCall),
    }
}

/// Adds to the values of the pairs that the entry would replace.
fn lend_inner<K: AsBytes + Shown + Drop, const P: usize>(
    map: &mut MapOf<K, P>,
    key: K,
    add: u64,
    letters: Option<&[u8]>,
    text: &mut Text,
)
    requires { PrefixEntryFits K.row u64 P.row K.AsBytes }
{
    match map.prefix_entry(key).kind() {
        PrefixKind::Inner(inner) => {
            text.push(b"Inner ");
            show_lending(inner.iter_mut(), add, letters, text);
        }
        _ => text.stop(Unanswered::NoCall),
    }
}

/// Appends the result of a call on a vacant entry.
fn show_vacant<K: AsBytes + Shown + Drop, const P: usize>(
    map: &mut MapOf<K, P>,
    key: K,
    call: EntryCall,
    text: &mut Text,
)
    requires { PrefixEntryFits K.row u64 P.row K.AsBytes }
{
    let PrefixKind::Vacant(vacant) = map.prefix_entry(key).kind() else {
        return text.stop(Unanswered::NoCall);
    };
    text.push(b"Vacant ");
    show_vacant!(vacant, call, text)
}
