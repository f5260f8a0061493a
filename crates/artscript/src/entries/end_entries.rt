//! Calls of the first and the last entry.
use blart_keys::AsBytes;
use blart_map::TreeMap;
use script_words::{Answered, EntryCall, EntryGroup, EntryName, Shown, Text, Unanswered, Words};
use std::mem;

/// Makes a call of the first or the last entry, and appends its answer.
pub fn enter_end<K: AsBytes + Shown + Drop, const P: usize>(
    map: &mut TreeMap<K, u64, P>,
    is_first: bool,
    words: Words<'_>,
    text: &mut Text,
) -> Answered {
    let call = EntryCall::read(words)?;
    match call.name.group() {
        EntryGroup::Key | EntryGroup::Occupied => show_end(map, is_first, call, text),
        _ => return Err(Unanswered::NoCall),
    }
    Ok(())
}

/// Appends the result of the call on the entry at one end, if there is a pair.
fn show_end<K: AsBytes + Shown + Drop, const P: usize>(
    map: &mut TreeMap<K, u64, P>,
    is_first: bool,
    call: EntryCall,
    text: &mut Text,
) {
    let found = if is_first {
        map.first_entry()
    } else {
        map.last_entry()
    };
    match found {
        Some(mut place) => {
            text.push(b"Some(");
            show_occupied!(place, call, text);
            text.push(b")");
        }
        None => text.push(b"None"),
    }
}
