//! The lines of a script that call an entry.
//!
//! [`enter`] and [`try_enter`] make the calls of an entry for one key, [`enter_related`] those of
//! an entry for a key and all keys that conflict with it, and [`enter_end`] those of the first and
//! the last entry.
//!
//! The size of an entry whose key type is a parameter is not known. So the functions that make one
//! require that it fits in memory. The borrow checker does not cover such an entry when it is
//! passed to a function. So each entry is made and used in one function, and macros hold the code
//! that several of these share.

// Appends the result of a call on an occupied entry.
macro_rules! show_occupied {
    ($place:ident, $call:expr, $text:expr) => {
        match $call.name {
            EntryName::Key => $place.key().show($text),
            EntryName::RemoveEntry => $place.remove_entry().show($text),
            name => {
                let value = match name {
                    EntryName::Get => *$place.get(),
                    EntryName::Insert => $place.insert($call.number),
                    EntryName::GetMut => mem::replace($place.get_mut(), $call.number),
                    EntryName::IntoMut => mem::replace($place.into_mut(), $call.number),
                    _ => $place.remove(),
                };
                value.show($text)
            }
        }
    };
}

// Appends the pair of an entry, or the error if the call ran out of memory.
macro_rules! show_pair {
    ($placed:expr, $text:expr) => {
        match $placed {
            Ok(place) => Ok::<_, AllocError>((place.key(), place.get())).show($text),
            Err(refused) => Err::<(), AllocError>(refused).show($text),
        }
    };
}

// Appends the pair of an entry, or the result of the next call on that entry, or the error if the
// call ran out of memory.
macro_rules! show_placed {
    ($placed:expr, $then:expr, $text:expr) => {
        match $then {
            None => show_pair!($placed, $text),
            Some(call) => match $placed {
                Ok(mut place) => show_occupied!(place, call, $text),
                Err(refused) => Err::<(), AllocError>(refused).show($text),
            },
        }
    };
}

// Appends the value of the reference that a call on an entry returns.
macro_rules! show_value {
    ($entry:expr, $call:expr, $text:expr) => {{
        let value = $call.number;
        let lent = match $call.name {
            EntryName::OrInsert => $entry.or_insert(value),
            EntryName::OrDefault => $entry.or_default(),
            EntryName::OrInsertWith => $entry.or_insert_with(|| value),
            _ => $entry.or_insert_with_key(length_of),
        };
        value_of(lent).show($text)
    }};
}

// Appends the pair of the entry that the call returns, or the result of the next call on that
// entry. `or_insert_entry` returns an occupied entry unchanged, so a call on an occupied entry is
// made on its result.
macro_rules! show_place {
    ($entry:expr, $line:expr, $text:expr) => {{
        let value = $line.call.number;
        let placed = match $line.call.name {
            EntryName::InsertEntry => $entry.insert_entry(value),
            EntryName::OrDefaultEntry => $entry.or_default_entry(),
            EntryName::OrInsertWithEntry => $entry.or_insert_with_entry(|| value),
            EntryName::OrInsertWithKeyEntry => $entry.or_insert_with_key_entry(length_of),
            _ => $entry.or_insert_entry(value),
        };
        show_placed!(placed, $line.then, $text)
    }};
}

// Appends the result of a call on a vacant entry.
macro_rules! show_vacant {
    ($entry:expr, $call:expr, $text:expr) => {
        match $call.name {
            EntryName::IntoKey => $entry.into_key().show($text),
            EntryName::VacantInsert => value_of($entry.insert($call.number)).show($text),
            _ => show_pair!($entry.insert_entry($call.number), $text),
        }
    };
}

mod by_entry;
mod by_try_entry;
mod end_entries;
mod kinds;
mod prefix_entries;

pub use by_entry::enter;
pub use by_try_entry::try_enter;
pub use end_entries::enter_end;
pub use prefix_entries::enter_related;
