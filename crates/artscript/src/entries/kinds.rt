//! The kinds of the entry for a key.
use blart_keys::AsBytes;
use blart_map::{Entry, TreeMap};
use script_words::EntryGroup;

pub(crate) type EntryOf<'a, K, const P: usize> = Entry<'a, K, u64, P, TreeMap<K, u64, P>>;

/// Returns whether an entry of this kind has the calls of the group.
pub(crate) fn has_calls<K: AsBytes, const P: usize>(
    entry: &EntryOf<'_, K, P>,
    group: EntryGroup,
) -> bool {
    match group {
        EntryGroup::Occupied => matches!(entry, Entry::Occupied(_)),
        EntryGroup::Vacant => matches!(entry, Entry::Vacant(_)),
        _ => true,
    }
}

/// Returns the word for the entry's kind, and a space.
pub(crate) fn kind_of<K: AsBytes, const P: usize>(entry: &EntryOf<'_, K, P>) -> &'static [u8] {
    match entry {
        Entry::Occupied(_) => b"Occupied ",
        Entry::Vacant(_) => b"Vacant ",
    }
}
