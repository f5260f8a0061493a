//! The calls of entries, and their words.
use crate::answered::Unanswered;
use crate::names::named;
use crate::reading::Words;

/// A call of an entry, the number that is added before it to a stored value, and the call of the
/// entry at a pair: of the entry that the first call returns, or the first call itself.
#[derive(Clone, Copy)]
pub struct EntryLine {
    pub add: Option<u64>,
    pub call: EntryCall,
    pub then: Option<EntryCall>,
}

/// A call of an entry, with its number, or 0 if it has none.
#[derive(Clone, Copy)]
pub struct EntryCall {
    pub name: EntryName,
    pub number: u64,
}

/// The name of a call of an entry.
#[derive(Clone, Copy)]
pub enum EntryName {
    Key,
    OrInsert,
    OrDefault,
    OrInsertWith,
    OrInsertWithKey,
    OrInsertEntry,
    OrDefaultEntry,
    OrInsertWithEntry,
    OrInsertWithKeyEntry,
    InsertEntry,
    Get,
    Insert,
    GetMut,
    IntoMut,
    Remove,
    RemoveEntry,
    IntoKey,
    VacantInsert,
    VacantInsertEntry,
}

/// The entries that have a call, and what it returns.
#[derive(Clone, Copy)]
pub enum EntryGroup {
    /// Every entry. The call returns the key.
    Key,
    /// Every entry. The call returns a reference to the value.
    Value,
    /// Every entry. The call returns the entry of the pair.
    Place,
    /// An entry at a pair.
    Occupied,
    /// An entry at which there is no pair.
    Vacant,
}

/// The word that names each call.
const NAMES: [(&str, EntryName); 19] = [
    ("key", EntryName::Key),
    ("or_insert", EntryName::OrInsert),
    ("or_default", EntryName::OrDefault),
    ("or_insert_with", EntryName::OrInsertWith),
    ("or_insert_with_key", EntryName::OrInsertWithKey),
    ("or_insert_entry", EntryName::OrInsertEntry),
    ("or_default_entry", EntryName::OrDefaultEntry),
    ("or_insert_with_entry", EntryName::OrInsertWithEntry),
    ("or_insert_with_key_entry", EntryName::OrInsertWithKeyEntry),
    ("insert_entry", EntryName::InsertEntry),
    ("get", EntryName::Get),
    ("insert", EntryName::Insert),
    ("get_mut", EntryName::GetMut),
    ("into_mut", EntryName::IntoMut),
    ("remove", EntryName::Remove),
    ("remove_entry", EntryName::RemoveEntry),
    ("into_key", EntryName::IntoKey),
    ("vacant_insert", EntryName::VacantInsert),
    ("vacant_insert_entry", EntryName::VacantInsertEntry),
];

impl EntryName {
    /// Returns which entries have the call.
    pub fn group(self) -> EntryGroup {
        match self {
            EntryName::Key => EntryGroup::Key,
            EntryName::OrInsert
            | EntryName::OrDefault
            | EntryName::OrInsertWith
            | EntryName::OrInsertWithKey => EntryGroup::Value,
            EntryName::OrInsertEntry
            | EntryName::OrDefaultEntry
            | EntryName::OrInsertWithEntry
            | EntryName::OrInsertWithKeyEntry
            | EntryName::InsertEntry => EntryGroup::Place,
            EntryName::Get
            | EntryName::Insert
            | EntryName::GetMut
            | EntryName::IntoMut
            | EntryName::Remove
            | EntryName::RemoveEntry => EntryGroup::Occupied,
            EntryName::IntoKey | EntryName::VacantInsert | EntryName::VacantInsertEntry => {
                EntryGroup::Vacant
            }
        }
    }

    /// Returns `true` if a number follows the call's name.
    fn has_number(self) -> bool {
        matches!(
            self,
            EntryName::OrInsert
                | EntryName::OrInsertWith
                | EntryName::OrInsertEntry
                | EntryName::OrInsertWithEntry
                | EntryName::InsertEntry
                | EntryName::Insert
                | EntryName::GetMut
                | EntryName::IntoMut
                | EntryName::VacantInsert
                | EntryName::VacantInsertEntry
        )
    }
}

impl EntryCall {
    /// Reads the call from the words that are left.
    pub fn read(mut words: Words<'_>) -> Result<EntryCall, Unanswered> {
        let call = EntryCall::next(&mut words)?;
        words.end()?;
        Ok(call)
    }

    /// Reads the call from the next words.
    fn next(words: &mut Words<'_>) -> Result<EntryCall, Unanswered> {
        let Some(name) = named(&NAMES, words.word()?) else {
            return Err(Unanswered::NoCall);
        };
        let number = if name.has_number() {
            words.number()?
        } else {
            0
        };
        Ok(EntryCall { name, number })
    }
}

impl EntryLine {
    /// Reads the line from the words that are left.
    pub fn read(words: Words<'_>) -> Result<EntryLine, Unanswered> {
        let mut rest = words;
        if rest.word()? != b"and_modify".as_slice() {
            return EntryLine::after(None, words);
        }
        let add = Some(rest.number()?);
        EntryLine::after(add, rest)
    }

    /// Reads from the words that are left the call, and the call of the entry that it returns.
    /// `add` is the number that is added to the value before.
    pub(crate) fn after(add: Option<u64>, mut words: Words<'_>) -> Result<EntryLine, Unanswered> {
        let call = EntryCall::next(&mut words)?;
        let group = call.name.group();
        if words.is_done() {
            let then = match group {
                EntryGroup::Occupied => Some(call),
                _ => None,
            };
            return Ok(EntryLine { add, call, then });
        }
        let next = EntryCall::read(words)?;
        match (group, next.name.group()) {
            (EntryGroup::Place, EntryGroup::Key | EntryGroup::Occupied) => {
                let then = Some(next);
                Ok(EntryLine { add, call, then })
            }
            _ => Err(Unanswered::NoCall),
        }
    }
}
