//! Calls that are made one after another.
use crate::answered::Unanswered;
use crate::keys::ScriptKey;
use crate::lists::Item;
use crate::names::named;
use crate::reading::Words;
use blart_keys::Call;

/// The name of a call in a list of calls.
#[derive(Clone, Copy)]
enum TurnName {
    TryInsert,
    ReplaceEntry,
    PrefixInsert,
    RemoveEntry,
    ContainsKey,
    PopFirst,
    PopLast,
    Clear,
}

/// The word that names each call.
const NAMES: [(&str, TurnName); 8] = [
    ("TryInsert", TurnName::TryInsert),
    ("ReplaceEntry", TurnName::ReplaceEntry),
    ("PrefixInsert", TurnName::PrefixInsert),
    ("RemoveEntry", TurnName::RemoveEntry),
    ("ContainsKey", TurnName::ContainsKey),
    ("PopFirst", TurnName::PopFirst),
    ("PopLast", TurnName::PopLast),
    ("Clear", TurnName::Clear),
];

impl<K: ScriptKey> Item for Call<K, u64> {
    fn read(words: &mut Words<'_>) -> Result<Self, Unanswered> {
        call_of(words.parts()?)
    }
}

/// Returns the call that the parts of a word name.
fn call_of<K: ScriptKey>(mut parts: Words<'_>) -> Result<Call<K, u64>, Unanswered> {
    let Some(name) = named(&NAMES, parts.word()?) else {
        return Err(Unanswered::NoCall);
    };
    match name {
        TurnName::TryInsert | TurnName::ReplaceEntry | TurnName::PrefixInsert => {
            Ok(call_with_pair(name, parts.last_pair()?))
        }
        TurnName::RemoveEntry => Ok(Call::RemoveEntry(parts.last_key()?)),
        TurnName::ContainsKey => Ok(Call::ContainsKey(parts.last_key()?)),
        _ => {
            parts.end()?;
            Ok(bare_call(name))
        }
    }
}

/// Returns the call of this name that places a pair.
fn call_with_pair<K>(name: TurnName, pair: (K, u64)) -> Call<K, u64> {
    let (key, value) = pair;
    match name {
        TurnName::TryInsert => Call::TryInsert(key, value),
        TurnName::ReplaceEntry => Call::ReplaceEntry(key, value),
        _ => Call::PrefixInsert(key, value),
    }
}

/// Returns the call of this name, which has no arguments.
fn bare_call<K>(name: TurnName) -> Call<K, u64> {
    match name {
        TurnName::PopFirst => Call::PopFirst,
        TurnName::PopLast => Call::PopLast,
        _ => Call::Clear,
    }
}
