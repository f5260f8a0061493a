//! Lists of keys, of pairs and of calls.
use crate::answered::{Answered, Unanswered};
use crate::keys::ScriptKey;
use crate::reading::Words;
use std::alloc::AllocError;

/// An item of a list, which a word stands for.
pub trait Item: Drop + Sized {
    /// Reads the item that the next word stands for.
    fn read(words: &mut Words<'_>) -> Result<Self, Unanswered>;
}

impl<K: ScriptKey> Item for K {
    fn read(words: &mut Words<'_>) -> Result<Self, Unanswered> {
        words.key()
    }
}

impl<K: ScriptKey> Item for (K, u64) {
    fn read(words: &mut Words<'_>) -> Result<Self, Unanswered> {
        words.parts()?.last_pair()
    }
}

/// Returns the items that the words stand for.
pub fn items_of<T: Item>(words: Words<'_>) -> Result<Vec<T>, Unanswered> {
    let mut items = Vec::new(words.alloc());
    match push_items(&mut items, words) {
        Ok(()) => Ok(items),
        Err(refused) => {
            drop(items);
            Err(refused)
        }
    }
}

/// Adds the items that the words stand for at the end of the list.
fn push_items<T: Item>(items: &mut Vec<T>, mut words: Words<'_>) -> Answered {
    for _ in 0..u64::MAX {
        if words.is_done() {
            break;
        }
        push(items, T::read(&mut words)?)?;
    }
    Ok(())
}

/// Adds the item at the end of the list.
fn push<T: Drop>(items: &mut Vec<T>, item: T) -> Answered {
    match items.push(item) {
        Ok(()) => Ok(()),
        Err(_) => Err(Unanswered::Memory(AllocError)),
    }
}
