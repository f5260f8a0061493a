//! The two sets of a script, and the calls that change them.
ghost use Rattle.std.specs.Prelude.{◌≡◌, []};
ghost use Rattle.blart_set.specs.Elements.{elements};

use blart_keys::{AsBytes, NoPrefixesBytes};
use blart_set::TreeSet;
use script_words::{Answered, FixedKey, ScriptKey, SetName, Shown, Text, Words};
use std::alloc::Global;
use std::mem;

/// The two sets. Each call is a call of the first.
#[derive(Drop)]
pub struct Sets<K: AsBytes + Drop, const PREFIX_LEN: usize> {
    pub(crate) first: TreeSet<K, PREFIX_LEN>,
    pub(crate) second: TreeSet<K, PREFIX_LEN>,
    pub(crate) alloc: Global,
}

impl<K: AsBytes + Shown + Drop, const PREFIX_LEN: usize> Sets<K, PREFIX_LEN> {
    /// Returns two sets with no elements.
    pub fn new(alloc: Global) -> Self
        ensures first { elements result.first ≡ [] }
        ensures second { elements result.second ≡ [] }
    {
        Sets {
            first: TreeSet::with_prefix_len(alloc),
            second: TreeSet::with_prefix_len(alloc),
            alloc,
        }
    }

    /// Makes a call that empties the first set, or swaps it with the second.
    fn renew(&mut self, name: SetName, words: Words<'_>, text: &mut Text) -> Answered {
        words.end()?;
        match name {
            SetName::New => drop(mem::replace(
                &mut self.first,
                TreeSet::with_prefix_len(self.alloc),
            )),
            SetName::Clear => self.first.clear(),
            _ => mem::swap(&mut self.first, &mut self.second),
        }
        ().show(text);
        Ok(())
    }

    /// Makes a call that removes the element at one end.
    fn pop(&mut self, name: SetName, words: Words<'_>, text: &mut Text) -> Answered {
        words.end()?;
        let popped = match name {
            SetName::PopFirst => self.first.pop_first(),
            _ => self.first.pop_last(),
        };
        popped.show(text);
        Ok(())
    }

    /// Makes a call that removes the element with the bytes, the elements whose bytes start with
    /// them, or the elements from them on.
    fn remove(&mut self, name: SetName, mut words: Words<'_>, text: &mut Text) -> Answered {
        let query = words.last_bytes()?;
        match name {
            SetName::Remove => self.first.remove(&query).show(text),
            SetName::RemovePrefix => self.first.remove_prefix(&query).show(text),
            SetName::Take => self.first.take(&query).show(text),
            _ => self.split_off(&query, text),
        }
        drop(query);
        Ok(())
    }
}

impl<K: ScriptKey, const PREFIX_LEN: usize> Sets<K, PREFIX_LEN> {
    /// Makes the named call with the words after it, and appends its answer.
    pub(crate) fn call(&mut self, name: SetName, words: Words<'_>, text: &mut Text) -> Answered {
        match name {
            SetName::New | SetName::Clear | SetName::Swap => self.renew(name, words, text),
            SetName::PopFirst | SetName::PopLast => self.pop(name, words, text),
            SetName::Remove | SetName::Take | SetName::RemovePrefix | SetName::SplitOff => {
                self.remove(name, words, text)
            }
            SetName::TryInsert | SetName::PrefixInsert => self.place(name, words, text),
            SetName::Retain => self.retain(words, text),
            SetName::ExtractIf | SetName::Range => self.within(name, words, text),
            SetName::IntoIter => self.into_elements(words, text),
            SetName::Equal
            | SetName::PartialCmp
            | SetName::Cmp
            | SetName::SameHash
            | SetName::DebugText => self.compare(name, words, text),
            _ => self.look_up(name, words, text),
        }
    }

    /// Makes a call that places an element.
    fn place(&mut self, name: SetName, mut words: Words<'_>, text: &mut Text) -> Answered {
        let element = words.last_key()?;
        match name {
            SetName::TryInsert => self.first.try_insert(element).show(text),
            _ => self.first.prefix_insert(element).show(text),
        }
        Ok(())
    }
}

impl<K: FixedKey, const PREFIX_LEN: usize> Sets<K, PREFIX_LEN> {
    /// Makes the named call with the words after it, and appends its answer.
    pub fn call_of_fixed(&mut self, name: SetName, words: Words<'_>, text: &mut Text) -> Answered
        requires { (k j : K) → K.is_clone k j → K.bytes j ≡ K.bytes k }
    {
        match name {
            SetName::MakeClone => self.make_clone(words, text),
            SetName::ExtendCopied | SetName::FromArray => self.copy_items(name, words, text),
            SetName::Or | SetName::And | SetName::Xor | SetName::Sub => {
                self.operate(name, words, text)
            }
            _ => self.call_of_apart(name, words, text),
        }
    }
}

impl<K: ScriptKey + NoPrefixesBytes, const PREFIX_LEN: usize> Sets<K, PREFIX_LEN> {
    /// Makes the named call with the words after it, and appends its answer.
    pub fn call_of_apart(&mut self, name: SetName, words: Words<'_>, text: &mut Text) -> Answered {
        match name {
            SetName::Insert | SetName::Replace => self.insert(name, words, text),
            SetName::Append => self.append(words, text),
            SetName::Extend | SetName::FromVec | SetName::FromIter => self.take_items(
                name, words, text,
            ),
            _ => self.call(name, words, text),
        }
    }

    /// Makes a call that places an element that conflicts with no other.
    fn insert(&mut self, name: SetName, mut words: Words<'_>, text: &mut Text) -> Answered {
        let element = words.last_key()?;
        match name {
            SetName::Insert => self.first.insert(element).show(text),
            _ => self.first.replace(element).show(text),
        }
        Ok(())
    }
}
