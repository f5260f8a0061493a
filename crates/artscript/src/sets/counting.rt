//! Counts the comparisons of elements in merges and tests of both sets.
use crate::sets::calls::Sets;
use blart_keys::AsBytes;
use blart_set::{TreeSet, TryInsertError};
use script_words::{Answered, Compared, SetName, Shown, Text, Unanswered, Words};
use std::cell::Cell;
use std::iter::Iterator;

impl<K: AsBytes + Drop, const PREFIX_LEN: usize> Sets<K, PREFIX_LEN> {
    /// Makes the named call over sets of the same bytes, and appends its answer and the number of
    /// comparisons.
    pub(crate) fn count(&self, name: SetName, words: Words<'_>, text: &mut Text) -> Answered {
        let count = Cell::new(0u64);
        let mut sets = Sets {
            first: TreeSet::with_prefix_len(self.alloc),
            second: TreeSet::with_prefix_len(self.alloc),
            alloc: self.alloc,
        };
        let answered = self.call_in(&mut sets, &count, name, words, text);
        drop(sets);
        answered?;
        text.push(b" ");
        count.get().show(text);
        Ok(())
    }

    /// Adds the bytes of both sets to two others.
    fn add_to<'a>(
        &'a self,
        sets: &mut Sets<Compared<'a>, PREFIX_LEN>,
        count: &'a Cell<u64>,
    ) -> Answered {
        add_all(&mut sets.first, &self.first, count)?;
        add_all(&mut sets.second, &self.second, count)
    }

    /// Adds the bytes of both sets to two others, makes the call of these, and appends its answer.
    fn call_in<'a>(
        &'a self,
        sets: &mut Sets<Compared<'a>, PREFIX_LEN>,
        count: &'a Cell<u64>,
        name: SetName,
        words: Words<'_>,
        text: &mut Text,
    ) -> Answered {
        self.add_to(sets, count)?;
        sets.call_of_both(name, words, text)
    }
}

/// Adds the bytes of the elements. They count their comparisons.
fn add_all<'a, K: AsBytes + Drop, const P: usize>(
    copy: &mut TreeSet<Compared<'a>, P>,
    set: &'a TreeSet<K, P>,
    count: &'a Cell<u64>,
) -> Answered {
    for element in set.iter() {
        let bytes = element.as_bytes();
        if let Err(TryInsertError::Memory(refused)) = copy.try_insert(Compared { bytes, count }) {
            return Err(Unanswered::Memory(refused));
        }
    }
    Ok(())
}
