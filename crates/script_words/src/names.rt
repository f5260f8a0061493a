//! Look-ups of words in a table of names.
use std::iter::Iterator;

/// Returns the value of the word in the table, if the table has the word.
pub fn named<T: Copy>(names: &[(&str, T)], word: &[u8]) -> Option<T> {
    for (text, value) in names {
        if text.as_bytes() == word {
            return Some(*value);
        }
    }
    None
}
