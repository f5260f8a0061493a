//! Walks that yield mutable references, and the items of their steps.
use script_words::{Shown, Text};
use std::iter::Iterator;

/// A walk that yields mutable references. A number is added to each value as the walk passes it.
pub(crate) trait Lending {
    /// Takes a step from the front. Appends `part` and the item before its change, if there is an
    /// item. Returns whether there is.
    fn front(&mut self, add: u64, part: &[u8], text: &mut Text) -> bool;

    /// Takes a step from the back, like `front`.
    fn back(&mut self, add: u64, part: &[u8], text: &mut Text) -> bool;

    /// Returns the number of items left, if the walk has `len`. The steps of other walks do not ask
    /// for it.
    fn left(&self) -> usize {
        0
    }
}

/// Appends the item of each step that the letters name, or all items if there are no letters.
pub(crate) fn show_lending<W: Lending + Drop>(
    mut walk: W,
    add: u64,
    letters: Option<&[u8]>,
    text: &mut Text,
) {
    match letters {
        Some(letters) => show_lent_steps(&mut walk, add, letters, text),
        None => show_lent(&mut walk, add, text),
    }
}

/// Appends all items, in brackets and separated by commas.
fn show_lent<W: Lending>(walk: &mut W, add: u64, text: &mut Text) {
    text.push(b"[");
    let mut part: &[u8] = b"";
    for _ in 0..u64::MAX {
        if !walk.front(add, part, text) {
            break;
        }
        part = b", ";
    }
    text.push(b"]");
}

/// Appends the items of the steps that the letters name, separated by spaces.
fn show_lent_steps<W: Lending>(walk: &mut W, add: u64, letters: &[u8], text: &mut Text) {
    let mut part: &[u8] = b"";
    for letter in letters {
        text.push(part);
        show_lent_step(walk, add, *letter, text);
        part = b" ";
    }
}

/// Appends the item of the step that the letter names.
fn show_lent_step<W: Lending>(walk: &mut W, add: u64, letter: u8, text: &mut Text) {
    let is_some = match letter {
        b'f' => walk.front(add, b"Some(", text),
        b'b' => walk.back(add, b"Some(", text),
        _ => return walk.left().show(text),
    };
    text.push(if is_some { b")" } else { b"None" });
}

/// Appends `part` and the item, if there is an item. Returns whether there is.
pub(crate) fn show_item<T: Shown + Drop>(item: Option<T>, part: &[u8], text: &mut Text) -> bool {
    match item {
        Some(item) => {
            text.push(part);
            item.show(text);
            true
        }
        None => false,
    }
}
