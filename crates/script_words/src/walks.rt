//! Iterators, and the items of their steps.
ghost use Rattle.std.specs.Iterator.{IsFinite};

use crate::text::{Shown, Text};
use std::iter::{DoubleEndedIterator, Iterator};

/// Adds the result of each letter, or all items if there are no letters.
pub fn show_walk<W: DoubleEndedIterator>(walk: W, letters: Option<&[u8]>, text: &mut Text)
where
    W::Item: Shown + Drop,
    requires front { (s : W) → W.can_next s }
    requires back { (s : W) → W.can_next_back s }
    requires ends { IsFinite (W.remaining walk) }
{
    match letters {
        Some(letters) => show_steps(walk, letters, text),
        None => show_items(walk, text),
    }
}

/// Adds all items, between brackets and separated by commas.
pub fn show_items<W: Iterator>(walk: W, text: &mut Text)
where
    W::Item: Shown + Drop,
    requires can { W.can_next walk }
    requires ends { IsFinite (W.remaining walk) }
{
    text.push(b"[");
    let mut part: &[u8] = b"";
    for item in walk {
        text.push(part);
        item.show(text);
        part = b", ";
    }
    text.push(b"]");
}

/// Adds the result of each letter, separated by spaces.
fn show_steps<W: DoubleEndedIterator>(mut walk: W, letters: &[u8], text: &mut Text)
where
    W::Item: Shown + Drop,
    requires front { (s : W) → W.can_next s }
    requires back { (s : W) → W.can_next_back s }
    requires ends { IsFinite (W.remaining walk) }
{
    let mut part: &[u8] = b"";
    for letter in letters {
        text.push(part);
        match *letter {
            b'f' => walk.next().show(text),
            b'b' => walk.next_back().show(text),
            _ => walk.size_hint().0.show(text),
        }
        part = b" ";
    }
}
