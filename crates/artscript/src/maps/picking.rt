//! Pairs that a closure picks, and pairs that a caller keeps or takes one by one.
ghost use Rattle.std.specs.Prelude.{◌≡◌, true, false, is_some};
ghost use Rattle.blart_map.specs.Content.{pairs};
ghost use Rattle.blart_map.specs.TakeWalk.{take_undecided};
ghost use Rattle.blart_keys.specs.Bounds.{bound_bytes, CanRange};
ghost use Rattle.blart_keys.specs.KeyBytes.{vec_bytes};

use crate::maps::calls::Maps;
use blart_keys::AsBytes;
use blart_map::TakeWalk;
use script_words::{Answered, Shown, Text, ValuePick, Words, show_walk};
use std::alloc::AllocError;
use std::iter::{DoubleEndedIterator, Iterator};
use std::ops::Bound;

impl<K: AsBytes + Shown + Drop, const PREFIX_LEN: usize> Maps<K, u64, PREFIX_LEN> {
    /// Keeps the pairs that the closure picks, and appends how often it was called.
    pub(crate) fn retain(&mut self, mut words: Words<'_>, text: &mut Text) -> Answered {
        let pick = ValuePick::read(&mut words)?;
        words.end()?;
        self.first.retain(|_, value| pick.picks(value));
        pick.asked().show(text);
        Ok(())
    }

    /// Removes the pairs that the closure picks, and appends them and how often it was called.
    pub(crate) fn extract_if(
        &mut self,
        start: Bound<&Vec<u8>>,
        end: Bound<&Vec<u8>>,
        mut words: Words<'_>,
        text: &mut Text,
    ) -> Answered
        requires { CanRange (pairs self.old.first) (bound_bytes vec_bytes start)
            (bound_bytes vec_bytes end) }
    {
        let pick = ValuePick::read(&mut words)?;
        let letters = words.last_moves()?;
        let walk = self
            .first
            .extract_if(start, end, |_, value| pick.picks(value));
        show_walk(walk, letters, text);
        text.push(b" ");
        pick.asked().show(text);
        Ok(())
    }

    /// Walks over the pairs within two bounds, and keeps or takes each as the letters say. Appends
    /// the result of each letter.
    pub(crate) fn take_walk(
        &mut self,
        start: Bound<&Vec<u8>>,
        end: Bound<&Vec<u8>>,
        mut words: Words<'_>,
        text: &mut Text,
    ) -> Answered
        requires { CanRange (pairs self.old.first) (bound_bytes vec_bytes start)
            (bound_bytes vec_bytes end) }
    {
        let letters = words.last_decisions()?;
        let mut walk = self.first.take_walk(start, end);
        take_steps(&mut walk, letters, text);
        Ok(())
    }
}

/// Appends the result of each letter, separated by spaces.
fn take_steps<K: AsBytes + Shown + Drop, const P: usize>(
    walk: &mut TakeWalk<'_, K, u64, P>,
    letters: &[u8],
    text: &mut Text,
) {
    let mut part: &[u8] = b"";
    for letter in letters {
        text.push(part);
        if *letter == b'u' {
            walk.undecided().show(text);
        } else if walk.undecided() {
            decide(walk, *letter, text);
        } else {
            lend(walk, *letter, text);
        }
        part = b" ";
    }
}

/// Keeps or takes the pair at which the walk is.
fn decide<K: AsBytes + Shown + Drop, const P: usize>(
    walk: &mut TakeWalk<'_, K, u64, P>,
    letter: u8,
    text: &mut Text,
)
    requires { is_some (take_undecided walk.old) ≡ true }
{
    match letter {
        b'k' => {
            walk.keep();
            text.push(b"()")
        }
        b't' => walk.take().show(text),
        _ => text.push(b"?"),
    }
}

/// Moves the walk to the pair at one end, and appends the pair.
fn lend<K: AsBytes + Shown + Drop, const P: usize>(
    walk: &mut TakeWalk<'_, K, u64, P>,
    letter: u8,
    text: &mut Text,
)
    requires { is_some (take_undecided walk.old) ≡ false }
{
    let lent = match letter {
        b'f' => walk.lend().copied(),
        b'b' => walk.lend_back().copied(),
        _ => return text.push(b"?"),
    };
    match lent {
        Some(value) if walk.undecided() => Some((walk.key(), value)).show(text),
        _ => text.push(b"None"),
    }
}
