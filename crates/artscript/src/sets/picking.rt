//! Elements that a closure picks.
ghost use Rattle.blart_keys.specs.Bounds.{bound_bytes, CanRange};
ghost use Rattle.blart_keys.specs.KeyBytes.{vec_bytes};
ghost use Rattle.blart_set.specs.Elements.{elements};

use crate::sets::calls::Sets;
use blart_keys::AsBytes;
use script_words::{Answered, BytesPick, Shown, Text, Words, show_walk};
use std::alloc::AllocError;
use std::iter::{DoubleEndedIterator, Iterator};
use std::ops::Bound;

impl<K: AsBytes + Shown + Drop, const PREFIX_LEN: usize> Sets<K, PREFIX_LEN> {
    /// Keeps the elements that the closure picks, and appends how often it was called.
    pub(crate) fn retain(&mut self, mut words: Words<'_>, text: &mut Text) -> Answered {
        let pick = BytesPick::read(&mut words)?;
        words.end()?;
        self.first.retain(|element| pick.picks(element.as_bytes()));
        pick.asked().show(text);
        Ok(())
    }

    /// Removes the elements that the closure picks, and appends them and how often it was called.
    pub(crate) fn extract_if(
        &mut self,
        start: Bound<&Vec<u8>>,
        end: Bound<&Vec<u8>>,
        mut words: Words<'_>,
        text: &mut Text,
    ) -> Answered
        requires { CanRange (elements self.old.first) (bound_bytes vec_bytes start)
            (bound_bytes vec_bytes end) }
    {
        let pick = BytesPick::read(&mut words)?;
        let letters = words.last_moves()?;
        let walk = self
            .first
            .extract_if(start, end, |element| pick.picks(element.as_bytes()));
        show_walk(walk, letters, text);
        text.push(b" ");
        pick.asked().show(text);
        Ok(())
    }
}
