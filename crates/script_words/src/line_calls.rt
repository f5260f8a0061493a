//! The call that a line names.
use crate::answered::Unanswered;
use crate::map_names::{MapName, map_name_of};
use crate::reading::Words;
use crate::set_names::{SetName, set_name_of};

/// A call of the maps, or of the sets.
#[derive(Clone, Copy)]
pub enum LineCall {
    /// A call of the maps.
    Map(MapName),
    /// A call of the sets.
    Set(SetName),
}

impl LineCall {
    /// Reads the call that the next word names, or the next two.
    pub fn read(words: &mut Words<'_>) -> Result<LineCall, Unanswered> {
        let word = words.word()?;
        if word == b"set".as_slice() {
            return match set_name_of(words.word()?) {
                Some(name) => Ok(LineCall::Set(name)),
                None => Err(Unanswered::NoCall),
            };
        }
        match map_name_of(word) {
            Some(name) => Ok(LineCall::Map(name)),
            None => Err(Unanswered::NoCall),
        }
    }
}
