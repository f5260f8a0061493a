//! The call that runs calls in turn.
use crate::maps::calls::Maps;
use blart_map::{Reply, drive};
use script_words::{Answered, ScriptKey, Shown, Text, Words, items_of};
use std::alloc::AllocError;

impl<K: ScriptKey, const PREFIX_LEN: usize> Maps<K, u64, PREFIX_LEN> {
    /// Runs the calls that the words name, and appends their replies.
    pub(crate) fn drive(&mut self, words: Words<'_>, text: &mut Text) -> Answered {
        let calls = items_of(words)?;
        let replies = drive(&mut self.first, calls);
        replies.show(text);
        drop(replies);
        Ok(())
    }
}
