//! Runs a script: from its lines to its answers.
//!
//! [`answers`] runs a whole script. A [`Session`] holds the maps and sets that the lines call, and
//! runs one line after the other.
mod counted;
mod mounts;
pub(crate) mod parts;

pub(crate) use parts::Session;
use script_words::{Text, Unanswered};
use std::alloc::Global;
use std::cell::Cell;
use std::iter::Iterator;

/// Returns the results of the lines of the script. Each ends with a line feed.
pub(crate) fn answers<const PREFIX_LEN: usize>(
    alloc: Global,
    script: &[u8],
) -> Result<Text, Unanswered> {
    let drops = Cell::new(0u64);
    let mut session = Session::<PREFIX_LEN>::new(alloc);
    let mut text = Text::new(alloc);
    reply_all(&mut session, &drops, script, &mut text);
    drop(session);
    match text.is_whole() {
        Ok(()) => Ok(text),
        Err(refused) => {
            drop(text);
            Err(refused)
        }
    }
}

/// Appends the reply to each line of the script.
fn reply_all<'a, const PREFIX_LEN: usize>(
    session: &mut Session<'a, PREFIX_LEN>,
    drops: &'a Cell<u64>,
    script: &[u8],
    text: &mut Text,
) {
    if script.is_empty() {
        return;
    }
    let lines = script.strip_suffix(b"\n").unwrap_or(script);
    for line in lines.split(|byte| *byte == b'\n') {
        reply(session, drops, line, text);
        text.push(b"\n");
    }
}

/// Appends the reply to the line: the line itself if it is empty or a remark, else its answer or a
/// question mark.
fn reply<'a, const PREFIX_LEN: usize>(
    session: &mut Session<'a, PREFIX_LEN>,
    drops: &'a Cell<u64>,
    line: &[u8],
    text: &mut Text,
) {
    if line.is_empty() || line.starts_with(b"#") {
        return text.push(line);
    }
    session.answer(drops, line, text);
}
