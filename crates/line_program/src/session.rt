//! A run between two bytes of its input.
ghost use Rattle.std.specs.Prelude.{◌≡◌, ◌<◌, ◌+◌, [], length, take, slice_index, false, OnOk, MatchOption};
ghost use Rattle.line_program.specs.Watched.{watched_inner, watched_failed};
ghost use Rattle.line_program.specs.Lines.{IsLine};
ghost use Rattle.line_program.specs.Serves.{IsGrown, IsLineReplied, IsStepped, IsServed};
ghost use Rattle.line_program.specs.Ran.{IsFinished};

use crate::error::RunError;
use crate::output::Outbox;
use crate::pieces::{front, rest_after};
use crate::replies::{Pairs, reply};
use crate::watched::Watched;
use std::alloc::Global;
use std::io::Write;

/// The map, the replies that wait for the writer, and the bytes of the next line that were read.
#[derive(Drop)]
pub(crate) struct Session {
    pub(crate) map: Pairs,
    pub(crate) outbox: Outbox,
    pub(crate) line: Vec<u8>,
    alloc: Global,
}

impl Session {
    ghost use Rattle.line_program.specs.Session.{state_of};

    /// Returns a session with an empty map, before the first byte.
    pub(crate) fn new(alloc: Global) -> Self
        ensures { state_of result ≡ record { line = []; content = []; waiting = [] } }
    {
        Session {
            map: Pairs::new(alloc),
            outbox: Outbox::new(),
            line: Vec::new(alloc),
            alloc,
        }
    }

    /// Adds the bytes to the line. If it fails to allocate, it sends all bytes that wait, and
    /// returns an error.
    fn grow<W: Write>(&mut self, writer: &mut Watched<W>, bytes: &[u8]) -> Result<(), RunError>
        requires { watched_failed writer.old ≡ false }
        ensures { IsGrown result (W.contents (watched_inner writer.old))
            (W.contents (watched_inner writer.new))
            (watched_failed writer.new) bytes.now (state_of self.old) (state_of self.new) }
    {
        if self.line.extend_from_slice(bytes).is_err() {
            self.outbox.flush(writer)?;
            return Err(RunError::Memory);
        }
        Ok(())
    }

    /// Writes the reply to the line, and empties the line for the next.
    fn reply<W: Write>(&mut self, writer: &mut Watched<W>) -> Result<(), RunError>
        requires { watched_failed writer.old ≡ false }
        ensures { IsLineReplied result (W.contents (watched_inner writer.old))
            (W.contents (watched_inner writer.new))
            (watched_failed writer.new) (state_of self.old) (state_of self.new) }
    {
        reply(
            &mut self.map,
            self.alloc,
            &self.line,
            &mut self.outbox,
            writer,
        )?;
        self.line.clear();
        Ok(())
    }

    /// Adds the bytes up to a line feed to the line, and replies to the line. If there is no line
    /// feed, adds all bytes. Returns the number of bytes that it used, with the line feed.
    fn step<W: Write>(&mut self, writer: &mut Watched<W>, bytes: &[u8]) -> Result<usize, RunError>
        requires mark { watched_failed writer.old ≡ false }
        requires some { 0 < length bytes.now }
        requires line { IsLine self.old.line.items }
        ensures { IsStepped result (W.contents (watched_inner writer.old))
            (W.contents (watched_inner writer.new))
            (watched_failed writer.new) bytes.now (state_of self.old) (state_of self.new) }
    {
        match first_feed(bytes) {
            Some(at) => {
                self.grow(writer, front(bytes, at))?;
                self.reply(writer)?;
                Ok(at + 1)
            }
            None => {
                self.grow(writer, bytes)?;
                Ok(bytes.len())
            }
        }
    }

    /// Adds the bytes to the input, replies to each line that ends in them, and sends all replies.
    pub(crate) fn serve<W: Write>(
        &mut self,
        writer: &mut Watched<W>,
        bytes: &[u8],
    ) -> Result<(), RunError>
        requires mark { watched_failed writer.old ≡ false }
        requires line { IsLine self.old.line.items }
        ensures served { IsServed result (W.contents (watched_inner writer.old))
            (W.contents (watched_inner writer.new))
            (watched_failed writer.new) bytes.now (state_of self.old) (state_of self.new) }
        ensures sent { OnOk result (self.new.outbox ≡ []) }
    {
        let mut done = 0;
        while done < bytes.len() {
            done += self.step(writer, rest_after(bytes, done))?;
        }
        self.outbox.flush(writer)
    }

    /// Replies to the last line, if any bytes of it were read, and sends all replies.
    pub(crate) fn finish<W: Write>(&mut self, writer: &mut Watched<W>) -> Result<(), RunError>
        requires { watched_failed writer.old ≡ false }
        ensures { IsFinished result (W.contents (watched_inner writer.old))
            (W.contents (watched_inner writer.new))
            (watched_failed writer.new) (state_of self.old) }
    {
        if self.line.is_empty() {
            return self.outbox.flush(writer);
        }
        self.reply(writer)?;
        self.outbox.flush(writer)
    }
}

/// Returns the position of the first line feed.
fn first_feed(bytes: &[u8]) -> Option<usize>
    ensures { MatchOption result (IsLine bytes.now)
        (λ at. (at < length bytes.now) × (slice_index bytes.now at ≡ 10)
        × IsLine (take at bytes.now)) }
{
    for (at, byte) in bytes.iter().enumerate() {
        if *byte == b'\n' {
            return Some(at);
        }
    }
    None
}
