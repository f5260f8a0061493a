//! A buffer of fixed size, for the replies that wait for the writer.
ghost use Rattle.std.specs.Prelude.{◌≡◌, ◌≤◌, ◌<◌, ◌+◌, ℕ, List, [], ◌∷◌, ◌++◌, length, take, false, OnOk};
ghost use Rattle.line_program.specs.Watched.{watched_inner, watched_failed};
ghost use Rattle.line_program.specs.Sent.{IsSent};

use crate::error::RunError;
use crate::pieces::rest_after;
use crate::watched::Watched;
use std::io::Write;
use std::marker::Model;

/// The largest number of bytes that wait.
pub(crate) const ROOM: usize = 8192;

/// Bytes that wait for the writer.
#[derive(Drop)]
pub(crate) struct Outbox {
    bytes: [u8; ROOM],
    count: usize,
}

impl Model for Outbox {
    ghost Value = { List ℕ };

    ghost view = { λ o. take o.count o.bytes };

    ghost invariant = { λ o. o.count ≤ 8192 };
}

impl Outbox {
    /// Returns a buffer with no bytes.
    pub(crate) fn new() -> Self
        ensures { result ≡ [] }
    {
        Outbox {
            bytes: [0; ROOM],
            count: 0,
        }
    }

    /// Adds the text after the bytes that wait.
    pub(crate) fn append(&mut self, text: &[u8])
        requires { length self.old + length text.now ≤ ROOM }
        ensures { self.new ≡ self.old ++ text.now }
    {
        let end = self.count + text.len();
        self.bytes[self.count..end].copy_from_slice(text);
        self.count = end;
    }

    /// Adds one byte after the bytes that wait.
    pub(crate) fn push(&mut self, byte: u8)
        requires { length self.old < ROOM }
        ensures { self.new ≡ self.old ++ byte ∷ [] }
    {
        self.bytes[self.count] = byte;
        self.count += 1;
    }

    /// Returns the bytes that wait.
    fn as_slice(&self) -> &[u8]
        ensures { result.now ≡ self.now }
    {
        &self.bytes[..self.count]
    }

    /// Removes the bytes that wait.
    fn clear(&mut self)
        ensures { self.new ≡ [] }
    {
        self.count = 0;
    }

    /// Sends all bytes that wait.
    pub(crate) fn flush<W: Write>(&mut self, writer: &mut Watched<W>) -> Result<(), RunError>
        requires { watched_failed writer.old ≡ false }
        ensures sent { IsSent result (W.contents (watched_inner writer.old))
            (W.contents (watched_inner writer.new))
            (watched_failed writer.new) self.old self.new }
        ensures empty { OnOk result (self.new ≡ []) }
    {
        send(writer, self.as_slice())?;
        self.clear();
        Ok(())
    }

    /// Makes room for `count` bytes. If there is too little, it sends all bytes that wait.
    pub(crate) fn make_room<W: Write>(
        &mut self,
        writer: &mut Watched<W>,
        count: usize,
    ) -> Result<(), RunError>
        requires mark { watched_failed writer.old ≡ false }
        requires fits { count ≤ ROOM }
        ensures sent { IsSent result (W.contents (watched_inner writer.old))
            (W.contents (watched_inner writer.new))
            (watched_failed writer.new) self.old self.new }
        ensures room { OnOk result (length self.new + count ≤ ROOM) }
    {
        if ROOM - self.count < count {
            self.flush(writer)?;
        }
        Ok(())
    }
}

/// Writes all the bytes. After an error some prefix of them was written.
fn send<W: Write>(writer: &mut Watched<W>, bytes: &[u8]) -> Result<(), RunError>
    requires { watched_failed writer.old ≡ false }
    ensures { IsSent result (W.contents (watched_inner writer.old))
        (W.contents (watched_inner writer.new))
        (watched_failed writer.new) bytes.now [] }
{
    let mut sent = 0;
    while sent < bytes.len() {
        match writer.write(rest_after(bytes, sent)) {
            Ok(0) => return Err(RunError::Write),
            Ok(count) => sent += count,
            Err(_) => return Err(RunError::Write),
        }
    }
    Ok(())
}
