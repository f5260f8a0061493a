//! Runs of the program over readers and writers that fail.

mod hostile;
mod lines;

use crate::tests::assert_display;
use blart::{RunError, Watched, fault_line, run};
use std::io;
use std::io::{ErrorKind, Read, Write};
use std::process::Abort;

/// A reader of a text. Each read returns at most `most` bytes. At the end it fails if `fails` is
/// true.
#[derive(Drop)]
struct Pieces<'a> {
    text: &'a [u8],
    most: usize,
    fails: bool,
    /// Whether a read has returned the end or an error, and whether another read came after it.
    ended: bool,
    read_again: bool,
}

impl<'a> Pieces<'a> {
    fn new(text: &'a [u8], most: usize, fails: bool) -> Self {
        Pieces {
            text,
            most,
            fails,
            ended: false,
            read_again: false,
        }
    }
}

impl Read for Pieces<'_> {
    fn read(&mut self, buf: &mut [u8]) -> io::Result<usize> {
        self.read_again |= self.ended;
        self.ended = self.text.is_empty();
        if self.ended && self.fails {
            return Err(io::Error::from(ErrorKind::Other));
        }
        let count = self.text.len().min(self.most).min(buf.len());
        let (front, rest) = self.text.split_at(count);
        buf[..count].copy_from_slice(front);
        self.text = rest;
        Ok(count)
    }
}

/// A writer that takes at most `most` bytes a call, and `room` bytes in all. When it is full, it
/// fails if `fails` is true, else it takes nothing. It remembers whether it was flushed.
#[derive(Drop)]
struct Sink {
    taken: Vec<u8>,
    most: usize,
    room: usize,
    fails: bool,
    flushed: bool,
}

impl Write for Sink {
    fn write(&mut self, buf: &[u8]) -> io::Result<usize> {
        let count = buf.len().min(self.most).min(self.room);
        if count == 0 && self.fails {
            return Err(io::Error::from(ErrorKind::Other));
        }
        self.taken.extend_from_slice(&buf[..count])?;
        self.room -= count;
        Ok(count)
    }

    fn flush(&mut self) -> io::Result<()> {
        self.flushed = true;
        Ok(())
    }
}

const AMPLE: usize = 1 << 30;

/// The reader and the writer of a run.
#[derive(Clone, Copy)]
struct Ends {
    piece: usize,
    read_fails: bool,
    most: usize,
    room: usize,
    write_fails: bool,
}

const SOUND: Ends = Ends {
    piece: 100,
    read_fails: false,
    most: AMPLE,
    room: AMPLE,
    write_fails: true,
};

/// Checks that a run over the text ends with this result and has written these bytes. Only the end
/// that failed is marked. The reader was not read again after its end or its failure, and the
/// writer was not flushed.
fn assert_outcome(
    rt: &(impl Abort + AllocGlobal),
    text: &[u8],
    ends: Ends,
    ended: Result<(), RunError>,
    written: &[u8],
) {
    let mut reader = Watched::new(Pieces::new(text, ends.piece, ends.read_fails));
    let mut writer = Watched::new(Sink {
        taken: Vec::new(rt.alloc()),
        most: ends.most,
        room: ends.room,
        fails: ends.write_fails,
        flushed: false,
    });
    let result = run(rt.alloc(), &mut reader, &mut writer);
    let (read_failed, write_failed) = (reader.failed(), writer.failed());
    let is_marked = reader.read_again();
    let is_read_again = reader.into_inner().read_again;
    let Sink { taken, flushed, .. } = writer.into_inner();
    let is_written = *taken.as_slice() == *written;
    drop(taken);
    assert!(rt; result == ended && is_written);
    assert!(rt; !is_read_again && !is_marked && !flushed);
    assert!(rt; read_failed == matches!(ended, Err(RunError::Read)));
    assert!(rt; write_failed == matches!(ended, Err(RunError::Write)));
}

/// Appends the bytes to the text, `count` times.
fn push(rt: &impl Abort, text: &mut Vec<u8>, bytes: &[u8], count: usize) {
    for _ in 0..count {
        text.extend_from_slice(bytes).expect(rt, "memory");
    }
}

/// Returns the parts in turn, each repeated as often as its number says.
fn text_of(rt: &(impl Abort + AllocGlobal), parts: &[(&str, usize)]) -> Vec<u8> {
    let mut text = Vec::new(rt.alloc());
    for (part, count) in parts {
        push(rt, &mut text, part.as_bytes(), *count);
    }
    text
}

/// Checks a long line, and an answer that is longer than the program's buffer, with writers that
/// take any number of bytes at a time.
#[test]
fn lines_and_answers_of_many_bytes(rt: HostRuntime) {
    let rows: [(&[(&str, usize)], &[(&str, usize)]); 2] = [
        (
            &[("insert ", 1), ("1A", 5000), (" 3\nlist", 1)],
            &[("none\n", 1), ("1a", 5000), (" 3\nend 1\n", 1)],
        ),
        (
            &[("a", 1_000_000), ("\nlist", 1)],
            &[("refused line\nend 0\n", 1)],
        ),
    ];
    for (line, answer) in rows {
        let text = text_of(&rt, line);
        let answers = text_of(&rt, answer);
        for most in [1, 7, AMPLE] {
            let ends = Ends {
                piece: 3000,
                most,
                ..SOUND
            };
            assert_outcome(&rt, &text, ends, Ok(()), &answers);
        }
        drop(text);
        drop(answers);
    }
}

/// Checks the text of each error, and the line that the program writes for it.
#[test]
fn texts_of_errors(rt: HostRuntime) {
    for (error, text, line) in [
        (RunError::Read, "read failed", "artmap: read failed"),
        (RunError::Write, "write failed", "artmap: write failed"),
        (RunError::Memory, "out of memory", "artmap: out of memory"),
    ] {
        assert_display(&rt, &error, text);
        assert!(rt; fault_line(error) == line);
    }
}
