//! An end of a run that remembers whether it failed, and whether it was read again after its end.
ghost use Rattle.std.specs.Prelude.{◌≡◌, ◌||◌, false, is_err};
ghost use Rattle.std.specs.Io.{ReadsAtMost, WritesAtMost};
ghost use Rattle.std.specs.Io.KnownBytes.{Keeps, ReadConsumes, WriteAppends};
ghost use Rattle.line_program.specs.Watched.{watched_inner, watched_failed, watched_ended, watched_read_again, takes_nothing};

use std::io;
use std::io::{Read, Write};

/// A reader or a writer with two marks: whether a read or a write of it failed, and whether it was
/// read again after a read that returned the end or an error.
#[derive(Drop)]
pub struct Watched<T> {
    inner: T,
    failed: bool,
    /// Set if a read returned the end or an error.
    ended: bool,
    read_again: bool,
}

impl<T> Watched<T> {
    /// Returns the reader or writer, with no mark.
    ///
    /// Cost: none.
    pub fn new(inner: T) -> Self
        ensures inner { watched_inner result ≡ inner }
        ensures mark { watched_failed result ≡ false }
        ensures ended { watched_ended result ≡ false }
        ensures again { watched_read_again result ≡ false }
    {
        Watched {
            inner,
            failed: false,
            ended: false,
            read_again: false,
        }
    }

    /// Returns `true` if a read or a write returned an error, or a write took no byte of a piece
    /// that was not empty.
    ///
    /// Cost: none.
    pub fn failed(&self) -> bool
        ensures { result ≡ watched_failed self.now }
    {
        self.failed
    }

    /// Returns `true` if a read came after a read that returned an error, or no byte for a buffer
    /// that was not empty.
    ///
    /// Cost: none.
    pub fn read_again(&self) -> bool
        ensures { result ≡ watched_read_again self.now }
    {
        self.read_again
    }

    /// Returns the reader or writer, without its marks.
    ///
    /// Cost: none.
    pub fn into_inner(self) -> T
        ensures { result ≡ watched_inner self }
    {
        self.inner
    }
}

impl<R: Read> Read for Watched<R> {
    ghost remaining = { λ w. R.remaining (watched_inner w) };

    /// Returns the result of the inner `read`, and sets the marks.
    ///
    /// Cost: the inner `read`.
    fn read(&mut self, buf: &mut [u8]) -> io::Result<usize>
        ensures bound { ReadsAtMost result buf.new }
        ensures bytes { ReadConsumes (R.remaining (watched_inner self.old))
            (R.remaining (watched_inner self.new)) result buf.new }
        ensures mark { watched_failed self.new ≡ (watched_failed self.old || is_err result) }
        ensures ended { watched_ended self.new
            ≡ (watched_ended self.old || takes_nothing result buf.new) }
        ensures again { watched_read_again self.new
            ≡ (watched_read_again self.old || watched_ended self.old) }
    {
        let result = self.inner.read(buf);
        let is_end = match &result {
            Ok(count) => *count == 0 && !buf.is_empty(),
            Err(_) => true,
        };
        self.failed |= result.is_err();
        self.read_again |= self.ended;
        self.ended |= is_end;
        result
    }
}

impl<W: Write> Write for Watched<W> {
    ghost contents = { λ w. W.contents (watched_inner w) };

    /// Returns the result of the inner `write`, and sets the mark of a failure.
    ///
    /// Cost: the inner `write`.
    fn write(&mut self, buf: &[u8]) -> io::Result<usize>
        ensures bound { WritesAtMost result buf.now }
        ensures bytes { WriteAppends (W.contents (watched_inner self.old))
            (W.contents (watched_inner self.new)) result buf.now }
        ensures mark { watched_failed self.new
            ≡ (watched_failed self.old || takes_nothing result buf.now) }
    {
        let result = self.inner.write(buf);
        let took_nothing = match &result {
            Ok(count) => *count == 0 && !buf.is_empty(),
            Err(_) => true,
        };
        self.failed |= took_nothing;
        result
    }

    /// Returns the result of the inner `flush`. Sets no mark.
    ///
    /// Cost: the inner `flush`.
    fn flush(&mut self) -> io::Result<()>
        ensures bytes { Keeps (W.contents (watched_inner self.old))
            (W.contents (watched_inner self.new)) }
        ensures mark { watched_failed self.new ≡ watched_failed self.old }
    {
        self.inner.flush()
    }
}
