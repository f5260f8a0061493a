//! The program over any reader and writer.
ghost use Rattle.std.specs.Prelude.{◌≡◌, ◌<◌, ◌-◌, ◌^◌, ℕ, List, [], ◌++◌, length, false, Some};
ghost use Rattle.line_program.specs.Watched.{watched_inner, watched_failed, watched_ended, watched_read_again};
ghost use Rattle.line_program.specs.Lines.{IsLine};
ghost use Rattle.line_program.specs.Session.{state_of};
ghost use Rattle.line_program.specs.RunEnds.{RunEnds, IsMarked};
ghost use Rattle.line_program.specs.Ran.{IsReadAll};

use crate::error::RunError;
use crate::pieces::front;
use crate::session::Session;
use crate::watched::Watched;
use std::alloc::Global;
use std::io::{Read, Write};

/// Replies to the lines of the reader, one after another, over a map from byte lists to numbers.
///
/// A line is the bytes up to a line feed, and the bytes after the last line feed if there are any.
/// The replies are sent whenever the reader is asked for more. After a read that returns 0 bytes or
/// an error, the reader is not read again. The writer is not flushed.
///
/// An error ends the run. After `RunError::Read`, there is a reply to each line that a line feed
/// ended. After `RunError::Write`, the bytes that were written are a prefix of the replies. After
/// `RunError::Memory`, a line did not fit in memory, and there is a reply to each line before it.
///
/// Cost: allocates for a line and for the map.
///
/// ```
/// let mut reader = Watched::new(b"insert 0102 7\nget 0102\n".as_slice());
/// let mut writer = Watched::new(Vec::new(rt.alloc()));
/// run(rt.alloc(), &mut reader, &mut writer)?;
/// // `none` and `7` were written, each on a line
/// ```
pub fn run<R: Read, W: Write>(
    alloc: Global,
    reader: &mut Watched<R>,
    writer: &mut Watched<W>,
) -> Result<(), RunError>
    requires reader { watched_failed reader.old ≡ false }
    requires writer { watched_failed writer.old ≡ false }
    // If both tell their bytes, and the input is short enough for the number of reads.
    ensures replied { (input before : List ℕ) → R.remaining (watched_inner reader.old) ≡ Some input
        → length input < 2 ^ 64 - 1
        → W.contents (watched_inner writer.old) ≡ Some before
        → (read rest written : List ℕ) × (input ≡ read ++ rest)
        × (R.remaining (watched_inner reader.new) ≡ Some rest)
        × (W.contents (watched_inner writer.new) ≡ Some (before ++ written))
        × RunEnds result (watched_failed reader.new) (watched_failed writer.new) read rest written }
    ensures marks { IsMarked result (watched_failed reader.new) (watched_failed writer.new) }
    ensures once { watched_ended reader.old ≡ false
        → watched_read_again reader.new ≡ watched_read_again reader.old }
{
    let mut session = Session::new(alloc);
    if let Err(error) = read_all(&mut session, reader, writer) {
        drop(session);
        return Err(error);
    }
    let ended = session.finish(writer);
    drop(session);
    ended
}

/// Replies to all lines that the reader yields.
fn read_all<R: Read, W: Write>(
    session: &mut Session,
    reader: &mut Watched<R>,
    writer: &mut Watched<W>,
) -> Result<(), RunError>
    requires reader { watched_failed reader.old ≡ false }
    requires writer { watched_failed writer.old ≡ false }
    requires line { IsLine session.old.line.items }
    requires none { session.old.outbox ≡ [] }
    ensures read { IsReadAll result (R.remaining (watched_inner reader.old))
        (R.remaining (watched_inner reader.new)) (watched_failed reader.new)
        (W.contents (watched_inner writer.old)) (W.contents (watched_inner writer.new))
        (watched_failed writer.new)
        (state_of session.old) (state_of session.new) }
    ensures once { watched_ended reader.old ≡ false
        → watched_read_again reader.new ≡ watched_read_again reader.old }
{
    let mut chunk = [0; 8192];
    for _turn in 0..u64::MAX {
        match reader.read(&mut chunk) {
            Ok(0) => return Ok(()),
            Ok(count) => session.serve(writer, front(&chunk, count))?,
            Err(_) => return Err(RunError::Read),
        }
    }
    Ok(())
}
