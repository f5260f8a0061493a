//! Runs of the program, refused at each request.
use super::say_refused;
use blart::{RunError, Watched, run};
use std::io;
use std::io::Read;
use std::process::Abort;

/// The first read returns one line, and the second read all others. The second line is longer than
/// the first, so its buffer grows.
const LINE: &[u8] = b"insert 01 5\n";

const OTHERS: &[u8] = b"insert 0203040506070809 6\nlist\n";

const ANSWERS: &[u8] = b"none\nnone\n01 5\n0203040506070809 6\nend 2\n";

/// Checks what a run with refused requests has written. If there is no memory for the pair of a
/// line, the answer says so and the run continues. If there is none for a line itself, the lines
/// before it are answered: if it is the second line, the first is. If the first pair and a later
/// request were refused, writes `refused` once more than the caller does.
fn assert_refused(
    rt: &(impl Abort + Print),
    ended: Result<(), RunError>,
    written: &[u8],
    has_others: bool,
) {
    let first: &[u8] = b"refused memory\nnone\n0203040506070809 6\nend 1\n";
    let second: &[u8] = b"none\nrefused memory\n01 5\nend 1\n";
    let answered: &[u8] = if has_others { b"none\n" } else { b"" };
    let both: &[u8] = match ended {
        Ok(()) => b"refused memory\nrefused memory\nend 0\n",
        Err(_) => b"refused memory\n",
    };
    if *written == *both {
        say_refused(rt);
    }
    let is_right = match ended {
        Ok(()) => *written == *first || *written == *second || *written == *both,
        Err(RunError::Memory) => *written == *answered || (has_others && *written == *both),
        Err(RunError::Read) | Err(RunError::Write) => false,
    };
    assert!(rt; is_right);
}

/// Returns whether there was memory for a buffer of answers and for all lines. If so, all lines are
/// answered.
fn answers_all(rt: &(impl Abort + AllocGlobal + Print)) -> bool {
    let Ok(page) = Vec::with_capacity(rt.alloc(), 100) else {
        return false;
    };
    let mut reader = Watched::new(io::Cursor::new(LINE).chain(io::Cursor::new(OTHERS)));
    let mut writer = Watched::new(page);
    let ended = run(rt.alloc(), &mut reader, &mut writer);
    let (_, others) = reader.into_inner().into_inner();
    let written = writer.into_inner();
    let is_all = ended.is_ok() && *written.as_slice() == *ANSWERS;
    if !is_all {
        assert_refused(rt, ended, written.as_slice(), others.position() > 0);
    }
    drop(written);
    is_all
}

/// A run that fails to allocate for a line writes the results before it, and returns `Memory`.
#[test]
fn run_of_three_lines(rt: HostRuntime) {
    if !answers_all(&rt) {
        say_refused(&rt);
        // Refusals pause.
        assert!(rt; answers_all(&rt));
        // Refusals resume.
    }
}
