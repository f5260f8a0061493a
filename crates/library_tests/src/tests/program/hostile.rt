//! Lines that are no commands, and readers and writers that fail in the middle of a line or an
//! answer.
use super::{AMPLE, Ends, SOUND, assert_outcome, push, text_of};
use blart::RunError;
use std::process::Abort;

/// Lines with spaces, letters and signs that no command has, with too many digits, and with bytes
/// that are no text. Then the greatest number, and the most digits.
const LINES: &[u8] =
    b"get 01 \n list\nGET 01\nlist\r\nget --\ninsert 01 +5\ninsert 01 000000000000000000005\n\xff\x00\ninsert 01 18446744073709551615\ninsert 01 00000000000000000005\nget 01";

const ANSWERS: &[u8] =
    b"refused line\nrefused line\nrefused line\nrefused line\nrefused line\nrefused line\nrefused line\nrefused line\nnone\nold 18446744073709551615\n5\n";

/// Spaces, signs, letters, a carriage return, too many digits, and bytes that are not text.
#[test]
fn lines_at_the_edge_of_a_command(rt: HostRuntime) {
    for piece in [1, 7, 1000] {
        let ends = Ends { piece, ..SOUND };
        assert_outcome(&rt, LINES, ends, Ok(()), ANSWERS);
    }
}

/// Appends the line once for each of its bytes, with that byte replaced by another.
fn push_all_spoiled(rt: &impl Abort, text: &mut Vec<u8>, line: &[u8], byte: u8) {
    for place in 0..line.len() {
        push(rt, text, &line[..place], 1);
        push(rt, text, &[byte], 1);
        push(rt, text, &line[place + 1..], 1);
        push(rt, text, b"\n", 1);
    }
}

/// The commands. They have 103 bytes in all.
const COMMANDS: [&str; 9] = [
    "insert 0102 8",
    "get 0102",
    "remove 0102",
    "remove-prefix 02",
    "prefix-get 010203",
    "overwrite 01 9",
    "prefix 01",
    "range 01 02",
    "list",
];

/// A command is refused if one of its bytes is replaced by a byte that no command has. The map has
/// one pair.
#[test]
fn commands_with_a_byte_that_none_has(rt: HostRuntime) {
    let parts = [
        ("none\n", 1),
        ("refused line\n", 103),
        ("0102 7\nend 1\n", 1),
    ];
    let answers = text_of(&rt, &parts);
    for byte in [0, b'\r', b'+', b'Z', 255] {
        let mut text = text_of(&rt, &[("insert 0102 7\n", 1)]);
        for command in COMMANDS {
            push_all_spoiled(&rt, &mut text, command.as_bytes(), byte);
        }
        push(&rt, &mut text, b"list", 1);
        assert_outcome(&rt, &text, SOUND, Ok(()), &answers);
        drop(text);
    }
    drop(answers);
}

/// A last line without a line feed is answered at the end of the input, but not after a read that
/// failed.
#[test]
fn a_last_line_after_a_failed_read_is_not_answered(rt: HostRuntime) {
    for piece in [1, 2, 3, 5, 1000] {
        let ends = Ends { piece, ..SOUND };
        let lines = b"insert 01 5\nget 01";
        assert_outcome(&rt, lines, ends, Ok(()), b"none\n5\n");
        let ends = Ends {
            read_fails: true,
            ..ends
        };
        assert_outcome(&rt, lines, ends, Err(RunError::Read), b"none\n");
        assert_outcome(&rt, b"", ends, Err(RunError::Read), b"");
    }
}

/// Checks that a prefix of the answers was written, for each room of the writer, and if a full
/// writer fails as well as if it takes nothing.
fn assert_cut_short(rt: &(impl Abort + AllocGlobal), text: &[u8], answers: &[u8]) {
    for room in 0..answers.len() {
        let written = answers.split_at(room).0;
        for most in [1, 4, AMPLE] {
            for write_fails in [false, true] {
                let ends = Ends {
                    most,
                    room,
                    write_fails,
                    ..SOUND
                };
                assert_outcome(rt, text, ends, Err(RunError::Write), written);
            }
        }
    }
}

/// A writer that is full at any byte, also within a listing, has a prefix of the results.
#[test]
fn a_writer_is_full_after_any_byte(rt: HostRuntime) {
    assert_cut_short(&rt, b"insert 01 5", b"none\n");
    assert_cut_short(
        &rt,
        b"insert 01 5\nlist\nlast",
        b"none\n01 5\nend 1\nrefused line\n",
    );
    assert_cut_short(
        &rt,
        b"insert 01 5\ninsert 02 6\nprefix -\n",
        b"none\nnone\n01 5\n02 6\nend 2\n",
    );
    assert_cut_short(
        &rt,
        b"insert 01 5\ninsert 02 6\nrange 02 03\n",
        b"none\nnone\n02 6\nend 1\n",
    );
}
