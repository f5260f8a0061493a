//! Replies as text. They do not allocate.
ghost use Rattle.std.specs.Prelude.{◌≡◌, ◌≤◌, ◌<◌, ◌+◌, ◌/◌, ◌%◌, ◌++◌, ◌∷◌, [], length, false, codes, decimal, slice_index};
ghost use Rattle.hex.specs.Hex.{encode_lower, lower_digits};
ghost use Rattle.line_program.specs.Watched.{watched_inner, watched_failed};
ghost use Rattle.line_program.specs.Sent.{IsSent};
ghost use Rattle.line_program.specs.Lines.{ended};
ghost use Rattle.line_program.specs.Results.{key_text, pair_text};
ghost use Rattle.line_program.specs.Texts.{text_of};

use crate::error::RunError;
use crate::output::Outbox;
use crate::watched::Watched;
use std::io::Write;

/// A reply of one line without a key.
#[derive(Clone, Copy)]
pub(crate) enum ReplyLine {
    None,
    Value(u64),
    Old(u64),
    End(usize),
    Len(usize),
    Removed(usize),
    RefusedPrefix,
    RefusedMemory,
    RefusedBounds,
    RefusedLine,
}

/// Writes the reply as a line.
pub(crate) fn write_line<W: Write>(
    reply: ReplyLine,
    outbox: &mut Outbox,
    writer: &mut Watched<W>,
) -> Result<(), RunError>
    requires { watched_failed writer.old ≡ false }
    ensures { IsSent result (W.contents (watched_inner writer.old))
        (W.contents (watched_inner writer.new))
        (watched_failed writer.new) (outbox.old ++ ended (text_of reply)) outbox.new }
{
    outbox.make_room(writer, 32)?;
    append_line(reply, outbox);
    outbox.push(b'\n');
    Ok(())
}

/// Adds the reply's text, which has at most 31 bytes.
fn append_line(reply: ReplyLine, outbox: &mut Outbox)
    requires { length outbox.old + 31 ≤ 8192 }
    ensures after { outbox.new ≡ outbox.old ++ text_of reply }
    ensures room { length outbox.new ≤ length outbox.old + 31 }
{
    match reply {
        ReplyLine::None => outbox.append(b"none"),
        ReplyLine::Value(number) => append_decimal(number, outbox),
        ReplyLine::Old(number) => append_counted(b"old ", number, outbox),
        ReplyLine::End(count) => append_counted(b"end ", count as u64, outbox),
        ReplyLine::Len(count) => append_counted(b"len ", count as u64, outbox),
        ReplyLine::Removed(count) => append_counted(b"removed ", count as u64, outbox),
        ReplyLine::RefusedPrefix => outbox.append(b"refused prefix"),
        ReplyLine::RefusedMemory => outbox.append(b"refused memory"),
        ReplyLine::RefusedBounds => outbox.append(b"refused bounds"),
        ReplyLine::RefusedLine => outbox.append(b"refused line"),
    }
}

/// Adds a word of at most eight bytes and the number's digits.
fn append_counted(word: &[u8], number: u64, outbox: &mut Outbox)
    requires short { length word.now ≤ 8 }
    requires fits { length outbox.old + 31 ≤ 8192 }
    ensures after { outbox.new ≡ outbox.old ++ (word.now ++ decimal number) }
    ensures room { length outbox.new ≤ length outbox.old + 31 }
{
    outbox.append(word);
    append_decimal(number, outbox);
}

/// Adds the number's digits. There are at most 20.
fn append_decimal(number: u64, outbox: &mut Outbox)
    requires { length outbox.old + 20 ≤ 8192 }
    ensures after { outbox.new ≡ outbox.old ++ decimal number }
    ensures room { length outbox.new ≤ length outbox.old + 20 }
{
    let mut digits = itoa::Buffer::new();
    outbox.append(digits.format(number).as_bytes());
}

/// Writes the pair as a line.
pub(crate) fn write_pair<W: Write>(
    key: &[u8],
    value: u64,
    outbox: &mut Outbox,
    writer: &mut Watched<W>,
) -> Result<(), RunError>
    requires { watched_failed writer.old ≡ false }
    ensures { IsSent result (W.contents (watched_inner writer.old))
        (W.contents (watched_inner writer.new))
        (watched_failed writer.new) (outbox.old ++ ended (pair_text (key.now, value))) outbox.new }
{
    write_key(key, outbox, writer)?;
    write_value(value, outbox, writer)
}

/// Writes a space, the number and the end of the line.
fn write_value<W: Write>(
    value: u64,
    outbox: &mut Outbox,
    writer: &mut Watched<W>,
) -> Result<(), RunError>
    requires { watched_failed writer.old ≡ false }
    ensures { IsSent result (W.contents (watched_inner writer.old))
        (W.contents (watched_inner writer.new))
        (watched_failed writer.new) (outbox.old ++ (32 ∷ ended (decimal value))) outbox.new }
{
    outbox.make_room(writer, 22)?;
    outbox.push(b' ');
    append_decimal(value, outbox);
    outbox.push(b'\n');
    Ok(())
}

/// Writes the key in hexadecimal digits, or `-` if it is empty.
fn write_key<W: Write>(
    key: &[u8],
    outbox: &mut Outbox,
    writer: &mut Watched<W>,
) -> Result<(), RunError>
    requires { watched_failed writer.old ≡ false }
    ensures { IsSent result (W.contents (watched_inner writer.old))
        (W.contents (watched_inner writer.new))
        (watched_failed writer.new) (outbox.old ++ key_text key.now) outbox.new }
{
    if key.is_empty() {
        write_dash(outbox, writer)
    } else {
        write_digits(key, outbox, writer)
    }
}

/// Writes `-`.
fn write_dash<W: Write>(outbox: &mut Outbox, writer: &mut Watched<W>) -> Result<(), RunError>
    requires { watched_failed writer.old ≡ false }
    ensures { IsSent result (W.contents (watched_inner writer.old))
        (W.contents (watched_inner writer.new))
        (watched_failed writer.new) (outbox.old ++ codes "-") outbox.new }
{
    outbox.make_room(writer, 1)?;
    outbox.push(b'-');
    Ok(())
}

/// Writes the bytes as hexadecimal digits.
fn write_digits<W: Write>(
    key: &[u8],
    outbox: &mut Outbox,
    writer: &mut Watched<W>,
) -> Result<(), RunError>
    requires { watched_failed writer.old ≡ false }
    ensures { IsSent result (W.contents (watched_inner writer.old))
        (W.contents (watched_inner writer.new))
        (watched_failed writer.new) (outbox.old ++ encode_lower key.now) outbox.new }
{
    for byte in key {
        write_byte(*byte, outbox, writer)?;
    }
    Ok(())
}

/// Writes the byte as two digits.
fn write_byte<W: Write>(
    byte: u8,
    outbox: &mut Outbox,
    writer: &mut Watched<W>,
) -> Result<(), RunError>
    requires { watched_failed writer.old ≡ false }
    ensures { IsSent result (W.contents (watched_inner writer.old))
        (W.contents (watched_inner writer.new))
        (watched_failed writer.new) (outbox.old
        ++ (slice_index lower_digits (byte / 16) ∷ slice_index lower_digits (byte % 16) ∷ []))
        outbox.new }
{
    outbox.make_room(writer, 2)?;
    outbox.push(digit(byte / 16));
    outbox.push(digit(byte % 16));
    Ok(())
}

/// Returns the digit of a value below 16.
fn digit(value: u8) -> u8
    requires { value < 16 }
    ensures { result ≡ slice_index lower_digits value }
{
    b"0123456789abcdef"[value as usize]
}
