//! Bytes as text, for `Display` and `Debug` of the keys that end in a zero.

ghost use Rattle.std.specs.Fmt.{DisplaysOnOk, DisplaysStyledOnOk, formatter_spec, styled_text};
ghost use Rattle.std.specs.Prelude.{option_map};
ghost use Rattle.blart_keys.specs.Shown.{shown_text};

use std::fmt::{Debug, Display};
use std::{fmt, str};

/// Writes the bytes as text, with U+FFFD for each sequence that is not UTF-8. A width, a fill and a
/// precision apply if all bytes are UTF-8.
pub(crate) fn write_text<W: fmt::Write>(bytes: &[u8], f: &mut fmt::Formatter<W>) -> fmt::Result
    ensures writes { DisplaysOnOk W.write_str_gives f.old result (shown_text bytes.now) f.new }
    ensures styled { DisplaysStyledOnOk W.write_str_gives f.old result
        (option_map (styled_text (formatter_spec f.old)) (shown_text bytes.now)) f.new }
{
    match str::from_utf8(bytes) {
        Ok(text) => Display::fmt(&text, f),
        Err(_) => write_lossy(bytes, f),
    }
}

/// Writes the bytes as text, with U+FFFD for each sequence that is not UTF-8.
fn write_lossy<W: fmt::Write>(bytes: &[u8], f: &mut fmt::Formatter<W>) -> fmt::Result {
    for chunk in bytes.utf8_chunks() {
        f.write_str(chunk.valid())?;
        if !chunk.invalid().is_empty() {
            f.write_char(char::REPLACEMENT_CHARACTER)?;
        }
    }
    Ok(())
}

/// Bytes that `Debug` writes like a `str`, in quotes and with escapes. A byte that is not UTF-8 is
/// written as `\xff`.
#[derive(Clone, Copy)]
pub(crate) struct Quoted<'a>(pub(crate) &'a [u8]);

impl Debug for Quoted<'_> {
    fn fmt<W: fmt::Write>(&self, f: &mut fmt::Formatter<W>) -> fmt::Result {
        match str::from_utf8(self.0) {
            Ok(text) => Debug::fmt(&text, f),
            Err(_) => write_escaped(self.0, f),
        }
    }
}

/// Writes the bytes in quotes and with escapes.
fn write_escaped<W: fmt::Write>(bytes: &[u8], f: &mut fmt::Formatter<W>) -> fmt::Result {
    f.write_str("\"")?;
    for chunk in bytes.utf8_chunks() {
        write!(f, "{}", chunk.valid().escape_debug())?;
        write!(f, "{}", chunk.invalid().escape_ascii())?;
    }
    f.write_str("\"")
}
