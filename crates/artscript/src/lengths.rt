//! Runs one script over maps of several prefix lengths.
use crate::failure::Failure;
use crate::session::answers;
use script_words::{Shown, Text};
use std::alloc::Global;
use std::iter::Iterator;

/// Returns the answers to the script. They are the same over maps of six prefix lengths.
pub(crate) fn answers_at_each_length(alloc: Global, script: &[u8]) -> Result<Text, Failure> {
    let expected = answers::<0>(alloc, script)?;
    match compare_all(alloc, script, expected.as_slice()) {
        Ok(()) => Ok(expected),
        Err(failure) => {
            drop(expected);
            Err(failure)
        }
    }
}

/// Checks that the script has the expected answers at the other prefix lengths too.
fn compare_all(alloc: Global, script: &[u8], expected: &[u8]) -> Result<(), Failure> {
    compare::<1>(alloc, script, expected)?;
    compare::<2>(alloc, script, expected)?;
    compare::<8>(alloc, script, expected)?;
    compare::<16>(alloc, script, expected)?;
    compare::<64>(alloc, script, expected)
}

/// Checks that the script has the expected answers at this prefix length.
fn compare<const PREFIX_LEN: usize>(
    alloc: Global,
    script: &[u8],
    expected: &[u8],
) -> Result<(), Failure> {
    let got = answers::<PREFIX_LEN>(alloc, script)?;
    if got.as_slice() == expected {
        return Ok(());
    }
    let mut text = Text::new(alloc);
    show_difference(PREFIX_LEN, script, expected, got.as_slice(), &mut text);
    drop(got);
    match text.is_whole() {
        Ok(()) => Err(Failure::Differs(text)),
        Err(refused) => {
            drop(text);
            Err(Failure::from(refused))
        }
    }
}

/// Appends the prefix length, the first line of the script whose answers differ, and both answers.
fn show_difference(length: usize, script: &[u8], expected: &[u8], got: &[u8], text: &mut Text) {
    let number = same_lines(expected, got);
    text.push(b"at PREFIX_LEN 0 and ");
    length.show(text);
    text.push(b" line ");
    number.saturating_add(1).show(text);
    text.push(b": ");
    text.push(line_at(script, number));
    text.push(b" answers ");
    text.push(line_at(expected, number));
    text.push(b" and ");
    text.push(line_at(got, number));
}

/// Returns the number of lines before the first byte that differs.
fn same_lines(expected: &[u8], got: &[u8]) -> usize {
    let mut number: usize = 0;
    for (one, other) in expected.iter().zip(got.iter()) {
        if *one != *other {
            break;
        }
        if *one == b'\n' {
            number = number.saturating_add(1);
        }
    }
    number
}

/// Returns the line after the first `number` lines, or no bytes if there is none.
fn line_at(text: &[u8], number: usize) -> &[u8] {
    text.split(|byte| *byte == b'\n').nth(number).unwrap_or(b"")
}
