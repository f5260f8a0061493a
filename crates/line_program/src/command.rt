//! The commands that a line may hold.
ghost use Rattle.std.specs.Prelude.{◌≡◌, ◌==◌, ◌<◌, ◌+◌, ◌*◌, true, [], ◌∷◌, length, IfSome, MatchOption, is_some};
ghost use Rattle.std.specs.List.{position, list_all};
ghost use Rattle.hex.specs.Hex.{is_hex_digit, decode_of};
ghost use Rattle.line_program.specs.Command.{key_of, from_ok, number_of, words_of};
ghost use Rattle.line_program.specs.Command as spec;
ghost use Rattle.line_program.specs.Parsed.{Parses, AreWords};

use crate::pieces::{front, rest_after};

/// A command, with its keys as words.
#[derive(Clone, Copy)]
pub(crate) enum Command<'a> {
    Insert(&'a [u8], u64),
    Get(&'a [u8]),
    Remove(&'a [u8]),
    RemovePrefix(&'a [u8]),
    PrefixGet(&'a [u8]),
    Overwrite(&'a [u8], u64),
    List,
    Prefix(&'a [u8]),
    Range(&'a [u8], &'a [u8]),
}

/// The words of a line, if there are at most three.
#[derive(Clone, Copy)]
enum Words<'a> {
    One(&'a [u8]),
    Two(&'a [u8], &'a [u8]),
    Three(&'a [u8], &'a [u8], &'a [u8]),
    More,
}

/// Returns the command that the line holds, if it holds one.
pub(crate) fn parse(line: &[u8]) -> Option<Command<'_>>
    ensures { Parses result (words_of line.now) }
{
    match split_line(line) {
        Words::One(name) => parse_one(name),
        Words::Two(name, key) => parse_two(name, key),
        Words::Three(name, first, second) => parse_three(name, first, second),
        Words::More => None,
    }
}

/// Returns the command that the word is, if it is one.
fn parse_one(name: &[u8]) -> Option<Command<'_>>
    ensures { Parses result (name.now ∷ []) }
{
    if name == b"list".as_slice() {
        Some(Command::List)
    } else {
        None
    }
}

/// Returns the command that the two words are, if they are one.
fn parse_two<'a>(name: &[u8], key: &'a [u8]) -> Option<Command<'a>>
    ensures { Parses result (name.now ∷ key.now ∷ []) }
{
    if !is_key(key) {
        None
    } else if name == b"get".as_slice() {
        Some(Command::Get(key))
    } else if name == b"remove".as_slice() {
        Some(Command::Remove(key))
    } else if name == b"remove-prefix".as_slice() {
        Some(Command::RemovePrefix(key))
    } else if name == b"prefix-get".as_slice() {
        Some(Command::PrefixGet(key))
    } else if name == b"prefix".as_slice() {
        Some(Command::Prefix(key))
    } else {
        None
    }
}

/// Returns the command that the three words are, if they are one.
fn parse_three<'a>(name: &[u8], first: &'a [u8], second: &'a [u8]) -> Option<Command<'a>>
    ensures { Parses result (name.now ∷ first.now ∷ second.now ∷ []) }
{
    if !is_key(first) {
        return None;
    }
    if name == b"insert".as_slice() {
        Some(Command::Insert(first, number(second)?))
    } else if name == b"overwrite".as_slice() {
        Some(Command::Overwrite(first, number(second)?))
    } else if name == b"range".as_slice() && is_key(second) {
        Some(Command::Range(first, second))
    } else {
        None
    }
}

// ---- words

/// Splits the line at its spaces.
fn split_line(line: &[u8]) -> Words<'_>
    ensures { AreWords result (words_of line.now) }
{
    let (first, rest) = split_word(line);
    let Some(rest) = rest else {
        return Words::One(first);
    };
    let (second, rest) = split_word(rest);
    let Some(rest) = rest else {
        return Words::Two(first, second);
    };
    let (third, rest) = split_word(rest);
    match rest {
        None => Words::Three(first, second, third),
        Some(_) => Words::More,
    }
}

/// Returns the first word, and the bytes after the space that follows it, if there is one.
fn split_word(text: &[u8]) -> (&[u8], Option<&[u8]>)
    ensures { MatchOption result.1 (words_of text.now ≡ result.0.now ∷ [])
        (λ rest. words_of text.now ≡ result.0.now ∷ words_of rest.now) }
{
    match space(text) {
        Some(at) => (front(text, at), Some(rest_after(text, at + 1))),
        None => (text, None),
    }
}

/// Returns the position of the first space.
fn space(text: &[u8]) -> Option<usize>
    ensures value { result ≡ position (λ b. b == 32) text.now }
    ensures within { IfSome result (λ at. at < length text.now) }
{
    text.iter().position(|b| *b == b' ')
}

// ---- keys

/// Returns `true` if the word is a key.
fn is_key(word: &[u8]) -> bool
    ensures { result ≡ is_some (key_of word.now) }
{
    if word == b"-".as_slice() {
        true
    } else if word.is_empty() {
        false
    } else {
        is_decodable(word)
    }
}

/// Returns `true` if the word is an even number of digits.
fn is_decodable(word: &[u8]) -> bool
    ensures { result ≡ is_some (from_ok (decode_of word.now)) }
{
    if word.len() % 2 == 0 {
        is_all_hex(word)
    } else {
        false
    }
}

/// Returns `true` if each byte is a hexadecimal digit.
fn is_all_hex(text: &[u8]) -> bool
    ensures { result ≡ list_all is_hex_digit text.now }
{
    text.iter().all(|b| is_hex(*b))
}

/// Returns `true` if the byte is a hexadecimal digit.
fn is_hex(byte: u8) -> bool
    ensures { result ≡ is_hex_digit byte }
{
    (b'0' <= byte && byte <= b'9')
        || (b'a' <= byte && byte <= b'f')
        || (b'A' <= byte && byte <= b'F')
}

// ---- numbers

/// Returns the number that the word is, if it is 1 to 20 digits, and less than 2^64.
fn number(word: &[u8]) -> Option<u64>
    ensures { result ≡ number_of word.now }
{
    if word.len() <= 20 {
        decimals::number_of(word)
    } else {
        None
    }
}
