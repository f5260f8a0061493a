//! The words of a line, and the values that they stand for.
ghost use Rattle.std.specs.Prelude.{◌≡◌, IfOk, Some, Contains};
ghost use Rattle.std.specs.List.{list_all};
ghost use Rattle.script_words.specs.Words.{read_bytes, is_step, is_decision};

use crate::answered::{Answered, Unanswered};
use crate::keys::ScriptKey;
use decimals::number_of;
use hex::FromHexError;
use std::alloc::{AllocError, Global};
use std::ops::Bound;

/// The words of a text that are not read yet. One byte separates them.
#[derive(Clone, Copy)]
pub struct Words<'a> {
    rest: Option<&'a [u8]>,
    part: u8,
    alloc: Global,
}

impl<'a> Words<'a> {
    /// Returns all words of the text.
    pub fn new(text: &'a [u8], part: u8, alloc: Global) -> Self {
        Words {
            rest: Some(text),
            part,
            alloc,
        }
    }

    /// Returns the allocator of the program.
    pub fn alloc(&self) -> Global {
        self.alloc
    }

    /// Returns `true` if no word is left.
    pub fn is_done(&self) -> bool {
        self.rest.is_none()
    }

    /// Returns `Ok` if no word is left, or an error.
    pub fn end(&self) -> Answered {
        match self.rest {
            Some(_) => Err(Unanswered::NoCall),
            None => Ok(()),
        }
    }

    /// Reads the next word. Between two separators there is a word of no bytes.
    pub fn word(&mut self) -> Result<&'a [u8], Unanswered> {
        let Some(text) = self.rest else {
            return Err(Unanswered::NoCall);
        };
        let part = self.part;
        match text.iter().position(|byte| *byte == part) {
            Some(at) => {
                self.rest = Some(&text[at + 1..]);
                Ok(&text[..at])
            }
            None => {
                self.rest = None;
                Ok(text)
            }
        }
    }

    /// Reads the last word.
    pub fn last_word(&mut self) -> Result<&'a [u8], Unanswered> {
        let word = self.word()?;
        self.end()?;
        Ok(word)
    }

    /// Reads the next word, and returns its own words, which colons separate.
    pub fn parts(&mut self) -> Result<Words<'a>, Unanswered> {
        Ok(Words::new(self.word()?, b':', self.alloc))
    }

    /// Reads the bytes that the next word stands for.
    pub fn bytes(&mut self) -> Result<Vec<u8>, Unanswered> {
        joined_of(self.alloc, self.word()?)
    }

    /// Reads the bytes that the last word stands for.
    pub fn last_bytes(&mut self) -> Result<Vec<u8>, Unanswered> {
        joined_of(self.alloc, self.last_word()?)
    }

    /// Returns the key that a word stands for, with the tag after `#` if there is one.
    pub fn key_of<K: ScriptKey>(&self, word: &[u8]) -> Result<K, Unanswered> {
        let mut parts = Words::new(word, b'#', self.alloc);
        let digits = parts.word()?;
        match parts.last_number()? {
            Some(tag) => K::from_vec(joined_of(self.alloc, digits)?)?.with_tag(tag),
            None => K::from_vec(joined_of(self.alloc, digits)?),
        }
    }

    /// Reads the key that the next word stands for.
    pub fn key<K: ScriptKey>(&mut self) -> Result<K, Unanswered> {
        let word = self.word()?;
        self.key_of(word)
    }

    /// Reads the key that the last word stands for.
    pub fn last_key<K: ScriptKey>(&mut self) -> Result<K, Unanswered> {
        let word = self.last_word()?;
        self.key_of(word)
    }

    /// Reads the next word, which is a number.
    pub fn number(&mut self) -> Result<u64, Unanswered> {
        number_of(self.word()?).ok_or(Unanswered::NoCall)
    }

    /// Reads the next word, which is a number by which others are divided, and not 0.
    pub fn modulus(&mut self) -> Result<u64, Unanswered> {
        match self.number()? {
            0 => Err(Unanswered::NoCall),
            number => Ok(number),
        }
    }

    /// Reads the last word, which is a number, if a word is left.
    pub fn last_number(mut self) -> Result<Option<u64>, Unanswered> {
        if self.is_done() {
            return Ok(None);
        }
        let number = self.number()?;
        self.end()?;
        Ok(Some(number))
    }

    /// Reads the last word, which is a number, if `has_number`. Otherwise no word may be left, and
    /// it returns 0.
    pub fn number_if(mut self, has_number: bool) -> Result<u64, Unanswered> {
        let number = if has_number { self.number()? } else { 0 };
        self.end()?;
        Ok(number)
    }

    /// Reads the key and the number that the last two words stand for.
    pub fn last_pair<K: ScriptKey>(&mut self) -> Result<(K, u64), Unanswered> {
        let word = self.word()?;
        let number = self.number()?;
        self.end()?;
        Ok((self.key_of(word)?, number))
    }

    /// Reads the next two words, which are bounds.
    pub fn bounds(&mut self) -> Result<(Bound<Vec<u8>>, Bound<Vec<u8>>), Unanswered> {
        let start = self.start()?;
        match self.finish() {
            Ok(end) => Ok((start, end)),
            Err(refused) => {
                drop(start);
                Err(refused)
            }
        }
    }

    /// Reads the next word, which is a start bound.
    fn start(&mut self) -> Result<Bound<Vec<u8>>, Unanswered> {
        match self.word()? {
            b"*" => Ok(Bound::Unbounded),
            [b'[', digits @ ..] => Ok(Bound::Included(joined_of(self.alloc, digits)?)),
            [b'(', digits @ ..] => Ok(Bound::Excluded(joined_of(self.alloc, digits)?)),
            _ => Err(Unanswered::NoCall),
        }
    }

    /// Reads the next word, which is an end bound.
    fn finish(&mut self) -> Result<Bound<Vec<u8>>, Unanswered> {
        match self.word()? {
            b"*" => Ok(Bound::Unbounded),
            [digits @ .., b']'] => Ok(Bound::Included(joined_of(self.alloc, digits)?)),
            [digits @ .., b')'] => Ok(Bound::Excluded(joined_of(self.alloc, digits)?)),
            _ => Err(Unanswered::NoCall),
        }
    }

    /// Reads the last word, which is letters of steps, if a word is left.
    pub fn last_steps(&mut self) -> Result<Option<&'a [u8]>, Unanswered> {
        if self.is_done() {
            return Ok(None);
        }
        let letters = self.last_word()?;
        if letters.is_empty() || !are_steps(letters) {
            return Err(Unanswered::NoCall);
        }
        Ok(Some(letters))
    }

    /// Reads the last word, which is letters of steps, if a word is left. The steps are of an
    /// iterator that does not count.
    pub fn last_moves(&mut self) -> Result<Option<&'a [u8]>, Unanswered> {
        let letters = self.last_steps()?;
        match letters {
            Some(word) if word.contains(&b'l') => Err(Unanswered::NoCall),
            _ => Ok(letters),
        }
    }

    /// Reads the last word, which is letters of decisions.
    pub fn last_decisions(&mut self) -> Result<&'a [u8], Unanswered> {
        let letters = self.last_word()?;
        if letters.is_empty() || !are_decisions(letters) {
            return Err(Unanswered::NoCall);
        }
        Ok(letters)
    }
}

// ---- steps

/// Returns `true` if all letters are of steps and decisions.
fn are_decisions(letters: &[u8]) -> bool
    ensures { result ≡ list_all is_decision letters.now }
{
    letters.iter().all(|letter| {
        *letter == b'f' || *letter == b'b' || *letter == b'k' || *letter == b't' || *letter == b'u'
    })
}

/// Returns `true` if all letters are of steps.
fn are_steps(letters: &[u8]) -> bool
    ensures { result ≡ list_all is_step letters.now }
{
    letters.iter().all(|letter| *letter == b'f' || *letter == b'b' || *letter == b'l')
}

// ---- bytes

/// The largest number of times that a byte is repeated.
const MOST: u64 = (1 << 20) - 1;

/// Returns the bytes that the word stands for. If it has parts, these are the bytes of its parts.
fn joined_of(alloc: Global, word: &[u8]) -> Result<Vec<u8>, Unanswered>
    ensures read { ¬ Contains word.now 42 → ¬ Contains word.now 46
        → IfOk result (λ bytes. read_bytes word.now ≡ Some bytes.items) }
{
    if !word.contains(&b'*') && !word.contains(&b'.') {
        return bytes_of(alloc, word);
    }
    let mut bytes = Vec::new(alloc);
    for part in word.split(|byte| *byte == b'.') {
        push_part(&mut bytes, part)?;
    }
    Ok(bytes)
}

/// Adds the bytes of a part: those of its digits, or one byte repeated.
fn push_part(bytes: &mut Vec<u8>, part: &[u8]) -> Answered {
    if part == b"-".as_slice() {
        return Err(Unanswered::NoCall);
    }
    let (digits, times) = match part.iter().position(|byte| *byte == b'*') {
        Some(at) => (&part[..at], Some(&part[at + 1..])),
        None => (part, None),
    };
    let read = bytes_of(*bytes.allocator(), digits)?;
    let pushed = match times {
        Some(word) => push_repeated(bytes, &read, word),
        None => push_all(bytes, &read),
    };
    drop(read);
    pushed
}

/// Adds the bytes at the end.
fn push_all(bytes: &mut Vec<u8>, more: &[u8]) -> Answered {
    Ok(bytes.extend_from_slice(more)?)
}

/// Adds the one byte as often as the word says.
fn push_repeated(bytes: &mut Vec<u8>, one: &[u8], word: &[u8]) -> Answered {
    let ([byte], Some(count)) = (one, number_of(word)) else {
        return Err(Unanswered::NoCall);
    };
    if count > MOST {
        return Err(Unanswered::NoCall);
    }
    for _ in 0..count {
        if bytes.push(*byte).is_err() {
            return Err(Unanswered::Memory(AllocError));
        }
    }
    Ok(())
}

/// Returns the bytes that the word stands for.
fn bytes_of(alloc: Global, word: &[u8]) -> Result<Vec<u8>, Unanswered>
    ensures read { IfOk result (λ bytes. read_bytes word.now ≡ Some bytes.items) }
    ensures no_call { result ≡ Err Unanswered.NoCall → read_bytes word.now ≡ None }
{
    if word == b"-".as_slice() {
        return Ok(Vec::new(alloc));
    }
    if word.is_empty() {
        return Err(Unanswered::NoCall);
    }
    match hex::decode(alloc, word) {
        Ok(bytes) => Ok(bytes),
        Err(FromHexError::OutOfMemory) => Err(Unanswered::Memory(AllocError)),
        Err(_) => Err(Unanswered::NoCall),
    }
}
