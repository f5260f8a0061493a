//! Answers as text: the text of `{:?}`, with keys in hexadecimal.
use crate::answered::{Answered, Unanswered};
use blart_keys::{AsBytes, I32Key, InsertPrefixError, Reply, TryInsertError, U64Key, ZKey};
use std::alloc::{AllocError, Global};
use std::cmp::Ordering;
use std::fmt::Debug;

/// A text that grows. If it fails to allocate, or a line is no call, the text is stopped. It keeps
/// the first reason.
#[derive(Drop)]
pub struct Text {
    bytes: Vec<u8>,
    stopped: Option<Unanswered>,
}

impl Text {
    /// Returns a text of no bytes.
    pub fn new(alloc: Global) -> Self {
        Text {
            bytes: Vec::new(alloc),
            stopped: None,
        }
    }

    /// Keeps the first `count` bytes, and drops the others.
    pub fn truncate(&mut self, count: usize) {
        self.bytes.truncate(count);
    }

    /// Adds the bytes at the end of the text.
    pub fn push(&mut self, bytes: &[u8]) {
        if self.bytes.extend_from_slice(bytes).is_err() {
            self.stop(Unanswered::Memory(AllocError));
        }
    }

    /// Stops the text.
    pub fn stop(&mut self, why: Unanswered) {
        if self.stopped.is_none() {
            self.stopped = Some(why);
        }
    }

    /// Returns `true` if the text was stopped by a line that is no call. Then the text is no longer
    /// stopped.
    pub fn take_no_call(&mut self) -> bool {
        if matches!(self.stopped, Some(Unanswered::NoCall)) {
            self.stopped = None;
            return true;
        }
        false
    }

    /// Returns `Ok` if the text is not stopped, or the reason that stopped it.
    pub fn is_whole(&self) -> Answered {
        match self.stopped {
            Some(why) => Err(why),
            None => Ok(()),
        }
    }

    /// Returns the bytes of the text.
    pub fn as_slice(&self) -> &[u8] {
        self.bytes.as_slice()
    }

    /// Returns the allocator of the text.
    pub fn alloc(&self) -> Global {
        *self.bytes.allocator()
    }
}

/// A value that can be written as an answer.
pub trait Shown {
    /// Adds the value at the end of the text.
    fn show(&self, text: &mut Text);
}

/// Adds the bytes in lower-case hexadecimal, or `-` if there are none.
pub fn show_bytes(bytes: &[u8], text: &mut Text) {
    if bytes.is_empty() {
        return text.push(b"-");
    }
    push_made(hex::encode(text.alloc(), bytes), text);
}

/// Adds the value's `Debug` text.
pub fn show_debug<T: Debug>(value: &T, text: &mut Text) {
    push_made(format!(in text.alloc(); "{value:?}"), text);
}

/// Adds a text, or stops if the text failed to allocate.
fn push_made(made: Result<String, AllocError>, text: &mut Text) {
    match made {
        Ok(own) => text.push(own.as_bytes()),
        Err(refused) => text.stop(Unanswered::Memory(refused)),
    }
}

impl Shown for Vec<u8> {
    fn show(&self, text: &mut Text) {
        show_bytes(self, text)
    }
}

impl Shown for u8 {
    fn show(&self, text: &mut Text) {
        show_bytes(self.as_bytes(), text)
    }
}

impl Shown for [u8; 3] {
    fn show(&self, text: &mut Text) {
        show_bytes(self, text)
    }
}

impl Shown for I32Key {
    fn show(&self, text: &mut Text) {
        show_bytes(self.as_bytes(), text)
    }
}

impl Shown for U64Key {
    fn show(&self, text: &mut Text) {
        show_bytes(self.as_bytes(), text)
    }
}

impl Shown for ZKey {
    fn show(&self, text: &mut Text) {
        show_bytes(self.as_bytes(), text)
    }
}

impl Shown for u64 {
    fn show(&self, text: &mut Text) {
        push_made(self.to_string(text.alloc()), text)
    }
}

impl Shown for usize {
    fn show(&self, text: &mut Text) {
        push_made(self.to_string(text.alloc()), text)
    }
}

impl Shown for bool {
    fn show(&self, text: &mut Text) {
        text.push(if *self { b"true" } else { b"false" })
    }
}

impl Shown for () {
    fn show(&self, text: &mut Text) {
        text.push(b"()")
    }
}

impl<T: Shown> Shown for &T {
    fn show(&self, text: &mut Text) {
        (*self).show(text)
    }
}

impl<A: Shown, B: Shown> Shown for (A, B) {
    fn show(&self, text: &mut Text) {
        text.push(b"(");
        self.0.show(text);
        text.push(b", ");
        self.1.show(text);
        text.push(b")")
    }
}

impl<T: Shown> Shown for Option<T> {
    fn show(&self, text: &mut Text) {
        match self {
            Some(value) => {
                text.push(b"Some(");
                value.show(text);
                text.push(b")")
            }
            None => text.push(b"None"),
        }
    }
}

impl<T: Shown, E: Shown> Shown for Result<T, E> {
    fn show(&self, text: &mut Text) {
        match self {
            Ok(value) => {
                text.push(b"Ok(");
                value.show(text);
            }
            Err(error) => {
                text.push(b"Err(");
                error.show(text);
            }
        }
        text.push(b")")
    }
}

impl Shown for AllocError {
    fn show(&self, text: &mut Text) {
        text.push(b"Memory")
    }
}

impl Shown for InsertPrefixError {
    fn show(&self, text: &mut Text) {
        text.push(b"Prefix")
    }
}

impl Shown for TryInsertError {
    fn show(&self, text: &mut Text) {
        match self {
            TryInsertError::Prefix(error) => error.show(text),
            TryInsertError::Memory(error) => error.show(text),
        }
    }
}

impl Shown for Ordering {
    fn show(&self, text: &mut Text) {
        match self {
            Ordering::Less => text.push(b"Less"),
            Ordering::Equal => text.push(b"Equal"),
            Ordering::Greater => text.push(b"Greater"),
        }
    }
}

impl<K: Shown> Shown for Reply<K, u64> {
    fn show(&self, text: &mut Text) {
        match self {
            Reply::TryInsert(answer) => show_reply(b"TryInsert", answer, text),
            Reply::ReplaceEntry(answer) => show_reply(b"ReplaceEntry", answer, text),
            Reply::PrefixInsert(answer) => show_reply(b"PrefixInsert", answer, text),
            Reply::RemoveEntry(answer) => show_reply(b"RemoveEntry", answer, text),
            Reply::ContainsKey(answer) => show_reply(b"ContainsKey", answer, text),
            Reply::PopFirst(answer) => show_reply(b"PopFirst", answer, text),
            Reply::PopLast(answer) => show_reply(b"PopLast", answer, text),
            Reply::Clear => text.push(b"Clear"),
        }
    }
}

/// Adds the call's name and its result.
fn show_reply<T: Shown>(name: &[u8], answer: &T, text: &mut Text) {
    text.push(name);
    text.push(b"(");
    answer.show(text);
    text.push(b")")
}

impl<K: Shown> Shown for Vec<Reply<K, u64>> {
    fn show(&self, text: &mut Text) {
        text.push(b"[");
        let mut part: &[u8] = b"";
        for reply in self {
            text.push(part);
            reply.show(text);
            part = b", ";
        }
        text.push(b"]");
    }
}
