//! The program's reply to a line.
ghost use Rattle.std.specs.Prelude.{◌≡◌, ◌≢◌, ◌==◌, ◌||◌, ◌⊎◌, ◌<◌, ◌-◌, ◌^◌, ℕ, List, [], ◌∷◌, ◌++◌, length, false, Some, MatchOption, option_map};
ghost use Rattle.std.specs.List.{flat_map};
ghost use Rattle.std.specs.Iterator.{UpTo, AlwaysYields};
ghost use Rattle.std.specs.declared.ops.Bound.TheVariants.{Included, Excluded};
ghost use Rattle.blart_keys.specs.Bounds.{in_order};
ghost use Rattle.blart_map.specs.Content.{pairs};
ghost use Rattle.line_program.specs.Watched.{watched_inner, watched_failed};
ghost use Rattle.line_program.specs.Sent.{IsSent};
ghost use Rattle.line_program.specs.Lines.{ended};
ghost use Rattle.line_program.specs.Command.{key_of, Insert, Get, Remove, RemovePrefix, PrefixGet, Overwrite, ListPrefix, ListRange};
ghost use Rattle.line_program.specs.Results.{HasResultOrFails, listing, range_lines, found_text, inserted_text, value_text};
ghost use Rattle.line_program.specs.Texts.{text_of};
ghost use Rattle.line_program.specs.Content.{Stored, pair_of, content_of, by_bytes};
ghost use Rattle.line_program.specs.Replied.{IsReplied};

use crate::command::{Command, parse};
use crate::error::RunError;
use crate::output::Outbox;
use crate::text::{ReplyLine, write_line, write_pair};
use crate::watched::Watched;
use blart_map::{DEFAULT_PREFIX_LEN, TreeMap, TryInsertError, bounds_in_order};
use std::alloc::Global;
use std::io::Write;
use std::ops::Bound;

/// Keys and their values.
pub(crate) type Pairs = TreeMap<Vec<u8>, u64, DEFAULT_PREFIX_LEN>;

/// Writes the reply to the line.
pub(crate) fn reply<W: Write>(
    map: &mut Pairs,
    alloc: Global,
    line: &[u8],
    outbox: &mut Outbox,
    writer: &mut Watched<W>,
) -> Result<(), RunError>
    requires { watched_failed writer.old ≡ false }
    ensures { IsReplied result (W.contents (watched_inner writer.old))
        (W.contents (watched_inner writer.new))
        (watched_failed writer.new) (content_of map.old) line.now outbox.old outbox.new
        (content_of map.new) }
{
    match parse(line) {
        Some(Command::Insert(word, value)) => {
            let reply = insert(map, alloc, word, value);
            write_line(reply, outbox, writer)
        }
        Some(Command::Get(word)) => {
            let reply = get(map, alloc, word);
            write_line(reply, outbox, writer)
        }
        Some(Command::Remove(word)) => {
            let reply = remove(map, alloc, word);
            write_line(reply, outbox, writer)
        }
        Some(Command::RemovePrefix(word)) => {
            let reply = remove_prefix(map, alloc, word);
            write_line(reply, outbox, writer)
        }
        Some(Command::PrefixGet(word)) => write_front(map, alloc, word, outbox, writer),
        Some(Command::Overwrite(word, value)) => {
            let reply = overwrite(map, alloc, word, value);
            write_line(reply, outbox, writer)
        }
        Some(Command::List) => write_list(map, outbox, writer),
        Some(Command::Prefix(word)) => write_prefix(map, alloc, word, outbox, writer),
        Some(Command::Range(first, second)) => {
            write_range(map, alloc, first, second, outbox, writer)
        }
        None => write_line(ReplyLine::RefusedLine, outbox, writer),
    }
}

/// Inserts the word's key with the value, and returns the reply.
fn insert(map: &mut Pairs, alloc: Global, word: &[u8], value: u64) -> ReplyLine
    ensures { (key : List ℕ) → key_of word.now ≡ Some key
        → HasResultOrFails (content_of map.old) (Insert key value) (text_of result ∷ [])
        (content_of map.new) }
{
    match decode_key(alloc, word) {
        Some(key) => inserted_line(map.try_insert(key, value)),
        None => ReplyLine::RefusedMemory,
    }
}

/// Looks up the word's key, and returns the reply.
fn get(map: &Pairs, alloc: Global, word: &[u8]) -> ReplyLine
    ensures { (key : List ℕ) → key_of word.now ≡ Some key
        → HasResultOrFails (content_of map.now) (Get key) (text_of result ∷ [])
        (content_of map.now) }
{
    match decode_key(alloc, word) {
        Some(key) => value_line(map.get(&key).copied()),
        None => ReplyLine::RefusedMemory,
    }
}

/// Removes the pair with the word's key, and returns the reply.
fn remove(map: &mut Pairs, alloc: Global, word: &[u8]) -> ReplyLine
    ensures { (key : List ℕ) → key_of word.now ≡ Some key
        → HasResultOrFails (content_of map.old) (Remove key) (text_of result ∷ [])
        (content_of map.new) }
{
    match decode_key(alloc, word) {
        Some(key) => value_line(map.remove(&key)),
        None => ReplyLine::RefusedMemory,
    }
}

/// Removes the pairs whose keys begin with the word's key, and returns the reply.
fn remove_prefix(map: &mut Pairs, alloc: Global, word: &[u8]) -> ReplyLine
    ensures { (key : List ℕ) → key_of word.now ≡ Some key
        → HasResultOrFails (content_of map.old) (RemovePrefix key) (text_of result ∷ [])
        (content_of map.new) }
{
    match decode_key(alloc, word) {
        Some(key) => ReplyLine::Removed(map.remove_prefix(&key)),
        None => ReplyLine::RefusedMemory,
    }
}

/// Inserts the word's key with the value in place of all related keys, and returns the reply.
fn overwrite(map: &mut Pairs, alloc: Global, word: &[u8], value: u64) -> ReplyLine
    ensures { (key : List ℕ) → key_of word.now ≡ Some key
        → HasResultOrFails (content_of map.old) (Overwrite key value) (text_of result ∷ [])
        (content_of map.new) }
{
    match decode_key(alloc, word) {
        Some(key) => match map.prefix_insert(key, value) {
            Ok(()) => ReplyLine::Len(map.len()),
            Err(_) => ReplyLine::RefusedMemory,
        },
        None => ReplyLine::RefusedMemory,
    }
}

/// Returns the key of the word, or `None` if it fails to allocate.
fn decode_key(alloc: Global, word: &[u8]) -> Option<Vec<u8>>
    ensures { (key : List ℕ) → key_of word.now ≡ Some key
        → MatchOption result (key ≢ []) (λ found. key ≡ found.items) }
{
    if word == b"-".as_slice() {
        return Some(Vec::new(alloc));
    }
    hex::decode(alloc, word).ok()
}

/// Returns the reply to an insertion.
fn inserted_line(outcome: Result<Option<u64>, TryInsertError>) -> ReplyLine
    ensures { text_of result ≡ inserted_text outcome }
{
    match outcome {
        Ok(Some(value)) => ReplyLine::Old(value),
        Ok(None) => ReplyLine::None,
        Err(TryInsertError::Prefix(_)) => ReplyLine::RefusedPrefix,
        Err(TryInsertError::Memory(_)) => ReplyLine::RefusedMemory,
    }
}

/// Returns the reply with the value, or `none`.
fn value_line(value: Option<u64>) -> ReplyLine
    ensures { text_of result ≡ value_text value }
{
    match value {
        Some(value) => ReplyLine::Value(value),
        None => ReplyLine::None,
    }
}

/// Writes the pair whose key is a prefix of the word's key, or `none`.
fn write_front<W: Write>(
    map: &Pairs,
    alloc: Global,
    word: &[u8],
    outbox: &mut Outbox,
    writer: &mut Watched<W>,
) -> Result<(), RunError>
    requires { watched_failed writer.old ≡ false }
    ensures { (key : List ℕ) → key_of word.now ≡ Some key
        → (text : List ℕ) × HasResultOrFails (content_of map.now) (PrefixGet key) (text ∷ [])
        (content_of map.now)
        × IsSent result (W.contents (watched_inner writer.old))
        (W.contents (watched_inner writer.new))
        (watched_failed writer.new) (outbox.old ++ ended text) outbox.new }
{
    match decode_key(alloc, word) {
        Some(key) => write_found(map.prefix_get_key_value(&key), outbox, writer),
        None => write_line(ReplyLine::RefusedMemory, outbox, writer),
    }
}

/// Writes the pair, or `none`.
fn write_found<W: Write>(
    found: Option<(&Vec<u8>, &u64)>,
    outbox: &mut Outbox,
    writer: &mut Watched<W>,
) -> Result<(), RunError>
    requires { watched_failed writer.old ≡ false }
    ensures { IsSent result (W.contents (watched_inner writer.old))
        (W.contents (watched_inner writer.new))
        (watched_failed writer.new) (outbox.old ++ ended
        (found_text (option_map pair_of
        (option_map (λ pair. (pair.0.now, pair.1.now)) found.entry))))
        outbox.new }
{
    match found {
        Some((key, value)) => write_pair(key, *value, outbox, writer),
        None => write_line(ReplyLine::None, outbox, writer),
    }
}

/// Writes all pairs.
fn write_list<W: Write>(
    map: &Pairs,
    outbox: &mut Outbox,
    writer: &mut Watched<W>,
) -> Result<(), RunError>
    requires { watched_failed writer.old ≡ false }
    ensures { IsSent result (W.contents (watched_inner writer.old))
        (W.contents (watched_inner writer.new))
        (watched_failed writer.new) (outbox.old ++ flat_map ended (listing (content_of map.now)))
        outbox.new }
{
    write_listing(map.iter(), outbox, writer)
}

/// Writes the pairs whose keys begin with the word's key.
fn write_prefix<W: Write>(
    map: &Pairs,
    alloc: Global,
    word: &[u8],
    outbox: &mut Outbox,
    writer: &mut Watched<W>,
) -> Result<(), RunError>
    requires { watched_failed writer.old ≡ false }
    ensures { (key : List ℕ) → key_of word.now ≡ Some key
        → (lines : List (List ℕ)) × HasResultOrFails (content_of map.now) (ListPrefix key) lines
        (content_of map.now)
        × IsSent result (W.contents (watched_inner writer.old))
        (W.contents (watched_inner writer.new))
        (watched_failed writer.new) (outbox.old ++ flat_map ended lines) outbox.new }
{
    match decode_key(alloc, word) {
        Some(key) => { write_listing(map.prefix(&key), outbox, writer) }
        None => write_line(ReplyLine::RefusedMemory, outbox, writer),
    }
}

/// Writes the pairs from the first word's key on, below the second's.
fn write_range<W: Write>(
    map: &Pairs,
    alloc: Global,
    first: &[u8],
    second: &[u8],
    outbox: &mut Outbox,
    writer: &mut Watched<W>,
) -> Result<(), RunError>
    requires { watched_failed writer.old ≡ false }
    ensures { (low high : List ℕ) → key_of first.now ≡ Some low → key_of second.now ≡ Some high
        → (lines : List (List ℕ)) × HasResultOrFails (content_of map.now) (ListRange low high) lines
        (content_of map.now)
        × IsSent result (W.contents (watched_inner writer.old))
        (W.contents (watched_inner writer.new))
        (watched_failed writer.new) (outbox.old ++ flat_map ended lines) outbox.new }
{
    match decode_both(alloc, first, second) {
        Some((low, high)) => write_between(map, &low, &high, outbox, writer),
        None => write_line(ReplyLine::RefusedMemory, outbox, writer),
    }
}

/// Returns the keys of both words, or `None` if it fails to allocate.
fn decode_both(alloc: Global, first: &[u8], second: &[u8]) -> Option<(Vec<u8>, Vec<u8>)>
    ensures { (low high : List ℕ) → key_of first.now ≡ Some low → key_of second.now ≡ Some high
        → MatchOption result ((low ≢ []) ⊎ (high ≢ []))
        (λ found. (low ≡ found.0.items) × (high ≡ found.1.items)) }
{
    Some((decode_key(alloc, first)?, decode_key(alloc, second)?))
}

/// Writes the pairs from the first key on, below the second, or `refused bounds` if the bounds are
/// not in order.
fn write_between<W: Write>(
    map: &Pairs,
    low: &Vec<u8>,
    high: &Vec<u8>,
    outbox: &mut Outbox,
    writer: &mut Watched<W>,
) -> Result<(), RunError>
    requires { watched_failed writer.old ≡ false }
    ensures { IsSent result (W.contents (watched_inner writer.old))
        (W.contents (watched_inner writer.new))
        (watched_failed writer.new) (outbox.old ++ flat_map ended
        (range_lines (content_of map.now) low.now.items high.now.items)) outbox.new }
{
    if !is_range(map, low, high) {
        return write_line(ReplyLine::RefusedBounds, outbox, writer);
    }
    let walk = map.range(Bound::Included(low), Bound::Excluded(high));
    write_listing(walk, outbox, writer)
}

/// Returns `true` if the bounds are in order, or there are no pairs.
fn is_range(map: &Pairs, low: &Vec<u8>, high: &Vec<u8>) -> bool
    ensures { result ≡ ((length (pairs map.now) == 0)
        || in_order (Included low.now.items) (Excluded high.now.items)) }
{
    map.is_empty() || bounds_in_order(Bound::Included(low), Bound::Excluded(high))
}

/// Writes each pair that the iterator yields on a line of its own, and then the number of pairs.
fn write_listing<'a, I: Iterator<Item = (&'a Vec<u8>, &'a u64)> + Drop, W: Write>(
    walk: I,
    outbox: &mut Outbox,
    writer: &mut Watched<W>,
) -> Result<(), RunError>
    requires mark { watched_failed writer.old ≡ false }
    requires can { I.can_next walk }
    requires ends { UpTo (I.remaining walk) (2 ^ 64 - 1) }
    ensures { (pairs : Stored)
        → AlwaysYields I.next_gives (λ item. (item.0.now, item.1.now)) walk pairs
        → IsSent result (W.contents (watched_inner writer.old))
        (W.contents (watched_inner writer.new))
        (watched_failed writer.new) (outbox.old ++ flat_map ended (listing (by_bytes pairs)))
        outbox.new }
{
    let mut count = 0;
    for (key, value) in walk {
        write_pair(key, *value, outbox, writer)?;
        count += 1;
    }
    write_line(ReplyLine::End(count), outbox, writer)
}
