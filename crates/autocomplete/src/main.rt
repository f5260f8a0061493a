//! Completes words. `autocomplete FILE` reads a list of words from a file. For each line of
//! standard input it then writes the first words that begin with it.
#![tactic(auto)]

use anyhow::Context;
use blart::{Set, TreeSet, ZKey};
use std::io::ErrorKind;
use std::iter::Iterator;
use std::{env, fs, str};

const USAGE: &str = "\
usage: autocomplete FILE

Each line of FILE is a word. Blank lines are skipped. For each line of standard input
the first ten words that begin with it are written, in order.
";

/// The number of words that are written for a line at most.
const MOST: usize = 10;

fn main(rt: HostRuntime) -> anyhow::Result<()> {
    let file = file_of(&rt)?;
    if matches!(file.as_str(), "-h" | "--help") {
        print!(rt; "{USAGE}")?;
        return Ok(());
    }
    let text = fs::read_to_string(&rt, file.as_str()).context(format_args!("{file}"))?;
    let mut words = TreeSet::new(rt.alloc());
    let result = run(&rt, &file, without_mark(&text), &mut words);
    drop(words);
    result
}

/// Returns the first argument.
fn file_of(rt: &HostRuntime) -> anyhow::Result<String> {
    env::args(rt)?.nth(1).context("usage: autocomplete FILE")
}

/// Returns a text without the byte-order mark that may begin it.
fn without_mark(text: &str) -> &str {
    text.strip_prefix('\u{feff}').unwrap_or(text)
}

/// Inserts the words of a list, and then completes the lines of standard input.
fn run(rt: &HostRuntime, file: &str, text: &str, words: &mut Set<ZKey>) -> anyhow::Result<()> {
    insert_all(rt, file, text, words)?;
    let count = words.len();
    print!(rt; "{count} {}\n> ", if count == 1 { "word" } else { "words" })?;
    complete_all(rt, words)?;
    println!(rt; "")?;
    Ok(())
}

/// Inserts the word of each line, except for blank lines. Returns an error if a word has a zero
/// byte, or if it is listed already.
fn insert_all(
    rt: &impl AllocGlobal,
    file: &str,
    text: &str,
    words: &mut Set<ZKey>,
) -> anyhow::Result<()> {
    let mut number = 0usize;
    for line in text.lines() {
        number = number.wrapping_add(1);
        if !line.trim().is_empty() {
            let word = ZKey::from_bytes(rt.alloc(), line.as_bytes());
            if !words.insert(word.context(format_args!("{file}:{number}"))?)? {
                anyhow::bail!("{file}:{number}: {line} is listed already");
            }
        }
    }
    Ok(())
}

/// Completes each line of standard input.
fn complete_all(rt: &HostRuntime, words: &Set<ZKey>) -> anyhow::Result<()> {
    for line in rt.lines(rt.alloc()) {
        match line {
            Ok(letters) => complete(rt, words, &letters)?,
            Err(error) if error.kind() == ErrorKind::InvalidData => println!(rt; "not UTF-8")?,
            Err(error) => return Err(error.into()),
        }
        print!(rt; "> ")?;
    }
    Ok(())
}

/// Writes the first words that begin with some letters.
fn complete(rt: &impl Print, words: &Set<ZKey>, letters: &str) -> anyhow::Result<()> {
    for word in words.prefix(letters.as_bytes()).take(MOST) {
        println!(rt; "{}", str::from_utf8(word.to_bytes())?)?;
    }
    Ok(())
}
