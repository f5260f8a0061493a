//! Routes paths. `routes FILE` reads a table of mounts from a file, and then writes the target of
//! each path that it reads from standard input.
#![tactic(auto)]

use anyhow::Context;
use prefix_router::Routes;
use std::io::{BufRead, BufReader, ErrorKind};
use std::iter::Iterator;
use std::{env, fs};

const USAGE: &str = "\
usage: routes FILE

Each line of FILE mounts a path: the path, a space, and a target. Blank lines and
lines that begin with # are skipped.

Each line of standard input is a path. For each, the target of the longest mounted
path that is a prefix of it is written, and the rest of the path.
";

type Table = Routes<String>;

/// A line of a file.
#[derive(Clone, Copy)]
struct Line<'a> {
    file: &'a str,
    number: usize,
    text: &'a str,
}

fn main(rt: HostRuntime) -> anyhow::Result<()> {
    let file = file_of(&rt)?;
    if matches!(file.as_str(), "-h" | "--help") {
        print!(rt; "{USAGE}")?;
        return Ok(());
    }
    let text = fs::read_to_string(&rt, file.as_str()).context(format_args!("{file}"))?;
    let mut table = Routes::new(rt.alloc());
    let result = run(&rt, &file, without_mark(&text), &mut table);
    drop(table);
    result
}

/// Returns the first argument.
fn file_of(rt: &HostRuntime) -> anyhow::Result<String> {
    env::args(rt)?.nth(1).context("usage: routes FILE")
}

/// Returns a text without the byte-order mark that may begin it.
fn without_mark(text: &str) -> &str {
    text.strip_prefix('\u{feff}').unwrap_or(text)
}

/// Mounts the paths of a table, and then routes the lines of standard input.
fn run(rt: &HostRuntime, file: &str, text: &str, table: &mut Table) -> anyhow::Result<()> {
    mount_all(rt, file, text, table)?;
    let count = table.len();
    println!(rt; "{count} {}", if count == 1 { "mount" } else { "mounts" })?;
    route_all(rt, table)
}

/// Mounts the path of each line, except for blank lines and remarks.
fn mount_all(
    rt: &impl AllocGlobal,
    file: &str,
    text: &str,
    table: &mut Table,
) -> anyhow::Result<()> {
    let mut number = 0usize;
    for text in text.lines() {
        number = number.wrapping_add(1);
        let text = text.trim();
        if !text.is_empty() && !text.starts_with('#') {
            mount(rt, table, &Line { file, number, text })?;
        }
    }
    Ok(())
}

/// Mounts the path of a line. Returns an error if the line has no target, or if its path is mounted
/// already.
fn mount(rt: &impl AllocGlobal, table: &mut Table, line: &Line<'_>) -> anyhow::Result<()> {
    let Line { file, number, text } = line;
    let Some((path, target)) = text.split_once(' ') else {
        anyhow::bail!("{file}:{number}: {text} has no target");
    };
    if table.get(path.as_bytes()).is_some() {
        anyhow::bail!("{file}:{number}: {path} is mounted already");
    }
    let path = Vec::from_slice(rt.alloc(), path.as_bytes())?;
    table.mount(path, target.to_string(rt.alloc())?)?;
    Ok(())
}

/// Routes each line of standard input.
fn route_all(rt: &HostRuntime, table: &Table) -> anyhow::Result<()> {
    for line in BufReader::new(rt.alloc(), rt.reader())?.lines(rt.alloc()) {
        match line {
            Ok(path) => route(rt, table, &path)?,
            Err(error) if error.kind() == ErrorKind::InvalidData => println!(rt; "not UTF-8")?,
            Err(error) => return Err(error.into()),
        }
    }
    Ok(())
}

/// Writes the target of a path, and the rest of the path behind the mount.
fn route(rt: &impl Print, table: &Table, path: &str) -> anyhow::Result<()> {
    match table.resolve(path.as_bytes()) {
        Some((mounted, target)) => {
            let rest = path.get(mounted.len()..).unwrap_or("");
            println!(rt; "{path}: {target}, {rest}")?;
        }
        None => println!(rt; "{path}: no mount")?,
    }
    Ok(())
}
