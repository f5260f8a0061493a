//! Finds the networks of addresses. `lpm FILE` reads a table of networks from a file, and then
//! writes the smallest network that has each address that it reads from standard input.
#![tactic(auto)]

ghost use Rattle.std.specs.Prelude.{◌≤◌, IfSome};

use anyhow::Context;
use prefix_router::Routes;
use std::io::{BufRead, BufReader, ErrorKind};
use std::iter::Iterator;
use std::net::Ipv4Addr;
use std::{env, fs};

const USAGE: &str = "\
usage: lpm FILE

Each line of FILE is a network, a space, and a name, as in 10.0.0.0/8 private. Blank
lines and lines that begin with # are skipped.

Each line of standard input is an IPv4 address. For each, the line of the smallest
network that has the address is written.
";

/// The line of each network. Its path is the bits that its addresses have in common, a byte for
/// each bit.
type Table = Routes<String>;

/// A line of a file.
#[derive(Clone, Copy)]
struct Line<'a> {
    file: &'a str,
    number: usize,
    text: &'a str,
}

fn main(rt: HostRuntime) -> anyhow::Result<()> {
    let file = file_of(&rt)?;
    if matches!(file.as_str(), "-h" | "--help") {
        print!(rt; "{USAGE}")?;
        return Ok(());
    }
    let text = fs::read_to_string(&rt, file.as_str()).context(format_args!("{file}"))?;
    let mut table = Routes::new(rt.alloc());
    let result = run(&rt, &file, without_mark(&text), &mut table);
    drop(table);
    result
}

/// Returns the first argument.
fn file_of(rt: &HostRuntime) -> anyhow::Result<String> {
    env::args(rt)?.nth(1).context("usage: lpm FILE")
}

/// Returns a text without the byte-order mark that may begin it.
fn without_mark(text: &str) -> &str {
    text.strip_prefix('\u{feff}').unwrap_or(text)
}

/// Mounts the networks of a table, and then looks up the lines of standard input.
fn run(rt: &HostRuntime, file: &str, text: &str, table: &mut Table) -> anyhow::Result<()> {
    mount_all(rt, file, text, table)?;
    let count = table.len();
    println!(rt;
        "{count} {}",
        if count == 1 { "network" } else { "networks" }
    )?;
    look_up_all(rt, table)
}

/// Mounts the network of each line, except for blank lines and remarks.
fn mount_all(
    rt: &impl AllocGlobal,
    file: &str,
    text: &str,
    table: &mut Table,
) -> anyhow::Result<()> {
    let mut number = 0usize;
    for text in text.lines() {
        number = number.wrapping_add(1);
        let text = text.trim();
        if !text.is_empty() && !text.starts_with('#') {
            mount(rt, table, &Line { file, number, text })?;
        }
    }
    Ok(())
}

/// Mounts the network of a line. Returns an error if the line is no network with a name, or if the
/// network is mounted already.
fn mount(rt: &impl AllocGlobal, table: &mut Table, line: &Line<'_>) -> anyhow::Result<()> {
    let Line { file, number, text } = line;
    let Some((address, length)) = network_of(text) else {
        anyhow::bail!("{file}:{number}: {text} is no network with a name");
    };
    let bits = bits(address);
    let (network, rest) = bits.split_at(length);
    if rest.contains(&1) {
        anyhow::bail!("{file}:{number}: {address} has bits after the first {length}");
    }
    if let Some(other) = table.get(network) {
        anyhow::bail!("{file}:{number}: {text} is the network of {other}");
    }
    let network = Vec::from_slice(rt.alloc(), network)?;
    table.mount(network, text.to_string(rt.alloc())?)?;
    Ok(())
}

/// Returns the address of the network with which a line begins, and the number of bits that its
/// addresses have in common, or `None` if no network and a space begin the line.
fn network_of(text: &str) -> Option<(Ipv4Addr, usize)>
    ensures { IfSome result (λ network. network.1 ≤ 32) }
{
    let (network, _) = text.split_once(' ')?;
    let (address, length) = network.split_once('/')?;
    let is_plain = length == "0" || !length.starts_with('0') && !length.starts_with('+');
    let length = length.parse::<usize>().ok()?;
    if !is_plain || length > 32 {
        return None;
    }
    Some((address.parse().ok()?, length))
}

/// Returns the bits of an address, a byte for each.
fn bits(address: Ipv4Addr) -> [u8; 32] {
    let mut bits = [0; 32];
    let mut rest = u32::from(address);
    for bit in &mut bits {
        *bit = u8::from(rest >= 1 << 31);
        rest <<= 1;
    }
    bits
}

/// Looks up the address of each line of standard input.
fn look_up_all(rt: &HostRuntime, table: &Table) -> anyhow::Result<()> {
    for line in BufReader::new(rt.alloc(), rt.reader())?.lines(rt.alloc()) {
        match line {
            Ok(address) => look_up(rt, table, &address)?,
            Err(error) if error.kind() == ErrorKind::InvalidData => println!(rt; "not UTF-8")?,
            Err(error) => return Err(error.into()),
        }
    }
    Ok(())
}

/// Writes the line of the smallest network that has an address.
fn look_up(rt: &impl Print, table: &Table, text: &str) -> anyhow::Result<()> {
    let Ok(address) = text.parse::<Ipv4Addr>() else {
        println!(rt; "{text}: no address")?;
        return Ok(());
    };
    match table.resolve(&bits(address)) {
        Some((_, line)) => println!(rt; "{address}: {line}")?,
        None => println!(rt; "{address}: no network")?,
    }
    Ok(())
}
