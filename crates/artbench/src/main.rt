//! Times the map beside the toolchain's `BTreeMap`, on keys that the program makes from a seed.
//!
//! `artbench KEYS KIND [ROWS]`: the number of keys, their kind (`random`, `urls`, `dense`, `short`,
//! `random8`, `random16`, `dense8` or `all`), and the calls (`pairs`, `bulk`, `sets`, `mounts` or
//! `all`, which is the default). If `ROWS` is `keys`, the program writes the keys and times
//! nothing. Sums over the results of the calls go to standard output. They are the same on each
//! run. Times and ratios go to standard error.
#![tactic(auto)]

mod bulk_rows;
mod contest;
mod failure;
mod joins;
mod keys;
mod maps;
mod mount_rows;
mod readings;
mod resolvers;
mod set_rows;
mod sets;
mod sheet;
mod stores;
mod tables;
mod wishes;
mod workload;

use crate::contest::contest;
use crate::failure::Failure;
use crate::keys::{Key, Made};
use crate::sheet::Sheet;
use crate::tables::{write_keys, write_sheet};
use crate::wishes::{Group, Wishes};
use crate::workload::{Kind, Workload};
use blart_keys::{NoPrefixesBytes, ZKey};
use std::env;
use std::iter::FromIterator;
use std::process::ExitCode;

/// Runs what the arguments ask for, or says why it cannot.
fn main(rt: HostRuntime) -> ExitCode {
    match run(&rt) {
        Ok(()) => ExitCode::SUCCESS,
        Err(failure) => {
            let _ = eprintln!(rt; "artbench: {}", failure.message());
            ExitCode::FAILURE
        }
    }
}

/// Runs what the arguments ask for.
fn run(rt: &HostRuntime) -> Result<(), Failure> {
    let wishes = read(rt)?;
    for kind in Kind::ALL {
        if wishes.kind.is_none() || wishes.kind == Some(kind) {
            run_kind(rt, kind, wishes)?;
        }
    }
    Ok(())
}

/// Reads the arguments.
fn read(rt: &HostRuntime) -> Result<Wishes, Failure> {
    let args = Vec::from_iter(rt.alloc(), env::args(rt)?)?;
    let wishes = Wishes::read(&args);
    drop(args);
    wishes
}

/// Writes the keys of a kind, or times both maps on them.
fn run_kind(rt: &HostRuntime, kind: Kind, wishes: Wishes) -> Result<(), Failure> {
    if wishes.group == Some(Group::Keys) {
        write_keys_of(rt, kind, wishes.keys)
    } else {
        write_times_of(rt, kind, wishes)
    }
}

/// Writes `count` keys of a kind.
fn write_keys_of(rt: &HostRuntime, kind: Kind, count: usize) -> Result<(), Failure> {
    let mut workload = Workload::new(rt.alloc(), kind);
    let written = match workload.fill(count) {
        Ok(()) => write_keys(rt, &workload),
        Err(failure) => Err(failure),
    };
    drop(workload);
    written
}

/// Times both maps on keys of a kind, with the key type of that kind, and writes the results.
fn write_times_of(rt: &HostRuntime, kind: Kind, wishes: Wishes) -> Result<(), Failure> {
    let mut sheet = Sheet::new(rt.alloc());
    match kind {
        Kind::Random8 | Kind::Dense8 => time::<[u8; 8], [u8; 8]>(rt, kind, wishes, &mut sheet),
        Kind::Random16 => time::<[u8; 16], [u8; 16]>(rt, kind, wishes, &mut sheet),
        _ => time::<Vec<u8>, ZKey>(rt, kind, wishes, &mut sheet),
    }
    let written = write_sheet(rt, kind.name(), wishes.keys, &sheet);
    drop(sheet);
    written
}

/// Times both maps in turn on keys of one type. The calls that require a key type whose keys cannot
/// conflict are timed on keys of a second type.
fn time<K: Key, F: Made + NoPrefixesBytes>(
    rt: &HostRuntime,
    kind: Kind,
    wishes: Wishes,
    sheet: &mut Sheet,
) {
    let mut workload: Workload<K> = Workload::new(rt.alloc(), kind);
    let filled = workload.fill(wishes.keys);
    sheet.check(filled);
    contest::<K, F>(rt, &workload, wishes, sheet);
    drop(workload);
}
