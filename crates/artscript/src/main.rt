//! Runs a script of calls of the map and the set, and writes a line for each of its lines.
//!
//! The script runs over maps of six prefix lengths, which must yield the same results.
#![tactic(auto)]

mod entries;
mod failure;
mod lengths;
mod maps;
mod session;
mod sets;

use crate::failure::Failure;
use crate::lengths::answers_at_each_length;
use std::io::{Read, Write};
use std::process::ExitCode;

/// Runs the script from standard input.
fn main(rt: HostRuntime) -> ExitCode {
    match run(&rt) {
        Ok(()) => ExitCode::SUCCESS,
        Err(failure) => {
            let _ = report(&rt, &failure);
            ExitCode::FAILURE
        }
    }
}

/// Reads the script, runs it, and writes its results.
fn run(rt: &HostRuntime) -> Result<(), Failure> {
    let mut script = Vec::new(rt.alloc());
    if rt.stdin().read_to_end(&mut script).is_err() {
        return Err(Failure::Read);
    }
    let answers = answers_at_each_length(rt.alloc(), &script)?;
    let mut output = rt.stdout();
    if output.write_all(answers.as_slice()).is_err() || output.flush().is_err() {
        return Err(Failure::Write);
    }
    Ok(())
}

/// Writes to standard error why there are no answers.
fn report(rt: &HostRuntime, failure: &Failure) -> std::io::Result<()> {
    let mut errors = rt.stderr();
    errors.write_all(b"artscript: ")?;
    errors.write_all(failure.text())?;
    errors.write_all(b"\n")
}
