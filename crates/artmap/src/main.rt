//! Runs the command on each line of standard input, and writes its result to standard output.
#![tactic(auto)]

use blart::{RunError, Watched, fault_line, run};
use std::io::Write;
use std::process::ExitCode;

fn main(rt: HostRuntime) -> ExitCode {
    let mut reader = Watched::new(rt.stdin());
    let mut writer = Watched::new(rt.stdout());
    let ended = run(rt.alloc(), &mut reader, &mut writer);
    let flushed = writer.flush();
    let outcome = match ended {
        Ok(()) => flushed.map_err(|_| RunError::Write),
        Err(error) => Err(error),
    };
    match outcome {
        Ok(()) => ExitCode::SUCCESS,
        Err(error) => {
            let _ = eprintln!(rt; "{}", fault_line(error));
            ExitCode::FAILURE
        }
    }
}
