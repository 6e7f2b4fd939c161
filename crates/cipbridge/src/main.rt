//! Runs a script over the modules of a CIP chassis, and writes the transcript.
#![tactic(auto)]

mod fault;
mod hint;
mod noted;
mod program;
mod terminal;

use std::process::ExitCode;

fn main(rt: HostRuntime) -> ExitCode {
    match program::run_program(&rt, &rt) {
        Ok(()) => ExitCode::SUCCESS,
        Err(fault) => {
            if fault.is_told() {
                let _ = eprintln!(rt; "cipbridge: {fault}");
            }
            let status = fault.status();
            // (one place to give it up is one to prove)
            drop(fault);
            ExitCode::from(status)
        }
    }
}
