//! Answers what engineers ask beside a run: paths, network connection parameters, statuses.
#![tactic(auto)]

mod fault;
mod files;
mod noted;
mod options;
mod program;
mod rooms;

use std::process::ExitCode;

fn main(rt: HostRuntime) -> ExitCode {
    match program::run_program(&rt) {
        Ok(()) => ExitCode::SUCCESS,
        Err(fault) => {
            if fault.is_told() {
                let _ = eprintln!(rt; "ciptool: {fault}");
            }
            let status = fault.status();
            // (one place to give it up is one to prove)
            drop(fault);
            ExitCode::from(status)
        }
    }
}
