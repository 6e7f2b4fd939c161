//! Shows a transcript of cipbridge: decoded, as JSON, as a chart, or as a capture.
#![tactic(auto)]

mod fault;
mod files;
mod length;
mod options;
mod program;
mod ranged;
mod terminal;

use std::process::ExitCode;

fn main(rt: HostRuntime) -> ExitCode {
    match program::run_program(&rt) {
        Ok(()) => ExitCode::SUCCESS,
        Err(fault) => {
            if fault.is_told() {
                let _ = eprintln!(rt; "cipview: {fault}");
            }
            let status = fault.status();
            // (one place to give it up is one to prove)
            drop(fault);
            ExitCode::from(status)
        }
    }
}
