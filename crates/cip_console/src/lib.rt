//! The console: where a script comes from and where its transcript goes to, each kind of step
//! played over a world, a script played in turn or by modules on threads, and the program's
//! options.
#![tactic(auto)]

mod console;
mod fault;
mod laws;
mod live;
mod options;
mod playing;
mod progress;
mod source;
mod steps;

pub use cip_script::{Explained, Numbered, ScriptFault, Step, WordFault, explain};
pub use console::run;
pub use fault::ConsoleFault;
pub use laws::runs_are_printed_alike;
pub use live::run_live;
pub use options::{HELP, Options, OptionsFault, Usage, VERSION, explain_options, read_options};
pub use progress::{Line, Screen, Watched};
pub use source::{Out, Plain, ReadFault, SCRIPT_LIMIT, Script, Sink, Source, read_script};
