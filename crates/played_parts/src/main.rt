//! Asks the parts below a module questions, and compares the answers: small values, paths,
//! messages, times, tables and the target.
//!
//! `played_parts FILE ..` plays the rows of these files, which are QUESTION = ANSWER, and writes a
//! line for each case, with the first row of it that differs. Of a row without an answer it writes
//! the answer. `cases.rt` says how a file is made up, the library `line_words` what the words of a
//! question are.
//!
//! `played_parts marked FILE ..` compares nothing, and writes a line for each row. The library call
//! in it that takes memory, or hands its argument back, stands between the marks `>` and `<`, so
//! that memory can be refused to it alone. Behind the marks the line tells whether it was
//! (`no memory`) or whether the argument came back (`back`), and whether the argument and the part
//! are the `same` as before; then ` = ` and the answer, for which a call that was refused is made
//! once more, without marks.
#![tactic(auto)]

mod cases;
mod connections;
mod edited_messages;
mod messages;
mod part;
mod paths;
mod read_messages;
mod rooms;
mod small_values;
mod target;
mod texts;
mod times;
mod waiting_requests;

use std::env;
use std::process::ExitCode;

// Whether each row is answered as it tells. None where memory or the output is refused.
fn run(rt: &HostRuntime) -> Option<bool> {
    let mut words = env::args(rt).ok()?;
    let _program = words.next();
    let mut is_marked = false;
    let mut is_right = true;
    for word in words {
        if word.as_str() == "marked" {
            is_marked = true;
        } else {
            is_right = cases::play(rt, word.as_str(), is_marked)? && is_right;
        }
    }
    Some(is_right)
}

fn main(rt: HostRuntime) -> ExitCode {
    match run(&rt) {
        Some(true) => ExitCode::SUCCESS,
        Some(false) => ExitCode::FAILURE,
        None => {
            let _ = eprintln!(rt; "played_parts: memory or the output was refused");
            ExitCode::FAILURE
        }
    }
}
