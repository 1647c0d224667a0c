//! A program for tests: each text of the standard input is a case, a call of a crate below the top
//! call, and each line of the standard output is what one case gave.
#![tactic(auto)]

mod again;
mod answers;
mod asked;
mod deliver;
mod elements;
mod fed;
mod follow;
mod keep;
mod keys;
mod scenes;
mod served;
mod values;

use answers::Calls;
use board_ends::{StdSink, StdSource};
use case_text::answer_cases;
use std::process::ExitCode;

/// Reads the cases, makes the call of each, and writes the lines on them.
fn main(rt: HostRuntime) -> ExitCode {
    let mut source = StdSource::new(rt.stdin());
    let mut sink = StdSink::new(rt.stdout());
    if answer_cases(rt.alloc(), &mut source, &mut sink, &Calls) {
        ExitCode::SUCCESS
    } else {
        ExitCode::FAILURE
    }
}
