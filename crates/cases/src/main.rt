//! A program for tests: each text of the standard input is a case, a run of the top call over
//! memory, and each line of the standard output is what one case was answered with.
#![tactic(auto)]

mod run;
mod runs;
mod stops;
mod sure;
mod words;

use board_ends::{StdSink, StdSource};
use case_text::answer_cases;
use runs::Runs;
use std::process::ExitCode;

/// Reads the cases, runs each, and writes the lines on them. The first word, if there is one, is
/// how many bytes the ends of a run give and take at once if its case doesn't say.
fn main(rt: HostRuntime) -> ExitCode {
    let Some(chunk) = words::chunk_asked(&rt) else {
        return ExitCode::FAILURE;
    };
    let mut source = StdSource::new(rt.stdin());
    let mut sink = StdSink::new(rt.stdout());
    if answer_cases(rt.alloc(), &mut source, &mut sink, &Runs { chunk }) {
        ExitCode::SUCCESS
    } else {
        ExitCode::FAILURE
    }
}
