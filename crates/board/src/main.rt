//! The program: the top call over the standard streams, the words of the command line and the
//! sockets of the loopback.
#![tactic(auto)]

ghost use Rattle.std.specs.Prelude.{◌≡◌};
ghost use Rattle.std.specs.Process.{exit_status};
ghost use Rattle.commands.specs.Faults.{code_of};

mod output;
mod words;

use board_base::{Bytes, List};
use board_ends::{StdSink, StdSource};
use commands::{Fault, Status, board};
use output::Output;
use std::alloc::AllocError;
use std::process::ExitCode;
use ws_links::WsLinks;

/// Runs the board over the standard streams, the words after the program's name and links without a
/// socket, and ends with its status.
fn main(rt: HostRuntime) -> ExitCode {
    let mut notes = StdSink::new(rt.stderr());
    let status = match words_and_links(&rt) {
        Ok((words, mut links)) => board(
            rt.alloc(),
            words.as_slice(),
            &mut StdSource::new(rt.stdin()),
            &mut StdSink::new(Output::new(rt.stdout())),
            &mut notes,
            &mut links,
        ),
        Err(AllocError) => Fault::Memory.noted(&mut notes),
    };
    exit_of(status)
}

/// The words of the command line, and the links of a room.
fn words_and_links(rt: &HostRuntime) -> Result<(List<Bytes>, WsLinks<&HostRuntime>), AllocError> {
    let words = words::of_command_line(rt)?;
    let links = WsLinks::new(rt.alloc(), rt)?;
    Ok((words, links))
}

/// The exit of a run with this status.
fn exit_of(status: Status) -> ExitCode
    ensures { exit_status result ≡ code_of status }
{
    ExitCode::from(status.code())
}
