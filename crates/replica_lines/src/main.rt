//! The program: a replica that is asked line by line over the standard streams.
#![tactic(auto)]

ghost use Rattle.std.specs.Prelude.{◌≡◌, Err, OnOk};
ghost use Rattle.std.specs.Process.{exit_status};
ghost use Rattle.board_base.specs.declared.stop.Stop.{Stop};
ghost use Rattle.input_texts.specs.declared.answering.LinesFault.{LinesFault};

use board_base::Stop;
use board_ends::{StdSink, StdSource, write_all};
use input_texts::LinesFault;
use line_replica::answer_input;
use std::process::ExitCode;

/// Answers the lines of standard input on standard output, to the end of the input. A fault is told
/// on standard error.
fn main(rt: HostRuntime) -> ExitCode {
    let mut source = StdSource::new(rt.stdin());
    let mut sink = StdSink::new(rt.stdout());
    let end = answer_input(rt.alloc(), &mut source, &mut sink);
    if let Err(why) = end {
        let _ = write_all(&mut StdSink::new(rt.stderr()), words_of(why).as_bytes());
    }
    exit_of(end)
}

/// The line that tells why the lines were answered no further.
fn words_of(why: Stop<LinesFault>) -> &'static str {
    match why {
        Stop::Memory => "replica_lines: out of memory\n",
        Stop::Fault(LinesFault::ReadFailed) => "replica_lines: read fault\n",
        Stop::Fault(LinesFault::WriteFailed) => "replica_lines: write fault\n",
    }
}

/// The exit of a run with this end, by the statuses of the program `board`.
fn exit_of(end: Result<(), Stop<LinesFault>>) -> ExitCode
    ensures done { OnOk end (exit_status result ≡ 0) }
    ensures memory { end ≡ Err Stop.Memory → exit_status result ≡ 1 }
    ensures read { end ≡ Err (Stop.Fault LinesFault.ReadFailed) → exit_status result ≡ 4 }
    ensures write { end ≡ Err (Stop.Fault LinesFault.WriteFailed) → exit_status result ≡ 5 }
{
    ExitCode::from(match end {
        Ok(()) => 0,
        Err(Stop::Memory) => 1,
        Err(Stop::Fault(LinesFault::ReadFailed)) => 4,
        Err(Stop::Fault(LinesFault::WriteFailed)) => 5,
    })
}
