//! The top call over ends that never fail.

ghost use Rattle.std.specs.Prelude.{◌≢◌};
ghost use Rattle.commands.specs.declared.status.Status.{Status};

use crate::running::board;
use crate::status::Status;
use board_base::Bytes;
use board_ends::{Links, Sink, SureSink, SureSource};
use std::alloc::Global;

/// `board` over an input and an output that never fail: a fault of reading or of writing never
/// comes.
pub fn board_surely<N: Sink, L: Links>(
    alloc: Global,
    words: &[Bytes],
    input: &mut SureSource,
    output: &mut SureSink,
    notes: &mut N,
    links: &mut L,
) -> Status
    ensures reads { result ≢ Status.ReadFault }
    ensures writes { result ≢ Status.WriteFault }
{
    board(alloc, words, input, output, notes, links)
}
