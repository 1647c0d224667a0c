//! A whole talk over a source and a sink.

ghost use Rattle.std.specs.Prelude.{◌≡◌, ◌≢◌, ◌≤◌, ℕ, List as Items, Err, OnOk};
ghost use Rattle.board_ends.specs.Counts.{Rose};
ghost use Rattle.board_ends.specs.Ends.{Gave, IsAtEnd};
ghost use Rattle.input_texts.specs.Lines.{lines_of};
ghost use Rattle.input_texts.specs.declared.answering.LinesFault.{LinesFault};
ghost use Rattle.line_replica.specs.Asking.{HasTalked, HasTalkedInPart};

use crate::talk::Talk;
use board_base::{Bytes, Stop};
use board_ends::{Sink, Source};
use input_texts::{Answerer, LinesFault, answer_lines};
use std::alloc::{AllocError, Global};

/// What a line is answered with where memory is wanting.
const LOST: &[u8] = b"{\"memory\":true}";

impl Answerer for Talk {
    ghost use Rattle.std.specs.Prelude.{Option};
    ghost use Rattle.line_replica.specs.Living.{Living};
    ghost use Rattle.line_replica.specs.Standing.{TalkStandsFor};
    ghost use Rattle.line_replica.specs.Talks.{Answers};

    ghost State = { Option Living };

    ghost stands = { TalkStandsFor };

    ghost answers = { Answers };

    fn answer(&mut self, alloc: Global, line: &[u8]) -> Result<Bytes, AllocError> {
        Talk::answer(self, alloc, line)
    }
}

/// Answers each line that the source gives, up to its end: the first one without a fault opens a
/// replica, and the others are for it. Each answer is written with a line feed before the next line
/// is answered. What stands behind the last line feed is no line. Where memory is wanting for a
/// line or its answer, the words of that are its answer, and the replica is as before. `ReadFailed`
/// comes only where the source's count of faults rose, and all lines before are answered;
/// `WriteFailed` only where the sink's rose, within the answer to a line. Want of memory is the
/// answer where nothing was read yet, or more pieces came than a 64-bit number counts.
pub fn answer_input<S: Source, K: Sink>(
    alloc: Global,
    source: &mut S,
    sink: &mut K,
) -> Result<(), Stop<LinesFault>>
    ensures answered { result ≢ Err (Stop.Fault LinesFault.WriteFailed) → (bytes : Items ℕ)
        × Gave (S.seen source.old) (S.seen source.new) bytes
        × HasTalked (K.seen sink.old) (K.seen sink.new) (lines_of bytes) }
    ensures end { OnOk result (IsAtEnd (S.seen source.new)) }
    ensures read_failed { result ≡ Err (Stop.Fault LinesFault.ReadFailed)
        → Rose (S.seen source.old).faults (S.seen source.new).faults }
    ensures write_failed { result ≡ Err (Stop.Fault LinesFault.WriteFailed)
        → Rose (K.seen sink.old).faults (K.seen sink.new).faults }
    ensures part { result ≡ Err (Stop.Fault LinesFault.WriteFailed) → (bytes : Items ℕ)
        × Gave (S.seen source.old) (S.seen source.new) bytes
        × HasTalkedInPart (K.seen sink.old) (K.seen sink.new) (lines_of bytes) }
    ensures source_counted { (S.seen source.old).faults ≤ (S.seen source.new).faults }
    ensures sink_counted { (K.seen sink.old).faults ≤ (K.seen sink.new).faults }
{
    let mut talk = Talk::new();
    answer_lines(alloc, source, sink, &mut talk, LOST)
}
