//! Lines of an input that are answered, each before the next one is.

ghost use Rattle.std.specs.Prelude.{◌≡◌, ◌≢◌, ℕ, ◌<◌, ◌≤◌, ◌∷◌, [], ◌++◌, List as Items, length, take, Ok, Err, IfOk, OnOk, OnErr};
ghost use Rattle.board_ends.specs.Counts.{Rose};
ghost use Rattle.board_ends.specs.Ends.{Gave, Took, IsAtEnd};
ghost use Rattle.input_texts.specs.Answering.{output_line, WereAnswered, WereAnsweredInPart};
ghost use Rattle.input_texts.specs.Lines.{lines_of, lines_behind, begun_behind};
ghost use Rattle.input_texts.specs.inner.Begun.{IsBegun};
ghost use Rattle.input_texts.specs.declared.answering.LinesFault.{LinesFault};

use crate::line::{Begun, line_end};
use board_base::{Bytes, Stop};
use board_ends::{Failed, Sink, Source, empty_piece, write_all};
use std::alloc::{AllocError, Global};

/// What answers lines, one after the other.
pub trait Answerer {
    // What the answer to a line hangs on, besides the line.
    ghost State: { Type 0 };

    // Which states it stands for.
    ghost stands: { Self → State → Type 0 };

    // Which answers a line may have in a state, and which state each leads to.
    ghost answers: { State → Items ℕ → Items ℕ → State → Type 0 };

    /// Answers the next line, whose line feed is in it; the answer's is not. For want of memory
    /// it is as before.
    fn answer(&mut self, alloc: Global, line: &[u8]) -> Result<Bytes, AllocError>
        ensures answered { IfOk result (λ text. (state : State) → stands self.old state
            → (next : State) × stands self.new next × answers state line.now text next) }
        ensures kept { OnErr result ((state : State) → stands self.old state
            → stands self.new state) };
}

/// Why lines were answered no further.
#[derive(Clone, Copy, Debug, PartialEq, Eq, Drop)]
pub enum LinesFault {
    /// The source failed; its count of faults tells so.
    ReadFailed,
    /// The sink failed; its count of faults tells so.
    WriteFailed,
}

/// Answers each line that the source gives, up to its end: the answer and a line feed are written
/// before a further line is answered. What stands behind the last line feed is no line. Where
/// memory is wanting for a line or its answer, `lost` is written for it, and the answerer is as
/// before. It holds one line at a time. `ReadFailed` comes only where the source's count of faults
/// rose, and all lines before are answered; `WriteFailed` only where the sink's rose, within the
/// answer to a line. Want of memory is the answer where nothing was read yet, or more pieces came
/// than a 64-bit number counts.
pub fn answer_lines<S: Source, K: Sink, A: Answerer>(
    alloc: Global,
    source: &mut S,
    sink: &mut K,
    answerer: &mut A,
    lost: &[u8],
) -> Result<(), Stop<LinesFault>>
    ensures answered { result ≢ Err (Stop.Fault LinesFault.WriteFailed) → (bytes : Items ℕ)
        × Gave (S.seen source.old) (S.seen source.new) bytes
        × WereAnswered A.answers lost.now (A.stands answerer.old) (A.stands answerer.new)
        (K.seen sink.old) (K.seen sink.new) (lines_of bytes) }
    ensures end { OnOk result (IsAtEnd (S.seen source.new)) }
    ensures read_failed { result ≡ Err (Stop.Fault LinesFault.ReadFailed)
        → Rose (S.seen source.old).faults (S.seen source.new).faults }
    ensures write_failed { result ≡ Err (Stop.Fault LinesFault.WriteFailed)
        → Rose (K.seen sink.old).faults (K.seen sink.new).faults }
    ensures part { result ≡ Err (Stop.Fault LinesFault.WriteFailed) → (bytes : Items ℕ)
        × Gave (S.seen source.old) (S.seen source.new) bytes
        × WereAnsweredInPart A.answers lost.now (A.stands answerer.old) (A.stands answerer.new)
        (K.seen sink.old) (K.seen sink.new) (lines_of bytes) }
    ensures source_counted { (S.seen source.old).faults ≤ (S.seen source.new).faults }
    ensures sink_counted { (K.seen sink.old).faults ≤ (K.seen sink.new).faults }
{
    let mut begun = Begun::new(alloc);
    let mut piece = empty_piece(alloc)?;
    'pieces: for _ in 0..u64::MAX {
        match next_piece(alloc, source, sink, answerer, lost, &mut begun, &mut piece) {
            Ok(0) => return Ok(()),
            Ok(_) => {}
            Err(fault) => return Err(Stop::Fault(fault)),
        }
    }
    Err(Stop::Memory)
}

/// Reads the next bytes into the piece and answers the lines that end in them, and says how many
/// came.
fn next_piece<S: Source, K: Sink, A: Answerer>(
    alloc: Global,
    source: &mut S,
    sink: &mut K,
    answerer: &mut A,
    lost: &[u8],
    begun: &mut Begun,
    piece: &mut [u8],
) -> Result<usize, LinesFault>
    ensures given { IfOk result (λ n. Gave (S.seen source.old) (S.seen source.new)
        (take n piece.new)) }
    ensures begun { IfOk result (λ n. (bytes : Items ℕ) → IsBegun begun.old bytes
        → IsBegun begun.new (begun_behind bytes (take n piece.new))) }
    ensures answered { IfOk result (λ n. (bytes : Items ℕ) → IsBegun begun.old bytes
        → WereAnswered A.answers lost.now (A.stands answerer.old) (A.stands answerer.new)
        (K.seen sink.old) (K.seen sink.new) (lines_behind bytes (take n piece.new))) }
    ensures end { IfOk result (λ n. n ≡ 0 → 0 < length piece.old → IsAtEnd (S.seen source.new)) }
    ensures read_failed { result ≡ Err LinesFault.ReadFailed
        → Rose (S.seen source.old).faults (S.seen source.new).faults
        × ((S.seen source.new).left ≡ (S.seen source.old).left)
        × (answerer.new ≡ answerer.old) × (sink.new ≡ sink.old) }
    ensures write_failed { result ≡ Err LinesFault.WriteFailed
        → Rose (K.seen sink.old).faults (K.seen sink.new).faults }
    ensures part { result ≡ Err LinesFault.WriteFailed → (bytes : Items ℕ)
        → IsBegun begun.old bytes
        → (given : Items ℕ) × Gave (S.seen source.old) (S.seen source.new) given
        × WereAnsweredInPart A.answers lost.now (A.stands answerer.old) (A.stands answerer.new)
        (K.seen sink.old) (K.seen sink.new) (lines_behind bytes given) }
    ensures source_counted { (S.seen source.old).faults ≤ (S.seen source.new).faults }
    ensures sink_counted { (K.seen sink.old).faults ≤ (K.seen sink.new).faults }
{
    let Ok(n) = source.read(piece) else {
        return Err(LinesFault::ReadFailed);
    };
    match take_piece(alloc, sink, answerer, lost, begun, &piece[..n]) {
        Ok(()) => Ok(n),
        Err(Failed) => Err(LinesFault::WriteFailed),
    }
}

/// Answers the lines that end in the next bytes.
fn take_piece<K: Sink, A: Answerer>(
    alloc: Global,
    sink: &mut K,
    answerer: &mut A,
    lost: &[u8],
    begun: &mut Begun,
    piece: &[u8],
) -> Result<(), Failed>
    ensures begun { OnOk result ((bytes : Items ℕ) → IsBegun begun.old bytes
        → IsBegun begun.new (begun_behind bytes piece.now)) }
    ensures answered { OnOk result ((bytes : Items ℕ) → IsBegun begun.old bytes
        → WereAnswered A.answers lost.now (A.stands answerer.old) (A.stands answerer.new)
        (K.seen sink.old) (K.seen sink.new) (lines_behind bytes piece.now)) }
    ensures failed { OnErr result (Rose (K.seen sink.old).faults (K.seen sink.new).faults) }
    ensures part { OnErr result ((bytes : Items ℕ) → IsBegun begun.old bytes
        → WereAnsweredInPart A.answers lost.now (A.stands answerer.old) (A.stands answerer.new)
        (K.seen sink.old) (K.seen sink.new) (lines_behind bytes piece.now)) }
    ensures counted { (K.seen sink.old).faults ≤ (K.seen sink.new).faults }
{
    let mut at = 0;
    'stretches: while at < piece.len() {
        at += take_stretch(alloc, sink, answerer, lost, begun, &piece[at..])?;
    }
    Ok(())
}

/// Takes the bytes up to the end of a line or of the piece, answers the line if it has ended,
/// and says how many these are.
fn take_stretch<K: Sink, A: Answerer>(
    alloc: Global,
    sink: &mut K,
    answerer: &mut A,
    lost: &[u8],
    begun: &mut Begun,
    piece: &[u8],
) -> Result<usize, Failed>
    requires some { 0 < length piece.now }
    ensures more { IfOk result (λ n. 0 < n) }
    ensures within { IfOk result (λ n. n ≤ length piece.now) }
    ensures begun { IfOk result (λ n. (bytes : Items ℕ) → IsBegun begun.old bytes
        → IsBegun begun.new (begun_behind bytes (take n piece.now))) }
    ensures answered { IfOk result (λ n. (bytes : Items ℕ) → IsBegun begun.old bytes
        → WereAnswered A.answers lost.now (A.stands answerer.old) (A.stands answerer.new)
        (K.seen sink.old) (K.seen sink.new) (lines_behind bytes (take n piece.now))) }
    ensures failed { OnErr result (Rose (K.seen sink.old).faults (K.seen sink.new).faults) }
    ensures part { OnErr result ((bytes : Items ℕ) → IsBegun begun.old bytes
        → WereAnsweredInPart A.answers lost.now (A.stands answerer.old) (A.stands answerer.new)
        (K.seen sink.old) (K.seen sink.new) (lines_behind bytes piece.now)) }
    ensures counted { (K.seen sink.old).faults ≤ (K.seen sink.new).faults }
{
    let front = line_end(piece);
    if front == piece.len() {
        begun.extend(alloc, piece);
        return Ok(front);
    }
    begun.extend(alloc, &piece[..front + 1]);
    answer_begun(alloc, sink, answerer, lost, begun)?;
    begun.clear();
    Ok(front + 1)
}

/// Answers the line, whose end has come.
fn answer_begun<K: Sink, A: Answerer>(
    alloc: Global,
    sink: &mut K,
    answerer: &mut A,
    lost: &[u8],
    line: &Begun,
) -> Result<(), Failed>
    ensures answered { OnOk result ((bytes : Items ℕ) → IsBegun line.now bytes
        → WereAnswered A.answers lost.now (A.stands answerer.old) (A.stands answerer.new)
        (K.seen sink.old) (K.seen sink.new) (bytes ∷ [])) }
    ensures failed { OnErr result (Rose (K.seen sink.old).faults (K.seen sink.new).faults) }
    ensures part { OnErr result ((bytes : Items ℕ) → IsBegun line.now bytes
        → WereAnsweredInPart A.answers lost.now (A.stands answerer.old) (A.stands answerer.new)
        (K.seen sink.old) (K.seen sink.new) (bytes ∷ [])) }
    ensures counted { (K.seen sink.old).faults ≤ (K.seen sink.new).faults }
{
    if line.is_lost {
        return write_line(sink, lost);
    }
    match answerer.answer(alloc, &line.bytes) {
        Ok(text) => write_line(sink, text.as_slice()),
        Err(AllocError) => write_line(sink, lost),
    }
}

/// Writes the answer and a line feed. It takes no memory.
fn write_line<K: Sink>(sink: &mut K, text: &[u8]) -> Result<(), Failed>
    ensures ok { OnOk result (Took (K.seen sink.old) (K.seen sink.new) (output_line text.now)) }
    ensures failed { OnErr result (Rose (K.seen sink.old).faults (K.seen sink.new).faults) }
    ensures part { OnErr result ((n : ℕ) × (n ≤ length (output_line text.now))
        × Took (K.seen sink.old) (K.seen sink.new) (take n (output_line text.now))) }
    ensures counted { (K.seen sink.old).faults ≤ (K.seen sink.new).faults }
{
    write_all(sink, text)?;
    write_all(sink, b"\n")
}
