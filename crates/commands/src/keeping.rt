//! A durable room: from what it begins with to what ends it.

ghost use Rattle.std.specs.Prelude.{◌≡◌, ◌≢◌, ◌⊎◌, ℕ, All, List as Items, IfOk, IfErr};
ghost use Rattle.elem_read.specs.Reading.{IsWholeElement};
ghost use Rattle.scene_file.specs.Whole.{IsWholeHead, HaveKeys};
ghost use Rattle.commands.specs.Ends.{span, WasRead};
ghost use Rattle.commands.specs.inner.Ends.{IsInputFault};
ghost use Rattle.commands.specs.Faults.{IsNoted};
ghost use Rattle.commands.specs.Keeping.{BeginsWith, IsBeginsRefusal, WasKeptTo, kept_line, kept_status, limit_from};
ghost use Rattle.commands.specs.Serving.{ends};
ghost use Rattle.commands.specs.inner.Services.{IsKeeping};

use crate::input::some_board;
use crate::recovering::recorded;
use crate::status::{Fault, Status};
use crate::words::{Begins, Keeping};
use board_base::Piece;
use board_ends::{Journal, Links, Sink, Source, write_pieces};
use elem_store::Store;
use room_core::Room;
use room_disk::{KeepEnd, keep_room, resume};
use scene_file::Head;
use std::alloc::Global;

/// Reads what a durable room begins with, and serves it to its end, with the output as its journal.
pub(crate) fn keep<S: Source, K: Journal, L: Links>(
    alloc: Global,
    keeping: Keeping,
    input: &mut S,
    output: &mut K,
    links: &mut L,
) -> Result<KeepEnd, Fault>
    requires { IsKeeping keeping }
    ensures kept { IfOk result (λ end. WasKeptTo keeping end
        (ends (span (S.seen input.old) (S.seen input.new))
        (span (K.seen output.old) (K.seen output.new))
        (span (L.seen links.old) (L.seen links.new)))) }
    ensures fault { IfErr result (IsInputFault (limit_from keeping.begins)
        (IsBeginsRefusal keeping.begins)
        (span (S.seen input.old) (S.seen input.new))) }
    ensures output_kept { IfErr result (λ _. output.new ≡ output.old) }
    ensures links_kept { IfErr result (λ _. links.new ≡ links.old) }
{
    let (head, store) = begun(alloc, keeping.begins, input)?;
    let mut room = Room::new(alloc, store);
    let end = keep_room(
        alloc,
        &mut room,
        &head,
        links,
        keeping.port,
        output,
        &keeping.limits,
    );
    Ok(end)
}

/// The head and the store that a durable room begins with.
fn begun<S: Source>(alloc: Global, begins: Begins, input: &mut S) -> Result<(Head, Store), Fault>
    ensures begun { IfOk result (λ begun. (bytes : Items ℕ)
        × WasRead (limit_from begins) (span (S.seen input.old) (S.seen input.new)) bytes
        × BeginsWith begins bytes (record { head = begun.0; stored = begun.1.elements })) }
    ensures whole { IfOk result (λ begun. IsWholeHead begun.0
        × (All IsWholeElement begun.1.elements × HaveKeys begun.1.elements)) }
    ensures fault { IfErr result (IsInputFault (limit_from begins) (IsBeginsRefusal begins)
        (span (S.seen input.old) (S.seen input.new))) }
{
    room_disk::laws::recovered_is_whole();
    room_disk::laws::resumed_elements_have_keys();
    match begins {
        Begins::Scenes => some_board(alloc, input),
        Begins::Journal => {
            let (head, store) = recorded(alloc, input)?;
            Ok((head, resume(alloc, store)?))
        }
    }
}

/// Notes the end of a durable room, where it is a fault, and gives its status. A fault of the notes
/// changes nothing else.
pub(crate) fn noted_keep_end<N: Sink>(end: KeepEnd, notes: &mut N) -> Status
    ensures status { result ≡ kept_status end }
    ensures done { (end ≡ KeepEnd.AllClosed) ⊎ (end ≡ KeepEnd.Idle) → notes.new ≡ notes.old }
    ensures noted { end ≢ KeepEnd.AllClosed → end ≢ KeepEnd.Idle
        → IsNoted (kept_line end) (N.seen notes.old) (N.seen notes.new) }
{
    match end {
        KeepEnd::AllClosed => Status::Done,
        KeepEnd::Idle => Status::Idle,
        fault => {
            let (words, status) = told(fault);
            let _ = write_pieces(notes, &[Piece::Words(words)]);
            status
        }
    }
}

/// The line that tells the end of a durable room, which is a fault, and its status.
fn told(end: KeepEnd) -> (&'static str, Status)
    requires { (end ≢ KeepEnd.AllClosed) × (end ≢ KeepEnd.Idle) }
    ensures line { result.0.now ≡ kept_line end }
    ensures status { result.1 ≡ kept_status end }
{
    match end {
        KeepEnd::LinkFault => ("board: link fault\n", Status::LinkFault),
        KeepEnd::LinksFull => ("board: room: links full\n", Status::Refused),
        KeepEnd::EventsFull => ("board: room: events full\n", Status::Refused),
        KeepEnd::JournalFault => ("board: write fault\n", Status::WriteFault),
        _ => ("board: out of memory\n", Status::Memory),
    }
}
