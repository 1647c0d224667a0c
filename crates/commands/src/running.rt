//! The top call: from the words and the input to the output, the notes and a status.

ghost use Rattle.std.specs.Prelude.{◌≡◌, ◌≢◌, ◌↔◌, ◌⊎◌, ℕ, List, None, Some, IsSome, IfOk, IfErr, OnOk, Result, Ok, Err};
ghost use Rattle.board_ends.specs.Counts.{Rose};
ghost use Rattle.commands.specs.Again.{RestoresOnce, RestoresMerges, StatesStandFor};
ghost use Rattle.commands.specs.Answers.{IsAnswer, Converges};
ghost use Rattle.commands.specs.inner.Causes.{HasCause};
ghost use Rattle.commands.specs.Closing.{IsServedToClose};
ghost use Rattle.commands.specs.Drills.{DrillsAgree, EndsDrilling};
ghost use Rattle.commands.specs.Ends.{span, limit, limit_of, EndsWith, GaveWithin, GaveTooMuch, HasLeft, WasDone, WasDoneInPart, WasRefused};
ghost use Rattle.commands.specs.Faults.{status_of, Noted};
ghost use Rattle.commands.specs.Keeping.{limit_from, EndsKeeping, KeepsInput};
ghost use Rattle.commands.specs.Libraries.{InsertsArePastes, LibrariesStandFor, LibraryIsItsOwn, SameItemsSameLibrary};
ghost use Rattle.commands.specs.KeptRooms.{IsKeptToClose, KeptMembersAgree, MembersStoreTheKeptRoom};
ghost use Rattle.commands.specs.KeptRuns.{NothingKeptIsLost};
ghost use Rattle.commands.specs.Members.{MembersAgree, MembersStoreTheRoom};
ghost use Rattle.commands.specs.Replays.{ChangesAreCaptured, NothingIsPending, OthersChangesStay, PrintedScenesAgree, RedoIsFound, RedoRepeats, ReplicasConverge, ReplicasStoreTheBest, ToldAllStoreTheSame, UndoBringsBack, UndoIsFound, WroteLawfulReport};
ghost use Rattle.commands.specs.Services.{IsDrillWithinLimits};
ghost use Rattle.commands.specs.inner.Services.{IsKeeping, IsService};
ghost use Rattle.commands.specs.Serving.{ends, end_status, EndsServing, ServesInput, WasServedTo};
ghost use Rattle.commands.specs.Words.{asked, HasNames};
ghost use Rattle.room_core.specs.declared.limits.ServeEnd.{ServeEnd};
ghost use Rattle.commands.specs.declared.status.Fault.{Fault};
ghost use Rattle.commands.specs.declared.status.InputRefusal.{InputRefusal};
ghost use Rattle.commands.specs.declared.words.ProgramCommand.{ProgramCommand};
ghost use Rattle.commands.specs.declared.words.Drill.{Drill};
ghost use Rattle.commands.specs.declared.words.Keeping.{Keeping};
ghost use Rattle.commands.specs.declared.words.Request.{Request};
ghost use Rattle.commands.specs.declared.words.Service.{Service};

use crate::answer::answer;
use crate::drilling::drill;
use crate::durable::kept_rooms_hold;
use crate::headline::{drills_hold, libraries_hold, members_hold, merges_hold, replicas_hold};
use crate::keeping::{keep, noted_keep_end};
use crate::serving::{noted_end, serve};
use crate::status::{Fault, Status};
use crate::words;
use crate::words::{Drill, Keeping, ProgramCommand, Request, Service};
use crate::writing::written;
use board_base::Bytes;
use board_ends::{Journal, Links, Sink, Source};
use std::alloc::{AllocError, Global};

/// Does what the words ask for, over this input, output and links. On every answer but `Done` and
/// `Idle` one line on the fault goes to the notes; a fault of the notes changes no status. The
/// whole output is made before its first byte is written, but for the journal of a durable room,
/// which is written while it runs. No command but `serve` calls the links.
pub fn board<S: Source, K: Journal, N: Sink, L: Links>(
    alloc: Global,
    words: &[Bytes],
    input: &mut S,
    output: &mut K,
    notes: &mut N,
    links: &mut L,
) -> Status
    // Usage: the words are no form of a command, and nothing is read.
    ensures usage { (result ≡ Status.Usage) ↔ (asked words.now ≡ None) }
    ensures usage_unread { result ≡ Status.Usage
        → (input.new ≡ input.old) × ((links.new ≡ links.old)
        × Noted Fault.Usage (N.seen notes.old) (N.seen notes.new)) }

    // A command that answers an input. Done: the input, read to its end, is answered with a text,
    // and that is written.
    ensures done { (command : ProgramCommand) → asked words.now ≡ Some (Request.Answer command)
        → result ≡ Status.Done
        → WasDone command (span (S.seen input.old) (S.seen input.new))
        (span (K.seen output.old) (K.seen output.new)) }

    // Refused: the input is too long, or answered with a fault, and the notes tell it.
    ensures refused { (command : ProgramCommand) → asked words.now ≡ Some (Request.Answer command)
        → result ≡ Status.Refused → (fault : Fault)
        × WasRefused command fault (span (S.seen input.old) (S.seen input.new))
        × Noted fault (N.seen notes.old) (N.seen notes.new) }

    // ReadFault and WriteFault: the count of faults rose; what was read was within the limit, and a
    // first part was written.
    ensures read_fault { (command : ProgramCommand)
        → asked words.now ≡ Some (Request.Answer command)
        → result ≡ Status.ReadFault
        → Rose (S.seen input.old).faults (S.seen input.new).faults
        × GaveWithin (limit_of command) (span (S.seen input.old) (S.seen input.new)) }
    ensures write_fault { (command : ProgramCommand)
        → asked words.now ≡ Some (Request.Answer command)
        → result ≡ Status.WriteFault
        → WasDoneInPart command (span (S.seen input.old) (S.seen input.new))
        (span (K.seen output.old) (K.seen output.new)) }

    // Where the input tells its bytes and doesn't fail: Done with the one text that the command
    // answers these bytes with, unless the output fails, or Refused with the one fault; or memory
    // is wanted.
    ensures complete { (command : ProgramCommand) (bytes : List ℕ)
        → asked words.now ≡ Some (Request.Answer command)
        → HasLeft (limit_of command) (S.seen input.old) bytes
        → ¬ Rose (S.seen input.old).faults (S.seen input.new).faults
        → (result ≡ Status.Memory) ⊎ ((answer : Result (List ℕ) InputRefusal)
        × IsAnswer command bytes answer
        × EndsWith answer result (span (K.seen output.old) (K.seen output.new))
        (span (N.seen notes.old) (N.seen notes.new))) }
    ensures too_long { (command : ProgramCommand) → asked words.now ≡ Some (Request.Answer command)
        → IsSome (S.seen input.old).left
        → GaveTooMuch (limit_of command) (span (S.seen input.old) (S.seen input.new))
        → (result ≡ Status.Memory)
        ⊎ ((result ≡ Status.Refused) × Noted Fault.TooLong (N.seen notes.old) (N.seen notes.new)) }

    // What stays, and what the notes gain.
    ensures output_kept { (command : ProgramCommand)
        → asked words.now ≡ Some (Request.Answer command)
        → result ≢ Status.Done → result ≢ Status.WriteFault → output.new ≡ output.old }
    ensures notes_kept { (result ≡ Status.Done) ⊎ (result ≡ Status.Idle) → notes.new ≡ notes.old }
    ensures noted { (command : ProgramCommand) → asked words.now ≡ Some (Request.Answer command)
        → result ≢ Status.Done
        → (fault : Fault) × (status_of fault ≡ result)
        × Noted fault (N.seen notes.old) (N.seen notes.new) }
    ensures links_kept { (command : ProgramCommand)
        → asked words.now ≡ Some (Request.Answer command)
        → links.new ≡ links.old }
    ensures unlinked { (command : ProgramCommand) → asked words.now ≡ Some (Request.Answer command)
        → (result ≢ Status.LinkFault) × (result ≢ Status.Idle) }

    // A room that is served: each end by its cause, and what was read, sent and written by then.
    ensures served { (service : Service) → asked words.now ≡ Some (Request.Serve service)
        → EndsServing service
        (ends (span (S.seen input.old) (S.seen input.new))
        (span (K.seen output.old) (K.seen output.new)) (span (L.seen links.old) (L.seen links.new)))
        (span (N.seen notes.old) (N.seen notes.new)) result }
    // Where the input has scenes, no end fails and the links lead the room to a close: Done, or
    // memory is wanted.
    ensures serve_complete { (service : Service) → asked words.now ≡ Some (Request.Serve service)
        → IsServedToClose service
        (ends (span (S.seen input.old) (S.seen input.new))
        (span (K.seen output.old) (K.seen output.new))
        (span (L.seen links.old) (L.seen links.new))) result }

    // Where the input tells its bytes and doesn't fail, its scenes are served, or it is refused
    // with its first fault; and one that is too long is refused; or memory is wanted.
    ensures serve_input { (service : Service) (bytes : List ℕ)
        → asked words.now ≡ Some (Request.Serve service)
        → HasLeft limit (S.seen input.old) bytes
        → ¬ Rose (S.seen input.old).faults (S.seen input.new).faults
        → (result ≡ Status.Memory) ⊎ ServesInput service bytes
        (ends (span (S.seen input.old) (S.seen input.new))
        (span (K.seen output.old) (K.seen output.new)) (span (L.seen links.old) (L.seen links.new)))
        (span (N.seen notes.old) (N.seen notes.new)) result }
    ensures serve_too_long { (service : Service) → asked words.now ≡ Some (Request.Serve service)
        → IsSome (S.seen input.old).left
        → GaveTooMuch limit (span (S.seen input.old) (S.seen input.new))
        → (result ≡ Status.Memory)
        ⊎ ((result ≡ Status.Refused) × Noted Fault.TooLong (N.seen notes.old) (N.seen notes.new)) }

    // A durable room: each end by its cause, what was read, sent and kept by then, and what a stop
    // leaves of that.
    ensures kept { (keeping : Keeping) → asked words.now ≡ Some (Request.Keep keeping)
        → EndsKeeping keeping
        (ends (span (S.seen input.old) (S.seen input.new))
        (span (K.seen output.old) (K.seen output.new)) (span (L.seen links.old) (L.seen links.new)))
        (span (N.seen notes.old) (N.seen notes.new)) result }

    // Where a durable room begins with the input, no end fails and the links lead it to a close:
    // Done, or memory is wanted.
    ensures keep_complete { (keeping : Keeping) → asked words.now ≡ Some (Request.Keep keeping)
        → IsKeptToClose keeping
        (ends (span (S.seen input.old) (S.seen input.new))
        (span (K.seen output.old) (K.seen output.new))
        (span (L.seen links.old) (L.seen links.new))) result }

    // Where the input tells its bytes and doesn't fail, a room that begins with them is kept, or
    // they are refused with their first fault; and an input that is too long is refused; or memory
    // is wanted.
    ensures keep_input { (keeping : Keeping) (bytes : List ℕ)
        → asked words.now ≡ Some (Request.Keep keeping)
        → HasLeft (limit_from keeping.begins) (S.seen input.old) bytes
        → ¬ Rose (S.seen input.old).faults (S.seen input.new).faults
        → (result ≡ Status.Memory) ⊎ KeepsInput keeping bytes
        (ends (span (S.seen input.old) (S.seen input.new))
        (span (K.seen output.old) (K.seen output.new)) (span (L.seen links.old) (L.seen links.new)))
        (span (N.seen notes.old) (N.seen notes.new)) result }
    ensures keep_too_long { (keeping : Keeping) → asked words.now ≡ Some (Request.Keep keeping)
        → IsSome (S.seen input.old).left
        → GaveTooMuch (limit_from keeping.begins) (span (S.seen input.old) (S.seen input.new))
        → (result ≡ Status.Memory)
        ⊎ ((result ≡ Status.Refused) × Noted Fault.TooLong (N.seen notes.old) (N.seen notes.new)) }

    // A drill: each end by its cause, and what was written by then. The input isn't read.
    ensures drilled { (drill : Drill) → asked words.now ≡ Some (Request.Drill drill)
        → EndsDrilling drill (span (K.seen output.old) (K.seen output.new))
        (span (N.seen notes.old) (N.seen notes.new)) result }
    ensures drill_complete { (drill : Drill) → asked words.now ≡ Some (Request.Drill drill)
        → ¬ Rose (K.seen output.old).faults (K.seen output.new).faults → (result ≡ Status.Done)
        ⊎ (result ≡ Status.Memory) }
    ensures drill_unread { (drill : Drill) → asked words.now ≡ Some (Request.Drill drill)
        → (input.new ≡ input.old) × (links.new ≡ links.old) }

    // At want of memory nothing is written either, but by a durable room.
    ensures unwritten { (result ≡ Status.Usage) ⊎ (result ≡ Status.ReadFault)
        → output.new ≡ output.old }
    ensures unwritten_at_memory { result ≡ Status.Memory
        → ((keeping : Keeping) → asked words.now ≢ Some (Request.Keep keeping))
        → output.new ≡ output.old }
    ensures unserved { result ≡ Status.ReadFault → links.new ≡ links.old }
    ensures refused_unserved { (service : Service) → asked words.now ≡ Some (Request.Serve service)
        → result ≡ Status.Refused
        → ((output.new ≡ output.old) × (links.new ≡ links.old))
        ⊎ ((end : ServeEnd) × (end_status end ≡ Status.Refused) × WasServedTo service end
        (ends (span (S.seen input.old) (S.seen input.new))
        (span (K.seen output.old) (K.seen output.new))
        (span (L.seen links.old) (L.seen links.new)))) }

    // Inputs with the same updates are merged to one text.
    ensures converges { Converges }

    // However updates are grouped, reordered, repeated or lost, a replica stores per id the taken
    // element that no taken one beats; replicas that took the same updates print byte-equal scenes
    // with strictly rising indices, where an arrow names a target exactly if the target lists it;
    // undo without updates between restores all but version, nonce and timestamp, and redo repeats
    // it.
    ensures replicas_store_the_best { ReplicasStoreTheBest }
    ensures replicas_converge { ReplicasConverge }
    ensures told_all_store_the_same { ToldAllStoreTheSame }
    ensures printed_scenes_agree { PrintedScenesAgree }
    ensures undo_brings_back { UndoBringsBack }
    ensures undo_is_found { UndoIsFound }
    ensures nothing_is_pending { NothingIsPending }
    ensures changes_are_captured { ChangesAreCaptured }
    ensures redo_repeats { RedoRepeats }
    ensures redo_is_found { RedoIsFound }
    ensures others_changes_stay { OthersChangesStay }

    // A replay that is done wrote the report of a session of which all of these laws hold, at its
    // end and after each event.
    ensures laws_of_a_replay { asked words.now ≡ Some (Request.Answer ProgramCommand.Replay)
        → result ≡ Status.Done
        → WroteLawfulReport (span (S.seen input.old) (S.seen input.new))
        (span (K.seen output.old) (K.seen output.new)) }

    // In every room that is served, what the updates of a member store is what the room stores,
    // and so does any list of the same updates.
    ensures members_store_the_room { MembersStoreTheRoom }
    ensures members_agree { MembersAgree }

    // And so in every durable room. Over runs, each resumed from what was left of the journal of
    // the one before, nothing is lost that was kept in any.
    ensures members_store_the_kept_room { MembersStoreTheKeptRoom }
    ensures kept_members_agree { KeptMembersAgree }
    ensures nothing_kept_is_lost { NothingKeptIsLost }

    // In every drill no two updates clash, and its four replicas show one scene.
    ensures drills_agree { DrillsAgree }

    // What was restored or merged is restored as the input itself, and the states of inputs stand
    // for these.
    ensures restores_once { RestoresOnce }
    ensures restores_merges { RestoresMerges }
    ensures states_stand_for { StatesStandFor }

    // What `library` wrote is its own library; the libraries of inputs stand for these, and inputs
    // with the same items have one library; and an item is inserted as its elements are pasted.
    ensures library_is_its_own { LibraryIsItsOwn }
    ensures libraries_stand_for { LibrariesStandFor }
    ensures same_items_same_library { SameItemsSameLibrary }
    ensures inserts_are_pastes { InsertsArePastes }
{
    merges_hold();
    libraries_hold();
    replicas_hold();
    members_hold();
    drills_hold();
    kept_rooms_hold();
    match request(alloc, words) {
        Ok(Request::Answer(command)) => answer_run(alloc, command, input, output, notes),
        Ok(Request::Drill(drill)) => drill_run(alloc, drill, output, notes),
        Ok(Request::Serve(service)) => serve_run(alloc, service, input, output, notes, links),
        Ok(Request::Keep(keeping)) => keep_run(alloc, keeping, input, output, notes, links),
        Err(fault) => fault.noted(notes),
    }
}

/// What the words ask for.
fn request(alloc: Global, words: &[Bytes]) -> Result<Request, Fault>
    ensures asked { IfOk result (λ request. asked words.now ≡ Some request) }
    ensures fault { IfErr result (λ fault. ((fault ≡ Fault.Usage) × (asked words.now ≡ None))
        ⊎ ((fault ≡ Fault.Memory) × IsSome (asked words.now))) }
{
    match words::asked(alloc, words) {
        Ok(Some(request)) => Ok(request),
        Ok(None) => Err(Fault::Usage),
        Err(AllocError) => Err(Fault::Memory),
    }
}

/// Answers the input with a text, which is written, or notes why not.
fn answer_run<S: Source, K: Sink, N: Sink>(
    alloc: Global,
    command: ProgramCommand,
    input: &mut S,
    output: &mut K,
    notes: &mut N,
) -> Status
    requires { HasNames command }
    ensures done { result ≡ Status.Done
        → WasDone command (span (S.seen input.old) (S.seen input.new))
        (span (K.seen output.old) (K.seen output.new)) }
    ensures refused { result ≡ Status.Refused → (fault : Fault)
        × WasRefused command fault (span (S.seen input.old) (S.seen input.new))
        × Noted fault (N.seen notes.old) (N.seen notes.new) }
    ensures read_fault { result ≡ Status.ReadFault
        → Rose (S.seen input.old).faults (S.seen input.new).faults
        × GaveWithin (limit_of command) (span (S.seen input.old) (S.seen input.new)) }
    ensures write_fault { result ≡ Status.WriteFault
        → WasDoneInPart command (span (S.seen input.old) (S.seen input.new))
        (span (K.seen output.old) (K.seen output.new)) }
    ensures complete { (bytes : List ℕ) → HasLeft (limit_of command) (S.seen input.old) bytes
        → ¬ Rose (S.seen input.old).faults (S.seen input.new).faults
        → (result ≡ Status.Memory) ⊎ ((answer : Result (List ℕ) InputRefusal)
        × IsAnswer command bytes answer
        × EndsWith answer result (span (K.seen output.old) (K.seen output.new))
        (span (N.seen notes.old) (N.seen notes.new))) }
    ensures too_long { IsSome (S.seen input.old).left
        → GaveTooMuch (limit_of command) (span (S.seen input.old) (S.seen input.new))
        → (result ≡ Status.Memory)
        ⊎ ((result ≡ Status.Refused) × Noted Fault.TooLong (N.seen notes.old) (N.seen notes.new)) }
    ensures used { result ≢ Status.Usage }
    ensures output_kept { result ≢ Status.Done → result ≢ Status.WriteFault
        → output.new ≡ output.old }
    ensures notes_kept { result ≡ Status.Done → notes.new ≡ notes.old }
    ensures noted { result ≢ Status.Done
        → (fault : Fault) × (status_of fault ≡ result)
        × Noted fault (N.seen notes.old) (N.seen notes.new) }
    ensures unlinked { (result ≢ Status.LinkFault) × (result ≢ Status.Idle) }
{
    room_msg::laws::reading_exists();
    room_disk::laws::recovered_is_whole();
    match run(alloc, command, input, output) {
        Ok(()) => Status::Done,
        Err(fault) => fault.noted(notes),
    }
}

/// Runs a drill and writes what it tells, or notes why not.
fn drill_run<K: Sink, N: Sink>(
    alloc: Global,
    request: Drill,
    output: &mut K,
    notes: &mut N,
) -> Status
    requires { IsDrillWithinLimits request }
    ensures drilled { EndsDrilling request (span (K.seen output.old) (K.seen output.new))
        (span (N.seen notes.old) (N.seen notes.new)) result }
    ensures complete { ¬ Rose (K.seen output.old).faults (K.seen output.new).faults
        → (result ≡ Status.Done) ⊎ (result ≡ Status.Memory) }
    ensures notes_kept { result ≡ Status.Done → notes.new ≡ notes.old }
    ensures unwritten { result ≡ Status.Memory → output.new ≡ output.old }
{
    match drill(alloc, request, output) {
        Ok(()) => Status::Done,
        Err(fault) => fault.noted(notes),
    }
}

/// Serves a room that begins with the scenes of the input, and writes the scene at its end, or
/// notes why not.
fn serve_run<S: Source, K: Sink, N: Sink, L: Links>(
    alloc: Global,
    service: Service,
    input: &mut S,
    output: &mut K,
    notes: &mut N,
    links: &mut L,
) -> Status
    requires { IsService service }
    ensures served { EndsServing service
        (ends (span (S.seen input.old) (S.seen input.new))
        (span (K.seen output.old) (K.seen output.new)) (span (L.seen links.old) (L.seen links.new)))
        (span (N.seen notes.old) (N.seen notes.new)) result }
    ensures complete { IsServedToClose service
        (ends (span (S.seen input.old) (S.seen input.new))
        (span (K.seen output.old) (K.seen output.new))
        (span (L.seen links.old) (L.seen links.new))) result }
    ensures notes_kept { (result ≡ Status.Done) ⊎ (result ≡ Status.Idle) → notes.new ≡ notes.old }
    ensures unwritten { (result ≡ Status.Memory) ⊎ (result ≡ Status.ReadFault)
        → output.new ≡ output.old }
    ensures unserved { result ≡ Status.ReadFault → links.new ≡ links.old }
    ensures refused_unserved { result ≡ Status.Refused
        → ((output.new ≡ output.old) × (links.new ≡ links.old))
        ⊎ ((end : ServeEnd) × (end_status end ≡ Status.Refused) × WasServedTo service end
        (ends (span (S.seen input.old) (S.seen input.new))
        (span (K.seen output.old) (K.seen output.new))
        (span (L.seen links.old) (L.seen links.new)))) }
{
    room_core::laws::closing_ends_a_room();
    match serve(alloc, service, input, output, links) {
        Ok(end) => noted_end(end, notes),
        Err(fault) => fault.noted(notes),
    }
}

/// Serves a durable room, whose journal is the output, or notes why not.
fn keep_run<S: Source, K: Journal, N: Sink, L: Links>(
    alloc: Global,
    keeping: Keeping,
    input: &mut S,
    output: &mut K,
    notes: &mut N,
    links: &mut L,
) -> Status
    requires { IsKeeping keeping }
    ensures kept { EndsKeeping keeping
        (ends (span (S.seen input.old) (S.seen input.new))
        (span (K.seen output.old) (K.seen output.new)) (span (L.seen links.old) (L.seen links.new)))
        (span (N.seen notes.old) (N.seen notes.new)) result }
    ensures complete { IsKeptToClose keeping
        (ends (span (S.seen input.old) (S.seen input.new))
        (span (K.seen output.old) (K.seen output.new))
        (span (L.seen links.old) (L.seen links.new))) result }
    ensures notes_kept { (result ≡ Status.Done) ⊎ (result ≡ Status.Idle) → notes.new ≡ notes.old }
    ensures unwritten { result ≡ Status.ReadFault → output.new ≡ output.old }
    ensures unserved { result ≡ Status.ReadFault → links.new ≡ links.old }
{
    room_disk::laws::closing_ends_a_kept_room();
    match keep(alloc, keeping, input, output, links) {
        Ok(end) => noted_keep_end(end, notes),
        Err(fault) => fault.noted(notes),
    }
}

/// Answers the input with a text, and writes that.
fn run<S: Source, K: Sink>(
    alloc: Global,
    command: ProgramCommand,
    input: &mut S,
    output: &mut K,
) -> Result<(), Fault>
    ensures used { result ≢ Err Fault.Usage }
    ensures done { OnOk result
        (WasDone command (span (S.seen input.old) (S.seen input.new))
        (span (K.seen output.old) (K.seen output.new))) }
    ensures fault { IfErr result (λ fault. HasCause fault command
        (span (S.seen input.old) (S.seen input.new))
        (span (K.seen output.old) (K.seen output.new))) }
    ensures output_kept { IfErr result (λ fault. fault ≢ Fault.Write → output.new ≡ output.old) }
{
    let text = answer(alloc, command, input)?;
    written(output, &text)
}
