//! A durable room that is served over links: what is told is kept first.

ghost use Rattle.std.specs.Prelude.{◌≡◌, ◌⊎◌, ◌<◌, ◌≤◌, ◌∷◌, [], None, All, IsSome, IfOk, IfErr, OnOk, OnErr, Err, true};
ghost use Rattle.frac_keys.specs.Rising.{are_rising};
ghost use Rattle.elem_store.specs.Updates.{ids_of};
ghost use Rattle.elem_read.specs.Reading.{IsWholeElement};
ghost use Rattle.board_ends.specs.Counts.{Rose};
ghost use Rattle.board_ends.specs.Ends.{Took, KeepsSafe, IsSynced};
ghost use Rattle.room_core.specs.Planned.{record_in, texts_told};
ghost use Rattle.room_core.specs.Serving.{at_start, end_of, serving_of};
ghost use Rattle.scene_file.specs.Whole.{IsWholeHead, HaveKeys};
ghost use Rattle.room_disk.specs.Keeping.{HasGained, IsKept, IsUnopened, ListenOnce};
ghost use Rattle.room_disk.specs.Records.{opening_record, record_of};
ghost use Rattle.room_disk.specs.inner.KeptSteps as steps;

use crate::appending::append;
use crate::keep_end::{KeepEnd, keep_end};
use crate::kept::{kept_told, nothing_told, sender_of, tell};
use board_ends::{Journal, LinkError, LinkEvent, Links};
use room_core::{Plan, Room, RoomLimits, Tally, Told, opens_link};
use scene_file::{Head, state_text};
use std::alloc::{AllocError, Global};

/// Keeps what the room stores under its head as the first record of the journal, and then
/// listens on the port and serves the room over the links until something ends it, as every room
/// is served; but the record of each message with elements is appended to the journal and made
/// safe before anything of the step is sent, and after the texts of the step its sender is told
/// how many messages are kept by now. Where the journal fails, nothing of that step is sent, and
/// the room is as before it. No sync is tried again that failed.
pub fn keep_room<L: Links, J: Journal>(
    alloc: Global,
    room: &mut Room,
    head: &Head,
    links: &mut L,
    port: u16,
    journal: &mut J,
    limits: &RoomLimits,
) -> KeepEnd
    requires links { 1 ≤ limits.now.links }
    requires idle { 1 ≤ limits.now.idle }
    requires events { 1 ≤ limits.now.events }
    requires fresh { room.old.state.joined ≡ [] }
    requires head { IsWholeHead head.now }
    requires whole { All IsWholeElement room.old.state.elements }
    requires keys { HaveKeys room.old.state.elements }
    ensures kept { (IsUnopened head.now room.old.state room.new.state (L.seen links.old)
        (L.seen links.new)
        (J.seen journal.old) (J.seen journal.new) result)
        ⊎ (IsKept limits.now head.now port room.old.state room.new.state
        (L.seen links.old) (L.seen links.new) (J.seen journal.old) (J.seen journal.new) result) }
    ensures fault { result ≡ KeepEnd.LinkFault
        → Rose (L.seen links.old).faults (L.seen links.new).faults }
    ensures journal_fault { result ≡ KeepEnd.JournalFault
        → Rose (J.seen journal.old).faults (J.seen journal.new).faults }
    ensures safe { KeepsSafe (J.seen journal.old) (J.seen journal.new) }
    ensures counted { (L.seen links.old).faults ≤ (L.seen links.new).faults }
    ensures gone_counted { (L.seen links.old).gone ≤ (L.seen links.new).gone }
    ensures journal_counted { (J.seen journal.old).faults ≤ (J.seen journal.new).faults }
{
    room_msg::laws::read_messages_are_whole();
    crate::laws::first_records_are_recovered();
    if let Err(end) = keep_opening(alloc, room, head, journal) {
        return end;
    }
    match links.listen(port) {
        Ok(()) => keep_on(alloc, room, links, journal, limits),
        Err(LinkError::Failed) => KeepEnd::LinkFault,
        Err(LinkError::Memory) => KeepEnd::Memory,
    }
}

/// Keeps what the room stores under its head as the first record of the journal.
fn keep_opening<J: Journal>(
    alloc: Global,
    room: &Room,
    head: &Head,
    journal: &mut J,
) -> Result<(), KeepEnd>
    ensures took { OnOk result (Took (J.seen journal.old) (J.seen journal.new)
        (opening_record head.now room.now.state.elements)) }
    ensures synced { OnOk result (IsSynced (J.seen journal.new)) }
    ensures part { OnErr result (HasGained (opening_record head.now room.now.state.elements ∷ [])
        (J.seen journal.old) (J.seen journal.new)) }
    ensures ordered { are_rising (ids_of room.now.state.elements) ≡ true }
    ensures cause { IfErr result
        (λ end. (end ≡ KeepEnd.JournalFault) ⊎ (end ≡ KeepEnd.Memory)) }
    ensures fault { result ≡ Err KeepEnd.JournalFault
        → Rose (J.seen journal.old).faults (J.seen journal.new).faults }
    ensures safe { KeepsSafe (J.seen journal.old) (J.seen journal.new) }
    ensures counted { (J.seen journal.old).faults ≤ (J.seen journal.new).faults }
{
    let Ok(text) = state_text(alloc, head, room.store()) else {
        return Err(KeepEnd::Memory);
    };
    match append(journal, &text) {
        Ok(()) => Ok(()),
        Err(_) => Err(KeepEnd::JournalFault),
    }
}

/// Keeps and serves the room event by event until something ends it. All bytes of the journal
/// are safe.
fn keep_on<L: Links, J: Journal>(
    alloc: Global,
    room: &mut Room,
    links: &mut L,
    journal: &mut J,
    limits: &RoomLimits,
) -> KeepEnd
    requires links { 1 ≤ limits.now.links }
    requires idle { 1 ≤ limits.now.idle }
    requires events { 1 ≤ limits.now.events }
    requires listening { IsSome (L.seen links.old).port }
    requires synced { IsSynced (J.seen journal.old) }
    ensures kept { steps.IsKeptOn limits.now (at_start room.old.state) 0 room.new.state
        (L.seen links.old) (L.seen links.new) (J.seen journal.old) (J.seen journal.new) result }
    ensures fault { result ≡ KeepEnd.LinkFault
        → Rose (L.seen links.old).faults (L.seen links.new).faults }
    ensures journal_fault { result ≡ KeepEnd.JournalFault
        → Rose (J.seen journal.old).faults (J.seen journal.new).faults }
    ensures safe { KeepsSafe (J.seen journal.old) (J.seen journal.new) }
    ensures port { (L.seen links.new).port ≡ (L.seen links.old).port }
    ensures listens { (L.seen links.new).listens ≡ (L.seen links.old).listens }
    ensures counted { (L.seen links.old).faults ≤ (L.seen links.new).faults }
    ensures gone_counted { (L.seen links.old).gone ≤ (L.seen links.new).gone }
    ensures journal_counted { (J.seen journal.old).faults ≤ (J.seen journal.new).faults }
{
    let mut tally = Tally::new();
    let mut messages = 0;
    loop {
        match keep_round(
            alloc,
            room,
            links,
            journal,
            limits,
            &mut tally,
            &mut messages,
        ) {
            Ok(()) => {}
            Err(end) => return end,
        }
    }
}

/// One event: it is kept and stepped, its texts are tried, and what comes of it is counted.
fn keep_round<L: Links, J: Journal>(
    alloc: Global,
    room: &mut Room,
    links: &mut L,
    journal: &mut J,
    limits: &RoomLimits,
    tally: &mut Tally,
    messages: &mut u64,
) -> Result<(), KeepEnd>
    requires running { end_of limits.now (serving_of room.old.state tally.old) ≡ None }
    requires within { tally.old.opened ≤ limits.now.links }
    requires few { messages.old ≤ tally.old.stepped }
    requires listening { IsSome (L.seen links.old).port }
    requires synced { IsSynced (J.seen journal.old) }
    ensures on { OnOk result
        (steps.IsKeptStep limits.now (serving_of room.old.state tally.old)
        (serving_of room.new.state tally.new) messages.old messages.new
        (L.seen links.old) (L.seen links.new) (J.seen journal.old) (J.seen journal.new)) }
    ensures ended { IfErr result
        (steps.IsKeptOn limits.now (serving_of room.old.state tally.old) messages.old
        room.new.state
        (L.seen links.old) (L.seen links.new) (J.seen journal.old) (J.seen journal.new)) }
    ensures fault { result ≡ Err KeepEnd.LinkFault
        → Rose (L.seen links.old).faults (L.seen links.new).faults }
    ensures journal_fault { result ≡ Err KeepEnd.JournalFault
        → Rose (J.seen journal.old).faults (J.seen journal.new).faults }
    ensures running { OnOk result (end_of limits.now (serving_of room.new.state tally.new)
        ≡ None) }
    ensures within { OnOk result (tally.new.opened ≤ limits.now.links) }
    ensures few { OnOk result (messages.new ≤ tally.new.stepped) }
    ensures safe { KeepsSafe (J.seen journal.old) (J.seen journal.new) }
    ensures port { (L.seen links.new).port ≡ (L.seen links.old).port }
    ensures listens { (L.seen links.new).listens ≡ (L.seen links.old).listens }
    ensures counted { (L.seen links.old).faults ≤ (L.seen links.new).faults }
    ensures gone_counted { (L.seen links.old).gone ≤ (L.seen links.new).gone }
    ensures journal_counted { (J.seen journal.old).faults ≤ (J.seen journal.new).faults }
{
    let event = match links.next() {
        Ok(event) => event,
        Err(LinkError::Failed) => return Err(KeepEnd::LinkFault),
        Err(LinkError::Memory) => return Err(KeepEnd::Memory),
    };
    if opens_link(&event) && tally.opened >= limits.links {
        return Err(KeepEnd::LinksFull);
    }
    keep_event(alloc, room, links, journal, &event, limits.events, messages)?;
    tally.count(&event, limits);
    match tally.end(limits, room.joined()) {
        Some(end) => Err(keep_end(end)),
        None => Ok(()),
    }
}

/// Plans the step of the event, keeps its record, makes the step, tries its texts and what tells
/// that its message is kept, and takes the links out that are gone. Fewer messages are kept so
/// far than the limit says.
fn keep_event<L: Links, J: Journal>(
    alloc: Global,
    room: &mut Room,
    links: &mut L,
    journal: &mut J,
    event: &LinkEvent,
    limit: u64,
    messages: &mut u64,
) -> Result<(), KeepEnd>
    requires few { messages.old < limit }
    requires synced { IsSynced (J.seen journal.old) }
    ensures whole { OnOk result
        (steps.IsKeptEvent room.old.state messages.old event.now room.new.state messages.new
        (L.seen links.old) (L.seen links.new) (J.seen journal.old) (J.seen journal.new)) }
    ensures stopped { IfErr result
        (steps.IsStoppedEvent room.old.state messages.old event.now room.new.state
        (L.seen links.old) (L.seen links.new) (J.seen journal.old) (J.seen journal.new)) }
    ensures fault { result ≡ Err KeepEnd.JournalFault
        → Rose (J.seen journal.old).faults (J.seen journal.new).faults }
    ensures safe { KeepsSafe (J.seen journal.old) (J.seen journal.new) }
    ensures port { (L.seen links.new).port ≡ (L.seen links.old).port }
    ensures listens { (L.seen links.new).listens ≡ (L.seen links.old).listens }
    ensures counted { (L.seen links.old).faults ≤ (L.seen links.new).faults }
    ensures gone_counted { (L.seen links.old).gone ≤ (L.seen links.new).gone }
    ensures journal_counted { (J.seen journal.old).faults ≤ (J.seen journal.new).faults }
{
    let Ok(plan) = room.plan(event) else {
        return Err(KeepEnd::Memory);
    };
    let kept = keep_record(alloc, journal, &plan, sender_of(event), limit, messages)?;
    let told = room.put(plan);
    match tell(alloc, links, &told, &kept) {
        Ok(gone) => {
            room.close_all(&gone);
            Ok(())
        }
        Err(AllocError) => Err(KeepEnd::Memory),
    }
}

/// Keeps the record of a planned step, where it has one, and gives what tells the sender so. For
/// want of memory the journal is as before. Fewer messages are kept so far than the limit says.
fn keep_record<J: Journal>(
    alloc: Global,
    journal: &mut J,
    plan: &Plan,
    sender: u64,
    limit: u64,
    messages: &mut u64,
) -> Result<Told, KeepEnd>
    requires few { messages.old < limit }
    requires synced { IsSynced (J.seen journal.old) }
    ensures told { IfOk result (λ kept. texts_told kept
        ≡ steps.kept_answers sender messages.old (record_in plan.now)) }
    ensures took { OnOk result (Took (J.seen journal.old) (J.seen journal.new)
        (steps.record_bytes (record_in plan.now))) }
    ensures synced { OnOk result (IsSynced (J.seen journal.new)) }
    ensures count { OnOk result (messages.new
        ≡ steps.count_with messages.old (record_in plan.now)) }
    ensures stopped { IfErr result
        (steps.IsRecordStopped (record_in plan.now) (J.seen journal.old) (J.seen journal.new)) }
    ensures fault { result ≡ Err KeepEnd.JournalFault
        → Rose (J.seen journal.old).faults (J.seen journal.new).faults }
    ensures safe { KeepsSafe (J.seen journal.old) (J.seen journal.new) }
    ensures counted { (J.seen journal.old).faults ≤ (J.seen journal.new).faults }
{
    let Some(text) = plan.record() else {
        return Ok(nothing_told(alloc));
    };
    let Ok(kept) = kept_told(alloc, sender, *messages + 1) else {
        return Err(KeepEnd::Memory);
    };
    if append(journal, text).is_err() {
        return Err(KeepEnd::JournalFault);
    }
    *messages += 1;
    Ok(kept)
}
