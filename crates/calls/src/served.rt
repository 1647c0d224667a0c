//! A room that is served over links up to a number of events.

use board_base::{List, Stop};
use board_ends::{LinkError, Links, ScriptLinks};
use case_text::{given, links_of, number_or, push_number, push_sent, push_string};
use elem_store::Store;
use json_text::{Member, Text};
use room_core::{Room, RoomLimits, ServeEnd, serve_room};
use std::alloc::Global;

/// The port that is listened on.
const PORT: u16 = 4000;

/// How many links may be opened.
const LINKS: u64 = 8;

/// How many times in a row nothing happens before the room ends.
const IDLE: u64 = 3;

/// Appends what ended a room that stores nothing at first and is served up to so many events, how
/// many links are joined then, and what was sent.
pub fn push_served(
    alloc: Global,
    line: &mut Vec<u8>,
    case: &List<Member>,
) -> Result<(), Stop<Text>> {
    let events = given(number_or(case, "served", 0), "member served")?;
    let mut links = links_of(alloc, case)?;
    let (end, room) = serve(alloc, events, &mut links);
    push_string(line, "end", words_of(end))?;
    push_number(line, "joined", room.joined().len() as u64)?;
    push_sent(alloc, line, links.sent())?;
    Ok(())
}

/// Listens, and serves a room up to so many events, at least one.
fn serve(alloc: Global, events: u64, links: &mut ScriptLinks) -> (ServeEnd, Room) {
    let mut room = Room::new(alloc, Store::new(alloc));
    let limits = RoomLimits {
        links: LINKS,
        idle: IDLE,
        events: events.max(1),
    };
    let end = match links.listen(PORT) {
        Ok(()) => serve_room(alloc, &mut room, links, &limits),
        Err(LinkError::Failed) => ServeEnd::LinkFault,
        Err(LinkError::Memory) => ServeEnd::Memory,
    };
    (end, room)
}

/// What ended a room, in words.
fn words_of(end: ServeEnd) -> &'static str {
    match end {
        ServeEnd::AllClosed => "all closed",
        ServeEnd::Idle => "idle",
        ServeEnd::LinkFault => "link fault",
        ServeEnd::LinksFull => "links full",
        ServeEnd::EventsFull => "events full",
        ServeEnd::Memory => "memory",
    }
}
