//! A room that is served over links.

ghost use Rattle.std.specs.Prelude.{◌≡◌, ◌≤◌, IsSome, IfErr, OnOk, OnErr, Err, None, []};
ghost use Rattle.board_ends.specs.Counts.{Rose};
ghost use Rattle.room_core.specs.Serving.{at_start, IsServed, end_of, serving_of};
ghost use Rattle.room_core.specs.inner.Serving.{IsServedRound, IsServedEvent, IsCutEvent};

use crate::limits::{RoomLimits, ServeEnd};
use crate::room::Room;
use crate::sending::send_all;
use crate::tally::{Tally, opens_link};
use board_ends::{LinkError, LinkEvent, Links};
use std::alloc::{AllocError, Global};

/// Steps the room by each event that the links give, and sends the texts of each step, until
/// something ends it. Each text of a step is tried, also after one whose link is gone; then each
/// link that is gone leaves the room as if it was closed.
pub fn serve_room<L: Links>(
    alloc: Global,
    room: &mut Room,
    links: &mut L,
    limits: &RoomLimits,
) -> ServeEnd
    requires links { 1 ≤ limits.now.links }
    requires idle { 1 ≤ limits.now.idle }
    requires events { 1 ≤ limits.now.events }
    requires fresh { room.old.state.joined ≡ [] }
    requires listening { IsSome (L.seen links.old).port }
    ensures served { IsServed limits.now (at_start room.old.state) room.new.state
        (L.seen links.old) (L.seen links.new) result }
    ensures fault { result ≡ ServeEnd.LinkFault
        → Rose (L.seen links.old).faults (L.seen links.new).faults }
    ensures port { (L.seen links.new).port ≡ (L.seen links.old).port }
    ensures listens { (L.seen links.new).listens ≡ (L.seen links.old).listens }
    ensures counted { (L.seen links.old).faults ≤ (L.seen links.new).faults }
    ensures gone_counted { (L.seen links.old).gone ≤ (L.seen links.new).gone }
{
    let mut tally = Tally::new();
    loop {
        match serve_round(alloc, room, links, limits, &mut tally) {
            Ok(()) => {}
            Err(end) => return end,
        }
    }
}

/// One event: it is stepped, its texts are tried, and what comes of it is counted.
fn serve_round<L: Links>(
    alloc: Global,
    room: &mut Room,
    links: &mut L,
    limits: &RoomLimits,
    tally: &mut Tally,
) -> Result<(), ServeEnd>
    requires running { end_of limits.now (serving_of room.old.state tally.old) ≡ None }
    requires within { tally.old.opened ≤ limits.now.links }
    requires listening { IsSome (L.seen links.old).port }
    ensures on { OnOk result
        (IsServedRound limits.now (serving_of room.old.state tally.old)
        (serving_of room.new.state tally.new)
        (L.seen links.old) (L.seen links.new)) }
    ensures ended { IfErr result
        (IsServed limits.now (serving_of room.old.state tally.old) room.new.state
        (L.seen links.old) (L.seen links.new)) }
    ensures fault { result ≡ Err ServeEnd.LinkFault
        → Rose (L.seen links.old).faults (L.seen links.new).faults }
    ensures running { OnOk result (end_of limits.now (serving_of room.new.state tally.new) ≡ None) }
    ensures within { OnOk result (tally.new.opened ≤ limits.now.links) }
    ensures port { (L.seen links.new).port ≡ (L.seen links.old).port }
    ensures listens { (L.seen links.new).listens ≡ (L.seen links.old).listens }
    ensures counted { (L.seen links.old).faults ≤ (L.seen links.new).faults }
    ensures gone_counted { (L.seen links.old).gone ≤ (L.seen links.new).gone }
{
    let event = match links.next() {
        Ok(event) => event,
        Err(LinkError::Failed) => return Err(ServeEnd::LinkFault),
        Err(LinkError::Memory) => return Err(ServeEnd::Memory),
    };
    if opens_link(&event) && tally.opened >= limits.links {
        return Err(ServeEnd::LinksFull);
    }
    if serve_event(alloc, room, links, &event).is_err() {
        return Err(ServeEnd::Memory);
    }
    tally.count(&event, limits);
    match tally.end(limits, room.joined()) {
        Some(end) => Err(end),
        None => Ok(()),
    }
}

/// Steps the room by the event, tries the texts of the step, and takes the links out that are gone.
fn serve_event<L: Links>(
    alloc: Global,
    room: &mut Room,
    links: &mut L,
    event: &LinkEvent,
) -> Result<(), AllocError>
    ensures whole { OnOk result (IsServedEvent room.old.state event.now room.new.state
        (L.seen links.old) (L.seen links.new)) }
    ensures cut { OnErr result (IsCutEvent room.old.state event.now room.new.state
        (L.seen links.old) (L.seen links.new)) }
    ensures port { (L.seen links.new).port ≡ (L.seen links.old).port }
    ensures listens { (L.seen links.new).listens ≡ (L.seen links.old).listens }
    ensures counted { (L.seen links.old).faults ≤ (L.seen links.new).faults }
    ensures gone_counted { (L.seen links.old).gone ≤ (L.seen links.new).gone }
{
    let plan = room.plan(event)?;
    let told = room.put(plan);
    let gone = send_all(alloc, links, &told)?;
    room.close_all(&gone);
    Ok(())
}
