//! A room that is served: from the scenes that it begins with to the scene that is written at its
//! end.

ghost use Rattle.std.specs.Prelude.{◌≡◌, ◌≢◌, ◌⊎◌, ℕ, Some, [], List as Items, IfOk, IfErr, Err};
ghost use Rattle.board_ends.specs.Counts.{Rose};
ghost use Rattle.room_core.specs.Serving.{at_start, IsServed};
ghost use Rattle.scene_file.specs.declared.scene.Scene.{Scene};
ghost use Rattle.commands.specs.Answers.{IsRefusal};
ghost use Rattle.commands.specs.Boards.{IsBoardOf, IsSceneOfStored};
ghost use Rattle.commands.specs.Ends.{span, GaveWithin, GaveTooMuch, WasRead};
ghost use Rattle.commands.specs.Input.{HasScenes};
ghost use Rattle.commands.specs.inner.Services.{IsService};
ghost use Rattle.commands.specs.Serving.{ends, end_line, end_status, ListensOn, WasHeld, WasServedTo};
ghost use Rattle.commands.specs.inner.Serving.{HasServingCause};
ghost use Rattle.commands.specs.Faults.{IsNoted};
ghost use Rattle.commands.specs.declared.status.Fault.{Fault};

use crate::answer::ended;
use crate::input::some_board;
use crate::status::{Fault, Status};
use crate::words::Service;
use crate::writing::written;
use board_base::{Bytes, Piece};
use board_ends::{LinkError, Links, Sink, Source, write_pieces};
use elem_store::Store;
use room_core::{Room, ServeEnd, serve_room};
use scene_file::{Head, Layout, elements_text};
use std::alloc::{AllocError, Global};
use view::shown_elements;

/// Reads the scenes that a room begins with, serves it to its end, and writes the scene of what it
/// stores then.
pub(crate) fn serve<S: Source, K: Sink, L: Links>(
    alloc: Global,
    service: Service,
    input: &mut S,
    output: &mut K,
    links: &mut L,
) -> Result<ServeEnd, Fault>
    requires { IsService service }
    ensures served { IfOk result (λ end. WasServedTo service end
        (ends (span (S.seen input.old) (S.seen input.new))
        (span (K.seen output.old) (K.seen output.new))
        (span (L.seen links.old) (L.seen links.new)))) }
    ensures fault { IfErr result (λ fault. HasServingCause fault service
        (ends (span (S.seen input.old) (S.seen input.new))
        (span (K.seen output.old) (K.seen output.new))
        (span (L.seen links.old) (L.seen links.new)))) }
    ensures output_kept { IfErr result (λ fault. fault ≢ Fault.Write → output.new ≡ output.old) }
    ensures links_kept { IfErr result (λ fault. fault ≢ Fault.Write → fault ≢ Fault.Memory
        → links.new ≡ links.old) }
{
    let (head, store) = some_board(alloc, input)?;
    let (end, text) = hold(alloc, service, &head, store, links)?;
    written(output, &text)?;
    Ok(end)
}

/// Serves a room that begins with this store to its end, and gives the text of its scene then.
fn hold<L: Links>(
    alloc: Global,
    service: Service,
    head: &Head,
    store: Store,
    links: &mut L,
) -> Result<(ServeEnd, Bytes), Fault>
    requires { IsService service }
    ensures held { IfOk result (λ held. WasHeld service
        (record { head = head.now; stored = store.elements })
        (span (L.seen links.old) (L.seen links.new)) held.0 held.1) }
    ensures end { IfOk result (λ held. held.0 ≢ ServeEnd.Memory) }
    ensures rose { IfOk result (λ held. held.0 ≡ ServeEnd.LinkFault
        → Rose (L.seen links.old).faults (L.seen links.new).faults) }
    ensures listens { IfOk result (λ held. ListensOn service held.0
        (span (L.seen links.old) (L.seen links.new))) }
    ensures memory { IfErr result (λ fault. fault ≡ Fault.Memory) }
{
    let mut room = Room::new(alloc, store);
    let end = serve_on(alloc, service, &mut room, links);
    if end == ServeEnd::Memory {
        return Err(Fault::Memory);
    }
    match room_text(alloc, head, &room, service.layout) {
        Ok(text) => Ok((end, text)),
        Err(AllocError) => Err(Fault::Memory),
    }
}

/// Listens on the port, and serves the room to its end.
fn serve_on<L: Links>(alloc: Global, service: Service, room: &mut Room, links: &mut L) -> ServeEnd
    requires service { IsService service }
    requires fresh { room.old.state.joined ≡ [] }
    ensures served { IsServed service.limits (at_start room.old.state) room.new.state
        (L.seen links.old) (L.seen links.new) result }
    ensures fault { result ≡ ServeEnd.LinkFault
        → Rose (L.seen links.old).faults (L.seen links.new).faults }
    ensures listens { result ≢ ServeEnd.Memory
        → ListensOn service result (span (L.seen links.old) (L.seen links.new)) }
{
    match links.listen(service.port) {
        Ok(()) => serve_room(alloc, room, links, &service.limits),
        Err(LinkError::Failed) => ServeEnd::LinkFault,
        Err(LinkError::Memory) => ServeEnd::Memory,
    }
}

/// The text of the scene that is shown of what the room stores, and a newline.
fn room_text(alloc: Global, head: &Head, room: &Room, layout: Layout) -> Result<Bytes, AllocError>
    ensures { IfOk result (IsSceneOfStored layout head.now room.now.state.elements) }
{
    let shown = shown_elements(alloc, room.store())?;
    ended(elements_text(alloc, head, shown.as_slice(), layout)?)
}

/// Notes a room's end, where it is a fault, and gives its status. A fault of the notes changes
/// nothing else.
pub(crate) fn noted_end<N: Sink>(end: ServeEnd, notes: &mut N) -> Status
    ensures status { result ≡ end_status end }
    ensures done { (end ≡ ServeEnd.AllClosed) ⊎ (end ≡ ServeEnd.Idle) → notes.new ≡ notes.old }
    ensures noted { end ≢ ServeEnd.AllClosed → end ≢ ServeEnd.Idle
        → IsNoted (end_line end) (N.seen notes.old) (N.seen notes.new) }
{
    match end {
        ServeEnd::AllClosed => Status::Done,
        ServeEnd::Idle => Status::Idle,
        fault => {
            let (words, status) = told(fault);
            let _ = write_pieces(notes, &[Piece::Words(words)]);
            status
        }
    }
}

/// The line that tells a room's end, which is a fault, and its status.
fn told(end: ServeEnd) -> (&'static str, Status)
    requires { (end ≢ ServeEnd.AllClosed) × (end ≢ ServeEnd.Idle) }
    ensures line { result.0.now ≡ end_line end }
    ensures status { result.1 ≡ end_status end }
{
    match end {
        ServeEnd::LinkFault => ("board: link fault\n", Status::LinkFault),
        ServeEnd::LinksFull => ("board: room: links full\n", Status::Refused),
        ServeEnd::EventsFull => ("board: room: events full\n", Status::Refused),
        _ => ("board: out of memory\n", Status::Memory),
    }
}
