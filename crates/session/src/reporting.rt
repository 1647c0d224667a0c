//! What is reported of the replicas.

ghost use Rattle.std.specs.Prelude.{◌≡◌, List as Items, IfOk};
ghost use Rattle.session.specs.Reports.{AreReplicaReports, IsReplicaReport, IsReportOf};
ghost use Rattle.session.specs.inner.Standing.{SeatStandsFor, SeatsStandFor, WorldStandsFor};
ghost use Rattle.session.specs.Worlds as worlds;

use crate::clashes::clashes_among;
use crate::report::{ReplicaReport, Report};
use crate::seat::Seat;
use crate::world::{World, opening_elements};
use board_base::List;
use scene_file::{Head, Layout};
use session_text::Session;
use shown_scenes::scene_text;
use std::alloc::{AllocError, Global};
use view::view_of;

/// The report of a session whose world this is.
pub(crate) fn report_of(
    alloc: Global,
    session: &Session,
    world: World,
) -> Result<Report, AllocError>
    ensures { IfOk result (λ report. (w : worlds.World) → WorldStandsFor world w
        → IsReportOf session.now w report) }
{
    let World {
        seats,
        messages,
        generator: _,
        events: _,
        refused,
    } = world;
    let clashes = clashes_among(alloc, opening_elements(session), &messages)?;
    Ok(Report {
        replicas: replicas_of(alloc, session, seats)?,
        messages: messages.len() as u64,
        refused: List::from_vec(refused),
        clashes,
    })
}

/// The reports on the replicas, whose scenes have the head of the session's scene, or an empty one.
fn replicas_of(
    alloc: Global,
    session: &Session,
    seats: Vec<Seat>,
) -> Result<List<ReplicaReport>, AllocError>
    ensures { IfOk result (λ reports. (ss : Items worlds.Seat) → SeatsStandFor seats.items ss
        → AreReplicaReports (worlds.head_of session.now) ss reports) }
{
    match &session.scene {
        Some(scene) => replicas_under(alloc, &scene.head, seats),
        None => replicas_under(alloc, &Head::new(alloc), seats),
    }
}

/// The reports on the replicas, whose scenes have this head.
fn replicas_under(
    alloc: Global,
    head: &Head,
    seats: Vec<Seat>,
) -> Result<List<ReplicaReport>, AllocError>
    ensures { IfOk result (λ reports. (ss : Items worlds.Seat) → SeatsStandFor seats.items ss
        → AreReplicaReports head.now ss reports) }
{
    let mut reports = Vec::with_capacity(alloc, seats.len())?;
    for seat in seats {
        reports.push(replica_of(alloc, head, seat)?)?;
    }
    Ok(List::from_vec(reports))
}

/// The report on a replica.
fn replica_of(alloc: Global, head: &Head, seat: Seat) -> Result<ReplicaReport, AllocError>
    ensures { IfOk result (λ report. (s : worlds.Seat) → SeatStandsFor seat s
        → IsReplicaReport head.now s report) }
{
    let Seat { replica, taken } = seat;
    let store = replica.store();
    let view = view_of(alloc, store)?;
    let scene = scene_text(alloc, head, &view, Layout::Compact)?;
    let stored = store.len() as u64;
    let live = view.elements().len() as u64;
    let undo = replica.undo_len();
    let redo = replica.redo_len();
    Ok(ReplicaReport {
        replica,
        scene,
        taken,
        stored,
        live,
        undo,
        redo,
    })
}
