//! A drill: a generated session is run, and told in short.

ghost use Rattle.std.specs.Prelude.{◌≡◌, ◌⊎◌, ◌++◌, ℕ, List as Items, IfOk, IfErr, OnOk, Err, bytes_eq, take};
ghost use Rattle.std.specs.List.{list_all};
ghost use Rattle.board_ends.specs.Counts.{Rose};
ghost use Rattle.board_ends.specs.Ends.{Took};
ghost use Rattle.board_base.specs.Pieces.{line_text, piece_text};
ghost use Rattle.session.specs.declared.report.ReplicaReport.{ReplicaReport};
ghost use Rattle.session_text.specs.Facts.{IsSession};
ghost use Rattle.session_text.specs.Sessions.{IsSessionOf};
ghost use Rattle.workload.specs.Texts.{drill_text};
ghost use Rattle.commands.specs.Drills.{of_first, show_one_scene, summary_text, IsDrilled};
ghost use Rattle.commands.specs.inner.Drills.{of_report};
ghost use Rattle.commands.specs.Services.{IsDrillWithinLimits};
ghost use Rattle.commands.specs.declared.status.Fault.{Fault};

use crate::status::Fault;
use crate::words::Drill;
use crate::writing::written;
use board_base::{Bytes, List, Piece, Stop};
use board_ends::Sink;
use session::{ReplicaReport, Report, replay};
use session_text::{Session, read_session};
use std::alloc::{AllocError, Global};
use workload::make_session;

/// Runs a drill, and writes what it tells.
pub(crate) fn drill<K: Sink>(alloc: Global, drill: Drill, output: &mut K) -> Result<(), Fault>
    requires { IsDrillWithinLimits drill }
    ensures done { OnOk result ((text : Items ℕ) × IsDrilled drill text
        × Took (K.seen output.old) (K.seen output.new) text) }
    ensures write_fault { result ≡ Err Fault.Write
        → ((text : Items ℕ) × (n : ℕ) × IsDrilled drill text
        × Took (K.seen output.old) (K.seen output.new) (take n text))
        × Rose (K.seen output.old).faults (K.seen output.new).faults }
    ensures only { IfErr result (λ fault. (fault ≡ Fault.Memory) ⊎ (fault ≡ Fault.Write)) }
    ensures output_kept { result ≡ Err Fault.Memory → output.new ≡ output.old }
{
    let text = told(alloc, drill)?;
    written(output, &text)
}

/// The text that a drill tells.
fn told(alloc: Global, drill: Drill) -> Result<Bytes, AllocError>
    requires { IsDrillWithinLimits drill }
    ensures { IfOk result (IsDrilled drill) }
{
    let session = generated(alloc, drill)?;
    let report = replay(alloc, &session)?;
    summary(alloc, drill, &report)
}

/// The generated session, which is read as every other one. The text has no fault.
fn generated(alloc: Global, drill: Drill) -> Result<Session, AllocError>
    requires { IsDrillWithinLimits drill }
    ensures read { IfOk result (IsSessionOf (drill_text drill.seed drill.events)) }
    ensures session { IfOk result IsSession }
{
    workload::laws::drill_is_read();
    session_text::laws::reading_is_unique();
    let text = make_session(alloc, drill.seed, drill.events)?;
    match read_session(alloc, text.as_slice()) {
        Ok(session) => Ok(session),
        Err(Stop::Memory) => Err(AllocError),
        Err(Stop::Fault(_)) => unreachable!(),
    }
}

/// What a drill tells of the report of its session.
fn summary(alloc: Global, drill: Drill, report: &Report) -> Result<Bytes, AllocError>
    ensures { IfOk result (λ text. text ≡ summary_text drill (of_report report.now)) }
{
    let (stored, live) = of_first(&report.replicas);
    let last = if show_one_scene(&report.replicas) {
        "\nequal yes\n"
    } else {
        "\nequal no\n"
    };
    let pieces = [
        Piece::Words("drill "),
        Piece::Number(drill.seed),
        Piece::Words(" "),
        Piece::Number(drill.events),
        Piece::Words("\nreplicas "),
        Piece::Number(report.replicas.as_slice().len() as u64),
        Piece::Words("\nmessages "),
        Piece::Number(report.messages),
        Piece::Words("\nrefused "),
        Piece::Number(report.refused.as_slice().len() as u64),
        Piece::Words("\nstored "),
        Piece::Number(stored),
        Piece::Words("\nlive "),
        Piece::Number(live),
        Piece::Words("\nclashes "),
        Piece::Number(report.clashes),
        Piece::Words(last),
    ];
    text_of(alloc, &pieces)
}

/// How many elements the first replica stores, and how many of them are live.
fn of_first(replicas: &List<ReplicaReport>) -> (u64, u64)
    ensures stored { result.0 ≡ of_first
        (λ (replica : ReplicaReport). replica.stored) replicas.now }
    ensures live { result.1 ≡ of_first (λ (replica : ReplicaReport). replica.live) replicas.now }
{
    match replicas.as_slice().first() {
        Some(first) => (first.stored, first.live),
        None => (0, 0),
    }
}

/// Whether all replicas show one scene.
fn show_one_scene(replicas: &List<ReplicaReport>) -> bool
    ensures { result ≡ show_one_scene (λ (replica : ReplicaReport). replica.scene) replicas.now }
{
    match replicas.as_slice() {
        [] => true,
        [first, others @ ..] => all_show(&first.scene, others),
    }
}

/// Whether each of these replicas shows this scene.
fn all_show(scene: &Bytes, replicas: &[ReplicaReport]) -> bool
    ensures { result ≡ list_all
        (λ (other : ReplicaReport). bytes_eq other.scene scene.now) replicas.now }
{
    match replicas {
        [] => true,
        [first, others @ ..] => first.scene.as_slice() == scene.as_slice()
            && all_show(scene, others),
    }
}

/// The text of these pieces.
fn text_of(alloc: Global, pieces: &[Piece]) -> Result<Bytes, AllocError>
    ensures { IfOk result (λ text. text ≡ line_text pieces.now) }
{
    let mut text = Vec::new(alloc);
    for piece in pieces {
        push_piece(alloc, &mut text, *piece)?;
    }
    Ok(Bytes::from_vec(text))
}

/// Appends the text of a piece.
fn push_piece(alloc: Global, text: &mut Vec<u8>, piece: Piece) -> Result<(), AllocError>
    ensures { OnOk result (text.new.items ≡ text.old.items ++ piece_text piece) }
{
    match piece {
        Piece::Words(words) => text.extend_from_slice(words.as_bytes()),
        Piece::Number(number) => text.extend_from_slice(number.to_string(alloc)?.as_bytes()),
    }
}
