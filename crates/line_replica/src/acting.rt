//! A replica acts, and the text that tells what came of it is made before anything is changed.

ghost use Rattle.std.specs.Prelude.{◌≡◌, length, IfOk, OnOk, OnErr};
ghost use Rattle.board_commands.specs.Limits.{IsWithinLimits};
ghost use Rattle.reconcile.specs.Ids.{free_elements};
ghost use Rattle.replica.specs.Standing.{ReplicaStandsFor};
ghost use Rattle.replica.specs.Boards.{IsPlannedStep};
ghost use Rattle.replica.specs.State.{State, after_delivery, after_turn, outcome_on, turn_on};
ghost use Rattle.session.specs.Worlds.{change_on, turn_by};
ghost use Rattle.line_replica.specs.Living as living;
ghost use Rattle.line_replica.specs.inner.Acting.{IsActed};
ghost use Rattle.line_replica.specs.inner.Acting as acting;

use crate::texts::{taken_begun, taken_ended};
use board_base::{Bytes, Stop};
use board_commands::{Capture, Command};
use delta::VersionFull;
use effects::Refusal;
use elem::{Element, Stamp};
use history::{Direction, Step};
use replica::{PlannedStep, Replica};
use room_msg::update_text;
use session::refusal_text;
use std::alloc::{AllocError, Global};

/// Makes a change.
pub(crate) fn change(
    alloc: Global,
    replica: &mut Replica,
    command: &Command,
    capture: Capture,
    stamp: Stamp,
) -> Result<Bytes, AllocError>
    requires limits { IsWithinLimits command.now }
    ensures acted { IfOk result (λ text. (s : State) → ReplicaStandsFor replica.old s
        → IsActed (living.command_text (outcome_on command.now stamp.time stamp.nonce s))
        (change_on command.now capture stamp.time stamp.nonce s) text replica.new) }
    ensures err { OnErr result (replica.new ≡ replica.old) }
{
    match replica.given(command, stamp) {
        Ok(given) => {
            let text = update_text(alloc, &given)?;
            replica.store_given(capture, &given)?;
            Ok(text)
        }
        Err(Stop::Fault(refusal)) => refusal_text(alloc, Some(refusal)),
        Err(Stop::Memory) => Err(AllocError),
    }
}

/// Undoes, or redoes, a step.
pub(crate) fn turn(
    alloc: Global,
    replica: &mut Replica,
    direction: Direction,
    stamp: Stamp,
) -> Result<Bytes, AllocError>
    ensures acted { IfOk result (λ text. (s : State) → ReplicaStandsFor replica.old s
        → IsActed (living.step_text (turn_on direction stamp.time stamp.nonce s))
        (turn_by direction stamp.time stamp.nonce s) text replica.new) }
    ensures err { OnErr result (replica.new ≡ replica.old) }
{
    match replica.plan(direction, stamp) {
        Ok(plan) => {
            let text = put(alloc, replica, plan)?;
            Ok(text)
        }
        Err(Stop::Fault(VersionFull(id))) => refusal_text(alloc, Some(Refusal::VersionFull(id))),
        Err(Stop::Memory) => Err(AllocError),
    }
}

/// Puts a planned step in place.
fn put(alloc: Global, replica: &mut Replica, plan: PlannedStep) -> Result<Bytes, AllocError>
    requires planned { IsPlannedStep replica.old.stored replica.old.snapshot replica.old.stacks
        plan }
    ensures text { IfOk result (λ text. text ≡ acting.done_text plan.step) }
    ensures after { OnOk result ((s : State) → ReplicaStandsFor replica.old s
        → ReplicaStandsFor replica.new (after_turn plan.direction plan.stamp.time plan.stamp.nonce
        s)) }
    ensures err { OnErr result (replica.new ≡ replica.old) }
{
    let text = step_text(alloc, &plan.step)?;
    replica.put_step(plan)?;
    Ok(text)
}

/// What a step is answered with.
fn step_text(alloc: Global, step: &Step) -> Result<Bytes, AllocError>
    ensures { IfOk result (λ text. text ≡ acting.done_text step.now) }
{
    match step {
        Step::Done(given) => update_text(alloc, given),
        Step::Nothing => refusal_text(alloc, None),
    }
}

/// Takes elements, but for those whose ids are held.
pub(crate) fn take(
    alloc: Global,
    replica: &mut Replica,
    elements: &[Element],
) -> Result<Bytes, AllocError>
    ensures text { IfOk result (λ text. text
        ≡ living.taken_text (length (free_elements replica.old.held elements.now))) }
    ensures after { OnOk result ((s : State) → ReplicaStandsFor replica.old s
        → ReplicaStandsFor replica.new (after_delivery elements.now s)) }
    ensures err { OnErr result (replica.new ≡ replica.old) }
{
    let begun = taken_begun(alloc)?;
    let count = replica.deliver(elements)?;
    Ok(taken_ended(begun, count))
}
