//! A replica.

ghost use Rattle.std.specs.Prelude.{◌≡◌, ◌≢◌, ◌↔◌, [], true, false, Some, Ok, Err, length, IsOk, IsTrue, IfOk, IfErr, OnOk, OnErr};
ghost use Rattle.view.specs.Shown.{live_elements, shown};
ghost use Rattle.effects.specs.Changed.{OnFault, outcome};
ghost use Rattle.board_commands.specs.Limits.{IsWithinLimits};
ghost use Rattle.history.specs.Stacks.{OnFull};
ghost use Rattle.elem_store.specs.Updates.{is_among};
ghost use Rattle.reconcile.specs.Ids.{free_elements, HasAdded, HasDropped};
ghost use Rattle.replica.specs.Boards.{IsPlanOf, IsPlannedStep};
ghost use Rattle.replica.specs.Standing.{ReplicaStandsFor};
ghost use Rattle.replica.specs.State as state;
ghost use Rattle.replica.specs.State.{IsOutcome, State};
ghost use Rattle.undo_model.specs.Differing.{pending};

use crate::board::Board;
use crate::planned::PlannedStep;
use board_base::{List, Stop};
use board_commands::{Capture, Command};
use delta::VersionFull;
use effects::Refusal;
use elem::{Element, Stamp};
use elem_store::Store;
use history::{Direction, Step};
use json_text::Text;
use kept_view::KeptView;
use reconcile::{Held, free_copies};
use std::alloc::{AllocError, Global};
use std::marker::Model;

/// One of several boards that are changed apart and told of each other's changes. Contracts see its
/// stored elements, its snapshot, its stacks of entries and the ids that are held; for want of
/// memory they are as before each call.
///
/// `specs/State.antt` says over whole elements what each call makes of a replica; a clause on a
/// call is for every state that the replica stands for.
pub struct Replica {
    alloc: Global,
    board: Board,
    held: Held,
}

// By hand, so that whoever drops a replica sees one call and not what it holds.
impl Drop for Replica {
    fn drop(self) {
        let Replica {
            alloc: _,
            board: _board,
            held: _held,
        } = self;
    }
}

impl Model for Replica {
    ghost use Rattle.replica.specs.Boards.{IsBoard};
    ghost use Rattle.replica.specs.Standing.{Kept};

    ghost Value = { Kept };

    ghost view = { λ r. record {
      stored = r.board.store.elements;
      snapshot = r.board.snapshot.elements;
      stacks = r.board.history.stacks;
      held = r.held;
    } };

    ghost invariant = { λ r. IsBoard r.board };
}

impl Replica {
    /// With nothing stored.
    pub fn new(alloc: Global) -> Replica
        ensures { ReplicaStandsFor result state.nothing }
    {
        Replica {
            alloc,
            board: Board::new(alloc),
            held: Held::new(alloc),
        }
    }

    /// Makes a change: the elements that the command changes are stored, and given in the order of
    /// their ids; or it is refused, and nothing is changed. Each that changes has this
    /// stamp.
    pub fn change(
        &mut self,
        command: &Command,
        capture: Capture,
        stamp: Stamp,
    ) -> Result<List<Element>, Stop<Refusal>>
        requires limits { IsWithinLimits command.now }
        ensures given { IfOk result
            (λ given. outcome self.old.stored
            (shown (live_elements self.old.stored)) command.now stamp.time stamp.nonce ≡ Ok given) }
        ensures refused { IfErr result
            (λ stop. OnFault stop
            (λ refusal. outcome self.old.stored
            (shown (live_elements self.old.stored)) command.now stamp.time stamp.nonce
            ≡ Err refusal)) }
        ensures after { OnOk result ((s : State) → ReplicaStandsFor self.old s
            → ReplicaStandsFor self.new (state.after_change command.now capture
            stamp.time stamp.nonce s)) }
        ensures err { OnErr result (self.new ≡ self.old) }
    {
        let given = self.given(command, stamp)?;
        self.store_given(capture, &given)?;
        Ok(given)
    }

    /// The elements that a command changes, as they become, in the order of their ids; or the
    /// refusal. Each that changes has this stamp.
    pub fn given(&self, command: &Command, stamp: Stamp) -> Result<List<Element>, Stop<Refusal>>
        requires limits { IsWithinLimits command.now }
        ensures given { IfOk result
            (λ given. outcome self.now.stored
            (shown (live_elements self.now.stored)) command.now stamp.time stamp.nonce ≡ Ok given) }
        ensures refused { IfErr result
            (λ stop. OnFault stop
            (λ refusal. outcome self.now.stored
            (shown (live_elements self.now.stored)) command.now stamp.time stamp.nonce
            ≡ Err refusal)) }
    {
        self.board.given(self.alloc, command, stamp)
    }

    /// Stores what a command changes, captured as asked.
    pub fn store_given(&mut self, capture: Capture, given: &List<Element>) -> Result<(), AllocError>
        requires given { IsOutcome self.old.stored given.now }
        ensures after { OnOk result ((s : State) → ReplicaStandsFor self.old s
            → ReplicaStandsFor self.new (state.after_given capture given.now s)) }
        ensures err { OnErr result (self.new ≡ self.old) }
    {
        self.board
            .store_given(self.alloc, capture, given.as_slice())
    }

    /// Takes the elements of a list whose ids aren't held, carries those that become stored into
    /// the snapshot, and tells how many were taken.
    pub fn deliver(&mut self, list: &[Element]) -> Result<u64, AllocError>
        ensures count { IfOk result
            (λ count. count ≡ length (free_elements self.old.held list.now)) }
        ensures after { OnOk result ((s : State) → ReplicaStandsFor self.old s
            → ReplicaStandsFor self.new (state.after_delivery list.now s)) }
        ensures err { OnErr result (self.new ≡ self.old) }
    {
        let free = free_copies(self.alloc, list, &self.held)?;
        self.board.store_carried(self.alloc, free.as_slice())?;
        Ok(free.len() as u64)
    }

    /// Holds the id: updates for it that are delivered aren't taken. It wants no memory where the
    /// id is held.
    pub fn hold(&mut self, id: &Text) -> Result<(), AllocError>
        ensures held { OnOk result (HasAdded self.old.held id.now self.new.held) }
        ensures kept { OnOk result (self.new ≡ record self.old { held = self.new.held }) }
        ensures known { IsTrue (is_among self.old.held id.now) → IsOk result }
        ensures err { OnErr result (self.new ≡ self.old) }
    {
        self.held.add(id)
    }

    /// Holds the id no more. It takes no memory.
    pub fn release(&mut self, id: &Text)
        ensures held { HasDropped self.old.held id.now self.new.held }
        ensures kept { self.new ≡ record self.old { held = self.new.held } }
    {
        self.held.drop_id(id)
    }

    /// Captures what is pending, and then takes the topmost entry, or the topmost undo, that is
    /// seen back: the elements that change are stored, and given in the order of their ids.
    /// `Nothing` comes exactly where no entry is seen; the capture stands. `VersionFull` names the
    /// least id of those that would change and stand at the greatest version; then nothing is
    /// changed.
    pub fn turn(&mut self, direction: Direction, stamp: Stamp) -> Result<Step, Stop<VersionFull>>
        ensures step { IfOk result (λ step. (s : State) → ReplicaStandsFor self.old s
            → state.IsStepAnswer step (state.turn_on direction stamp.time stamp.nonce s)) }
        ensures full { IfErr result (λ stop. OnFull stop (λ id. (s : State)
            → ReplicaStandsFor self.old s
            → state.turn_on direction stamp.time stamp.nonce s ≡ Some (Err id))) }
        ensures after { OnOk result ((s : State) → ReplicaStandsFor self.old s
            → ReplicaStandsFor self.new (state.after_turn direction stamp.time stamp.nonce s)) }
        ensures err { OnErr result (self.new ≡ self.old) }
    {
        let plan = self.plan(direction, stamp)?;
        Ok(self.put_step(plan)?)
    }

    /// Plans what `turn` makes: `put_step` then puts it in place. Nothing is changed.
    pub fn plan(
        &mut self,
        direction: Direction,
        stamp: Stamp,
    ) -> Result<PlannedStep, Stop<VersionFull>>
        ensures planned { IfOk result
            (IsPlannedStep self.old.stored self.old.snapshot self.old.stacks) }
        ensures call { IfOk result (IsPlanOf direction stamp) }
        ensures step { IfOk result (λ plan. (s : State) → ReplicaStandsFor self.old s
            → state.IsStepAnswer plan.step (state.turn_on direction stamp.time stamp.nonce s)) }
        ensures full { IfErr result (λ stop. OnFull stop (λ id. (s : State)
            → ReplicaStandsFor self.old s
            → state.turn_on direction stamp.time stamp.nonce s ≡ Some (Err id))) }
        ensures kept { self.new ≡ self.old }
    {
        self.board.plan(direction, stamp)
    }

    /// Puts a planned step in place, and gives what it says. It must have been planned on what the
    /// replica is.
    pub fn put_step(&mut self, plan: PlannedStep) -> Result<Step, AllocError>
        requires planned { IsPlannedStep self.old.stored self.old.snapshot self.old.stacks plan }
        ensures step { IfOk result (λ step. step ≡ plan.step) }
        ensures after { OnOk result ((s : State) → ReplicaStandsFor self.old s
            → ReplicaStandsFor self.new (state.after_turn plan.direction plan.stamp.time
            plan.stamp.nonce s)) }
        ensures err { OnErr result (self.new ≡ self.old) }
    {
        let PlannedStep {
            direction: _,
            stamp: _,
            history,
            step,
        } = plan;
        self.board.put_step(self.alloc, history, &step)?;
        Ok(step)
    }

    /// Whether changes are stored that are in no entry yet.
    pub fn is_pending(&mut self) -> Result<bool, AllocError>
        ensures pending { IfOk result (λ is. (s : State) → ReplicaStandsFor self.old s
            → (IsTrue is ↔ (pending s.snapshot s.stored ≢ []))) }
        ensures kept { self.new ≡ self.old }
    {
        self.board.is_pending()
    }

    /// What it stores. It takes no memory.
    pub fn store(&self) -> &Store
        ensures { result.now.elements ≡ self.now.stored }
    {
        &self.board.store
    }

    /// What it shows: always the view of what it stores. It takes no memory.
    pub fn view(&self) -> &KeptView
        ensures { result.now ≡ live_elements self.now.stored }
    {
        &self.board.view
    }

    /// How many entries can be undone. It takes no memory.
    pub fn undo_len(&self) -> u64
        ensures { result ≡ length self.now.stacks.undo }
    {
        self.board.history.undo_len()
    }

    /// How many entries can be redone. It takes no memory.
    pub fn redo_len(&self) -> u64
        ensures { result ≡ length self.now.stacks.redo }
    {
        self.board.history.redo_len()
    }
}
