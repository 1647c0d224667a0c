//! A history.

ghost use Rattle.std.specs.Prelude.{◌≡◌, ◌↔◌, ◌≤◌, ◌<◌, List as Items, [], Ok, IsOk, None, length, IfOk, IfErr, IfSome, OnOk, OnErr};
ghost use Rattle.elem.specs.ElementValue.{ElementValue};
ghost use Rattle.history.specs.Stacks.{HasStoredIds, HaveStoredIds, AreUnseen, HasTakenBack, StopsAt, OnFull, FitsIn, noted, put_step, side};
ghost use Rattle.history.specs.inner.Stacks.{IsPlanned};

use crate::planned::{Direction, HistoryStep, Plan, note_within, shift, step_of};
use crate::step::{Step, is_nothing, plan_back, plan_noted};
use board_base::Stop;
use delta::{Entry, VersionFull};
use elem::Stamp;
use elem_store::Store;
use std::alloc::{AllocError, Global};
use std::marker::Model;

/// The entries that can be undone and those that can be redone, the next one last.
pub struct History {
    undo: Vec<Entry>,
    redo: Vec<Entry>,
}

// By hand, so that whoever drops a history sees one call and not what it holds.
impl Drop for History {
    fn drop(self) {
        let History {
            undo: _undo,
            redo: _redo,
        } = self;
    }
}

impl Model for History {
    ghost use Rattle.std.specs.Prelude.{◌+◌, vec_capacity, vec_len};
    ghost use Rattle.history.specs.Stacks.{Recorded, spare_in};

    ghost Value = { Recorded };

    ghost view = { λ h. record {
      stacks = record { undo = h.undo.items; redo = h.redo.items };
      spare = spare_in (vec_capacity h.undo) (vec_capacity h.redo)
          (vec_len h.undo + vec_len h.redo);
    } };
}

impl History {
    /// With nothing to undo or redo.
    pub fn new(alloc: Global) -> History
        ensures undo { result.stacks.undo ≡ [] }
        ensures redo { result.stacks.redo ≡ [] }
    {
        History {
            undo: Vec::new(alloc),
            redo: Vec::new(alloc),
        }
    }

    /// How many entries can be undone. It takes no memory.
    pub fn undo_len(&self) -> u64
        ensures { result ≡ length self.now.stacks.undo }
    {
        self.undo.len() as u64
    }

    /// How many entries can be redone. It takes no memory.
    pub fn redo_len(&self) -> u64
        ensures { result ≡ length self.now.stacks.redo }
    {
        self.redo.len() as u64
    }

    /// Makes room in each stack for the entries of both and one more. The stacks stay, also for
    /// want of memory.
    pub fn reserve(&mut self) -> Result<(), AllocError>
        ensures room { OnOk result (0 < self.new.spare) }
        ensures kept { self.old.spare ≤ self.new.spare }
        ensures stacks { self.new.stacks ≡ self.old.stacks }
    {
        self.undo.reserve(self.redo.len() + 1)?;
        self.redo.reserve(self.undo.len() + 1)
    }

    /// Makes an entry the next one to undo, after which nothing can be redone. An empty entry
    /// changes nothing. For want of memory the stacks are unchanged; where there is room it takes
    /// none.
    pub fn note(&mut self, entry: Entry) -> Result<(), AllocError>
        ensures ok { OnOk result (self.new.stacks ≡ noted entry self.old.stacks) }
        ensures room { 0 < self.old.spare → IsOk result }
        ensures err { OnErr result (self.new.stacks ≡ self.old.stacks) }
    {
        self.undo.reserve(1)?;
        note_within(&mut self.undo, &mut self.redo, entry);
        Ok(())
    }

    /// Plans to note what is pending and then to undo or to redo. The step and the answer are those
    /// of these two calls: the topmost entry of the stack that is seen is taken back from the
    /// stored elements, and those that change are given, with this stamp, in the order of their
    /// ids. `Nothing` comes exactly where no entry is seen. `VersionFull` names the
    /// least id of those that would change and stand at the greatest version.
    pub fn plan(
        &self,
        direction: Direction,
        pending: Entry,
        store: &Store,
        stamp: Stamp,
    ) -> Result<(HistoryStep, Step), Stop<VersionFull>>
        requires pending { HasStoredIds store.now.elements pending }
        requires stored { HaveStoredIds store.now.elements (side direction self.now.stacks) }

        ensures done { (step : HistoryStep) (given : Items ElementValue)
            → result ≡ Ok (step, Step.Done given)
            → HasTakenBack direction store.now.elements stamp given
            (noted pending self.now.stacks) (put_step step self.now.stacks) }
        ensures nothing { IfOk result
            (λ plan. (plan.1 ≡ Step.Nothing) ↔ AreUnseen store.now.elements
            (side direction (noted pending self.now.stacks))) }
        ensures nothing_kept { (step : HistoryStep) → result ≡ Ok (step, Step.Nothing)
            → put_step step self.now.stacks ≡ noted pending self.now.stacks }
        ensures fits { IfOk result (λ plan. FitsIn plan.0 self.now.stacks) }
        ensures full { IfErr result
            (λ stop. OnFull stop
            (StopsAt store.now.elements (side direction (noted pending self.now.stacks)))) }
    {
        let plan = self.plan_side(direction, &pending, store, stamp)?;
        Ok(step_of(pending, direction, plan))
    }

    /// The plan for the topmost entry that is seen of the stack that a step is from, if there is
    /// one, once an entry was noted.
    fn plan_side(
        &self,
        direction: Direction,
        pending: &Entry,
        store: &Store,
        stamp: Stamp,
    ) -> Result<Option<Plan>, Stop<VersionFull>>
        requires pending { HasStoredIds store.now.elements pending.now }
        requires stored { HaveStoredIds store.now.elements (side direction self.now.stacks) }
        ensures none { IfOk result (λ plan. plan ≡ None
            → AreUnseen store.now.elements (side direction (noted pending.now self.now.stacks))) }
        ensures some { IfOk result
            (λ plan. IfSome plan (IsPlanned store.now.elements stamp
            (side direction (noted pending.now self.now.stacks)))) }
        ensures full { IfErr result
            (λ stop. OnFull stop
            (StopsAt store.now.elements (side direction (noted pending.now self.now.stacks)))) }
    {
        let alloc = *self.undo.allocator();
        match direction {
            Direction::Undo => plan_noted(alloc, pending, &self.undo, store, stamp),
            Direction::Redo if is_nothing(pending) => plan_back(alloc, &self.redo, store, stamp),
            Direction::Redo => Ok(None),
        }
    }

    /// Puts a planned step in place: notes what is pending; where an entry was made, moves the
    /// entries that are passed over to the other stack, one after another and inverted, takes the
    /// next one away, and puts the made one on the other stack. It takes no memory.
    pub fn put(&mut self, step: HistoryStep)
        requires spare { 0 < self.old.spare }
        requires fits { FitsIn step self.old.stacks }
        ensures { self.new.stacks ≡ put_step step self.old.stacks }
    {
        let HistoryStep {
            pending,
            made,
            direction,
            passed,
        } = step;
        note_within(&mut self.undo, &mut self.redo, pending);
        match (made, direction) {
            (Some(made), Direction::Undo) => shift(&mut self.undo, &mut self.redo, passed, made),
            (Some(made), Direction::Redo) => shift(&mut self.redo, &mut self.undo, passed, made),
            (None, _) => {}
        }
    }
}
