//! What a replica stores, shows, and knows of its changes. Each call makes all that it needs first,
//! in the order plans, copies and room, view, and then puts it in place, which takes no memory.

ghost use Rattle.std.specs.Prelude.{◌≡◌, ◌≢◌, ◌↔◌, ◌<◌, [], true, false, IsTrue, Ok, Err, IfOk, IfErr, OnOk, OnErr};
ghost use Rattle.frac_keys.specs.Rising.{are_rising};
ghost use Rattle.elem.specs.Said.{AreElements};
ghost use Rattle.elem_store.specs.Updates.{ids_of};
ghost use Rattle.view.specs.Shown.{live_elements, shown};
ghost use Rattle.effects.specs.Changed.{outcome, OnFault};
ghost use Rattle.board_commands.specs.Limits.{IsWithinLimits};
ghost use Rattle.history.specs.Stacks as stacks;
ghost use Rattle.history.specs.Stacks.{FitsIn, OnFull, noted};
ghost use Rattle.undo_model.specs.Carrying.{taken_all};
ghost use Rattle.undo_model.specs.Differing.{pending};
ghost use Rattle.replica.specs.Boards.{told, IsBoard, IsPlanOf, IsPlannedStep, IsUntouched};
ghost use Rattle.replica.specs.inner.Boards.{BecomeStored, GivesElements, GivesTaken, HasCaptured, HasCarriedAll, HasPutStep, HasStopped, HasStoredGiven, HasTakenAll, stored_by};

use crate::planned::PlannedStep;
use board_base::{List, Stop};
use board_commands::{Capture, Command};
use delta::{Entry, VersionFull};
use effects::{Lookup, Refusal, changed};
use elem::{Element, Stamp, copies_of};
use elem_store::Store;
use history::{Direction, History, HistoryStep, Step};
use kept_view::KeptView;
use snapshot::{Snapshot, Touched};
use std::alloc::{AllocError, Global};

/// The stored elements, their view, the snapshot with the ids that were stored since it was taken,
/// and the history.
pub(crate) struct Board {
    pub(crate) store: Store,
    pub(crate) view: KeptView,
    pub(crate) snapshot: Snapshot,
    pub(crate) touched: Touched,
    pub(crate) history: History,
}

// By hand, so that whoever drops a board sees one call and not what it holds.
impl Drop for Board {
    fn drop(self) {
        let Board {
            store: _store,
            view: _view,
            snapshot: _snapshot,
            touched: _touched,
            history: _history,
        } = self;
    }
}

impl Board {
    /// With nothing stored.
    pub(crate) fn new(alloc: Global) -> Board
        ensures empty { told result ≡ record {
          stored = [];
          view = [];
          snapshot = [];
          stacks = record { undo = []; redo = [] };
        } }
        ensures untouched { IsUntouched result }
    {
        Board {
            store: Store::new(alloc),
            view: KeptView::new(alloc),
            snapshot: Snapshot::new(alloc),
            touched: Touched::new(alloc),
            history: History::new(alloc),
        }
    }

    /// The elements that a command changes, as they become.
    pub(crate) fn given(
        &self,
        alloc: Global,
        command: &Command,
        stamp: Stamp,
    ) -> Result<List<Element>, Stop<Refusal>>
        requires limits { IsWithinLimits command.now }
        requires board { IsBoard self.now }
        ensures exact { IfOk result
            (λ given. outcome self.now.store.elements
            (shown self.now.view) command.now stamp.time stamp.nonce ≡ Ok given) }
        ensures refused { IfErr result
            (λ stop. OnFault stop
            (λ refusal. outcome self.now.store.elements
            (shown self.now.view) command.now stamp.time stamp.nonce ≡ Err refusal)) }
    {
        let lookup = Lookup {
            store: &self.store,
            shown: self.view.elements(),
            names: self.view.names(),
            unsettled: self.view.unsettled(),
            rekeyed: self.view.rekeyed(),
        };
        changed(alloc, &lookup, command, stamp)
    }

    /// Stores what a change gave, captured as asked.
    pub(crate) fn store_given(
        &mut self,
        alloc: Global,
        capture: Capture,
        given: &[Element],
    ) -> Result<(), AllocError>
        requires board { IsBoard self.old }
        requires given { BecomeStored self.old.store.elements given.now }
        ensures ok { OnOk result
            (HasStoredGiven capture (told self.old) given.now (told self.new)) }
        ensures err { OnErr result (told self.new ≡ told self.old) }
        ensures untouched { IsUntouched self.new }
    {
        match capture {
            Capture::Now => self.store_captured(alloc, given),
            Capture::Later => self.store_alone(alloc, given),
            Capture::Never => self.store_carried(alloc, given),
        }
    }

    /// Stores what a change gave, and captures it with what was pending.
    fn store_captured(&mut self, alloc: Global, given: &[Element]) -> Result<(), AllocError>
        requires board { IsBoard self.old }
        requires given { BecomeStored self.old.store.elements given.now }
        ensures ok { OnOk result (HasCaptured (told self.old) given.now (told self.new)) }
        ensures err { OnErr result (told self.new ≡ told self.old) }
        ensures untouched { IsUntouched self.new }
    {
        let (step, entry) = self
            .snapshot
            .plan_capture(&self.store, &self.touched, given)?;
        self.history.reserve()?;
        take(alloc, &mut self.store, &mut self.view, given)?;
        self.snapshot.put(step);
        self.touched.clear();
        note(&mut self.history, entry);
        Ok(())
    }

    /// Stores updates, and leaves the snapshot and the history.
    fn store_alone(&mut self, alloc: Global, list: &[Element]) -> Result<(), AllocError>
        requires board { IsBoard self.old }
        ensures ok { OnOk result (HasTakenAll (told self.old) list.now (told self.new)) }
        ensures err { OnErr result (told self.new ≡ told self.old) }
        ensures untouched { IsUntouched self.new }
    {
        self.touched.touch(list)?;
        take(alloc, &mut self.store, &mut self.view, list)
    }

    /// Stores updates, and carries those that become stored into the snapshot.
    pub(crate) fn store_carried(
        &mut self,
        alloc: Global,
        list: &[Element],
    ) -> Result<(), AllocError>
        requires board { IsBoard self.old }
        ensures ok { OnOk result (HasCarriedAll (told self.old) list.now (told self.new)) }
        ensures err { OnErr result (told self.new ≡ told self.old) }
        ensures untouched { IsUntouched self.new }
    {
        let step = self.snapshot.plan_carry(&self.store, list)?;
        self.touched.touch(list)?;
        take(alloc, &mut self.store, &mut self.view, list)?;
        self.snapshot.put(step);
        Ok(())
    }

    /// Whether what is stored differs from the snapshot, outside the stamps.
    pub(crate) fn is_pending(&mut self) -> Result<bool, AllocError>
        requires board { IsBoard self.old }
        ensures pending { IfOk result (λ is. IsTrue is
            ↔ (pending self.old.snapshot.elements self.old.store.elements ≢ [])) }
        ensures kept { told self.new ≡ told self.old }
        ensures untouched { IsUntouched self.new }
    {
        let (_, entry) = self.snapshot.plan_capture(&self.store, &self.touched, &[])?;
        Ok(has_parts(&entry))
    }

    /// Plans to capture what is pending and to take one entry, or one undo, back.
    pub(crate) fn plan(
        &mut self,
        direction: Direction,
        stamp: Stamp,
    ) -> Result<PlannedStep, Stop<VersionFull>>
        requires board { IsBoard self.old }
        ensures planned { IfOk result (IsPlannedStep self.old.store.elements
            self.old.snapshot.elements self.old.history.stacks) }
        ensures call { IfOk result (IsPlanOf direction stamp) }
        ensures full { IfErr result (λ stop. OnFull stop (HasStopped direction (told self.old))) }
        ensures kept { told self.new ≡ told self.old }
        ensures untouched { IsUntouched self.new }
    {
        let (_, pending) = self.snapshot.plan_capture(&self.store, &self.touched, &[])?;
        let (history, step) = self.history.plan(direction, pending, &self.store, stamp)?;
        Ok(PlannedStep {
            direction,
            stamp,
            history,
            step,
        })
    }

    /// Puts a planned step in place: captures what is pending, and stores what the step gives, of
    /// which the snapshot is then.
    pub(crate) fn put_step(
        &mut self,
        alloc: Global,
        history: HistoryStep,
        step: &Step,
    ) -> Result<(), AllocError>
        requires board { IsBoard self.old }
        requires given { GivesTaken self.old.store.elements step.now }
        requires fits { FitsIn history self.old.history.stacks }
        ensures ok { OnOk result
            (HasPutStep (told self.old) step.now (stacks.put_step history self.old.history.stacks)
            (told self.new)) }
        ensures err { OnErr result (told self.new ≡ told self.old) }
        ensures untouched { IsUntouched self.new }
    {
        self.history.reserve()?;
        self.put_elements(alloc, step)?;
        self.history.put(history);
        Ok(())
    }

    /// Puts the elements of a planned step in place.
    fn put_elements(&mut self, alloc: Global, step: &Step) -> Result<(), AllocError>
        requires board { IsBoard self.old }
        requires given { GivesTaken self.old.store.elements step.now }
        ensures elements { OnOk result (GivesElements step.now) }
        ensures stored { OnOk result
            (self.new.store.elements ≡ stored_by step.now self.old.store.elements) }
        ensures view { OnOk result
            (self.new.view ≡ live_elements (stored_by step.now self.old.store.elements)) }
        ensures snapshot { OnOk result
            (self.new.snapshot.elements ≡ stored_by step.now self.old.store.elements) }
        ensures history { self.new.history ≡ self.old.history }
        ensures err { OnErr result (told self.new ≡ told self.old) }
        ensures untouched { IsUntouched self.new }
    {
        match step {
            Step::Done(given) => self.store_step(alloc, given.as_slice()),
            Step::Nothing => self.store_step(alloc, &[]),
        }
    }

    /// Stores what a step gives, of which the snapshot is then.
    fn store_step(&mut self, alloc: Global, given: &[Element]) -> Result<(), AllocError>
        requires board { IsBoard self.old }
        requires given { BecomeStored self.old.store.elements given.now }
        ensures elements { OnOk result (AreElements given.now) }
        ensures stored { OnOk result
            (self.new.store.elements ≡ taken_all given.now self.old.store.elements) }
        ensures view { OnOk result
            (self.new.view ≡ live_elements (taken_all given.now self.old.store.elements)) }
        ensures snapshot { OnOk result
            (self.new.snapshot.elements ≡ taken_all given.now self.old.store.elements) }
        ensures history { self.new.history ≡ self.old.history }
        ensures err { OnErr result (told self.new ≡ told self.old) }
        ensures untouched { IsUntouched self.new }
    {
        let (captured, _) = self
            .snapshot
            .plan_capture(&self.store, &self.touched, given)?;
        take(alloc, &mut self.store, &mut self.view, given)?;
        self.snapshot.put(captured);
        self.touched.clear();
        Ok(())
    }
}

/// Takes the elements into the store and the view.
fn take(
    alloc: Global,
    store: &mut Store,
    view: &mut KeptView,
    list: &[Element],
) -> Result<(), AllocError>
    requires rise { are_rising (ids_of store.old.elements) ≡ true }
    requires view { view.old ≡ live_elements store.old.elements }
    ensures elements { OnOk result (AreElements list.now) }
    ensures stored { OnOk result (store.new.elements ≡ taken_all list.now store.old.elements) }
    ensures view { OnOk result (view.new ≡ live_elements (taken_all list.now store.old.elements)) }
    ensures err_stored { OnErr result (store.new.elements ≡ store.old.elements) }
    ensures err_view { OnErr result (view.new ≡ view.old) }
{
    let copies = copies_of(alloc, list)?;
    store.reserve(list.len())?;
    view.take(store, list)?;
    store.take_all(copies);
    Ok(())
}

/// Notes an entry for which there is room. It takes no memory.
fn note(history: &mut History, entry: Entry)
    requires { 0 < history.old.spare }
    ensures { history.new.stacks ≡ noted entry history.old.stacks }
{
    match history.note(entry) {
        Ok(()) => {}
        Err(AllocError) => unreachable!(),
    }
}

/// Whether an entry has a part.
fn has_parts(entry: &Entry) -> bool
    ensures some { result ≡ true → entry.now ≢ [] }
    ensures none { result ≡ false → entry.now ≡ [] }
{
    !entry.parts.as_slice().is_empty()
}
