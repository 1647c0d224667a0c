//! A journal that is recovered, and what is told of it.

ghost use Rattle.std.specs.Prelude.{◌≡◌, ℕ, List as Items, None, Ok, IfOk, IfErr};
ghost use Rattle.room_disk.specs.Recovering.{HasNoRecord, IsRecoveredAs};
ghost use Rattle.commands.specs.Ends.{span, WasRead};
ghost use Rattle.commands.specs.inner.Ends.{IsInputFault};
ghost use Rattle.commands.specs.Journals.{IsJournalRefusal, IsResumeRefusal, IsToldAs};

use crate::answer::{ended, shown_text};
use crate::status::{Fault, InputRefusal};
use crate::words::Form;
use board_base::{Bytes, Stop};
use board_ends::Source;
use elem_store::Store;
use room_disk::{KeepFault, RecoverFault, recover, recover_records};
use scene_file::{Head, Layout, state_text};
use std::alloc::{AllocError, Global};

/// The head and the store of the journal that the input is. It has no limit, and is held a line at
/// a time.
pub(crate) fn recovered<S: Source>(alloc: Global, input: &mut S) -> Result<(Head, Store), Fault>
    ensures recovered { IfOk result (λ found. (bytes : Items ℕ)
        × WasRead None (span (S.seen input.old) (S.seen input.new)) bytes
        × IsRecoveredAs bytes (Ok (record { head = found.0; elements = found.1.elements }))) }
    ensures fault { IfErr result (IsInputFault None IsJournalRefusal
        (span (S.seen input.old) (S.seen input.new))) }
{
    match recover(alloc, input) {
        Ok(found) => Ok(found),
        Err(Stop::Fault(RecoverFault::Failed)) => Err(Fault::Read),
        Err(Stop::Fault(RecoverFault::Faulty(KeepFault::Line(number, fault)))) => {
            Err(Fault::Refused(InputRefusal::Line(number, fault)))
        }
        Err(Stop::Memory) => Err(Fault::Memory),
    }
}

/// The head and the store of the journal that the input is, from which a room is to go on: one with
/// bytes and without a record is refused, so that no room begins empty in place of a board.
pub(crate) fn recorded<S: Source>(alloc: Global, input: &mut S) -> Result<(Head, Store), Fault>
    ensures recovered { IfOk result (λ found. (bytes : Items ℕ)
        × WasRead None (span (S.seen input.old) (S.seen input.new)) bytes
        × (¬ HasNoRecord bytes)
        × IsRecoveredAs bytes (Ok (record { head = found.0; elements = found.1.elements }))) }
    ensures fault { IfErr result (IsInputFault None IsResumeRefusal
        (span (S.seen input.old) (S.seen input.new))) }
{
    match recover_records(alloc, input) {
        Ok(Some(found)) => Ok(found),
        Ok(None) => Err(Fault::Refused(InputRefusal::NoRecord)),
        Err(Stop::Fault(RecoverFault::Failed)) => Err(Fault::Read),
        Err(Stop::Fault(RecoverFault::Faulty(KeepFault::Line(number, fault)))) => {
            Err(Fault::Refused(InputRefusal::Line(number, fault)))
        }
        Err(Stop::Memory) => Err(Fault::Memory),
    }
}

/// The text in this form of what was recovered, and a newline.
pub(crate) fn recovered_text(
    alloc: Global,
    head: &Head,
    store: Store,
    form: Form,
) -> Result<Bytes, AllocError>
    ensures { IfOk result (IsToldAs form head.now store.elements) }
{
    match form {
        Form::State => ended(state_text(alloc, head, &store)?),
        Form::Scene => shown_text(alloc, head, store, Layout::Compact),
    }
}
