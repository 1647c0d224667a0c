//! A journal that is read line by line.

ghost use Rattle.std.specs.Prelude.{◌≡◌, ◌≢◌, ◌∷◌, [], ◌++◌, ℕ, List as Items, length, true, false, Ok, Err, IfOk, OnOk};
ghost use Rattle.room_disk.specs.Recovering.{Recovered, AreReadAs, AreKept, IsLineFault};
ghost use Rattle.room_disk.specs.inner.UnderWay.{IsReadTo};
ghost use Rattle.room_disk.specs.declared.fault.KeepFault.{KeepFault};
ghost use Rattle.room_disk.specs.declared.fault.LineFault.{LineFault};
ghost use Rattle.room_disk.specs.declared.fault.RecoverFault.{RecoverFault};

use crate::fault::{KeepFault, LineFault, RecoverFault};
use crate::line::{open, take_update};
use board_base::Stop;
use elem_store::Store;
use scene_file::Head;
use std::alloc::{AllocError, Global};

/// What the lines so far are read as: their head, what is stored of their elements, how many they
/// are; or the first fault, behind which no line counts.
#[derive(Drop)]
pub(crate) struct Recovery {
    head: Head,
    store: Store,
    lines: u64,
    fault: Option<KeepFault>,
}

impl Recovery {
    /// Before the first line.
    pub(crate) fn new(alloc: Global) -> Recovery
        ensures { IsReadTo [] result }
    {
        Recovery {
            head: Head::new(alloc),
            store: Store::new(alloc),
            lines: 0,
            fault: None,
        }
    }

    /// Whether no line was read so far.
    pub(crate) fn is_new(&self) -> bool
        ensures new { result ≡ true → (lines : Items (Items ℕ)) → IsReadTo lines self.now
            → lines ≡ [] }
        ensures old { result ≡ false → (lines : Items (Items ℕ)) → IsReadTo lines self.now
            → lines ≢ [] }
    {
        match self.fault {
            Some(_) => false,
            None => self.lines == 0,
        }
    }

    /// Takes the next line.
    pub(crate) fn take_line(&mut self, alloc: Global, line: &[u8]) -> Result<(), AllocError>
        ensures { OnOk result ((lines : Items (Items ℕ))
            → IsReadTo lines self.old → IsReadTo (lines ++ line.now ∷ []) self.new) }
    {
        if self.fault.is_some() {
            return Ok(());
        }
        let number = self.lines.checked_add(1).ok_or(AllocError)?;
        match self.read_line(alloc, line) {
            Ok(()) => {
                self.lines = number;
                Ok(())
            }
            Err(Stop::Fault(fault)) => {
                self.fault = Some(KeepFault::Line(number, fault));
                Ok(())
            }
            Err(Stop::Memory) => Err(AllocError),
        }
    }

    /// Reads the next line, where all before it are faultless.
    fn read_line(&mut self, alloc: Global, line: &[u8]) -> Result<(), Stop<LineFault>>
        ensures read { OnOk result ((lines : Items (Items ℕ)) → self.old.lines ≡ length lines
            → AreKept lines self.old.head self.old.store.elements
            → AreKept (lines ++ line.now ∷ []) self.new.head self.new.store.elements) }
        ensures fault { (fault : LineFault) → result ≡ Err (Stop.Fault fault)
            → (lines : Items (Items ℕ)) → self.old.lines ≡ length lines
            → IsLineFault lines line.now fault }
        ensures same { self.new.fault ≡ self.old.fault }
        ensures count { self.new.lines ≡ self.old.lines }
    {
        if self.lines == 0 {
            let (head, store) = open(alloc, line)?;
            self.head = head;
            self.store = store;
            Ok(())
        } else {
            take_update(alloc, &mut self.store, line)
        }
    }

    /// What all lines are read as.
    pub(crate) fn finish(self) -> Result<(Head, Store), Stop<RecoverFault>>
        ensures kept { IfOk result (λ found. (lines : Items (Items ℕ)) → IsReadTo lines self
            → AreReadAs lines (Ok (record { head = found.0; elements = found.1.elements }))) }
        ensures fault { (fault : KeepFault) → result ≡ Err (Stop.Fault (RecoverFault.Faulty fault))
            → (lines : Items (Items ℕ)) → IsReadTo lines self → AreReadAs lines (Err fault) }
        ensures other { result ≢ Err (Stop.Fault RecoverFault.Failed) }
    {
        let Recovery {
            head,
            store,
            lines: _lines,
            fault,
        } = self;
        match fault {
            Some(fault) => Err(Stop::Fault(RecoverFault::Faulty(fault))),
            None => Ok((head, store)),
        }
    }
}
