//! Tables over memory, of which a chosen commit fails.

ghost use Rattle.std.specs.Prelude.{◌≡◌, ◌≤◌, ◌≢◌, [], None, Some, Ok, Err, false, OnOk, OnErr, IfOk};
ghost use Rattle.std.proofs.Common.{subst, inl, ap, sym};
ghost use Rattle.std.proofs.lemmas.Option.{same_Some};
ghost use Rattle.board_ends.specs.Counts.{Rose};
ghost use Rattle.board_tables.specs.Boards.{Boards, IsBoard, no_boards, all_written};
ghost use Rattle.board_tables.specs.Tables.{Kept, MayBeLeft, IsSame, IsWritten};
ghost use Rattle.board_tables.specs.Memory.{mem_kept, mem_end, MemLeaves, HasKept, HasMarked, HasStopped};

use crate::board::Board;
use crate::tables::{Reopen, TableError, Tables};
use crate::writes::{Write, apply, drop_write, element_write, head_write};
use elem::Element;
use json_text::Text;
use std::alloc::{AllocError, Global};
use std::marker::Model;

/// Which commit of tables over memory fails.
#[derive(Clone, Copy, Debug, Drop)]
pub struct CommitFault {
    /// How many commits succeed before it.
    pub after: u64,
    /// Whether the next open finds what it was to make lasting.
    pub lasts: bool,
}

/// Tables over memory.
#[derive(Drop)]
pub struct MemTables {
    writes: Vec<Write>,
    committed: usize,
    is_shut: bool,
    fault: Option<CommitFault>,
    faults: u64,
}

impl Model for MemTables {
    ghost use Rattle.std.specs.Prelude.{◌≤◌, vec_len};
    ghost use Rattle.board_tables.specs.Memory.{MemTablesState};

    ghost Value = { MemTablesState };

    ghost view = { λ t. record {
      writes = t.writes.items;
      committed = t.committed;
      is_shut = t.is_shut;
      fault = t.fault;
      faults = t.faults;
    } };

    ghost invariant = { λ t. t.committed ≤ vec_len t.writes };
}

impl MemTables {
    /// With no board. The commit that the fault names fails.
    pub fn new(alloc: Global, fault: Option<CommitFault>) -> MemTables
        ensures { result ≡ record {
          writes = [];
          committed = 0;
          is_shut = false;
          fault = fault;
          faults = 0;
        } }
    {
        MemTables {
            writes: Vec::new(alloc),
            committed: 0,
            is_shut: false,
            fault,
            faults: 0,
        }
    }

    /// Puts a write, as it is seen of the tables.
    fn put_write(&mut self, write: Write) -> Result<(), TableError>
        ensures ok { OnOk result (IsWritten (mem_end self.old) (mem_end self.new) write) }
        ensures err { OnErr result (IsSame (mem_end self.old) (mem_end self.new)) }
        ensures failed { result ≡ Err TableError.Failed → Rose self.old.faults self.new.faults }
        ensures damaged { result ≢ Err TableError.Damaged }
        ensures counted { self.old.faults ≤ self.new.faults }
        ensures left { (boards : Boards) → MemLeaves self.new boards → MemLeaves self.old boards }
    {
        self.keep(write)
    }

    /// Puts a write, if the tables aren't shut.
    fn keep(&mut self, write: Write) -> Result<(), TableError>
        ensures ok { OnOk result (HasKept self.old self.new write) }
        ensures err { OnErr result (self.new ≡ record self.old { faults = self.new.faults }) }
        ensures failed { result ≡ Err TableError.Failed → Rose self.old.faults self.new.faults }
        ensures damaged { result ≢ Err TableError.Damaged }
        ensures counted { self.old.faults ≤ self.new.faults }
    {
        if self.is_shut {
            self.faults = self.faults.saturating_add(1);
            return Err(TableError::Failed);
        }
        match self.writes.push(write) {
            Ok(()) => Ok(()),
            Err(_) => Err(TableError::Memory),
        }
    }

    /// Commits, if the tables aren't shut and this isn't the commit that fails; tells whether it
    /// did. If not, the tables are shut.
    fn mark(&mut self) -> bool
        ensures { HasMarked self.old self.new result }
    {
        let (fails, fault) = next_commit(self.fault);
        self.fault = fault;
        if self.is_shut || fails {
            self.is_shut = true;
            self.faults = self.faults.saturating_add(1);
            return false;
        }
        let all = self.writes.len();
        self.committed = all;
        true
    }

    /// Keeps what a stop leaves.
    fn stop(&mut self)
        ensures { HasStopped self.old self.new }
    {
        if self.is_shut && lasts(self.fault) {
            self.committed = self.writes.len();
        } else {
            self.writes.truncate(self.committed);
        }
        self.is_shut = false;
        self.fault = None;
    }

    /// The board of this name.
    fn read(&self, alloc: Global, name: &Text) -> Result<Option<Board>, AllocError>
        ensures { IfOk result (IsBoard ((all_written no_boards self.now.writes).head name.now)
            ((all_written no_boards self.now.writes).element name.now)) }
    {
        board_of(alloc, &self.writes, name)
    }
}

impl Tables for MemTables {
    ghost seen = { mem_end };

    ghost leaves = { MemLeaves };

    ghost settled = { λ s kept boards is left.
        subst (λ k. MayBeLeft k boards) (same_Some (mem_kept s) kept is) left };

    ghost stays = { λ s kept is. inl (ap (λ (k : Kept). k.committed)
        (sym (same_Some (mem_kept s) kept is))) };

    fn stored(&mut self, alloc: Global, name: &Text) -> Result<Option<Board>, TableError> {
        match self.read(alloc, name) {
            Ok(found) => Ok(found),
            Err(_) => Err(TableError::Memory),
        }
    }

    fn put(&mut self, name: &Text, element: &Element) -> Result<(), TableError> {
        let write = element_write(name, element)?;
        self.put_write(write)
    }

    fn put_head(&mut self, alloc: Global, name: &Text, head: &[u8]) -> Result<(), TableError> {
        let write = head_write(alloc, name, head)?;
        self.put_write(write)
    }

    fn drop_board(&mut self, name: &Text) -> Result<(), TableError> {
        let write = drop_write(name)?;
        self.put_write(write)
    }

    fn commit(&mut self) -> Result<(), TableError> {
        if self.mark() {
            Ok(())
        } else {
            Err(TableError::Failed)
        }
    }
}

impl Reopen for MemTables {
    fn reopen(&mut self) -> Result<(), TableError> {
        self.stop();
        Ok(())
    }
}

/// Whether the next commit fails, and the fault that is left for later ones. A commit that fails
/// is the last one.
fn next_commit(fault: Option<CommitFault>) -> (bool, Option<CommitFault>) {
    match fault {
        Some(CommitFault { after, lasts }) => match after.checked_sub(1) {
            Some(after) => (false, Some(CommitFault { after, lasts })),
            None => (true, fault),
        },
        None => (false, None),
    }
}

/// Whether what a failing commit was to make lasting is found.
fn lasts(fault: Option<CommitFault>) -> bool {
    match fault {
        Some(fault) => fault.lasts,
        None => false,
    }
}

/// The board of this name, as the writes make it.
fn board_of(alloc: Global, writes: &Vec<Write>, name: &Text) -> Result<Option<Board>, AllocError>
    ensures { IfOk result (IsBoard ((all_written no_boards writes.now.items).head name.now)
        ((all_written no_boards writes.now.items).element name.now)) }
{
    let mut found = None;
    for write in writes {
        apply(alloc, &mut found, name, write)?;
    }
    Ok(found)
}
