//! Laws on tables, for any that can be opened again.

ghost use Rattle.std.specs.Prelude.{◌≢◌, ℕ, List as Items, OnOk};
ghost use Rattle.board_tables.specs.Tables.{IsFound, IsFoundWhole, IsGivenUp};
ghost use Rattle.board_tables.specs.Boards.{Boards, written, StaysAt};
ghost use Rattle.board_tables.specs.declared.writes.Write.{Write};

use crate::tables::{Reopen, TableError};

/// What was committed is found by the next open, whatever the stop before it leaves.
pub fn what_was_committed_is_found<T: Reopen>(tables: &mut T) -> Result<(), TableError>
    ensures { OnOk result (IsFound (T.Tables.seen tables.old) (T.Tables.seen tables.new)) }
{
    tables.commit()?;
    tables.reopen()
}

/// After a commit, failed or not, the next open finds all that was put or nothing of it, for every
/// board at once.
pub fn a_commit_is_found_whole<T: Reopen>(tables: &mut T) -> Result<(), TableError>
    ensures { OnOk result (IsFoundWhole (T.Tables.seen tables.old) (T.Tables.seen tables.new)) }
{
    let _ = tables.commit();
    tables.reopen()
}

/// What was put since the last commit is given up by a stop, and nothing else.
pub fn a_stop_gives_up_what_was_put<T: Reopen>(tables: &mut T) -> Result<(), TableError>
    ensures { OnOk result (IsGivenUp (T.Tables.seen tables.old) (T.Tables.seen tables.new)) }
{
    tables.reopen()
}

/// A write to one board leaves the others as they are.
pub fn boards_stand_apart()
    ensures { (boards : Boards) (write : Write) (name : Items ℕ) → write.board ≢ name
        → StaysAt boards (written boards write) name }
{}
