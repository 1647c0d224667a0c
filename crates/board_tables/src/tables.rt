//! Tables that boards are kept in.

ghost use Rattle.std.specs.Prelude.{◌≡◌, ◌≤◌, ◌≢◌, ℕ, List as Items, Option, None, Some, Ok, Err, true, false, is_some, IfOk, OnOk, OnErr, IfErr, IfSome};
ghost use Rattle.board_ends.specs.Counts.{Rose};
ghost use Rattle.board_tables.specs.Boards.{Boards, IsBoard, written};
ghost use Rattle.board_tables.specs.declared.writes.Change.TheVariants.{Put, Head, Drop};
ghost use Rattle.board_tables.specs.Tables.{TablesEnd, Kept, IsSame, IsWritten, IsCommitted, IsShut, IsReopened, MayBeLeft, Shows};

use crate::board::Board;
use board_base::List;
use elem::Element;
use json_text::Text;
use std::alloc::{AllocError, Global};

/// Why a call on tables stopped.
#[derive(Clone, Copy, Debug, PartialEq, Eq, Drop)]
pub enum TableError {
    /// The tables failed, and their count of faults rose.
    Failed,
    /// A row is no element of a board.
    Damaged,
    /// Allocation failed.
    Memory,
}

impl From<AllocError> for TableError {
    ghost use Rattle.std.specs.Prelude.{◌≡◌};
    ghost use Rattle.board_tables.specs.declared.tables.TableError.TheVariants.{Memory};

    ghost from_gives = { λ _ error. error ≡ Memory };

    fn from(_error: AllocError) -> TableError {
        TableError::Memory
    }
}

/// Tables that boards are kept in. What is put becomes lasting by a commit, all at once and for
/// all boards; a stop before that leaves nothing of it.
pub trait Tables {
    // What was committed and what was put since, where told, and how many calls failed.
    ghost seen: { Self → TablesEnd };

    // What an open after a stop at this moment may find.
    ghost leaves: { Self → Boards → Type 0 };

    /// What is kept of a board, with what was put since the last commit.
    fn stored(&mut self, alloc: Global, name: &Text) -> Result<Option<Board>, TableError>
        ensures found { IfOk result (λ found. Shows (seen self.new) (λ boards. IsBoard
            (boards.head name.now) (boards.element name.now) found)) }
        ensures same { IsSame (seen self.old) (seen self.new) }
        ensures failed { result ≡ Err TableError.Failed
            → Rose (seen self.old).faults (seen self.new).faults }
        ensures damaged { result ≡ Err TableError.Damaged → (seen self.new).kept ≡ None }
        ensures counted { (seen self.old).faults ≤ (seen self.new).faults }
        ensures left { (boards : Boards) → leaves self.new boards → leaves self.old boards };

    /// Puts an element: it becomes the row of its id. A board that is new gets an empty head.
    /// Nothing is lasting before `commit`. After an error nothing was put.
    fn put(&mut self, name: &Text, element: &Element) -> Result<(), TableError>
        ensures ok { OnOk result (IsWritten (seen self.old) (seen self.new)
            (record { board = name.now; change = Put element.now })) }
        ensures err { OnErr result (IsSame (seen self.old) (seen self.new)) }
        ensures failed { result ≡ Err TableError.Failed
            → Rose (seen self.old).faults (seen self.new).faults }
        ensures damaged { result ≢ Err TableError.Damaged }
        ensures counted { (seen self.old).faults ≤ (seen self.new).faults }
        ensures left { (boards : Boards) → leaves self.new boards → leaves self.old boards };

    /// Puts the text of a board's head in the place of the one that it has.
    fn put_head(&mut self, alloc: Global, name: &Text, head: &[u8]) -> Result<(), TableError>
        ensures ok { OnOk result (IsWritten (seen self.old) (seen self.new)
            (record { board = name.now; change = Head head.now })) }
        ensures err { OnErr result (IsSame (seen self.old) (seen self.new)) }
        ensures failed { result ≡ Err TableError.Failed
            → Rose (seen self.old).faults (seen self.new).faults }
        ensures damaged { result ≢ Err TableError.Damaged }
        ensures counted { (seen self.old).faults ≤ (seen self.new).faults }
        ensures left { (boards : Boards) → leaves self.new boards → leaves self.old boards };

    /// Drops a board, with its elements and its head.
    fn drop_board(&mut self, name: &Text) -> Result<(), TableError>
        ensures ok { OnOk result (IsWritten (seen self.old) (seen self.new)
            (record { board = name.now; change = Drop })) }
        ensures err { OnErr result (IsSame (seen self.old) (seen self.new)) }
        ensures failed { result ≡ Err TableError.Failed
            → Rose (seen self.old).faults (seen self.new).faults }
        ensures damaged { result ≢ Err TableError.Damaged }
        ensures counted { (seen self.old).faults ≤ (seen self.new).faults }
        ensures left { (boards : Boards) → leaves self.new boards → leaves self.old boards };

    /// Makes all lasting that was put, of all boards at once. After an error the tables are shut:
    /// no call does more, and the next open finds all that was put, or nothing of it.
    fn commit(&mut self) -> Result<(), TableError>
        ensures ok { OnOk result (IsCommitted (seen self.old) (seen self.new)) }
        ensures err { OnErr result (IsShut (seen self.old) (seen self.new)) }
        ensures failed { result ≡ Err TableError.Failed
            → Rose (seen self.old).faults (seen self.new).faults }
        ensures damaged { result ≢ Err TableError.Damaged }
        ensures counted { (seen self.old).faults ≤ (seen self.new).faults };

    // Whatever a stop leaves is what was committed; after a failed commit it is that or all that
    // was put, for every board at once.
    ghost settled: { (s : Self) (kept : Kept) (boards : Boards) → (seen s).kept ≡ Some kept
        → leaves s boards → MayBeLeft kept boards };

    // What was committed may always be left.
    ghost stays: { (s : Self) (kept : Kept) → (seen s).kept ≡ Some kept
        → leaves s kept.committed };
}

/// Tables that can be stopped and opened again.
pub trait Reopen: Tables {
    /// Opens the tables after a stop at this moment. They have what the stop left.
    fn reopen(&mut self) -> Result<(), TableError>
        ensures found { OnOk result (IsReopened (Self.Tables.seen self.old) (Self.Tables.seen self.new)
            (Self.Tables.leaves self.old)) }
        ensures failed { result ≡ Err TableError.Failed
            → Rose (Self.Tables.seen self.old).faults (Self.Tables.seen self.new).faults }
        ensures damaged { result ≡ Err TableError.Damaged
            → (Self.Tables.seen self.new).kept ≡ None }
        ensures counted { (Self.Tables.seen self.old).faults ≤ (Self.Tables.seen self.new).faults };
}
