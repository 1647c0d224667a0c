//! Writes that wait for a commit, and what they make of a board.

ghost use Rattle.std.specs.Prelude.{◌≡◌, true, ℕ, List as Items, Option, OnOk, OnErr, IfOk, if◌then◌else◌, bytes_eq};
ghost use Rattle.frac_keys.specs.Rising.{are_rising};
ghost use Rattle.elem_store.specs.Updates.{ids_of};
ghost use Rattle.board_tables.specs.declared.writes.Change.TheVariants.{Put, Head, Drop};
ghost use Rattle.elem.specs.ElementValue.{ElementValue};
ghost use Rattle.board_tables.specs.Boards.{elements_in, AreParts, IsBoard, changed_head, changed_element, written, Boards};

use crate::board::Board;
use crate::rows::put_element;
use board_base::{Bytes, List};
use elem::Element;
use json_text::Text;
use std::alloc::{AllocError, Global};

/// What a write does to its board.
#[derive(Drop)]
pub enum Change {
    /// The element becomes the row of its id.
    Put(Element),
    /// The text becomes the head.
    Head(Bytes),
    /// The board goes, with its elements and its head.
    Drop,
}

/// A write to the board of this name.
#[derive(Drop)]
pub struct Write {
    pub board: Text,
    pub change: Change,
}

/// The write that puts an element.
pub(crate) fn element_write(name: &Text, element: &Element) -> Result<Write, AllocError>
    ensures { IfOk result (λ write. write ≡ record { board = name.now; change = Put element.now }) }
{
    let board = name.try_clone()?;
    let element = element.try_clone()?;
    Ok(Write {
        board,
        change: Change::Put(element),
    })
}

/// The write that puts a head.
pub(crate) fn head_write(alloc: Global, name: &Text, head: &[u8]) -> Result<Write, AllocError>
    ensures { IfOk result (λ write. write ≡ record { board = name.now; change = Head head.now }) }
{
    let board = name.try_clone()?;
    let head = Bytes::from_slice(alloc, head)?;
    Ok(Write {
        board,
        change: Change::Head(head),
    })
}

/// The write that drops a board.
pub(crate) fn drop_write(name: &Text) -> Result<Write, AllocError>
    ensures { IfOk result (λ write. write ≡ record { board = name.now; change = Drop }) }
{
    let board = name.try_clone()?;
    Ok(Write {
        board,
        change: Change::Drop,
    })
}

/// What the write makes of what is kept of a board.
pub(crate) fn apply(
    alloc: Global,
    found: &mut Option<Board>,
    name: &Text,
    write: &Write,
) -> Result<(), AllocError>
    requires { are_rising (ids_of (elements_in found.old)) ≡ true }
    ensures { OnOk result ((boards : Boards)
        → IsBoard (boards.head name.now) (boards.element name.now) found.old
        → IsBoard ((written boards write.now).head name.now)
        ((written boards write.now).element name.now) found.new) }
{
    if write.board != *name {
        return Ok(());
    }
    apply_change(alloc, found, &write.change)
}

/// What the change makes of a board.
fn apply_change(alloc: Global, found: &mut Option<Board>, change: &Change) -> Result<(), AllocError>
    requires { are_rising (ids_of (elements_in found.old)) ≡ true }
    ensures { OnOk result ((head : Option (Items ℕ)) (element : Items ℕ → Option ElementValue)
        → IsBoard head element found.old
        → IsBoard (changed_head change.now head)
        (λ id. changed_element change.now id (element id)) found.new) }
{
    match change {
        Change::Put(e) => {
            let (head, mut elements) = parts(alloc, found.take());
            put_element(&mut elements, e.try_clone()?)?;
            *found = Some(Board {
                head,
                elements: List::from_vec(elements),
            });
        }
        Change::Head(head) => {
            let (_, elements) = parts(alloc, found.take());
            *found = Some(Board {
                head: head.try_clone()?,
                elements: List::from_vec(elements),
            });
        }
        Change::Drop => *found = None,
    }
    Ok(())
}

/// The head and the elements of a board, or none of both.
fn parts(alloc: Global, found: Option<Board>) -> (Bytes, Vec<Element>)
    ensures { AreParts found result.0 result.1.items }
{
    match found {
        Some(Board { head, elements }) => (head, elements.into_vec()),
        None => (Bytes::from_vec(Vec::new(alloc)), Vec::new(alloc)),
    }
}
