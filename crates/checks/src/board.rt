//! The lines on the board of scenes.

ghost use Rattle.std.specs.Prelude.{◌≡◌, ◌++◌, IfOk, OnOk, codes};
ghost use Rattle.std.specs.BTreeMap.{get};
ghost use Rattle.std.specs.Cmp.Lexicographic.{slice_cmp};
ghost use Rattle.std.specs.Ordering.{nat_cmp};
ghost use Rattle.json_text.specs.Members.{pairs};
ghost use Rattle.elem.specs.Said.{AreElements};
ghost use Rattle.elem_store.specs.Updates.{AreStored};
ghost use Rattle.checks.specs.Checks.{IsBoardTold};
ghost use Rattle.checks.specs.Lines.{board_lines, order_line, text_line};

use crate::changes::push_changes;
use crate::files::push_files;
use crate::gathered::{Gathered, gather};
use crate::judged::{Judged, Spot};
use crate::kept::{Kept, kept_of, push_beaten, stand_in_order};
use board_base::{Bytes, List};
use elem::{Element, copies_of};
use elem_store::Store;
use json_text::Member;
use scene_json::push_whole;
use std::alloc::{AllocError, Global};
use view::shown_elements;

/// The lines on the board of these scenes.
pub(crate) fn board_told(alloc: Global, texts: List<Judged>) -> Result<Bytes, AllocError>
    ensures { IfOk result (IsBoardTold texts) }
{
    let count = texts.as_slice().len();
    let Gathered {
        head,
        updates,
        spots,
    } = gather(alloc, texts)?;
    let store = store_of(alloc, &updates)?;
    elem_store::laws::stored_were_given();
    view::laws::shown_elements_are_elements();
    let board = Board {
        texts: count,
        kept: kept_of(alloc, &store, updates.as_slice())?,
        shown: shown_elements(alloc, &store)?,
        files: head.files.by_id()?,
    };
    let mut out = Vec::new(alloc);
    push_board(
        alloc,
        &mut out,
        &board,
        updates.as_slice(),
        spots.as_slice(),
    )?;
    Ok(Bytes::from_vec(out))
}

/// What a board keeps of the elements of so many scenes, what it shows, and its files.
#[derive(Drop)]
struct Board {
    texts: usize,
    kept: Kept,
    shown: List<Element>,
    files: List<Member>,
}

/// The store of these elements.
fn store_of(alloc: Global, updates: &Vec<Element>) -> Result<Store, AllocError>
    ensures stored { IfOk result (λ store. AreStored updates.now.items store.elements) }
    ensures elements { OnOk result (AreElements updates.now.items) }
{
    let copies = copies_of(alloc, updates.as_slice())?;
    let store = Store::from_updates(alloc, copies)?;
    Ok(store)
}

/// Appends the lines on a board of these elements, which stand at these spots.
fn push_board(
    alloc: Global,
    out: &mut Vec<u8>,
    board: &Board,
    updates: &[Element],
    spots: &[Spot],
) -> Result<(), AllocError>
    requires { AreElements board.now.shown }
    ensures { OnOk result (out.new.items ≡ out.old.items
        ++ board_lines (get (slice_cmp nat_cmp) board.now.kept) board.now.texts updates.now
        spots.now board.now.shown (pairs board.now.files)) }
{
    push_beaten(out, &board.kept, updates, spots)?;
    push_changes(alloc, out, &board.kept, spots, board.shown.as_slice())?;
    push_order(out, board)?;
    push_files(alloc, out, board.shown.as_slice(), &board.files)
}

/// Appends the line on the order of the elements, if there is one.
fn push_order(out: &mut Vec<u8>, board: &Board) -> Result<(), AllocError>
    ensures { OnOk result (out.new.items ≡ out.old.items
        ++ order_line (get (slice_cmp nat_cmp) board.now.kept) board.now.texts board.now.shown) }
{
    if board.texts == 1 && !stand_in_order(&board.kept, board.shown.as_slice()) {
        return push_order_line(out);
    }
    Ok(())
}

/// Appends the line on the order of the elements of the one text.
fn push_order_line(out: &mut Vec<u8>) -> Result<(), AllocError>
    ensures { OnOk result (out.new.items ≡ out.old.items ++ text_line 1 (codes "order")) }
{
    out.extend_from_slice(b"text ")?;
    push_whole(out, 1)?;
    out.extend_from_slice(b": order\n")
}
