//! Elements in the order of their ids, one for each id.

ghost use Rattle.std.specs.Prelude.{◌≡◌, true, IfOk, IfErr, OnOk, OnErr};
ghost use Rattle.frac_keys.specs.Rising.{are_rising};
ghost use Rattle.elem_store.specs.Places.{IsAt, IsGapFor};
ghost use Rattle.elem_store.specs.Updates.{ids_of};
ghost use Rattle.board_tables.specs.Boards.{HasPut};

use board_base::bytes_order;
use elem::Element;
use json_text::Text;
use std::alloc::AllocError;
use std::cmp::Ordering;

/// Puts the element in the place of the one of its id, or between the others in the order of the
/// ids. If allocation fails, nothing changes.
pub(crate) fn put_element(elements: &mut Vec<Element>, e: Element) -> Result<(), AllocError>
    requires { are_rising (ids_of elements.old.items) ≡ true }
    ensures ok { OnOk result (HasPut elements.old.items e elements.new.items) }
    ensures err { OnErr result (elements.new.items ≡ elements.old.items) }
{
    match find_place(elements, &e.id) {
        Ok(i) => elements[i] = e,
        Err(i) => elements.insert(i, e)?,
    }
    Ok(())
}

/// The index of the element of this id, or the index that it would have. Searches from the end:
/// elements mostly come in the order of their ids.
fn find_place(elements: &Vec<Element>, id: &Text) -> Result<usize, usize>
    requires { are_rising (ids_of elements.now.items) ≡ true }
    ensures found { IfOk result (IsAt elements.now.items id.now) }
    ensures absent { IfErr result (IsGapFor elements.now.items id.now) }
{
    let mut i = elements.len();
    while i > 0 {
        let e = &elements[i - 1];
        match bytes_order(e.id.as_bytes(), id.as_bytes()) {
            Ordering::Less => return Err(i),
            Ordering::Equal => return Ok(i - 1),
            Ordering::Greater => i -= 1,
        }
    }
    Err(0)
}
