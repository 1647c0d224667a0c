//! Which of two items is better.

ghost use Rattle.std.specs.Prelude.{◌≡◌, ◌≢◌, IfOk, IsOk};
ghost use Rattle.library.specs.Best as best;

use crate::item::Item;
use crate::printing::push_item;
use board_base::bytes_order;
use std::alloc::{AllocError, Global};

/// Whether an item is better than another one of its id: it was made later, or at the same time and
/// its text is less in the order of the bytes. It takes memory only where both were made at the
/// same time.
pub(crate) fn is_better(alloc: Global, a: &Item, b: &Item) -> Result<bool, AllocError>
    ensures better { IfOk result (λ better. better ≡ best.is_better a.now b.now) }
    ensures sure { a.now.created ≢ b.now.created → IsOk result }
{
    if a.created != b.created {
        return Ok(a.created > b.created);
    }
    text_less(alloc, a, b)
}

/// Whether an item's text is less than another one's, in the order of the bytes.
#[tactic(auto, unfolding(crate::specs::Best::text_less))]
fn text_less(alloc: Global, a: &Item, b: &Item) -> Result<bool, AllocError>
    ensures { IfOk result (λ less. less ≡ best.text_less a.now b.now) }
{
    let mut first = Vec::new(alloc);
    push_item(&mut first, a)?;
    let mut second = Vec::new(alloc);
    push_item(&mut second, b)?;
    Ok(bytes_order(first.as_slice(), second.as_slice()).is_lt())
}
