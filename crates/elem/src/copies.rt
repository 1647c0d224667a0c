//! Copies of elements.

ghost use Rattle.std.specs.Prelude.{◌≡◌, IfOk, OnOk};
ghost use Rattle.elem.specs.Said.{AreElements};

use crate::element::Element;
use crate::telling::tell;
use board_base::List;
use std::alloc::{AllocError, Global};

/// Copies of the elements. Fails only for want of memory.
pub fn copies_of(alloc: Global, elements: &[Element]) -> Result<List<Element>, AllocError>
    ensures exact { IfOk result (λ copies. copies ≡ elements.now) }
    ensures elements { OnOk result (AreElements elements.now) }
{
    let mut copies = Vec::with_capacity(alloc, elements.len())?;
    for e in elements {
        tell(e);
        copies.push(e.try_clone()?)?;
    }
    Ok(List::from_vec(copies))
}
