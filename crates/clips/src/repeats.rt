//! Ids that come again.

ghost use Rattle.std.specs.Prelude.{◌≡◌, IfOk};
ghost use Rattle.clips.specs.Placed as words;

use crate::placed::Placed;
use board_base::List;
use copies::see;
use std::alloc::{AllocError, Global};
use std::collections::BTreeSet;

/// The place of the first element that has the id of an earlier one, if one has.
pub fn first_repeat(alloc: Global, placed: &List<Placed>) -> Result<Option<u64>, AllocError>
    ensures { IfOk result (λ found. found ≡ words.first_repeat placed.now) }
{
    let mut seen = BTreeSet::new(alloc);
    for p in placed.as_slice() {
        if !see(&mut seen, &p.element)? {
            return Ok(Some(p.place));
        }
    }
    Ok(None)
}
