//! Places of elements in the order of their ids.

ghost use Rattle.std.specs.Prelude.{◌≡◌, IfOk, IfSome};
ghost use Rattle.std.specs.List.{range_with_len};
ghost use Rattle.elem_store.specs.Places.{AreInOrder};

use crate::shelf::Shelf;
use std::alloc::{AllocError, Global};

/// The places of all elements in the order of the ids, or nothing where an id comes twice. The
/// fronts of the ids are sorted first: they stand together in memory, and mostly leave nothing to
/// do but to see that all are in order.
pub(crate) fn places_by_id(
    alloc: Global,
    elements: &Shelf,
) -> Result<Option<Vec<usize>>, AllocError>
    ensures { IfOk result (λ found. IfSome found (λ places. AreInOrder elements.now.items
        places.items)) }
{
    let mut places = all_places(alloc, elements.len())?;
    places.sort_by_cached_key(|place| elements.front_number(*place))?;
    places.sort_by(|place, other| elements.order_between(*place, *other))?;
    if places.is_sorted_by(|place, next| elements.order_between(*place, *next).is_lt()) {
        return Ok(Some(places));
    }
    Ok(None)
}

/// All places of so many elements, as they stand.
fn all_places(alloc: Global, count: usize) -> Result<Vec<usize>, AllocError>
    ensures { IfOk result (λ places. places.items ≡ range_with_len 0 count) }
{
    (0..count).collect(alloc)
}
