//! Putting items in order within their own list.

ghost use Rattle.std.specs.Prelude.{◌≡◌, ◌<◌, ◌≢◌, length, filter_map, slice_get, vec_len, All, AllPairs, IfOk};
ghost use Rattle.elem_store.specs.inner.Arranging.{AreWanted};

use std::alloc::{AllocError, Global};

/// The items at these places, in the order of the places; the others are dropped. No place comes
/// twice. The items are moved within their own list.
pub(crate) fn arranged<T: Drop>(
    alloc: Global,
    mut items: Vec<T>,
    mut places: Vec<usize>,
) -> Result<Vec<T>, AllocError>
    requires within { All (λ place. place < length items.items) places.items }
    requires distinct { AllPairs (λ a b. a ≢ b) places.items }
    ensures { IfOk result (λ arranged. arranged.items
        ≡ filter_map (slice_get items.items) places.items) }
{
    let mut wanted_by = wanted_by(alloc, items.len(), &places)?;
    for i in 0..places.len() {
        // The item that is wanted at `i` comes there, and the one that stood there takes its place.
        let place = places[i];
        let other = wanted_by[i];
        items.swap(i, place);
        // Who wants that one finds it there.
        wanted_by[place] = other;
        if other < places.len() {
            places[other] = place;
        }
    }
    items.truncate(places.len());
    Ok(items)
}

/// Who wants what stands at each of so many places: its index among the wanted places, or their
/// number where nobody does.
fn wanted_by(alloc: Global, count: usize, places: &Vec<usize>) -> Result<Vec<usize>, AllocError>
    requires within { All (λ place. place < count) places.now.items }
    requires distinct { AllPairs (λ a b. a ≢ b) places.now.items }
    ensures wanted { IfOk result (λ wanted_by. AreWanted places.now.items wanted_by.items 0) }
    ensures count { IfOk result (λ wanted_by. vec_len wanted_by ≡ count) }
{
    let mut wanted_by = vec![in alloc; places.len(); count]?;
    for (i, place) in places.iter().enumerate() {
        wanted_by[*place] = i;
    }
    Ok(wanted_by)
}
