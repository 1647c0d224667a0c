//! Elements as they came, and their places in the order of their ids.

ghost use Rattle.std.specs.Prelude.{◌≡◌, ◌+◌, ◌<◌, ◌≤◌, ◌≢◌, [], ◌∷◌, ◌++◌, length, insert, slice_index, slice_index_or, slice_set, if◌then◌else◌, filter_map, slice_get, vec_len, AllPairs, IfOk, IfErr, OnOk, IsOk};
ghost use Rattle.elem.specs.Order as order;
ghost use Rattle.board_base.specs.Fronts.{front_of};
ghost use Rattle.elem_store.specs.inner.Indexed.{woven, AreAside, AreGaps};
ghost use Rattle.elem_store.specs.Places.{elements_at, AreInOrder, IsAt, IsGapFor};
ghost use Rattle.elem_store.specs.inner.Places.{IsBetween};

use crate::arranging::arranged;
use crate::indexed::{Late, Places};
use crate::shelf::Shelf;
use board_base::{Front, front_of};
use elem::{Element, beats};
use json_text::Text;
use std::alloc::{AllocError, Global};
use std::cmp::Ordering;

/// The settled places from one index of them to another, with so many late ones before each.
struct Stretch {
    late: usize,
    from: usize,
    to: usize,
}

/// The index of the place at which the element of this id is, or the index that its place would
/// have.
pub(crate) fn find_place(elements: &Shelf, places: &Places, id: &Text) -> Result<usize, usize>
    requires { AreInOrder elements.now.items places.now.places }
    ensures found { IfOk result (IsAt (elements_at elements.now.items places.now.places) id.now) }
    ensures absent { IfErr result (IsGapFor (elements_at elements.now.items places.now.places)
        id.now) }
{
    let (settled, late) = places.parts();
    find_among(elements, settled, late, id, front_of(id.as_bytes()))
}

/// The same, among the settled places with the late ones, by the id and its front. The late ones
/// are searched first, and then the settled ones between two of them alone.
fn find_among(
    elements: &Shelf,
    settled: &Vec<usize>,
    late: &Vec<Late>,
    id: &Text,
    front: Front,
) -> Result<usize, usize>
    requires gaps { AreGaps (vec_len settled.now) late.now.items }
    requires in_order { AreInOrder elements.now.items (woven settled.now.items late.now.items) }
    requires front { front ≡ front_of id.now }
    ensures found { IfOk result
        (IsAt (elements_at elements.now.items (woven settled.now.items late.now.items)) id.now) }
    ensures absent { IfErr result
        (IsGapFor (elements_at elements.now.items (woven settled.now.items late.now.items))
        id.now) }
{
    let (before, from, to) = match find_late(elements, settled, late, id, front) {
        Ok(i) => return Ok(i),
        Err(Stretch { late, from, to }) => (late, from, to),
    };
    let mut low = from;
    let mut high = to;
    while low < high {
        let middle = low + (high - low) / 2;
        match elements.order_at(settled[middle], id, front) {
            Ordering::Less => low = middle + 1,
            Ordering::Equal => return Ok(middle + before),
            Ordering::Greater => high = middle,
        }
    }
    Err(low + before)
}

/// The index of the late place at which the element of this id is, or the stretch of settled
/// places that its place would be among.
fn find_late(
    elements: &Shelf,
    settled: &Vec<usize>,
    late: &Vec<Late>,
    id: &Text,
    front: Front,
) -> Result<usize, Stretch>
    requires gaps { AreGaps (vec_len settled.now) late.now.items }
    requires in_order { AreInOrder elements.now.items (woven settled.now.items late.now.items) }
    requires front { front ≡ front_of id.now }
    ensures found { IfOk result
        (IsAt (elements_at elements.now.items (woven settled.now.items late.now.items)) id.now) }
    ensures between { IfErr result (λ s. IsBetween elements.now.items
        (woven settled.now.items late.now.items) id.now (s.from + s.late) (s.to + s.late)) }
    ensures aside { IfErr result (λ s. AreAside late.now.items s.late s.late (s.from + s.late)
        (s.to + s.late)) }
    ensures within { IfErr result (λ s. s.to ≤ vec_len settled.now) }
{
    let mut from = 0;
    let mut to = settled.len();
    let mut first = 0;
    let mut last = late.len();
    while first < last {
        let middle = first + (last - first) / 2;
        let Late { gap, place } = late[middle];
        match elements.order_at(place, id, front) {
            Ordering::Less => {
                from = gap;
                first = middle + 1;
            }
            Ordering::Equal => return Ok(gap + middle),
            Ordering::Greater => {
                to = gap;
                last = middle;
            }
        }
    }
    Err(Stretch {
        late: first,
        from,
        to,
    })
}

/// Puts the element at this place if it beats the one there, and tells whether it does.
pub(crate) fn replace_beaten(elements: &mut Shelf, place: usize, e: Element) -> bool
    requires { place < length elements.old.items }
    ensures beaten { result ≡ order.beats e (slice_index_or elements.old.items place e) }
    ensures items { elements.new.items
        ≡ (if result then slice_set elements.old.items place e else elements.old.items) }
    ensures room { elements.new.room ≡ elements.old.room }
{
    let old = elements.get(place).unwrap();
    let beaten = beats(&e, old);
    if beaten {
        elements.set(place, e);
    }
    beaten
}

/// Adds the element, its place at this index, or hands it back for want of memory; nothing is
/// then changed.
pub(crate) fn add(
    elements: &mut Shelf,
    places: &mut Places,
    i: usize,
    e: Element,
) -> Result<(), (Element, AllocError)>
    requires { i ≤ length places.old.places }
    ensures elements { OnOk result (elements.new.items ≡ elements.old.items ++ e ∷ []) }
    ensures places { OnOk result (places.new.places
        ≡ insert places.old.places i (length elements.old.items)) }
    ensures err { IfErr result (λ back. (elements.new.items ≡ elements.old.items)
        × (places.new.places ≡ places.old.places) × (back.0 ≡ e)) }
    ensures room { length elements.old.items < elements.old.room → 0 < places.old.spare
        → IsOk result }
    ensures kept { (elements.old.room ≤ elements.new.room)
        × (places.old.spare ≤ places.new.spare + 1) }
{
    if let Err(error) = places.reserve(1) {
        return Err((e, error));
    }
    let place = elements.len();
    elements.push(e)?;
    match places.insert(i, place) {
        Ok(()) => Ok(()),
        Err(_) => unreachable!(),
    }
}

/// The elements at the places of these indices, in the order of the indices, moved out. No index
/// comes twice.
pub(crate) fn moved_out(
    alloc: Global,
    elements: Shelf,
    places: &Places,
    indices: &[usize],
) -> Result<Vec<Element>, AllocError>
    requires in_order { AreInOrder elements.items places.now.places }
    requires distinct { AllPairs (λ i j. i ≢ j) indices.now }
    ensures { IfOk result (λ moved. moved.items ≡ filter_map
        (slice_get (elements_at elements.items places.now.places)) indices.now) }
{
    let wanted = places_of(alloc, places, indices)?;
    arranged(alloc, elements.into_vec(), wanted)
}

/// The places at these indices, in the order of the indices; an index past the places has none.
fn places_of(alloc: Global, places: &Places, indices: &[usize]) -> Result<Vec<usize>, AllocError>
    ensures { IfOk result (λ wanted. wanted.items
        ≡ filter_map (slice_get places.now.places) indices.now) }
{
    let mut wanted = Vec::with_capacity(alloc, indices.len())?;
    for i in indices {
        if let Some(place) = places.get(*i) {
            wanted.push(place)?;
        }
    }
    Ok(wanted)
}
