//! The view of a board.

ghost use Rattle.std.specs.Prelude.{◌≡◌, ◌≢◌, List as Items, true, length, filter, filter_map, map, slice_get, Some, All, AllPairs, IfOk, IfSome, IsPermutation, bytes_eq, IsTrue, option_copied};
ghost use Rattle.frac_keys.specs.Rising.{are_rising};
ghost use Rattle.index_repair.specs.Repair.{repaired};
ghost use Rattle.elem.specs.ElementValue.{ElementValue};
ghost use Rattle.elem_store.specs.Updates.{element_of, ids_of};
ghost use Rattle.view.specs.Settled.{settled, AreSettled};
ghost use Rattle.elem.specs.Order.{HaveDistinctIds};
ghost use Rattle.view.specs.inner.Spots.{elements_of, indices_of, AreSpotsIn};
ghost use Rattle.index_repair.specs.Keyed.{index_of, keyed, HaveKeysOrNone, HaveRisingKeys};
ghost use Rattle.view.specs.Shown.{as_stored, in_scene_order, is_live, live_elements, shown, IsSceneOrder, bare};

use crate::order::{SortedSpot, are_in_order, sort};
use board_base::List;
use elem::{Element, same};
use elem_store::Store;
use frames_groups::{settle_frames, settle_groups};
use index_repair::with_repaired_keys;
use json_text::Text;
use links::{settle_arrows, settle_texts};
use std::alloc::{AllocError, Global};
use std::marker::Model;

/// What a board shows. Contracts see the live elements that it was made of, as stored, in the
/// order of their ids.
///
/// Only the elements that aren't shown as they are stored are held twice.
pub struct View {
    /// The elements that are shown.
    shown: List<Element>,

    /// The stored elements of those that are shown otherwise than they are stored.
    originals: List<Element>,
}

// By hand, so that whoever drops a view sees one call and not what it holds.
impl Drop for View {
    fn drop(self) {
        let View {
            shown: _shown,
            originals: _originals,
        } = self;
    }
}

impl Model for View {
    ghost use Rattle.std.specs.Prelude.{List as Items};
    ghost use Rattle.elem.specs.ElementValue.{ElementValue};
    ghost use Rattle.view.specs.Shown.{all_as_stored, IsView};

    ghost Value = { Items ElementValue };

    ghost view = { λ v. all_as_stored v.originals v.shown };

    ghost invariant = { λ v. IsView (all_as_stored v.originals v.shown) v.shown };
}

/// The view of a store: of all its live elements. Fails only for want of memory.
pub fn view_of(alloc: Global, store: &Store) -> Result<View, AllocError>
    ensures { IfOk result (λ view. view ≡ live_elements store.now.elements) }
{
    let mut live = live_of(alloc, store)?;
    let shown = shown_of(alloc, &mut live)?;
    let originals = originals_of(alloc, store, &live, &shown)?;
    Ok(View { shown, originals })
}

impl View {
    /// What is shown: the live elements in scene order, with repaired keys, and with links,
    /// frames and groups that agree. It takes no memory.
    pub fn elements(&self) -> &[Element]
        ensures exact { result.now ≡ shown self.now }
        ensures keys { HaveRisingKeys result.now }
        ensures order { (ordered : Items ElementValue) × IsSceneOrder self.now ordered
            × (ids_of result.now ≡ ids_of ordered) }
        ensures ids { IsPermutation (ids_of self.now) (ids_of result.now) }
        ensures others { IsPermutation (map bare self.now) (map bare result.now) }
        ensures settled { AreSettled result.now }

        // The view of these elements, in any order, is this view.
        ensures again { (stored : Items ElementValue) → IsPermutation result.now stored
            → shown (live_elements stored) ≡ result.now }
    {
        self.shown.as_slice()
    }
}

/// What the view of a store shows, alone: what isn't shown as it is stored isn't held beside it.
/// Fails only for want of memory.
pub fn shown_elements(alloc: Global, store: &Store) -> Result<List<Element>, AllocError>
    ensures exact { IfOk result (λ elements. elements ≡ shown (live_elements store.now.elements)) }
    ensures keys { IfOk result HaveRisingKeys }
    ensures settled { IfOk result AreSettled }
{
    let mut live = live_of(alloc, store)?;
    let elements = shown_of(alloc, &mut live)?;
    Ok(elements)
}

/// The same of a store that is given up: the elements are moved out of it, and the others are
/// dropped. Fails only for want of memory.
pub fn into_shown(alloc: Global, store: Store) -> Result<List<Element>, AllocError>
    ensures exact { IfOk result (λ elements. elements ≡ shown (live_elements store.elements)) }
    ensures keys { IfOk result HaveRisingKeys }
    ensures settled { IfOk result AreSettled }
{
    let ordered = ordered_of(alloc, store)?;
    let elements = settled_of(alloc, ordered)?;
    Ok(elements)
}

/// The live elements of a store in scene order, moved out of it. Where they came in this order,
/// they are in their places.
fn ordered_of(alloc: Global, store: Store) -> Result<Vec<Element>, AllocError>
    ensures exact { IfOk result (λ ordered. ordered.items
        ≡ in_scene_order (live_elements store.elements)) }
    ensures live { IfOk result (λ _. HaveDistinctIds (live_elements store.elements)) }
{
    if are_in_order(store.given()) {
        return Ok(live_given(store));
    }
    let order = order_of(alloc, &store)?;
    store.into_elements_at(alloc, order.as_slice())
}

/// The live elements of a store in the order in which their ids came, moved out of it.
fn live_given(store: Store) -> Vec<Element>
    ensures { result.items ≡ filter is_live store.given }
{
    let mut elements = store.into_given();
    elements.retain(is_live);
    elements
}

/// Where the live elements of a store stand in it, in scene order.
fn order_of(alloc: Global, store: &Store) -> Result<Vec<usize>, AllocError>
    ensures exact { IfOk result (λ order. filter_map (slice_get store.now.elements) order.items
        ≡ in_scene_order (live_elements store.now.elements)) }
    ensures distinct { IfOk result (λ order. AllPairs (λ i j. i ≢ j) order.items) }
    ensures live { IfOk result (λ _. HaveDistinctIds (live_elements store.now.elements)) }
{
    let mut live = live_of(alloc, store)?;
    sort(&mut live)?;
    indices_of(alloc, &live)
}

/// Where the elements at the spots stand in their store.
fn indices_of(alloc: Global, spots: &Vec<SortedSpot<'_>>) -> Result<Vec<usize>, AllocError>
    ensures { IfOk result (λ indices. indices.items ≡ indices_of spots.now.items) }
{
    let mut indices = Vec::with_capacity(alloc, spots.len())?;
    for spot in spots {
        indices.push(spot.at)?;
    }
    Ok(indices)
}

/// The live elements of a store, in the order of their ids.
fn live_of(alloc: Global, store: &Store) -> Result<Vec<SortedSpot<'_>>, AllocError>
    ensures exact { IfOk result (λ live. elements_of live.items
        ≡ live_elements store.now.elements) }
    ensures stored { IfOk result (λ live. AreSpotsIn store.now.elements live.items) }
    ensures ordered { IfOk result (λ _. are_rising (ids_of store.now.elements) ≡ true) }
{
    let mut live = Vec::new(alloc);
    for i in 0..store.len() {
        if let Some(e) = store.at(i) {
            if is_live(e) {
                live.push(SortedSpot { at: i, element: e })?;
            }
        }
    }
    Ok(live)
}

/// Whether an element isn't deleted.
fn is_live(e: &Element) -> bool
    ensures { result ≡ is_live e.now }
{
    !e.deleted
}

/// What is shown of the live elements; the spots are then in scene order.
fn shown_of(alloc: Global, live: &mut Vec<SortedSpot<'_>>) -> Result<List<Element>, AllocError>
    requires { HaveDistinctIds (elements_of live.old.items) }
    ensures exact { IfOk result (λ new. new ≡ shown (elements_of live.old.items)) }
    ensures keys { IfOk result (λ _. HaveKeysOrNone (elements_of live.old.items)) }
{
    sort(live)?;
    let elements = copied(alloc, live)?;
    settled_of(alloc, elements)
}

/// What is shown of elements in scene order: they get repaired keys, and then texts, arrows,
/// frames and groups are settled.
#[tactic(auto, unfolding(crate::specs::Settled::settled))]
fn settled_of(alloc: Global, ordered: Vec<Element>) -> Result<List<Element>, AllocError>
    requires { HaveDistinctIds ordered.items }
    ensures exact { IfOk result (λ new. new
        ≡ settled (keyed ordered.items (repaired (map index_of ordered.items)))) }
    ensures keys { IfOk result (λ _. HaveKeysOrNone ordered.items) }
{
    let elements = keyed_of(alloc, ordered)?;
    let elements = settle_texts(alloc, elements)?;
    let elements = settle_arrows(alloc, elements)?;
    let elements = settle_frames(alloc, elements)?;
    settle_groups(alloc, elements)
}

/// The elements in their order, with repaired keys.
fn keyed_of(alloc: Global, elements: Vec<Element>) -> Result<List<Element>, AllocError>
    requires { HaveDistinctIds elements.items }
    ensures exact { IfOk result (λ new. new
        ≡ keyed elements.items (repaired (map index_of elements.items))) }
    ensures distinct { IfOk result HaveDistinctIds }
    ensures keys { IfOk result (λ _. HaveKeysOrNone elements.items) }
{
    Ok(List::from_vec(with_repaired_keys(alloc, elements)?))
}

/// The elements at the spots, copied.
fn copied(alloc: Global, spots: &Vec<SortedSpot<'_>>) -> Result<Vec<Element>, AllocError>
    ensures { IfOk result (λ new. new.items ≡ elements_of spots.now.items) }
{
    let mut elements = Vec::with_capacity(alloc, spots.len())?;
    for spot in spots {
        elements.push(spot.element.try_clone()?)?;
    }
    Ok(elements)
}

/// The stored elements of those that are shown otherwise than they are stored, copied. The spots
/// tell where each stands.
fn originals_of(
    alloc: Global,
    store: &Store,
    spots: &Vec<SortedSpot<'_>>,
    shown: &List<Element>,
) -> Result<List<Element>, AllocError>
    ensures { IfOk result
        (λ originals. All (λ e. IfSome (element_of store.now.elements e.id)
        (λ stored. as_stored originals e ≡ stored)) shown.now) }
{
    let mut originals = Vec::new(alloc);
    let mut spots = spots.iter();
    for e in shown.as_slice() {
        if let Some(stored) = stored_at(store, spots.next(), &e.id) {
            if !same(stored, e) {
                originals.push(stored.try_clone()?)?;
            }
        }
    }
    Ok(List::from_vec(originals))
}

/// The stored element of this id, which most often stands at the spot.
fn stored_at<'a>(store: &'a Store, spot: Option<&SortedSpot<'_>>, id: &Text) -> Option<&'a Element>
    ensures { option_copied result ≡ element_of store.now.elements id.now }
{
    if let Some(spot) = spot {
        if let Some(e) = store.at(spot.at) {
            if e.id == *id {
                return Some(e);
            }
        }
    }
    store.get(id)
}
