//! The ids of elements that may be shown otherwise than they are stored, or with another key: they
//! are noted before a change, and settled after it.

ghost use Rattle.std.specs.Prelude.{◌≡◌, List as Items, [], ◌+◌, ◌≤◌, ◌++◌, Some, true, length, take, drop, IfOk, IfSome, OnOk};
ghost use Rattle.std.specs.Ordering.{nat_cmp};
ghost use Rattle.std.specs.Cmp.Lexicographic.{slice_cmp};
ghost use Rattle.std.specs.BTreeSet.{contains};
ghost use Rattle.frac_keys.specs.Rising.{are_rising};
ghost use Rattle.elem.specs.ElementValue.{ElementValue};
ghost use Rattle.elem_store.specs.Updates as updates;
ghost use Rattle.elem_store.specs.Updates.{ids_of};
ghost use Rattle.view.specs.Shown.{IsView};
ghost use Rattle.kept_view.specs.inner.Unsettled.{put_ids, touched_ids, AreNoted, HaveNoted, IsWalked, StillHas, StillHave};

use crate::places::{Put, element_of, place_shown};
use crate::replacing::have_one_index;
use crate::runs::Rekeying;
use elem::{Element, SharedElement, same};
use json_text::Text;
use std::alloc::{AllocError, Global};
use std::collections::BTreeSet;

/// The ids of elements that may be shown otherwise than they are stored.
#[derive(Drop)]
pub(crate) struct Unsettled {
    /// Of those that may be shown otherwise in any way.
    pub(crate) ids: BTreeSet<Text>,

    /// Of those that may be shown with another key.
    pub(crate) rekeyed: BTreeSet<Text>,
}

impl Unsettled {
    /// Of no elements. It takes no memory.
    pub(crate) fn new(alloc: Global) -> Unsettled
        ensures ids { result.ids.keys ≡ [] }
        ensures rekeyed { result.rekeyed.keys ≡ [] }
    {
        Unsettled {
            ids: BTreeSet::new(alloc),
            rekeyed: BTreeSet::new(alloc),
        }
    }
}

/// The ids of those elements that are shown otherwise than they are stored.
pub(crate) fn unsettled_of(
    alloc: Global,
    live: &Vec<SharedElement>,
    shown: &Vec<SharedElement>,
) -> Result<Unsettled, AllocError>
    requires { IsView live.now.items shown.now.items }
    ensures { IfOk result (λ unsettled. AreNoted unsettled live.now.items shown.now.items) }
{
    let mut unsettled = Unsettled::new(alloc);
    for e in shown {
        walk(&mut unsettled, live, e.get())?;
    }
    Ok(unsettled)
}

/// Notes the id of a shown element, if it is shown otherwise than it is stored.
fn walk(unsettled: &mut Unsettled, live: &Vec<SharedElement>, e: &Element) -> Result<(), AllocError>
    requires { are_rising (ids_of live.now.items) ≡ true }
    ensures kept { StillHave unsettled.old unsettled.new }
    ensures walked { OnOk result (IsWalked live.now.items unsettled.new e.now) }
{
    match element_of(live, &e.id) {
        Some(stored) => note_differing(unsettled, stored, e),
        None => note(unsettled, &e.id),
    }
}

/// Notes the id of a shown element, if it is stored otherwise.
fn note_differing(
    unsettled: &mut Unsettled,
    stored: &Element,
    e: &Element,
) -> Result<(), AllocError>
    ensures kept { StillHave unsettled.old unsettled.new }
    ensures walked { OnOk result ((live : Items ElementValue)
        → updates.element_of live e.now.id ≡ Some stored.now
        → IsWalked live unsettled.new e.now) }
{
    if !have_one_index(stored, e) {
        return note(unsettled, &e.id);
    }
    if same(stored, e) {
        return Ok(());
    }
    add(&mut unsettled.ids, &e.id)
}

/// Notes ids. For want of memory some of them may be noted.
pub(crate) fn note_all(unsettled: &mut Unsettled, ids: &Vec<Text>) -> Result<(), AllocError>
    ensures kept { StillHave unsettled.old unsettled.new }
    ensures noted { OnOk result (HaveNoted ids.now.items unsettled.new) }
{
    for id in ids {
        note(unsettled, id)?;
    }
    Ok(())
}

/// Notes an id.
fn note(unsettled: &mut Unsettled, id: &Text) -> Result<(), AllocError>
    ensures kept { StillHave unsettled.old unsettled.new }
    ensures noted { OnOk result (contains (slice_cmp nat_cmp) unsettled.new.ids id.now ≡ true) }
    ensures keyed { OnOk result
        (contains (slice_cmp nat_cmp) unsettled.new.rekeyed id.now ≡ true) }
{
    add(&mut unsettled.ids, id)?;
    add(&mut unsettled.rekeyed, id)
}

/// Adds an id.
fn add(ids: &mut BTreeSet<Text>, id: &Text) -> Result<(), AllocError>
    ensures kept { StillHas ids.old ids.new }
    ensures there { OnOk result (contains (slice_cmp nat_cmp) ids.new id.now ≡ true) }
{
    ids.insert(id.try_clone()?)?;
    Ok(())
}

/// Takes out those of the ids whose elements are shown as they are stored, and of the rekeyed ones
/// those whose elements are shown with the stored key. It takes no memory.
pub(crate) fn settle_all(
    unsettled: &mut Unsettled,
    live: &Vec<SharedElement>,
    shown: &Vec<SharedElement>,
    ids: &Vec<Text>,
)
    requires { IsView live.now.items shown.now.items }
    ensures { AreNoted unsettled.old live.now.items shown.now.items
        → AreNoted unsettled.new live.now.items shown.now.items }
{
    for id in ids {
        settle(unsettled, live, shown, id);
    }
}

/// Takes out an id, as its element is shown, or if there is none.
fn settle(
    unsettled: &mut Unsettled,
    live: &Vec<SharedElement>,
    shown: &Vec<SharedElement>,
    id: &Text,
)
    requires { IsView live.now.items shown.now.items }
    ensures { AreNoted unsettled.old live.now.items shown.now.items
        → AreNoted unsettled.new live.now.items shown.now.items }
{
    match element_of(live, id) {
        Some(e) => settle_stored(unsettled, live, shown, e),
        None => forget(unsettled, id),
    }
}

/// Takes out the id of a stored element, as that is shown.
fn settle_stored(
    unsettled: &mut Unsettled,
    live: &Vec<SharedElement>,
    shown: &Vec<SharedElement>,
    e: &Element,
)
    requires view { IsView live.now.items shown.now.items }
    requires stored { updates.element_of live.now.items e.now.id ≡ Some e.now }
    ensures { AreNoted unsettled.old live.now.items shown.now.items
        → AreNoted unsettled.new live.now.items shown.now.items }
{
    if let Some(s) = shown_of(live, shown, e) {
        settle_shown(unsettled, s, e);
    }
}

/// What is shown of a stored element, if it is found.
fn shown_of<'a>(
    live: &Vec<SharedElement>,
    shown: &'a Vec<SharedElement>,
    e: &Element,
) -> Option<&'a Element>
    requires { IsView live.now.items shown.now.items }
    ensures { IfSome result (λ s. updates.element_of shown.now.items e.now.id ≡ Some s.now) }
{
    let at = place_shown(live, shown, e)?;
    Some(shown[at].get())
}

/// Takes out the id of an element that is shown so, if it is stored so, and of the rekeyed ones if
/// it has the stored key.
fn settle_shown(unsettled: &mut Unsettled, s: &Element, e: &Element)
    ensures { (live drawn : Items ElementValue)
        → updates.element_of live e.now.id ≡ Some e.now
        → updates.element_of drawn e.now.id ≡ Some s.now
        → AreNoted unsettled.old live drawn → AreNoted unsettled.new live drawn }
{
    if !have_one_index(s, e) {
        return;
    }
    unsettled.rekeyed.remove(&e.id);
    if same(s, e) {
        unsettled.ids.remove(&e.id);
    }
}

/// Takes out an id.
fn forget(unsettled: &mut Unsettled, id: &Text)
    ensures { (live drawn : Items ElementValue)
        → updates.element_of drawn id.now ≡ updates.element_of live id.now
        → AreNoted unsettled.old live drawn → AreNoted unsettled.new live drawn }
{
    unsettled.ids.remove(id);
    unsettled.rekeyed.remove(id);
}

/// The ids of what is shown anew where the element of an id comes or goes, copied.
pub(crate) fn touched(
    alloc: Global,
    shown: &Vec<SharedElement>,
    puts: &Vec<Put>,
    id: &Text,
    rekeying: &Rekeying,
) -> Result<Vec<Text>, AllocError>
    requires { rekeying.now.start ≤ length shown.now.items }
    ensures { IfOk result
        (λ ids. ids.items ≡ touched_ids
        shown.now.items puts.now.items id.now rekeying.now.start rekeying.now.keys) }
{
    let mut ids = ids_put(alloc, puts)?;
    ids.push(id.try_clone()?)?;
    let count = rekeying.keys.as_slice().len() + 1;
    add_ids(&mut ids, run_from(shown.as_slice(), rekeying.start, count))?;
    Ok(ids)
}

/// The ids of what is put, copied.
pub(crate) fn ids_put(alloc: Global, puts: &Vec<Put>) -> Result<Vec<Text>, AllocError>
    ensures { IfOk result (λ ids. ids.items ≡ put_ids puts.now.items) }
{
    let mut ids = Vec::with_capacity(alloc, puts.len())?;
    for put in puts {
        ids.push(put.e.id().try_clone()?)?;
    }
    Ok(ids)
}

/// Adds the ids of elements.
pub(crate) fn add_ids(ids: &mut Vec<Text>, elements: &[SharedElement]) -> Result<(), AllocError>
    ensures { OnOk result (ids.new.items ≡ ids.old.items ++ ids_of elements.now) }
{
    for e in elements {
        ids.push(e.id().try_clone()?)?;
    }
    Ok(())
}

/// So many elements from a place on, or those that are there.
fn run_from(elements: &[SharedElement], start: usize, count: usize) -> &[SharedElement]
    requires { start ≤ length elements.now }
    ensures { result.now ≡ take count (drop start elements.now) }
{
    let rest = &elements[start..];
    if count < rest.len() {
        &rest[..count]
    } else {
        rest
    }
}
