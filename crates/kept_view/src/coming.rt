//! An element that comes to a view or goes: the runs of keys around its place are repaired, what is
//! near it is shown anew, and nothing else that is shown changes.

ghost use Rattle.std.specs.Prelude.{◌≡◌, ◌+◌, ◌<◌, ◌≤◌, [], ◌∷◌, Ok, Some, true, insert, length, IfOk, IfSome, IsTrue, OnOk};
ghost use Rattle.frac_keys.specs.Rising.{are_rising};
ghost use Rattle.elem.specs.Order as order;
ghost use Rattle.elem_store.specs.Updates as updates;
ghost use Rattle.elem_store.specs.Updates.{ids_of};
ghost use Rattle.index_repair.specs.Keyed.{with_index};
ghost use Rattle.view.specs.Shown.{is_live};
ghost use Rattle.kept_view.specs.inner.Coming.{all_stored, rekeyed, AreAround, ArePutBeside, HasGone, IsComing, IsGoing, IsPlaceFor};
ghost use Rattle.kept_view.specs.inner.Replacing.{HaveReplaced};

use crate::ids::Ids;
use crate::kept::{Kept, joined};
use crate::order::scene_order;
use crate::places::{Put, order_of, place_of, place_shown, put_all, replace};
use crate::reach::{Board, add_all_namers, is_much, reached, started_by, surrounded};
use crate::replacing::{puts_near, settled_after, with_index};
use crate::runs::{Rekeying, keys_with, keys_without, stored_of};
use crate::sharing::shared_as;
use crate::unsettled::{note_all, settle_all, touched};
use board_base::List;
use elem::{Element, SharedElement};
use frac_keys::Key;
use json_text::Text;
use links::rows_of;
use std::alloc::{AllocError, Global};

/// What is shown anew where an element comes: itself, and what is near it, at the places where it
/// is shown.
#[derive(Drop)]
struct Coming {
    own: SharedElement,
    puts: Vec<Put>,
}

/// The ids of what is near an element, and of what surrounds that.
#[derive(Drop)]
struct Around {
    near: Ids,
    wide: Ids,
}

impl Kept {
    /// With an element whose id no one has, if its place is found and not much is near it.
    /// Otherwise, and for want of memory, what is kept is given up.
    pub(crate) fn come(self, e: &SharedElement) -> Result<Option<Kept>, AllocError>
        requires { is_live e.now ≡ true }
        ensures { IfOk result (λ found. IfSome found (HaveReplaced self (e.now ∷ []))) }
    {
        let alloc = self.allocator();
        let (mut live, mut shown, mut table, mut unsettled) = self.into_parts();
        let Err(at) = place_of(&live, e.id()) else {
            return Ok(None);
        };
        let Some(place) = place_for(&live, &shown, e.get()) else {
            return Ok(None);
        };
        let index = &e.get().index;
        let Some(rekeying) = keys_with(alloc, &live, &shown, place, index)? else {
            return Ok(None);
        };
        let board = Board {
            live: &live,
            table: &table,
        };
        let Some(coming) = draw_coming(alloc, board, &shown, e)? else {
            return Ok(None);
        };
        let Coming { own, puts } = coming;
        let ids = touched(alloc, &shown, &puts, e.id(), &rekeying)?;
        let rows = rows_of(alloc, e.get())?;
        note_all(&mut unsettled, &ids)?;
        put_all(&mut shown, puts);
        insert(&mut shown, place, own)?;
        set_keys(alloc, &mut shown, rekeying)?;
        insert(&mut live, at, e.try_clone()?)?;
        table.reserve(rows.as_slice().len())?;
        table.replace(&List::new(alloc), rows);
        settle_all(&mut unsettled, &live, &shown, &ids);
        Ok(Some(joined(live, shown, table, unsettled)))
    }

    /// Without the element of an id, if its place is found and not much is near it. Otherwise, and
    /// for want of memory, what is kept is given up.
    pub(crate) fn go(self, id: &Text) -> Result<Option<Kept>, AllocError>
        ensures { IfOk result (λ found. IfSome found (HasGone self id.now)) }
    {
        let alloc = self.allocator();
        let (mut live, mut shown, mut table, mut unsettled) = self.into_parts();
        let Ok(at) = place_of(&live, id) else {
            return Ok(Some(joined(live, shown, table, unsettled)));
        };
        let e = live[at].try_clone()?;
        let Some(place) = place_shown(&live, &shown, e.get()) else {
            return Ok(None);
        };
        let Some(rekeying) = keys_without(alloc, &live, &shown, place)? else {
            return Ok(None);
        };
        let board = Board {
            live: &live,
            table: &table,
        };
        let Some(puts) = draw_going(alloc, board, &shown, &e)? else {
            return Ok(None);
        };
        let rows = rows_of(alloc, e.get())?;
        let ids = touched(alloc, &shown, &puts, id, &rekeying)?;
        note_all(&mut unsettled, &ids)?;
        put_all(&mut shown, puts);
        shown.remove(place);
        set_keys(alloc, &mut shown, rekeying)?;
        live.remove(at);
        table.replace(&rows, List::new(alloc));
        settle_all(&mut unsettled, &live, &shown, &ids);
        Ok(Some(joined(live, shown, table, unsettled)))
    }
}

/// The place among shown elements at which an element comes, if it is found.
fn place_for(live: &Vec<SharedElement>, shown: &Vec<SharedElement>, e: &Element) -> Option<usize>
    requires { are_rising (ids_of live.now.items) ≡ true }
    ensures { IfSome result (IsPlaceFor (all_stored live.now.items shown.now.items) e.now) }
{
    let Err(place) = shown.binary_search_by(|s| order_of(live, s, e)) else {
        return None;
    };
    comes_at(live, shown, place, e).then_some(place)
}

/// Whether an element comes behind what stands before a place, and before what stands there.
fn comes_at(
    live: &Vec<SharedElement>,
    shown: &Vec<SharedElement>,
    place: usize,
    e: &Element,
) -> bool
    requires ordered { are_rising (ids_of live.now.items) ≡ true }
    requires within { place ≤ length shown.now.items }
    ensures { IsTrue result
        → IsPlaceFor (all_stored live.now.items shown.now.items) e.now place }
{
    let behind = place == 0 || scene_order(stored_of(&*live, shown[place - 1].get()), e).is_lt();
    behind && (place == shown.len() || scene_order(e, stored_of(live, shown[place].get())).is_lt())
}

/// What is shown anew where an element comes, if all of it is found and it isn't much.
fn draw_coming(
    alloc: Global,
    board: Board<'_>,
    shown: &Vec<SharedElement>,
    e: &SharedElement,
) -> Result<Option<Coming>, AllocError>
    ensures { IfOk result (λ found. IfSome found
        (λ c. IsComing board.entry.live.now.items shown.now.items e.now c.own c.puts.items)) }
{
    let Some(around) = find_around(alloc, board, e)? else {
        return Ok(None);
    };
    let news = alone(alloc, e)?;
    let part = settled_after(alloc, board.live, &news, &around.wide)?;
    let Some(own) = element_in(&part, e.id())? else {
        return Ok(None);
    };
    let own = shared_as(alloc, e, own)?;
    match puts_beside(alloc, board.live, shown, part, &around.near, e.id())? {
        Some(puts) => Ok(Some(Coming { own, puts })),
        None => Ok(None),
    }
}

/// What is shown anew where an element goes, if all of it is found and it isn't much.
fn draw_going(
    alloc: Global,
    board: Board<'_>,
    shown: &Vec<SharedElement>,
    e: &SharedElement,
) -> Result<Option<Vec<Put>>, AllocError>
    ensures { IfOk result
        (λ found. IfSome found
        (λ puts. IsGoing board.entry.live.now.items shown.now.items e.now puts.items)) }
{
    let Some(around) = find_around(alloc, board, e)? else {
        return Ok(None);
    };
    let others = around.wide.without(alloc, e.id())?;
    let part = settled_after(alloc, board.live, &Vec::new(alloc), &others)?;
    puts_beside(alloc, board.live, shown, part, &around.near, e.id())
}

/// What is near an element and all that name it, and what surrounds that, unless it is much.
fn find_around(
    alloc: Global,
    board: Board<'_>,
    e: &SharedElement,
) -> Result<Option<Around>, AllocError>
    ensures { IfOk result (λ found. IfSome found
        (λ a. AreAround board.entry.live.now.items e.now a.near.list.items a.wide.list.items)) }
{
    let news = alone(alloc, e)?;
    let mut start = started_by(alloc, &news)?;
    add_all_namers(&mut start, e.id(), board)?;
    let near = reached(alloc, &start, board)?;
    if is_much(&near, board) {
        return Ok(None);
    }
    let wide = surrounded(alloc, &near, &news, board)?;
    Ok(Some(Around { near, wide }))
}

/// A list of one element.
pub(crate) fn alone(alloc: Global, e: &SharedElement) -> Result<Vec<SharedElement>, AllocError>
    ensures { IfOk result (λ list. list.items ≡ e.now ∷ []) }
{
    let mut list = Vec::new(alloc);
    list.push(e.try_clone()?)?;
    Ok(list)
}

/// The element of an id, copied.
fn element_in(elements: &List<Element>, id: &Text) -> Result<Option<Element>, AllocError>
    ensures { IfOk result (λ found. found ≡ updates.element_of elements.now id.now) }
{
    for e in elements.as_slice() {
        if has_id(id, e) {
            return Ok(Some(e.try_clone()?));
        }
    }
    Ok(None)
}

/// Whether an element is of an id.
fn has_id(id: &Text, e: &Element) -> bool
    ensures { result ≡ order.has_id id.now e.now }
{
    *id == e.id
}

/// Those of the elements that are near, but for that of one id, at the places where they are shown,
/// if they are found.
fn puts_beside(
    alloc: Global,
    live: &Vec<SharedElement>,
    shown: &Vec<SharedElement>,
    part: List<Element>,
    near: &Ids,
    id: &Text,
) -> Result<Option<Vec<Put>>, AllocError>
    ensures { IfOk result
        (λ found. IfSome found
        (λ puts. ArePutBeside shown.now.items part near.now.list.items id.now puts.items)) }
{
    let others = near.without(alloc, id)?;
    puts_near(alloc, live, shown, part, &others)
}

/// Inserts an element at a place.
fn insert(
    elements: &mut Vec<SharedElement>,
    place: usize,
    e: SharedElement,
) -> Result<(), AllocError>
    requires { place ≤ length elements.old.items }
    ensures { OnOk result (elements.new.items ≡ insert elements.old.items place e) }
{
    Ok(elements.insert(place, e)?)
}

/// Sets the keys of elements from a place on.
#[tactic(auto, using(crate::proofs::RekeyedLaws::rekeyed_none))]
fn set_keys(
    alloc: Global,
    elements: &mut Vec<SharedElement>,
    rekeying: Rekeying,
) -> Result<(), AllocError>
    requires { rekeying.start + length rekeying.keys ≤ length elements.old.items }
    ensures { OnOk result
        (elements.new.items ≡ rekeyed rekeying.start rekeying.keys elements.old.items) }
{
    let mut at = rekeying.start;
    for key in rekeying.keys.into_vec() {
        set_key(alloc, elements, at, key)?;
        at += 1;
    }
    Ok(())
}

/// Sets the key of the element at a place.
fn set_key(
    alloc: Global,
    elements: &mut Vec<SharedElement>,
    at: usize,
    key: Key,
) -> Result<(), AllocError>
    requires { at < length elements.old.items }
    ensures { OnOk result (elements.new.items ≡ rekeyed at (key ∷ []) elements.old.items) }
{
    let keyed = keyed(alloc, &elements[at], key)?;
    replace(elements, at, keyed);
    Ok(())
}

/// The element with this key: itself where it has it.
fn keyed(alloc: Global, e: &SharedElement, key: Key) -> Result<SharedElement, AllocError>
    ensures { IfOk result (λ new. new ≡ with_index e.now key) }
{
    let new = with_index(e.get().try_clone()?, Some(key));
    shared_as(alloc, e, new)
}
