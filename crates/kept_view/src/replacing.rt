//! Elements that take the places of those of their ids, with the same indices: what is near them is
//! shown anew, and nothing else that is shown changes.

ghost use Rattle.std.specs.Prelude.{◌≡◌, Some, Ok, true, false, map, filter, filter_map, All, OnErr, IfOk, IfSome, IsTrue, option_copied};
ghost use Rattle.std.specs.List.{list_all};
ghost use Rattle.frac_keys.specs.Rising.{are_rising};
ghost use Rattle.elem.specs.ElementValue.{ElementValue};
ghost use Rattle.elem_store.specs.Updates as updates;
ghost use Rattle.elem_store.specs.Updates.{ids_of, is_among};
ghost use Rattle.view.specs.Settled.{settled};
ghost use Rattle.view.specs.Shown.{in_scene_order, is_live, without_index};
ghost use Rattle.kept_view.specs.inner.Putting.{puts_of, IsInPlace};
ghost use Rattle.kept_view.specs.inner.Replacing as replacing;
ghost use Rattle.kept_view.specs.inner.Replacing.{AreRepairs, AreRowsOfAll, HaveReplaced};

use crate::drawing::settled_of;
use crate::ids::Ids;
use crate::kept::Kept;
use crate::order;
use crate::places::{Put, element_of, place_of, place_shown, put_all, shared_of};
use crate::reach::{Board, add_namers, is_much, reached, started_by, surrounded};
use crate::sharing::shared_as;
use crate::unsettled::{add_ids, ids_put, note_all, settle_all};
use board_base::List;
use elem::{Element, SharedElement};
use frac_keys::Key;
use json_text::Text;
use links::{LinkRow, rows_of};
use std::alloc::{AllocError, Global};

impl Kept {
    /// Lets elements take the places of those of their ids, if each is held with the same index and
    /// not much is near them, and tells whether they do. For want of memory nothing changes.
    pub(crate) fn replace_all(&mut self, news: &Vec<SharedElement>) -> Result<bool, AllocError>
        requires ordered { are_rising (ids_of news.now.items) ≡ true }
        requires live { list_all is_live news.now.items ≡ true }
        ensures new { result ≡ Ok true → HaveReplaced self.old news.now.items self.new }
        ensures old { OnErr result (self.new ≡ self.old) }
        ensures other { result ≡ Ok false → self.new ≡ self.old }
    {
        let alloc = *self.live.allocator();
        let Some(held) = held_puts(alloc, &self.live, news)? else {
            return Ok(false);
        };
        let board = Board {
            live: &self.live,
            table: &self.table,
        };
        let Some(shown) = shown_puts(alloc, board, &self.shown, news)? else {
            return Ok(false);
        };
        let old_rows = rows_of_all(alloc, &held_of(alloc, &self.live, news)?)?;
        let rows = rows_of_all(alloc, news)?;
        self.table.reserve(rows.as_slice().len())?;
        let mut ids = ids_put(alloc, &shown)?;
        add_ids(&mut ids, news.as_slice())?;
        note_all(&mut self.unsettled, &ids)?;
        put_all(&mut self.live, held);
        put_all(&mut self.shown, shown);
        self.table.replace(&old_rows, rows);
        settle_all(&mut self.unsettled, &self.live, &self.shown, &ids);
        Ok(true)
    }
}

/// The new elements at the places of those of their ids, if each is there and has the same index.
fn held_puts(
    alloc: Global,
    live: &Vec<SharedElement>,
    news: &Vec<SharedElement>,
) -> Result<Option<Vec<Put>>, AllocError>
    ensures { IfOk result (λ found. IfSome found (λ puts. (puts_of puts.items ≡ news.now.items)
        × All (IsInPlace live.now.items) puts.items)) }
{
    let mut puts = Vec::with_capacity(alloc, news.len())?;
    for e in news {
        let Ok(at) = place_of(live, e.id()) else {
            return Ok(None);
        };
        if !have_one_index(live[at].get(), e.get()) {
            return Ok(None);
        }
        puts.push(Put {
            at,
            e: e.try_clone()?,
        })?;
    }
    Ok(Some(puts))
}

/// Whether two elements have the same index.
pub(crate) fn have_one_index(e: &Element, other: &Element) -> bool
    ensures { IsTrue result → e.now.index ≡ other.now.index }
{
    e.index == other.index
}

/// The held elements of the new ones' ids.
fn held_of(
    alloc: Global,
    live: &Vec<SharedElement>,
    news: &Vec<SharedElement>,
) -> Result<Vec<SharedElement>, AllocError>
    requires { are_rising (ids_of live.now.items) ≡ true }
    ensures { IfOk result
        (λ held. held.items ≡ filter_map
        (λ (e : ElementValue). updates.element_of live.now.items e.id) news.now.items) }
{
    let mut held = Vec::new(alloc);
    for new in news {
        if let Some(e) = shared_of(live, new.id()) {
            held.push(e.try_clone()?)?;
        }
    }
    Ok(held)
}

/// The rows of what elements name.
pub(crate) fn rows_of_all(
    alloc: Global,
    elements: &Vec<SharedElement>,
) -> Result<List<LinkRow>, AllocError>
    ensures { IfOk result (AreRowsOfAll elements.now.items) }
{
    let mut rows = Vec::new(alloc);
    for e in elements {
        let mut more = rows_of(alloc, e.get())?.into_vec();
        rows.append(&mut more)?;
    }
    Ok(List::from_vec(rows))
}

/// What is near the new elements, and near all that name one whose kind is new, at the places where
/// it is shown, if these are found and it isn't much.
fn shown_puts(
    alloc: Global,
    board: Board<'_>,
    shown: &Vec<SharedElement>,
    news: &Vec<SharedElement>,
) -> Result<Option<Vec<Put>>, AllocError>
    requires { are_rising (ids_of news.now.items) ≡ true }
    ensures { IfOk result
        (λ found. IfSome found
        (λ puts. AreRepairs board.entry.live.now.items shown.now.items news.now.items puts.items)) }
{
    let mut start = started_by(alloc, news)?;
    add_namers(&mut start, news, board)?;
    let near = reached(alloc, &start, board)?;
    if is_much(&near, board) {
        return Ok(None);
    }
    let wide = surrounded(alloc, &near, news, board)?;
    let part = settled_after(alloc, board.live, news, &wide)?;
    puts_near(alloc, board.live, shown, part, &near)
}

/// The elements of these ids after the new ones took their places, in scene order, settled.
pub(crate) fn settled_after(
    alloc: Global,
    live: &Vec<SharedElement>,
    news: &Vec<SharedElement>,
    ids: &Ids,
) -> Result<List<Element>, AllocError>
    requires live { are_rising (ids_of live.now.items) ≡ true }
    requires news { are_rising (ids_of news.now.items) ≡ true }
    ensures { IfOk result
        (λ part. part ≡ settled
        (in_scene_order
        (filter_map (replacing.element_after live.now.items news.now.items) ids.now.list.items))) }
{
    let mut elements = elements_after(alloc, live, news, &ids.list)?;
    order::sort(&mut elements)?;
    settled_of(alloc, List::from_vec(elements))
}

/// The elements of these ids after the new ones took their places, copied.
fn elements_after(
    alloc: Global,
    live: &Vec<SharedElement>,
    news: &Vec<SharedElement>,
    ids: &Vec<Text>,
) -> Result<Vec<Element>, AllocError>
    requires live { are_rising (ids_of live.now.items) ≡ true }
    requires news { are_rising (ids_of news.now.items) ≡ true }
    ensures { IfOk result
        (λ found. found.items ≡ filter_map
        (replacing.element_after live.now.items news.now.items) ids.now.items) }
{
    let mut found = Vec::new(alloc);
    for id in ids {
        if let Some(e) = element_after(live, news, id) {
            found.push(e.try_clone()?)?;
        }
    }
    Ok(found)
}

/// The element of an id after the new ones took their places.
fn element_after<'a>(
    live: &'a Vec<SharedElement>,
    news: &'a Vec<SharedElement>,
    id: &Text,
) -> Option<&'a Element>
    requires live { are_rising (ids_of live.now.items) ≡ true }
    requires news { are_rising (ids_of news.now.items) ≡ true }
    ensures { option_copied result ≡ replacing.element_after live.now.items news.now.items id.now }
{
    match element_of(news, id) {
        Some(e) => Some(e),
        None => element_of(live, id),
    }
}

/// Those of the elements that are of these ids, at the places where they are shown and with the
/// keys of these, if they are found.
pub(crate) fn puts_near(
    alloc: Global,
    live: &Vec<SharedElement>,
    shown: &Vec<SharedElement>,
    elements: List<Element>,
    near: &Ids,
) -> Result<Option<Vec<Put>>, AllocError>
    ensures { IfOk result (λ found. IfSome found (λ puts. All (IsInPlace shown.now.items) puts.items
        × (map without_index (puts_of puts.items) ≡ map without_index
        (filter (λ (e : ElementValue). is_among near.now.list.items e.id) elements)))) }
{
    let mut puts = Vec::new(alloc);
    for e in elements.into_vec() {
        if near.has(&e.id) {
            let Some(at) = place_shown(live, shown, &e) else {
                return Ok(None);
            };
            puts.push(Put {
                at,
                e: drawn_as(alloc, &shown[at], e)?,
            })?;
        }
    }
    Ok(Some(puts))
}

/// The element with the key of the one that is shown, and shared with that where it is the same.
fn drawn_as(alloc: Global, shown: &SharedElement, e: Element) -> Result<SharedElement, AllocError>
    ensures { IfOk result (λ drawn. drawn ≡ record e { index = shown.now.index }) }
{
    let index = index_of(shown.get())?;
    shared_as(alloc, shown, with_index(e, index))
}

/// The index of an element, copied.
fn index_of(e: &Element) -> Result<Option<Key>, AllocError>
    ensures { IfOk result (λ index. index ≡ e.now.index) }
{
    e.index.as_ref().map(Key::try_clone).transpose()
}

/// The element with this index.
pub(crate) fn with_index(mut e: Element, index: Option<Key>) -> Element
    ensures { result ≡ record e { index = index } }
{
    e.index = index;
    e
}
