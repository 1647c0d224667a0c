//! What is near elements over links, what surrounds that, and the frames that are named there.

ghost use Rattle.std.specs.Prelude.{◌≡◌, ℕ, List as Items, not, ◌||◌, true, All, Contains, Some, IsTrue, OnOk, IfOk};
ghost use Rattle.frac_keys.specs.Rising.{are_rising};
ghost use Rattle.elem.specs.ElementValue.{ElementValue};
ghost use Rattle.elem_store.specs.Updates as updates;
ghost use Rattle.elem_store.specs.Updates.{ids_of, is_among};
ghost use Rattle.links.specs.Looks.{kind_at};
ghost use Rattle.links.specs.Names as names;
ghost use Rattle.links.specs.Names.{is_id};
ghost use Rattle.links.specs.Steps as steps;
ghost use Rattle.kept_view.specs.inner.Reached.{is_text_or_to, is_to_text, AreAmong, AreStartedBy, AreSurrounded, HasNamers, HaveFrames, HaveLinked, HaveNamers, HaveReached, StaysKind};
ghost use Rattle.view.specs.Kept.{HaveRowsOf};

use crate::ids::Ids;
use crate::places::element_of;
use elem::{Element, Kind, SharedElement};
use json_text::Text;
use links::{LinkTable, is_text, linked_ids, links_to};
use std::alloc::{AllocError, Global};

/// Live elements in the order of their ids, and who of them names whom.
#[derive(Clone, Copy)]
pub(crate) struct Board<'a> {
    pub(crate) live: &'a Vec<SharedElement>,
    pub(crate) table: &'a LinkTable,
    ghost ordered: { are_rising (ids_of live.now.items) ≡ true },
    ghost rows: { HaveRowsOf live.now.items table.now.rows },
}

/// So many elements are never much, as on a small board all is made anew as fast as some of it.
const ALWAYS_FEW: usize = 16;

/// The ids of elements, and those that they link to.
pub(crate) fn started_by(alloc: Global, elements: &[SharedElement]) -> Result<Ids, AllocError>
    ensures { IfOk result (λ ids. AreStartedBy ids.list.items elements.now) }
{
    let mut ids = Ids::new(alloc);
    for e in elements {
        ids.add(e.id())?;
        add_linked(alloc, &mut ids, e.get())?;
    }
    Ok(ids)
}

/// Adds all that name one of these elements, where what is held of its id is of another kind, or
/// where there is none: they may keep what they name no more, or anew.
pub(crate) fn add_namers(
    ids: &mut Ids,
    elements: &Vec<SharedElement>,
    board: Board<'_>,
) -> Result<(), AllocError>
    ensures kept { OnOk result (AreAmong ids.old.list.items ids.new.list.items) }
    ensures namers { OnOk result (All (StaysKind board.entry.live.now.items ids.new.list.items)
        elements.now.items) }
{
    for e in elements {
        add_namers_of(ids, e.get(), board)?;
    }
    Ok(())
}

/// Adds all that name an element, where what is held of its id is of another kind, or where there
/// is none.
fn add_namers_of(ids: &mut Ids, e: &Element, board: Board<'_>) -> Result<(), AllocError>
    ensures kept { OnOk result (AreAmong ids.old.list.items ids.new.list.items) }
    ensures namers { OnOk result (StaysKind board.entry.live.now.items ids.new.list.items e.now) }
{
    if is_kind_held(board, e) {
        return Ok(());
    }
    add_all_namers(ids, &e.id, board)
}

/// Adds all that name an id.
pub(crate) fn add_all_namers(ids: &mut Ids, id: &Text, board: Board<'_>) -> Result<(), AllocError>
    ensures kept { OnOk result (AreAmong ids.old.list.items ids.new.list.items) }
    ensures namers { OnOk result (HasNamers board.entry.live.now.items ids.new.list.items id.now) }
{
    ids.add_all(board.table.namers(id))
}

/// Whether what is held of an element's id is of its kind.
fn is_kind_held(board: Board<'_>, e: &Element) -> bool
    ensures { IsTrue result → kind_at board.entry.live.now.items e.now.id ≡ Some e.now.kind }
{
    match element_of(board.live, &e.id) {
        Some(held) => have_one_kind(held, e),
        None => false,
    }
}

/// Whether two elements are of one kind that is known.
fn have_one_kind(e: &Element, other: &Element) -> bool
    ensures { IsTrue result → e.now.kind ≡ other.now.kind }
{
    matches!(
        (&e.kind, &other.kind),
        (Kind::Rectangle, Kind::Rectangle)
            | (Kind::Diamond, Kind::Diamond)
            | (Kind::Ellipse, Kind::Ellipse)
            | (Kind::Arrow, Kind::Arrow)
            | (Kind::Line, Kind::Line)
            | (Kind::Freedraw, Kind::Freedraw)
            | (Kind::Text, Kind::Text)
            | (Kind::Image, Kind::Image)
            | (Kind::Frame, Kind::Frame)
            | (Kind::Magicframe, Kind::Magicframe)
            | (Kind::Iframe, Kind::Iframe)
            | (Kind::Embeddable, Kind::Embeddable)
    )
}

/// The ids of what may be settled otherwise once the elements of some ids change: these, what they
/// link to, the texts in all that, and what links to a text among these. The arrows that are bound
/// to what else these link to look at its kind alone.
pub(crate) fn reached(alloc: Global, from: &Ids, board: Board<'_>) -> Result<Ids, AllocError>
    ensures { IfOk result
        (λ ids. HaveReached board.entry.live.now.items from.now.list.items ids.list.items) }
{
    let one = with_linked(alloc, from, board)?;
    let two = with_namers(alloc, &Ids::new(alloc), &one, board)?;
    with_links_to_texts(alloc, &two, board)
}

/// Whether so much is near that a view made anew costs less than to follow the change: each of
/// these is looked for at its place in both kept views, which costs about four times what an
/// element costs that is shown anew with all others.
pub(crate) fn is_much(near: &Ids, board: Board<'_>) -> bool {
    near.list.len() > ALWAYS_FEW + board.live.len() / 4
}

/// What is needed to settle what is near: what it links to, and what that links to; what links to
/// it, and the texts that link to all these; and the frames that it names, before and after new
/// elements took their places.
pub(crate) fn surrounded(
    alloc: Global,
    near: &Ids,
    news: &Vec<SharedElement>,
    board: Board<'_>,
) -> Result<Ids, AllocError>
    ensures { IfOk result
        (λ ids. AreSurrounded board.entry.live.now.items news.now.items near.now.list.items
        ids.list.items) }
{
    let one = with_linked(alloc, near, board)?;
    let two = with_linked(alloc, &one, board)?;
    let mut wide = with_namers(alloc, near, &two, board)?;
    add_frames_at(&mut wide, near, board)?;
    add_frames_of(&mut wide, news)?;
    Ok(wide)
}

/// The ids, and what their elements link to.
fn with_linked(alloc: Global, from: &Ids, board: Board<'_>) -> Result<Ids, AllocError>
    ensures { IfOk result
        (λ ids. HaveLinked board.entry.live.now.items from.now.list.items from.now.list.items
        ids.list.items) }
{
    let mut to = from.copied(alloc)?;
    for id in &from.list {
        add_linked_by(alloc, &mut to, id, board)?;
    }
    Ok(to)
}

/// The ids, and what links to those of them that are texts.
fn with_links_to_texts(alloc: Global, from: &Ids, board: Board<'_>) -> Result<Ids, AllocError>
    ensures { IfOk result
        (λ ids. HaveNamers (is_to_text board.entry.live.now.items) board.entry.live.now.items
        from.now.list.items from.now.list.items ids.list.items) }
{
    let mut to = from.copied(alloc)?;
    for id in &from.list {
        add_linking_to_text(&mut to, id, board)?;
    }
    Ok(to)
}

/// The ids, what links to those of them that are near, and the texts that link to the others.
fn with_namers(alloc: Global, near: &Ids, from: &Ids, board: Board<'_>) -> Result<Ids, AllocError>
    ensures { IfOk result
        (λ ids. HaveNamers (is_text_or_to near.now.list.items) board.entry.live.now.items
        from.now.list.items from.now.list.items ids.list.items) }
{
    let mut to = from.copied(alloc)?;
    for id in &from.list {
        add_linking(&mut to, id, !near.has(id), board)?;
    }
    Ok(to)
}

/// Adds what the element of an id links to.
fn add_linked_by(
    alloc: Global,
    ids: &mut Ids,
    id: &Text,
    board: Board<'_>,
) -> Result<(), AllocError>
    ensures kept { OnOk result (AreAmong ids.old.list.items ids.new.list.items) }
    ensures linked { OnOk result ((e : ElementValue) (other : Items ℕ)
        → updates.element_of board.entry.live.now.items id.now ≡ Some e
        → steps.links_to other e ≡ true → is_among ids.new.list.items other ≡ true) }
{
    match element_of(board.live, id) {
        Some(e) => add_linked(alloc, ids, e),
        None => Ok(()),
    }
}

/// Adds what an element links to.
fn add_linked(alloc: Global, ids: &mut Ids, e: &Element) -> Result<(), AllocError>
    ensures { OnOk result ((id : Items ℕ)
        → is_among ids.new.list.items id
        ≡ (steps.links_to id e.now || is_among ids.old.list.items id)) }
{
    let linked = linked_ids(alloc, e)?;
    ids.add_all(linked.as_slice())
}

/// Adds what links to an id, if this is that of a text.
fn add_linking_to_text(ids: &mut Ids, id: &Text, board: Board<'_>) -> Result<(), AllocError>
    ensures kept { OnOk result (AreAmong ids.old.list.items ids.new.list.items) }
    ensures linking { OnOk result ((e : ElementValue) → Contains board.entry.live.now.items e
        → steps.links_to id.now e ≡ true → is_to_text board.entry.live.now.items id.now e ≡ true
        → is_among ids.new.list.items e.id ≡ true) }
{
    match element_of(board.live, id) {
        Some(e) if is_text(e) => add_linking(ids, id, false, board),
        _ => Ok(()),
    }
}

/// Adds what links to an id, or the texts that do alone: of all that name it those that don't name
/// it as their frame alone.
fn add_linking(
    ids: &mut Ids,
    id: &Text,
    texts_alone: bool,
    board: Board<'_>,
) -> Result<(), AllocError>
    ensures kept { OnOk result (AreAmong ids.old.list.items ids.new.list.items) }
    ensures linking { OnOk result ((e : ElementValue) → Contains board.entry.live.now.items e
        → steps.links_to id.now e ≡ true → (not texts_alone || names.is_text e.kind) ≡ true
        → is_among ids.new.list.items e.id ≡ true) }
{
    let namers = board.table.namers(id);
    for namer in namers {
        add_if_linking(ids, namer, id, texts_alone, board)?;
    }
    Ok(())
}

/// Adds a namer of an id, if it links to that, and is a text or need be none.
fn add_if_linking(
    ids: &mut Ids,
    namer: &Text,
    id: &Text,
    texts_alone: bool,
    board: Board<'_>,
) -> Result<(), AllocError>
    ensures kept { OnOk result (AreAmong ids.old.list.items ids.new.list.items) }
    ensures linking { OnOk result ((e : ElementValue)
        → updates.element_of board.entry.live.now.items namer.now ≡ Some e
        → steps.links_to id.now e ≡ true → (not texts_alone || names.is_text e.kind) ≡ true
        → is_among ids.new.list.items namer.now ≡ true) }
{
    match element_of(board.live, namer) {
        Some(e) if (!texts_alone || is_text(e)) && links_to(id, e) => ids.add(namer),
        _ => Ok(()),
    }
}

/// Adds the frames that the elements of some ids name.
fn add_frames_at(ids: &mut Ids, at: &Ids, board: Board<'_>) -> Result<(), AllocError>
    ensures kept { OnOk result (AreAmong ids.old.list.items ids.new.list.items) }
    ensures frames { OnOk result
        (HaveFrames board.entry.live.now.items at.now.list.items ids.new.list.items) }
{
    for id in &at.list {
        add_frame_at(ids, id, board)?;
    }
    Ok(())
}

/// Adds the frame that the element of an id names.
fn add_frame_at(ids: &mut Ids, id: &Text, board: Board<'_>) -> Result<(), AllocError>
    ensures kept { OnOk result (AreAmong ids.old.list.items ids.new.list.items) }
    ensures frame { OnOk result ((e : ElementValue) (frame : Items ℕ)
        → updates.element_of board.entry.live.now.items id.now ≡ Some e → e.frame ≡ Some frame
        → is_among ids.new.list.items frame ≡ true) }
{
    match element_of(board.live, id) {
        Some(e) => add_frame(ids, e),
        None => Ok(()),
    }
}

/// Adds the frames that elements name.
fn add_frames_of(ids: &mut Ids, elements: &Vec<SharedElement>) -> Result<(), AllocError>
    ensures kept { OnOk result (AreAmong ids.old.list.items ids.new.list.items) }
    ensures frames { OnOk result ((e : ElementValue) (frame : Items ℕ)
        → Contains elements.now.items e → e.frame ≡ Some frame
        → is_among ids.new.list.items frame ≡ true) }
{
    for e in elements {
        add_frame(ids, e.get())?;
    }
    Ok(())
}

/// Adds the frame that an element names.
fn add_frame(ids: &mut Ids, e: &Element) -> Result<(), AllocError>
    ensures { OnOk result ((id : Items ℕ)
        → is_among ids.new.list.items id
        ≡ (is_id id e.now.frame || is_among ids.old.list.items id)) }
{
    match &e.frame {
        Some(frame) => ids.add(frame),
        None => Ok(()),
    }
}
