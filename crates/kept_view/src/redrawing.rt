//! An element that takes the place of one that is the same but for its stamp, its file and its
//! further members: nothing else that is shown changes.

ghost use Rattle.std.specs.Prelude.{◌≡◌, ◌<◌, Some, Ok, true, false, map, OnErr, length, slice_get, slice_set, IfOk, IfSome, IsTrue, IsSomeAnd, bytes_eq, vec_len};
ghost use Rattle.kept_view.specs.inner.Changes.{outline, redrawn_as, HasRedrawn, IsRedrawn};

use crate::kept::Kept;
use crate::places::{place_of, place_shown, replace};
use crate::sharing::shared_as;
use board_base::List;
use elem::{Element, SharedElement, SharedMembers, same};
use std::alloc::{AllocError, Global};
use std::mem;

/// The new element and what is shown of it, with the places in a view at which those of its id are
/// held and shown.
#[derive(Drop)]
struct Redrawing {
    held_at: usize,
    held: SharedElement,
    shown_at: usize,
    shown: SharedElement,
}

impl Kept {
    /// Lets the element take the place of that of its id, if they have one outline, and tells
    /// whether they do. For want of memory nothing changes.
    pub(crate) fn redraw_as(&mut self, new: &Element) -> Result<bool, AllocError>
        ensures new { result ≡ Ok true → HasRedrawn self.old new.now self.new }
        ensures old { OnErr result (self.new ≡ self.old) }
        ensures other { result ≡ Ok false → self.new ≡ self.old }
    {
        let Some(redrawing) = self.redrawing(new)? else {
            return Ok(false);
        };
        self.redraw(redrawing);
        Ok(true)
    }

    /// How the element takes the place of that of its id, if they have one outline.
    fn redrawing(&self, new: &Element) -> Result<Option<Redrawing>, AllocError>
        ensures { IfOk result (λ found. IfSome found (λ r.
            (r.held ≡ new.now) × IsRedrawn self.now new.now r.held_at r.shown_at r.shown)) }
    {
        let alloc = *self.live.allocator();
        let Ok(held_at) = place_of(&self.live, &new.id) else {
            return Ok(None);
        };
        let old = &self.live[held_at];
        if !have_one_outline(alloc, old, new)? {
            return Ok(None);
        }
        let Some(shown_at) = place_shown(&self.live, &self.shown, new) else {
            return Ok(None);
        };
        let held = SharedElement::copy(alloc, new)?;
        let shown = shared_as(alloc, &held, redrawn(&self.shown[shown_at], new)?)?;
        Ok(Some(Redrawing {
            held_at,
            held,
            shown_at,
            shown,
        }))
    }

    /// Puts the new element in its places. It takes no memory.
    fn redraw(&mut self, redrawing: Redrawing)
        requires { IsRedrawn self.old redrawing.held redrawing.held_at redrawing.shown_at
            redrawing.shown }
        ensures { self.new ≡ map (redrawn_as redrawing.held) self.old }
    {
        let Redrawing {
            held_at,
            held,
            shown_at,
            shown,
        } = redrawing;
        replace(&mut self.live, held_at, held);
        replace(&mut self.shown, shown_at, shown);
    }
}

/// Whether two elements have one outline.
fn have_one_outline(alloc: Global, e: &SharedElement, other: &Element) -> Result<bool, AllocError>
    ensures { IfOk result (λ one. IsTrue one → outline e.now ≡ outline other.now) }
{
    let outline = outline_of(alloc, e.get())?;
    let other_outline = outline_of(alloc, other)?;
    Ok(same(&outline, &other_outline))
}

/// The outline of an element, copied.
fn outline_of(alloc: Global, e: &Element) -> Result<Element, AllocError>
    ensures { IfOk result (λ new. new ≡ outline e.now) }
{
    let mut new = e.try_clone()?;
    new.version = 0;
    new.nonce = 0;
    new.updated = 0;
    new.file = None;
    new.rest = SharedMembers::new(alloc, List::new(alloc))?;
    Ok(new)
}

/// A copy of the shown element with the stamp, the file and the further members of the new one of
/// its id.
fn redrawn(shown: &SharedElement, new: &Element) -> Result<Element, AllocError>
    requires id { new.now.id ≡ shown.now.id }
    requires kind { new.now.kind ≡ shown.now.kind }
    ensures { IfOk result (λ e. e ≡ redrawn_as new.now shown.now) }
{
    Ok(with_content(shown.get().try_clone()?, new.try_clone()?))
}

/// The shown element with the stamp, the file and the further members of the new one of its id.
fn with_content(mut shown: Element, mut new: Element) -> Element
    requires id { new.id ≡ shown.id }
    requires kind { new.kind ≡ shown.kind }
    ensures { result ≡ redrawn_as new shown }
{
    shown.version = new.version;
    shown.nonce = new.nonce;
    shown.updated = new.updated;
    mem::swap(&mut shown.file, &mut new.file);
    mem::swap(&mut shown.rest, &mut new.rest);
    shown
}
