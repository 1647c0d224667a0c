//! A view that follows updates, one after the other.

use crate::elements::elements_of;
use crate::keys::push_end;
use board_base::Stop;
use case_text::{given, push_member_of};
use elem::{Element, SharedElement};
use elem_store::Store;
use json_text::{Raw, Text, push_quote};
use kept_view::KeptView;
use scene_json::push_comma;
use std::alloc::{AllocError, Global};
use std::marker::Model;
use std::slice;

/// What is stored, and its view.
struct Board {
    store: Store,
    view: KeptView,
}

// By hand, so that whoever drops a board sees one call and not what it holds.
impl Drop for Board {
    fn drop(self) {
        let Board {
            store: _store,
            view: _view,
        } = self;
    }
}

impl Model for Board {
    ghost use Rattle.std.specs.Prelude.{◌≡◌, List, true};
    ghost use Rattle.frac_keys.specs.Rising.{are_rising};
    ghost use Rattle.elem.specs.ElementValue.{ElementValue};
    ghost use Rattle.elem_store.specs.Updates.{ids_of};
    ghost use Rattle.view.specs.Shown.{live_elements};

    ghost Value = { List ElementValue };

    ghost view = { λ b. b.store.elements };

    ghost invariant = { λ b. (b.view ≡ live_elements b.store.elements)
        × (are_rising (ids_of b.store.elements) ≡ true) };
}

impl Board {
    /// With nothing.
    fn new(alloc: Global) -> Board {
        Board {
            store: Store::new(alloc),
            view: KeptView::new(alloc),
        }
    }

    /// Stores an update, and lets the view follow by its id.
    fn with(self, e: Element) -> Result<Board, AllocError> {
        let Board { store, view } = self;
        let id = e.id.try_clone()?;
        let (mut store, mut view) = (store, view);
        match store.take(e) {
            Ok(_) => {}
            Err(_) => return Err(AllocError),
        }
        view.update(&store, slice::from_ref(&id))?;
        Ok(Board { store, view })
    }

    /// The view, which has taken an update that isn't stored yet.
    fn taken(self, e: &Element) -> Result<KeptView, AllocError> {
        let Board { store, view } = self;
        let (store, mut view) = (store, view);
        view.take(&store, slice::from_ref(e))?;
        Ok(view)
    }

    /// What the view shows.
    fn shown(&self) -> &[SharedElement] {
        self.view.elements()
    }
}

/// Appends the id and the key of each element that a view shows, which has followed the updates of
/// a list by their ids.
pub fn push_kept(alloc: Global, line: &mut Vec<u8>, value: &Raw) -> Result<(), Stop<Text>> {
    let updates = given(elements_of(alloc, value)?, "member update")?;
    let mut board = Board::new(alloc);
    for e in updates.into_vec() {
        board = board.with(e)?;
    }
    push_member_of(line, "shown")?;
    push_keyed(line, board.shown())?;
    Ok(())
}

/// Appends the id and the key of each element that a view shows, which has followed the updates of
/// a list by their ids, and has taken the last one before it was stored.
pub fn push_viewed(alloc: Global, line: &mut Vec<u8>, value: &Raw) -> Result<(), Stop<Text>> {
    let mut updates = given(elements_of(alloc, value)?, "member take")?.into_vec();
    let last = given(updates.pop(), "member take")?;
    let mut board = Board::new(alloc);
    for e in updates {
        board = board.with(e)?;
    }
    let view = board.taken(&last)?;
    push_member_of(line, "shown")?;
    push_keyed(line, view.elements())?;
    Ok(())
}

/// Appends the id and the key of each element.
pub fn push_keyed(line: &mut Vec<u8>, elements: &[SharedElement]) -> Result<(), AllocError> {
    line.push(b'[')?;
    for (i, e) in elements.iter().enumerate() {
        push_comma(line, i)?;
        line.push(b'[')?;
        push_quote(line, e.id())?;
        line.push(b',')?;
        push_end(line, &e.get().index)?;
        line.push(b']')?;
    }
    line.push(b']')?;
    Ok(())
}
