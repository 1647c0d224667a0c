//! A view that follows the changes of a store.

ghost use Rattle.std.specs.Prelude.{◌≡◌, ◌++◌, true, false, Ok, option_copied, IfOk, IfSome, OnErr, OnOk};
ghost use Rattle.frac_keys.specs.Rising.{are_rising};
ghost use Rattle.elem_store.specs.Updates as updates;
ghost use Rattle.elem_store.specs.Updates.{element_of, ids_of, AreStored};
ghost use Rattle.kept_view.specs.Changes.{AreSameButAt};
ghost use Rattle.undo_model.specs.Carrying.{taken_all};
ghost use Rattle.view.specs.Shown.{live_elements};

use crate::drawing::kept_of;
use crate::following::{picked, store_after, stored, taken_of};
use crate::live::KeptView;
use elem::{Element, beats};
use elem_store::Store;
use json_text::Text;
use std::alloc::AllocError;

impl KeptView {
    /// Makes this the view of the store, whose live elements are those that it was made of but for
    /// elements of these ids. For want of memory it is unchanged.
    pub fn update(&mut self, store: &Store, ids: &[Text]) -> Result<(), AllocError>
        requires { AreSameButAt ids.now self.old (live_elements store.now.elements) }
        ensures view { OnOk result (self.new ≡ live_elements store.now.elements) }
        ensures err { OnErr result (self.new ≡ self.old) }
    {
        if self.update_one(store, ids)? || self.update_near(store, ids)? {
            return Ok(());
        }
        self.renew(store)
    }

    /// Makes this, which is the view of the store, the view of the store after it takes the changed
    /// elements in their order. For want of memory it is unchanged.
    pub fn take(&mut self, store: &Store, changed: &[Element]) -> Result<(), AllocError>
        requires { self.old ≡ live_elements store.now.elements }
        ensures view { OnOk result
            (self.new ≡ live_elements (taken_all changed.now store.now.elements)) }
        ensures err { OnErr result (self.new ≡ self.old) }
    {
        if self.take_one(store, changed)? || self.take_near(store, changed)? {
            return Ok(());
        }
        let alloc = self.kept.allocator();
        let store = store_after(alloc, store, changed)?;
        self.renew(&store)
    }

    /// Redraws the one element of these ids, if that is all that changes.
    fn update_one(&mut self, store: &Store, ids: &[Text]) -> Result<bool, AllocError>
        requires { AreSameButAt ids.now self.old (live_elements store.now.elements) }
        ensures new { result ≡ Ok true → self.new ≡ live_elements store.now.elements }
        ensures old { OnErr result (self.new ≡ self.old) }
        ensures other { result ≡ Ok false → self.new ≡ self.old }
    {
        let [id] = ids else {
            return Ok(false);
        };
        match stored(store, id) {
            Some(new) => self.redraw(new),
            None => Ok(false),
        }
    }

    /// Follows what is stored of these ids, if each is stored and all are found near their places.
    fn update_near(&mut self, store: &Store, ids: &[Text]) -> Result<bool, AllocError>
        requires { AreSameButAt ids.now self.old (live_elements store.now.elements) }
        ensures new { result ≡ Ok true → self.new ≡ live_elements store.now.elements }
        ensures old { OnErr result (self.new ≡ self.old) }
        ensures other { result ≡ Ok false → self.new ≡ self.old }
    {
        if !is_small(store, ids.len()) {
            return Ok(false);
        }
        let alloc = self.kept.allocator();
        match picked(alloc, store, ids)? {
            Some(news) => self.follow(&news),
            None => Ok(false),
        }
    }

    /// Redraws the one changed element, if that is all that changes.
    fn take_one(&mut self, store: &Store, changed: &[Element]) -> Result<bool, AllocError>
        requires { self.old ≡ live_elements store.now.elements }
        ensures new { result ≡ Ok true
            → self.new ≡ live_elements (taken_all changed.now store.now.elements) }
        ensures old { OnErr result (self.new ≡ self.old) }
        ensures other { result ≡ Ok false → self.new ≡ self.old }
    {
        let [new] = changed else {
            return Ok(false);
        };
        if !is_taken(store, new) {
            return Ok(true);
        }
        self.redraw(new)
    }

    /// Follows what is stored of the changed ones' ids once these are taken, if all are found near
    /// their places.
    fn take_near(&mut self, store: &Store, changed: &[Element]) -> Result<bool, AllocError>
        requires { self.old ≡ live_elements store.now.elements }
        ensures new { result ≡ Ok true
            → self.new ≡ live_elements (taken_all changed.now store.now.elements) }
        ensures old { OnErr result (self.new ≡ self.old) }
        ensures other { result ≡ Ok false → self.new ≡ self.old }
    {
        if !is_small(store, changed.len()) {
            return Ok(false);
        }
        let alloc = self.kept.allocator();
        let news = taken_of(alloc, store, changed)?;
        self.follow(&news)
    }

    /// Makes this the view of the store anew, twice, so that no change near its elements copies all
    /// of it. For want of memory it is unchanged.
    fn renew(&mut self, store: &Store) -> Result<(), AllocError>
        ensures view { OnOk result (self.new ≡ live_elements store.now.elements) }
        ensures err { OnErr result (self.new ≡ self.old) }
    {
        let alloc = self.kept.allocator();
        let kept = kept_of(alloc, store)?;
        let twin = kept.copied().ok();
        *self = KeptView { kept, twin };
        Ok(())
    }
}

/// Whether a change of so many elements is followed near them: where more of the board changes, a
/// view made anew costs less.
fn is_small(store: &Store, changed: usize) -> bool
    ensures { are_rising (ids_of store.now.elements) ≡ true }
{
    changed <= 4 + store.len() / 8
}

/// Whether a store takes the element: its id is new, or it beats the stored one.
fn is_taken(store: &Store, e: &Element) -> bool
    ensures taken { result ≡ updates.is_taken store.now.elements e.now }
    ensures ordered { are_rising (ids_of store.now.elements) ≡ true }
{
    match stored(store, &e.id) {
        Some(old) => beats(e, old),
        None => true,
    }
}
