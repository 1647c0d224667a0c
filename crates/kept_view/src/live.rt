//! A view that is kept.

ghost use Rattle.std.specs.Prelude.{◌≡◌, List as Items, [], Ok, true, false, map, OnErr, IfOk, IfSome, IsSome, IsPermutation};
ghost use Rattle.frac_keys.specs.Rising.{are_rising};
ghost use Rattle.elem.specs.ElementValue.{ElementValue};
ghost use Rattle.elem_store.specs.Updates.{ids_of};
ghost use Rattle.view.specs.Kept.{AreOthersAsStored, AreOthersKeyedAsStored, HaveRowsOf};
ghost use Rattle.view.specs.Settled.{AreSettled};
ghost use Rattle.index_repair.specs.Keyed.{HaveRisingKeys};
ghost use Rattle.view.specs.Shown.{live_elements, shown, bare, IsSceneOrder};
ghost use Rattle.kept_view.specs.inner.Changes.{HasRedrawn};
ghost use Rattle.kept_view.specs.inner.Following.{HaveFollowed};

use crate::kept::Kept;
use elem::{Element, SharedElement};
use json_text::Text;
use links::LinkTable;
use std::alloc::{AllocError, Global};
use std::collections::BTreeSet;
use std::marker::Model;
use std::mem;

/// The most elements that are followed one after the other: each that comes or goes moves the tail
/// of the arrays.
const MOST_MOVED: usize = 32;

/// What a board shows, kept under changes. Contracts see the live elements that it is of, as
/// stored, in the order of their ids.
///
/// It is kept twice, once a change had many steps: they are made to the second one, and then both
/// change places, so that a change that ends half-way changes nothing.
pub struct KeptView {
    pub(crate) kept: Kept,
    pub(crate) twin: Option<Kept>,
}

// By hand, so that whoever drops a live view sees one call and not what it holds.
impl Drop for KeptView {
    fn drop(self) {
        let KeptView {
            kept: _kept,
            twin: _twin,
        } = self;
    }
}

impl Model for KeptView {
    ghost use Rattle.std.specs.Prelude.{◌≡◌, List as Items, IfSome};
    ghost use Rattle.elem.specs.ElementValue.{ElementValue};

    ghost Value = { Items ElementValue };

    ghost view = { λ v. v.kept };

    ghost invariant = { λ v. IfSome v.twin (λ twin. twin ≡ v.kept) };
}

impl KeptView {
    /// Of no elements. It takes no memory.
    pub fn new(alloc: Global) -> KeptView
        ensures { result ≡ [] }
    {
        KeptView {
            kept: Kept::new(alloc),
            twin: None,
        }
    }

    /// What is shown: the live elements in scene order, with repaired keys, and with links, frames
    /// and groups that agree. It takes no memory.
    pub fn elements(&self) -> &[SharedElement]
        ensures exact { result.now ≡ shown self.now }
        ensures keys { HaveRisingKeys result.now }
        ensures order { (ordered : Items ElementValue) × IsSceneOrder self.now ordered
            × (ids_of result.now ≡ ids_of ordered) }
        ensures ids { IsPermutation (ids_of self.now) (ids_of result.now) }
        ensures others { IsPermutation (map bare self.now) (map bare result.now) }
        ensures settled { AreSettled result.now }

        // The view of these elements, in any order, is this view.
        ensures again { (stored : Items ElementValue) → IsPermutation result.now stored
            → shown (live_elements stored) ≡ result.now }
    {
        self.kept.elements()
    }

    /// Who of the live elements names whom. It takes no memory.
    pub fn names(&self) -> &LinkTable
        ensures { HaveRowsOf self.now result.now.rows }
    {
        self.kept.names()
    }

    /// The ids of the live elements that may be shown otherwise than they are stored: all others
    /// are shown as they are stored. It takes no memory.
    pub fn unsettled(&self) -> &BTreeSet<Text>
        ensures { AreOthersAsStored result.now self.now (shown self.now) }
    {
        self.kept.unsettled()
    }

    /// The ids of the live elements that may be shown with another key than is stored: all others
    /// are shown with that. It takes no memory.
    pub fn rekeyed(&self) -> &BTreeSet<Text>
        ensures { AreOthersKeyedAsStored result.now self.now (shown self.now) }
    {
        self.kept.rekeyed()
    }

    /// Lets an element take the place of that of its id, if they have one outline, and tells
    /// whether they do. For want of memory nothing changes.
    pub(crate) fn redraw(&mut self, new: &Element) -> Result<bool, AllocError>
        ensures new { result ≡ Ok true → HasRedrawn self.old new.now self.new }
        ensures old { OnErr result (self.new ≡ self.old) }
        ensures other { result ≡ Ok false → self.new ≡ self.old }
    {
        let twin = self.twin.take();
        if !self.kept.redraw_as(new)? {
            self.twin = twin;
            return Ok(false);
        }
        self.twin = redrawn_twin(twin, new);
        Ok(true)
    }

    /// Follows what is stored of the ids of these elements, and tells whether it is found near
    /// their places, with not much near it: those that keep their places at once, others one after
    /// the other, if they are few. For want of memory nothing changes.
    pub(crate) fn follow(&mut self, news: &Vec<SharedElement>) -> Result<bool, AllocError>
        requires { are_rising (ids_of news.now.items) ≡ true }
        ensures new { result ≡ Ok true → HaveFollowed self.old news.now.items self.new }
        ensures old { OnErr result (self.new ≡ self.old) }
        ensures other { result ≡ Ok false → self.new ≡ self.old }
    {
        if self.replace(news)? {
            return Ok(true);
        }
        if news.len() > MOST_MOVED {
            return Ok(false);
        }
        self.follow_each(news)
    }

    /// Lets elements take the places of those of their ids, if none is deleted, each is held with
    /// the same index and not much is near them, and tells whether they do. For want of memory
    /// nothing changes.
    fn replace(&mut self, news: &Vec<SharedElement>) -> Result<bool, AllocError>
        requires { are_rising (ids_of news.now.items) ≡ true }
        ensures new { result ≡ Ok true → HaveFollowed self.old news.now.items self.new }
        ensures old { OnErr result (self.new ≡ self.old) }
        ensures other { result ≡ Ok false → self.new ≡ self.old }
    {
        let twin = self.twin.take();
        if !self.kept.replace_live(news)? {
            self.twin = twin;
            return Ok(false);
        }
        self.twin = followed_twin(twin, news);
        Ok(true)
    }

    /// Follows elements one after the other in the twin, which then changes places with what is
    /// kept. For want of memory nothing changes.
    fn follow_each(&mut self, news: &Vec<SharedElement>) -> Result<bool, AllocError>
        requires { are_rising (ids_of news.now.items) ≡ true }
        ensures new { result ≡ Ok true → HaveFollowed self.old news.now.items self.new }
        ensures old { OnErr result (self.new ≡ self.old) }
        ensures other { result ≡ Ok false → self.new ≡ self.old }
    {
        let kept = self.twin_or_copy()?;
        let Some(mut kept) = kept.follow_each(news)? else {
            return Ok(false);
        };
        mem::swap(&mut self.kept, &mut kept);
        self.twin = followed_twin(Some(kept), news);
        Ok(true)
    }

    /// Takes the twin, or makes one.
    fn twin_or_copy(&mut self) -> Result<Kept, AllocError>
        ensures twin { IfOk result (λ twin. twin ≡ self.old) }
        ensures same { self.new ≡ self.old }
    {
        match self.twin.take() {
            Some(twin) => Ok(twin),
            None => self.kept.copied(),
        }
    }
}

/// The twin after an element was redrawn, unless it is lost for want of memory.
fn redrawn_twin(twin: Option<Kept>, new: &Element) -> Option<Kept>
    ensures drawn { IfSome result
        (λ after. IfSome twin (λ before. HasRedrawn before new.now after)) }
    ensures there { IsSome result → IsSome twin }
{
    let mut twin = twin?;
    match twin.redraw_as(new) {
        Ok(true) => Some(twin),
        _ => None,
    }
}

/// The twin after it followed these elements, unless it is given up, or lost for want of memory.
fn followed_twin(twin: Option<Kept>, news: &Vec<SharedElement>) -> Option<Kept>
    requires { are_rising (ids_of news.now.items) ≡ true }
    ensures followed { IfSome result
        (λ after. IfSome twin (λ before. HaveFollowed before news.now.items after)) }
    ensures there { IsSome result → IsSome twin }
{
    twin?.follow(news).ok().flatten()
}
