//! Bound arrows and the listings of what they are bound to.

ghost use Rattle.std.specs.Prelude.{◌≡◌, [], filter, map, IfOk, OnOk};
ghost use Rattle.std.specs.Option.{option_copied};
ghost use Rattle.links.specs.Arrows as words;
ghost use Rattle.links.specs.Entries.{first_entries};
ghost use Rattle.links.specs.Names.{has_end_at};
ghost use Rattle.links.specs.Tables.{links_of};
ghost use Rattle.links.specs.inner.Tables.{with_entries, AreSeen, IsTable};
ghost use Rattle.links.specs.Texts.{text_of};
ghost use Rattle.elem.specs.declared.kind.Role.TheVariants as roles;

use crate::listing::Listing;
use crate::names::{Names, ends_of};
use crate::parts::{bound_of, has_end_at, id_of, is_target};
use crate::table::{Table, rows_under};
use board_base::List;
use elem::{BoundRef, Element, Role};
use json_text::Text;
use std::alloc::{AllocError, Global};

/// What settling an element's links changes: which ends it keeps, and its listing.
#[derive(Drop)]
pub(crate) struct Links {
    pub(crate) keeps_start: bool,
    pub(crate) keeps_end: bool,
    pub(crate) bound: List<BoundRef>,
}

impl<'a> Names<'a> {
    /// The links of each element of the list.
    pub(crate) fn links(&self, alloc: Global) -> Result<Vec<Links>, AllocError>
        ensures { IfOk result (λ links. links.items ≡ map (links_of self.now) self.now) }
    {
        let ends = self.ends(alloc)?;
        let mut links = Vec::with_capacity(alloc, self.list().len())?;
        for e in self.list() {
            links.push(self.links_of(alloc, &ends, e)?)?;
        }
        Ok(links)
    }

    /// The links of an element.
    fn links_of(&self, alloc: Global, ends: &Table<'a>, e: &'a Element) -> Result<Links, AllocError>
        requires { IsTable has_end_at self.now ends.now }
        ensures { IfOk result (λ links. links ≡ links_of self.now e.now) }
    {
        let (start, end) = ends_of(e);
        Ok(Links {
            keeps_start: self.names_target(start),
            keeps_end: self.names_target(end),
            bound: self.listing(alloc, ends, e)?,
        })
    }

    /// Whether what an end names is a bindable target of the list.
    fn names_target(&self, target: Option<&Text>) -> bool
        ensures { result ≡ words.names_target self.now (option_copied target.entry) }
    {
        match target {
            Some(id) => self.of_id(id).iter().any(|row| is_target(row.element)),
            None => false,
        }
    }

    /// The listing of an element.
    fn listing(
        &self,
        alloc: Global,
        ends: &Table<'a>,
        e: &'a Element,
    ) -> Result<List<BoundRef>, AllocError>
        requires { IsTable has_end_at self.now ends.now }
        ensures { IfOk result (λ entries. entries ≡ words.listing self.now e.now) }
    {
        let text = self.text_of(e);
        let mut listing = Listing::new(alloc);
        self.add_own(&mut listing, e, text)?;
        self.add_arrows(&mut listing, ends, e)?;
        if let Some(id) = text {
            listing.add(id, Role::Text)?;
        }
        Ok(List::from_vec(listing.entries))
    }

    /// Adds the true entries of an element's own listing.
    fn add_own(
        &self,
        listing: &mut Listing,
        e: &'a Element,
        text: Option<&Text>,
    ) -> Result<(), AllocError>
        requires empty { listing.old.entries.items ≡ [] }
        requires text { option_copied text ≡ text_of self.now e.now }
        requires seen { AreSeen listing.old.entries.items listing.old.arrows listing.old.texts }
        ensures entries { OnOk result (listing.new.entries.items
            ≡ first_entries (filter (words.is_true_entry self.now e.now) e.now.bound)) }
        ensures seen { OnOk result (AreSeen listing.new.entries.items listing.new.arrows
            listing.new.texts) }
    {
        for entry in bound_of(e).as_slice() {
            if self.is_true_entry(e, text, entry) {
                listing.add(&entry.id, entry.role)?;
            }
        }
        Ok(())
    }

    /// Adds the entries of the arrows that are bound to an element.
    fn add_arrows(
        &self,
        listing: &mut Listing,
        ends: &Table<'a>,
        e: &Element,
    ) -> Result<(), AllocError>
        requires ends { IsTable has_end_at self.now ends.now }
        requires seen { AreSeen listing.old.entries.items listing.old.arrows listing.old.texts }
        ensures entries { OnOk result (listing.new.entries.items
            ≡ with_entries listing.old.entries.items (words.arrow_entries self.now e.now)) }
        ensures seen { OnOk result (AreSeen listing.new.entries.items listing.new.arrows
            listing.new.texts) }
    {
        if is_target(e) {
            for row in rows_under(ends, id_of(e)) {
                listing.add(id_of(row.element), Role::Arrow)?;
            }
        }
        Ok(())
    }

    /// Whether an entry is true: of an arrow of the list that is bound to the element, or of its
    /// text.
    fn is_true_entry(&self, e: &Element, text: Option<&Text>, entry: &BoundRef) -> bool
        requires { option_copied text ≡ text_of self.now e.now }
        ensures { result ≡ words.is_true_entry self.now e.now entry.now }
    {
        match entry.role {
            Role::Arrow => self.is_bound_arrow(&entry.id, e),
            Role::Text => text.is_some_and(|text| entry.id == *text),
        }
    }

    /// Whether an arrow of this id is bound to an element.
    fn is_bound_arrow(&self, arrow: &Text, e: &Element) -> bool
        ensures { result ≡ words.is_true_as roles.Arrow self.now e.now arrow.now }
    {
        let id = id_of(e);
        is_target(e)
            && self
                .of_id(arrow)
                .iter()
                .any(|row| has_end_at(id, row.element))
    }
}
