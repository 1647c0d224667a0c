//! Texts and their containers.

ghost use Rattle.std.specs.Prelude.{◌≡◌, map, IfOk};
ghost use Rattle.std.specs.List.{list_any};
ghost use Rattle.std.specs.Option.{option_copied};
ghost use Rattle.links.specs.Names as names;
ghost use Rattle.links.specs.Tables.{elements_under};
ghost use Rattle.links.specs.inner.Tables.{IsTable};
ghost use Rattle.links.specs.Texts as words;

use crate::names::{Names, add_under};
use crate::parts::{bound_of, can_hold_text, id_of, is_contained, is_for_text, names_container};
use crate::table::{Table, rows_under, sorted};
use elem::{BoundRef, Element};
use json_text::Text;
use std::alloc::{AllocError, Global};

impl<'a> Names<'a> {
    /// The id of the text of a container: of the first text in its own listing that names it, else
    /// of the first text of the list that names it.
    pub(crate) fn text_of(&self, container: &'a Element) -> Option<&'a Text>
        ensures { option_copied result ≡ words.text_of self.now container.now }
    {
        if !can_hold_text(container) {
            return None;
        }
        match self.listed_text(container) {
            Some(id) => Some(id),
            None => self.first_text(container),
        }
    }

    /// The id of the first text in a container's own listing that names it.
    fn listed_text(&self, container: &'a Element) -> Option<&'a Text>
        ensures { option_copied result ≡ words.listed_text self.now container.now }
    {
        for entry in bound_of(container).as_slice() {
            if self.is_text_entry(container, entry) {
                return Some(&entry.id);
            }
        }
        None
    }

    /// Whether an entry of a container's listing is for a text of the list that names the
    /// container.
    fn is_text_entry(&self, container: &Element, entry: &BoundRef) -> bool
        ensures { result ≡ words.is_text_entry self.now container.now entry.now }
    {
        let id = id_of(container);
        is_for_text(entry)
            && self
                .of_id(&entry.id)
                .iter()
                .any(|row| names_container(id, row.element))
    }

    /// The id of the first text of the list that names a container.
    fn first_text(&self, container: &Element) -> Option<&'a Text>
        ensures { option_copied result ≡ words.first_text self.now container.now }
    {
        let first = self.in_container(id_of(container)).first()?;
        Some(id_of(first.element))
    }

    /// For each element of the list, whether it keeps its container as a text.
    pub(crate) fn kept_containers(&self, alloc: Global) -> Result<Vec<bool>, AllocError>
        ensures { IfOk result (λ kept. kept.items ≡ map (words.keeps_container self.now) self.now) }
    {
        let containers = self.containers(alloc)?;
        let mut kept = Vec::with_capacity(alloc, self.list().len())?;
        for e in self.list() {
            kept.push(keeps_container(&containers, e))?;
        }
        Ok(kept)
    }

    /// The containers of the list that have a text, by the ids of these texts.
    fn containers(&self, alloc: Global) -> Result<Table<'a>, AllocError>
        ensures { IfOk result (IsTable (words.is_text_of self.now) self.now) }
    {
        let mut rows = Vec::new(alloc);
        for element in self.list() {
            add_under(&mut rows, self.text_of(element), element)?;
        }
        sorted(alloc, rows)
    }
}

/// Whether a text keeps its container: it is the text of an element of the list that it names.
fn keeps_container(containers: &Table<'_>, e: &Element) -> bool
    ensures { result ≡ list_any (λ container. names.names_container container.id e.now)
        (elements_under e.now.id containers.now) }
{
    // Most elements need no search.
    is_contained(e)
        && rows_under(containers, id_of(e))
            .iter()
            .any(|row| names_container(id_of(row.element), e))
}
