//! A list of elements, with tables of who names whom.

ghost use Rattle.std.specs.Prelude.{◌≡◌, filter, map, OnOk, IfOk};
ghost use Rattle.std.specs.Option.{option_copied};
ghost use Rattle.elem.specs.Order.{has_id};
ghost use Rattle.links.specs.Names as words;
ghost use Rattle.links.specs.Tables.{row_element, Adds};
ghost use Rattle.links.specs.inner.Tables.{IsTable};

use crate::key::Key;
use crate::parts::{container_of, id_of, is_arrow, is_text};
use crate::table::{Row, Table, rows_under, sorted};
use elem::{Binding, Element};
use json_text::Text;
use std::alloc::{AllocError, Global};
use std::marker::Model;

/// A list of elements: by their ids, and its texts by their containers.
#[derive(Drop)]
pub(crate) struct Names<'a> {
    list: &'a Vec<Element>,
    by_id: Table<'a>,
    by_container: Table<'a>,
}

impl<'a> Model for Names<'a> {
    ghost use Rattle.std.specs.Prelude.{List as Items};
    ghost use Rattle.elem.specs.ElementValue.{ElementValue};
    ghost use Rattle.links.specs.inner.Tables.{AreTables};

    ghost Value = { Items ElementValue };

    ghost view = { λ n. n.list.now.items };

    ghost invariant = { λ n. AreTables n.list.now.items n.by_id n.by_container };
}

impl<'a> Names<'a> {
    /// The list with its tables.
    pub(crate) fn of(alloc: Global, list: &'a Vec<Element>) -> Result<Names<'a>, AllocError>
        ensures { IfOk result (λ names. names ≡ list.now.items) }
    {
        let mut by_id = Vec::new(alloc);
        let mut by_container = Vec::new(alloc);
        for e in list {
            add_id(&mut by_id, e)?;
            add_container(&mut by_container, e)?;
        }
        Ok(Names {
            list,
            by_id: sorted(alloc, by_id)?,
            by_container: sorted(alloc, by_container)?,
        })
    }

    /// The list.
    pub(crate) fn list(&self) -> &'a Vec<Element>
        ensures { result.now.items ≡ self.now }
    {
        self.list
    }

    /// The elements of this id.
    pub(crate) fn of_id(&self, id: &Text) -> &[Row<'a>]
        ensures { map row_element result.now ≡ filter (has_id id.now) self.now }
    {
        rows_under(&self.by_id, id)
    }

    /// The texts that name an element of this id as their container.
    pub(crate) fn in_container(&self, id: &Text) -> &[Row<'a>]
        ensures { map row_element result.now ≡ filter (words.names_container id.now) self.now }
    {
        rows_under(&self.by_container, id)
    }

    /// The arrows of the list, by what their ends name.
    pub(crate) fn ends(&self, alloc: Global) -> Result<Table<'a>, AllocError>
        ensures { IfOk result (IsTable words.has_end_at self.now) }
    {
        let mut rows = Vec::new(alloc);
        for e in self.list {
            add_ends(&mut rows, e)?;
        }
        sorted(alloc, rows)
    }
}

/// Adds an element under its id.
fn add_id<'a>(rows: &mut Vec<Row<'a>>, element: &'a Element) -> Result<(), AllocError>
    ensures { OnOk result (Adds has_id element.now rows.old.items rows.new.items) }
{
    let key = Key::of(id_of(element));
    rows.push(Row { key, element })?;
    Ok(())
}

/// Adds a text under its container.
fn add_container<'a>(rows: &mut Vec<Row<'a>>, element: &'a Element) -> Result<(), AllocError>
    ensures { OnOk result (Adds words.names_container element.now rows.old.items rows.new.items) }
{
    if is_text(element) {
        add_under(rows, container_of(element), element)?;
    }
    Ok(())
}

/// Adds an element under an id, if there is one.
pub(crate) fn add_under<'a>(
    rows: &mut Vec<Row<'a>>,
    key: Option<&'a Text>,
    element: &'a Element,
) -> Result<(), AllocError>
    ensures { OnOk result (Adds (λ id _. words.is_id id (option_copied key.entry)) element.now
        rows.old.items
        rows.new.items) }
{
    if let Some(key) = key {
        let key = Key::of(key);
        rows.push(Row { key, element })?;
    }
    Ok(())
}

/// Adds an arrow under what its ends name, once where both name the same.
fn add_ends<'a>(rows: &mut Vec<Row<'a>>, element: &'a Element) -> Result<(), AllocError>
    ensures { OnOk result (Adds words.has_end_at element.now rows.old.items rows.new.items) }
{
    if !is_arrow(element) {
        return Ok(());
    }
    match ends_of(element) {
        (Some(start), Some(end)) => {
            let key = Key::of(start);
            rows.push(Row { key, element })?;
            if start != end {
                let key = Key::of(end);
                rows.push(Row { key, element })?;
            }
        }
        (Some(key), None) => add_under(rows, Some(key), element)?,
        (None, Some(key)) => add_under(rows, Some(key), element)?,
        (None, None) => {}
    }
    Ok(())
}

/// What the two ends of an arrow name.
pub(crate) fn ends_of(e: &Element) -> (Option<&Text>, Option<&Text>)
    ensures start { option_copied result.0 ≡ words.target_of e.now.start_binding }
    ensures end_ { option_copied result.1 ≡ words.target_of e.now.end_binding }
{
    (target_of(&e.start_binding), target_of(&e.end_binding))
}

/// What an end names.
fn target_of(end: &Option<Binding>) -> Option<&Text>
    ensures { option_copied result ≡ words.target_of end.now }
{
    match end {
        Some(binding) => Some(&binding.target),
        None => None,
    }
}
