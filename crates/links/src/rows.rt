//! Rows of who names whom.

ghost use Rattle.std.specs.Prelude.{◌≡◌, ℕ, List as Items, ◌++◌, map, bytes_eq, IfOk, OnOk, option_copied};
ghost use Rattle.std.specs.List.{list_any, IsDistinct};
ghost use Rattle.json_text.specs.FirstOccurrences as first;
ghost use Rattle.links.specs.Rows as words;
ghost use Rattle.links.specs.Rows.{id_there, is_for, same_row};
ghost use Rattle.links.specs.Steps.{links_to, names_id};

use crate::names::ends_of;
use crate::parts::{container_of, frame_of, id_of};
use board_base::List;
use elem::Element;
use json_text::{Text, first_occurrences};
use std::alloc::{AllocError, Global};

/// That an element names another one, by their ids.
#[derive(Drop)]
pub struct LinkRow {
    pub named: Text,
    pub namer: Text,
}

/// A row for each id that the container, the frame or an end of an element names, each once. Fails
/// only for want of memory.
pub fn rows_of(alloc: Global, e: &Element) -> Result<List<LinkRow>, AllocError>
    ensures exact { IfOk result (λ rows. rows ≡ words.rows_of e.now) }
    ensures named { IfOk result (λ rows. (id : Items ℕ)
        → list_any (is_for id) rows ≡ names_id id e.now) }
    ensures distinct { IfOk result (λ rows. IsDistinct same_row rows) }
{
    let named = named_ids(alloc, e)?;
    Ok(List::from_vec(rows_for(alloc, named, e)?))
}

/// The ids that an element links to, its container's and those that its ends are bound to, in this
/// order: one id as often as it is named. Fails only for want of memory.
pub fn linked_ids(alloc: Global, e: &Element) -> Result<Vec<Text>, AllocError>
    ensures exact { IfOk result (λ ids. ids.items ≡ words.linked_ids e.now) }
    ensures linked { IfOk result (λ ids. (id : Items ℕ)
        → list_any (bytes_eq id) ids.items ≡ links_to id e.now) }
{
    let mut linked = Vec::new(alloc);
    let (start, end) = ends_of(e);
    push_id(&mut linked, container_of(e))?;
    push_id(&mut linked, start)?;
    push_id(&mut linked, end)?;
    Ok(linked)
}

/// A row for each of these ids that an element names.
fn rows_for(alloc: Global, named: Vec<Text>, e: &Element) -> Result<Vec<LinkRow>, AllocError>
    ensures { IfOk result (λ rows. rows.items ≡ map (words.row_of e.now) named.items) }
{
    let mut rows = Vec::with_capacity(alloc, named.len())?;
    for named in named {
        let namer = id_of(e).try_clone()?;
        rows.push(LinkRow { named, namer })?;
    }
    Ok(rows)
}

/// The ids that an element names, each once.
fn named_ids(alloc: Global, e: &Element) -> Result<Vec<Text>, AllocError>
    ensures { IfOk result (λ ids. ids.items ≡ words.named_ids e.now) }
{
    let mut ids = Vec::new(alloc);
    let (start, end) = ends_of(e);
    push_id(&mut ids, container_of(e))?;
    push_id(&mut ids, frame_of(e))?;
    push_id(&mut ids, start)?;
    push_id(&mut ids, end)?;
    first_occurrences(alloc, ids.as_slice())
}

/// Adds an id, if there is one.
fn push_id(ids: &mut Vec<Text>, id: Option<&Text>) -> Result<(), AllocError>
    ensures { OnOk result (ids.new.items ≡ ids.old.items ++ id_there (option_copied id.entry)) }
{
    if let Some(id) = id {
        ids.push(id.try_clone()?)?;
    }
    Ok(())
}
