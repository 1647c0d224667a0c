//! A view made anew.

ghost use Rattle.std.specs.Prelude.{◌≡◌, true, IfOk};
ghost use Rattle.std.specs.List.{list_all};
ghost use Rattle.frac_keys.specs.Rising.{are_rising};
ghost use Rattle.elem_store.specs.Updates.{ids_of};
ghost use Rattle.links.specs.Rows.{has_row};
ghost use Rattle.view.specs.Kept.{HaveRowsOf};
ghost use Rattle.view.specs.Settled.{settled};
ghost use Rattle.elem.specs.Order.{HaveDistinctIds};
ghost use Rattle.index_repair.specs.Keyed.{HaveKeysOrNone};
ghost use Rattle.view.specs.Shown.{is_live, live_elements, placed, shown};

use crate::kept::Kept;
use crate::order;
use crate::replacing::rows_of_all;
use crate::sharing::{all_shared, all_shared_with};
use crate::unsettled::unsettled_of;
use board_base::List;
use elem::{Element, SharedElement};
use elem_store::Store;
use frames_groups::{settle_frames, settle_groups};
use index_repair::with_repaired_keys;
use links::{LinkRow, LinkTable, settle_arrows, settle_texts};
use std::alloc::{AllocError, Global};
use std::cmp::Ordering;

/// What is kept of a store. Fails only for want of memory.
pub(crate) fn kept_of(alloc: Global, store: &Store) -> Result<Kept, AllocError>
    ensures { IfOk result (λ kept. kept ≡ live_elements store.now.elements) }
{
    let stored = live_of(alloc, store)?;
    let shown = shown_of(alloc, List::from_vec(elements_copied(alloc, &stored)?))?;
    let live = all_shared(alloc, stored)?;
    let shown = all_shared_with(alloc, &live, shown.into_vec())?;
    let table = table_of(alloc, &live)?;
    let unsettled = unsettled_of(alloc, &live, &shown)?;
    Ok(Kept {
        live,
        shown,
        table,
        unsettled,
    })
}

/// The table of who names whom.
pub(crate) fn table_of(alloc: Global, live: &Vec<SharedElement>) -> Result<LinkTable, AllocError>
    requires { HaveDistinctIds live.now.items }
    ensures { IfOk result (λ table. HaveRowsOf live.now.items table.rows) }
{
    let rows = in_order(rows_of_all(alloc, live)?)?;
    let mut table = LinkTable::new(alloc);
    table.reserve(rows.as_slice().len())?;
    table.replace(&List::new(alloc), rows);
    Ok(table)
}

/// The rows in the order of a table, in which each of them is then put behind all others.
fn in_order(rows: List<LinkRow>) -> Result<List<LinkRow>, AllocError>
    ensures { IfOk result (λ ordered. (row : LinkRow) → has_row ordered row ≡ has_row rows row) }
{
    let mut rows = rows.into_vec();
    rows.sort_by(row_order)?;
    Ok(List::from_vec(rows))
}

/// The order of rows: by the named id, and then by the namer.
fn row_order(row: &LinkRow, other: &LinkRow) -> Ordering {
    row.named
        .cmp(&other.named)
        .then(row.namer.cmp(&other.namer))
}

/// The live elements of a store, in the order of their ids.
fn live_of(alloc: Global, store: &Store) -> Result<Vec<Element>, AllocError>
    ensures exact { IfOk result (λ live. live.items ≡ live_elements store.now.elements) }
    ensures ordered { IfOk result (λ _. are_rising (ids_of store.now.elements) ≡ true) }
{
    let mut live = Vec::new(alloc);
    for i in 0..store.len() {
        if let Some(e) = store.at(i) {
            if is_live(e) {
                live.push(e.try_clone()?)?;
            }
        }
    }
    Ok(live)
}

/// Whether none of the elements is deleted.
pub(crate) fn are_live(elements: &Vec<SharedElement>) -> bool
    ensures { result ≡ list_all is_live elements.now.items }
{
    elements.iter().all(is_shared_live)
}

/// Whether an element isn't deleted.
fn is_shared_live(e: &SharedElement) -> bool
    ensures { result ≡ is_live e.now }
{
    is_live(e.get())
}

/// The same.
fn is_live(e: &Element) -> bool
    ensures { result ≡ is_live e.now }
{
    !e.deleted
}

/// Copies of the elements.
fn elements_copied(alloc: Global, elements: &Vec<Element>) -> Result<Vec<Element>, AllocError>
    ensures { IfOk result (λ copies. copies.items ≡ elements.now.items) }
{
    let mut copies = Vec::with_capacity(alloc, elements.len())?;
    for e in elements {
        copies.push(e.try_clone()?)?;
    }
    Ok(copies)
}

/// What is shown of the live elements: they are placed, and then settled.
#[tactic(auto, unfolding(view::specs::Shown::shown))]
fn shown_of(alloc: Global, live: List<Element>) -> Result<List<Element>, AllocError>
    requires { HaveDistinctIds live }
    ensures exact { IfOk result (λ new. new ≡ shown live) }
    ensures keys { IfOk result (λ _. HaveKeysOrNone live) }
{
    settled_of(alloc, placed_of(alloc, live)?)
}

/// The elements, which are in scene order, with their texts, arrows, frames and groups settled.
#[tactic(auto, unfolding(view::specs::Settled::settled))]
pub(crate) fn settled_of(
    alloc: Global,
    elements: List<Element>,
) -> Result<List<Element>, AllocError>
    requires { HaveDistinctIds elements }
    ensures { IfOk result (λ new. new ≡ settled elements) }
{
    let elements = settle_texts(alloc, elements)?;
    let elements = settle_arrows(alloc, elements)?;
    let elements = settle_frames(alloc, elements)?;
    settle_groups(alloc, elements)
}

/// The elements in scene order, with repaired keys.
fn placed_of(alloc: Global, live: List<Element>) -> Result<List<Element>, AllocError>
    requires { HaveDistinctIds live }
    ensures exact { IfOk result (λ new. new ≡ placed live) }
    ensures distinct { IfOk result HaveDistinctIds }
    ensures keys { IfOk result (λ _. HaveKeysOrNone live) }
{
    let mut elements = live.into_vec();
    order::sort(&mut elements)?;
    Ok(List::from_vec(with_repaired_keys(alloc, elements)?))
}
