//! The changed elements of a command.

ghost use Rattle.std.specs.Prelude.{◌≡◌, [], ◌∷◌, None, true, Contains, IfErr, IfOk};
ghost use Rattle.std.specs.Cmp.Lexicographic.{slice_cmp};
ghost use Rattle.std.specs.Ordering.{nat_cmp};
ghost use Rattle.frac_keys.specs.Rising.{are_rising};
ghost use Rattle.elem.specs.ElementValue.{ElementValue};
ghost use Rattle.elem.specs.Order.{HaveDistinctIds};
ghost use Rattle.elem_store.specs.Updates.{element_of, ids_of};
ghost use Rattle.board_commands.specs.Limits.{IsWithinLimits};
ghost use Rattle.effects.specs.Changed as changes;
ghost use Rattle.effects.specs.Changed.{OnFault, outcome};
ghost use Rattle.effects.specs.Lookups.{IsLookup};

use crate::concerning::concerned;
use crate::copying::{as_new, copies_at, shown_among};
use crate::lookup::Lookup;
use crate::placing::{key_at, with_index};
use crate::preparing::prepared;
use crate::refusal::Refusal;
use crate::refusing::check;
use crate::walking::changes_of;
use board_base::{List, Stop};
use board_commands::{Command, Spot};
use elem::{Element, Stamp};
use std::alloc::{AllocError, Global};
use std::cmp::Ordering;

/// The elements that a command changes on a board, as they become, in the order of their ids; or
/// why it is refused. Each that changes has this stamp. The board itself stays: whoever calls
/// stores the elements. It looks only at the elements that the command names, at those that name
/// them or are named by them, and, where keys or names may be unsettled, at these.
pub fn changed(
    alloc: Global,
    lookup: &Lookup<'_>,
    command: &Command,
    stamp: Stamp,
) -> Result<List<Element>, Stop<Refusal>>
    requires limits { IsWithinLimits command.now }
    requires lookup { IsLookup lookup.now }
    ensures exact { IfOk result (λ changed.
        outcome lookup.now.store.now.elements lookup.now.shown.now command.now
        stamp.time stamp.nonce ≡ Ok changed) }
    ensures refused { IfErr result (λ stop. OnFault stop (λ refusal.
        outcome lookup.now.store.now.elements lookup.now.shown.now command.now
        stamp.time stamp.nonce ≡ Err refusal)) }
{
    check(alloc, lookup, command)?;
    let effect = prepared(alloc, lookup, command)?;
    let ids = concerned(alloc, lookup, &effect)?;
    let changed = changes_of(alloc, lookup.store, &effect, &ids, stamp)?;
    let new = created(alloc, lookup, command, stamp)?;
    let all = with_created(changed, new)?;
    Ok(List::from_vec(all))
}

/// The new elements of a command.
fn created(
    alloc: Global,
    lookup: &Lookup<'_>,
    command: &Command,
    stamp: Stamp,
) -> Result<List<Element>, AllocError>
    requires lookup { IsLookup lookup.now }
    ensures { IfOk result (λ new. new ≡ changes.created lookup.now.shown.now command.now
        stamp.time stamp.nonce) }
{
    match command {
        Command::Create { element, spot } => created_at(alloc, lookup, element, spot, stamp),
        Command::Duplicate { ids, prefix, spot } => {
            let originals = shown_among(alloc, lookup, ids)?;
            copies_at(alloc, lookup, &originals, prefix, spot, stamp)
        }
        Command::Paste {
            elements,
            prefix,
            spot,
        } => copies_at(alloc, lookup, elements, prefix, spot, stamp),
        _ => Ok(List::new(alloc)),
    }
}

/// The new element alone, with a key at the spot.
fn created_at(
    alloc: Global,
    lookup: &Lookup<'_>,
    e: &Element,
    spot: &Spot,
    stamp: Stamp,
) -> Result<List<Element>, AllocError>
    requires lookup { IsLookup lookup.now }
    ensures { IfOk result
        (λ new. new ≡ changes.created_at lookup.now.shown.now e.now spot.now stamp.time stamp.nonce
        ∷ []) }
{
    let key = key_at(alloc, lookup, spot, None, &None)?;
    let new = with_index(as_new(e.try_clone()?, stamp), key);
    let mut list = Vec::new(alloc);
    list.push(new)?;
    Ok(List::from_vec(list))
}

/// The elements in the order of their ids, new ones too.
fn with_created(mut changed: Vec<Element>, new: List<Element>) -> Result<Vec<Element>, AllocError>
    requires rise { are_rising (ids_of changed.items) ≡ true }
    requires distinct { HaveDistinctIds new }
    requires apart { (e : ElementValue) → Contains new e → element_of changed.items e.id ≡ None }
    ensures { IfOk result (λ all. all.items ≡ changes.with_created new changed.items) }
{
    let mut new = new.into_vec();
    changed.append(&mut new)?;
    changed.sort_by(id_order)?;
    Ok(changed)
}

/// How the ids of two elements compare.
fn id_order(e: &Element, other: &Element) -> Ordering
    ensures { result ≡ slice_cmp nat_cmp e.now.id other.now.id }
{
    e.id.cmp(&other.id)
}
