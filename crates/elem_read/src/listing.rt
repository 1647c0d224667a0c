//! Listings.

ghost use Rattle.std.specs.Prelude.{◌≡◌, codes, IfOk, OnOk, MatchOption};
ghost use Rattle.json_text.specs.Members.{pairs};
ghost use Rattle.scene_json.specs.Named.{value_at, HaveRisingNames};
ghost use Rattle.scene_json.specs.TheOne.{IsTheOne};
ghost use Rattle.elem.specs.Forms.{IsText, IsListingEntry, AreListingEntries, IsListing};
ghost use Rattle.elem.specs.Texts.{role_name};
ghost use Rattle.elem_read.specs.Faults.{Lacks};
ghost use Rattle.elem_read.specs.inner.Parts.{Reads, TakesEntry};
ghost use Rattle.elem_read.specs.declared.fault.ElemFault.TheVariants as faults;

use crate::fault::ElemFault;
use crate::near::value_near;
use crate::places::BOUND_ELEMENTS;
use board_base::{List, Stop};
use elem::{BoundRef, Role};
use json_text::{Member, Raw};
use members::Members;
use scene_json::{has_value, items, members, shaped, text_named};
use std::alloc::{AllocError, Global};

/// The listing: the entries of an array. What has another form is dropped.
pub(crate) fn listing(alloc: Global, members: &Members) -> Result<List<BoundRef>, Stop<ElemFault>>
    requires { HaveRisingNames (pairs members.now) }
    ensures { Reads (IsListing (value_at (codes "boundElements") (pairs members.now))) faults.Bound
        result }
{
    let Some(value) = value_near(members, "boundElements", BOUND_ELEMENTS)? else {
        return Err(Stop::Fault(ElemFault::Bound));
    };
    let Some(items) = shaped(items(alloc, &value))? else {
        return Err(Stop::Fault(ElemFault::Bound));
    };
    Ok(entries(alloc, &items)?)
}

/// The entries among the items.
fn entries(alloc: Global, items: &List<Raw>) -> Result<List<BoundRef>, AllocError>
    ensures { IfOk result (AreListingEntries items.now) }
{
    let mut entries = Vec::new(alloc);
    for item in items.as_slice() {
        push_entry(alloc, &mut entries, item)?;
    }
    Ok(List::from_vec(entries))
}

/// Appends the entry that the item is, if it is one.
fn push_entry(alloc: Global, entries: &mut Vec<BoundRef>, item: &Raw) -> Result<(), AllocError>
    ensures { OnOk result (TakesEntry item.now entries.old.items entries.new.items) }
{
    if let Some(entry) = entry(alloc, item)? {
        entries.push(entry)?;
        return Ok(());
    }
    Ok(())
}

/// The entry that the item is, if it is one.
fn entry(alloc: Global, item: &Raw) -> Result<Option<BoundRef>, AllocError>
    ensures { IfOk result (λ found. MatchOption found (Lacks (IsListingEntry item.now))
        (IsListingEntry item.now)) }
{
    let Some(members) = shaped(members(alloc, item))? else {
        return Ok(None);
    };
    let Some(role) = role(&members) else {
        return Ok(None);
    };
    match text_named(alloc, &members, "id")? {
        Some(id) => Ok(Some(BoundRef { id, role })),
        None => Ok(None),
    }
}

/// The role of an entry with these members, if it has one. It takes no memory.
fn role(members: &List<Member>) -> Option<Role>
    ensures { MatchOption result
        (Lacks (λ role. IsText (value_at (codes "type") (pairs members.now)) (role_name role)))
        (λ role. IsText (value_at (codes "type") (pairs members.now)) (role_name role)) }
{
    if has_value(members, "type", "\"arrow\"") {
        Some(Role::Arrow)
    } else if has_value(members, "type", "\"text\"") {
        Some(Role::Text)
    } else {
        None
    }
}
