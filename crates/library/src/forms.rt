//! The forms of an item's members.

ghost use Rattle.std.specs.Prelude.{◌≡◌, ◌↔◌, Err, IfOk, IsTrue};
ghost use Rattle.json_text.specs.Members.{pairs};
ghost use Rattle.scene_json.specs.Named.{value_at};
ghost use Rattle.elem.specs.Forms.{IsId, IsNull, IsTextOrNull};
ghost use Rattle.elem_read.specs.Faults.{Lacks};
ghost use Rattle.library.specs.inner.Found.{IsFoundAs};
ghost use Rattle.library.specs.Reading.{IsArray, IsStatus, IsTime};
ghost use Rattle.library.specs.declared.fault.ItemFault.{ItemFault};

use crate::fault::ItemFault;
use board_base::{List, Stop};
use json_text::{Member, Raw, Text};
use scene_json::{has_value, is_null, items, shaped, text_named, value_named, whole_named};
use std::alloc::{AllocError, Global};

/// The text that isn't empty under a name.
pub(crate) fn id_named(
    alloc: Global,
    members: &List<Member>,
    name: &str,
) -> Result<Option<Text>, AllocError>
    ensures { IfOk result (IsFoundAs (IsId (value_at name.now (pairs members.now)))) }
{
    match text_named(alloc, members, name)? {
        Some(text) if text.len() > 0 => Ok(Some(text)),
        _ => Ok(None),
    }
}

/// Whether an item is published, by the member of this name.
pub(crate) fn status_named(members: &List<Member>, name: &str) -> Option<bool>
    ensures { IsFoundAs (IsStatus (value_at name.now (pairs members.now))) result }
{
    if has_value(members, name, "\"published\"") {
        return Some(true);
    }
    if is_missing(members, name) || has_value(members, name, "\"unpublished\"") {
        return Some(false);
    }
    None
}

/// The time that the member of this name tells.
pub(crate) fn time_named(members: &List<Member>, name: &str) -> Option<u64>
    ensures { IsFoundAs (IsTime (value_at name.now (pairs members.now))) result }
{
    if is_missing(members, name) {
        return Some(0);
    }
    whole_named(members, name)
}

/// The text that the member of this name is, or none where it is missing.
pub(crate) fn text_or_null_named(
    alloc: Global,
    members: &List<Member>,
    name: &str,
    fault: ItemFault,
) -> Result<Option<Text>, Stop<ItemFault>>
    ensures read { IfOk result (IsTextOrNull (value_at name.now (pairs members.now))) }
    ensures fault { (told : ItemFault) → result ≡ Err (Stop.Fault told)
        → (told ≡ fault) × Lacks (IsTextOrNull (value_at name.now (pairs members.now))) }
{
    if is_missing(members, name) {
        return Ok(None);
    }
    match text_named(alloc, members, name)? {
        Some(text) => Ok(Some(text)),
        None => Err(Stop::Fault(fault)),
    }
}

/// The items of the array under a name.
pub(crate) fn array_named(
    alloc: Global,
    members: &List<Member>,
    name: &str,
) -> Result<Option<List<Raw>>, AllocError>
    ensures { IfOk result (IsFoundAs (IsArray (value_at name.now (pairs members.now)))) }
{
    match value_named(members, name) {
        Some(value) => shaped(items(alloc, value)),
        None => Ok(None),
    }
}

/// Whether the member of this name is missing or null.
fn is_missing(members: &List<Member>, name: &str) -> bool
    ensures { IsTrue result ↔ IsNull (value_at name.now (pairs members.now)) }
{
    match value_named(members, name) {
        Some(value) => is_null(value),
        None => true,
    }
}
