//! The compact text of a binding, and the binding of such a text.

ghost use Rattle.std.specs.Prelude.{◌≡◌, ℕ, List as Items, Option, Some, true, IfOk, IfSome};
ghost use Rattle.json_text.specs.Characters.{quote};
ghost use Rattle.json_text.specs.Compact.{Member as Pair, object_text};
ghost use Rattle.json_text.specs.Members.{pairs};
ghost use Rattle.json_text.specs.Parts.{AreMembers};
ghost use Rattle.json_text.specs.Value.{IsCompact};
ghost use Rattle.frac_keys.specs.Rising.{are_rising};
ghost use Rattle.elem.specs.declared.parts.Binding.{Binding};
ghost use Rattle.elem.specs.Facts.{IsBinding, names};
ghost use Rattle.elem.specs.Texts.{binding_text};
ghost use Rattle.delta.specs.Headers.{value_named};

use crate::rest::{find_value, put_value};
use board_base::{List, Stop};
use elem::{Binding, SharedMembers};
use json_text::{Member, Raw, Text};
use scene_json::{is_null, members, raw_null, raw_object, raw_text, text_of};
use std::alloc::{AllocError, Global};

/// The object of a binding, its members in the order of their names, or null where there is none.
pub(crate) fn binding_raw(alloc: Global, binding: &Option<Binding>) -> Result<Raw, AllocError>
    requires { IfSome binding.now IsBinding }
    ensures text { IfOk result (λ raw. raw ≡ binding_text binding.now) }
    ensures nests { IfOk result (IsCompact 119) }
{
    let Some(binding) = binding else {
        return raw_null(alloc);
    };
    let mut members = binding.rest.to_list(alloc)?.into_vec();
    let name = Text::from_str(alloc, "elementId")?;
    let target = raw_text(alloc, &binding.target)?;
    put_value(&mut members, &name, Some(target))?;
    raw_object(alloc, &List::from_vec(members))
}

/// The binding of such a text, or none where it is null.
pub(crate) fn binding_of(alloc: Global, value: &Raw) -> Result<Option<Binding>, AllocError>
    requires { (binding : Option Binding) × IfSome binding IsBinding
        × (value.now ≡ binding_text binding) }
    ensures text { IfOk result (λ found. binding_text found ≡ value.now) }
    ensures is_binding { IfOk result (λ found. IfSome found IsBinding) }
{
    if is_null(value) {
        return Ok(None);
    }
    let mut rest = object_members(alloc, value)?;
    let name = Text::from_str(alloc, "elementId")?;
    let target = target_in(alloc, &rest, &name)?;
    put_value(&mut rest, &name, None)?;
    let further = SharedMembers::new(alloc, List::from_vec(rest))?;
    Ok(Some(Binding {
        target,
        rest: further,
    }))
}

/// The members of an object.
fn object_members(alloc: Global, value: &Raw) -> Result<Vec<Member>, AllocError>
    requires { (all : Items Pair) × (value.now ≡ object_text all) }
    ensures spelled { IfOk result (λ found. value.now ≡ object_text (pairs found.items)) }
    ensures are_members { IfOk result (λ found. AreMembers 127 (pairs found.items)) }
{
    match members(alloc, value) {
        Ok(found) => Ok(found.into_vec()),
        Err(Stop::Memory) => Err(AllocError),
        Err(Stop::Fault(_)) => unreachable!(),
    }
}

/// The text that the member of this name is a string of.
fn target_in(alloc: Global, members: &Vec<Member>, name: &Text) -> Result<Text, AllocError>
    requires rise { are_rising (names members.now.items) ≡ true }
    requires string { (text : Items ℕ)
        × (value_named name.now members.now.items ≡ Some (quote text)) }
    ensures { IfOk result (λ found. value_named name.now members.now.items ≡ Some (quote found)) }
{
    match find_value(members, name) {
        Some(value) => text_in(alloc, value),
        None => unreachable!(),
    }
}

/// The text of a string.
pub(crate) fn text_in(alloc: Global, value: &Raw) -> Result<Text, AllocError>
    requires { (text : Items ℕ) × (value.now ≡ quote text) }
    ensures { IfOk result (λ found. value.now ≡ quote found) }
{
    match text_of(alloc, value) {
        Ok(found) => Ok(found),
        Err(Stop::Memory) => Err(AllocError),
        Err(Stop::Fault(_)) => unreachable!(),
    }
}
