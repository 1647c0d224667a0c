//! Bindings.

ghost use Rattle.std.specs.Prelude.{◌≡◌, All, IfOk, IfSome, codes, bytes_eq, map};
ghost use Rattle.std.specs.List.{IsDistinct};
ghost use Rattle.json_text.specs.Members.{pairs};
ghost use Rattle.json_text.specs.Parts.{AreMembers};
ghost use Rattle.json_text.specs.Value.{IsCompact};
ghost use Rattle.scene_json.specs.Named.{value_at};
ghost use Rattle.elem.specs.Facts.{IsBinding, AllNest};
ghost use Rattle.elem.specs.Forms.{find_in, AreOthers, IsBindingOrNull};
ghost use Rattle.elem.specs.Said.{IsOwn};
ghost use Rattle.elem_read.specs.inner.Parts.{Reads};
ghost use Rattle.elem_read.specs.declared.fault.ElemFault.TheVariants as faults;

use crate::fault::ElemFault;
use crate::near::value_first;
use crate::object::object_members;
use board_base::{List, Stop};
use elem::{Binding, SharedMembers};
use json_text::Member;
use members::Members;
use scene_json::{is_null, text_named};
use std::alloc::{AllocError, Global};

/// The member in which a binding names its target.
const TARGET: &str = "elementId";

/// The member of this name where the element's kind has it, a binding or none.
pub(crate) fn own_binding(
    alloc: Global,
    members: &Members,
    own: bool,
    name: &str,
) -> Result<Option<Binding>, Stop<ElemFault>>
    ensures { Reads (IsOwn own IsBindingOrNull (value_at name.now (pairs members.now)))
        faults.Binding result }
{
    if own {
        binding_or_null(alloc, members, name)
    } else {
        Ok(None)
    }
}

/// The member of this name, a binding, or none where it is null, missing or names no target.
fn binding_or_null(
    alloc: Global,
    given: &Members,
    name: &str,
) -> Result<Option<Binding>, Stop<ElemFault>>
    ensures { Reads (IsBindingOrNull (value_at name.now (pairs given.now))) faults.Binding result }
{
    let Some(value) = value_first(given, name)? else {
        return Ok(None);
    };
    if is_null(&value) {
        return Ok(None);
    }
    let Some(members) = object_members(alloc, &value)? else {
        return Err(Stop::Fault(ElemFault::Binding));
    };
    let Some(target) = text_named(alloc, &members, TARGET)? else {
        return Ok(None);
    };
    let rest = SharedMembers::new(alloc, further_members(members)?)?;
    Ok(Some(Binding { target, rest }))
}

/// The members of a binding but its target, in the order of the bytes of their names.
pub fn further_members(members: List<Member>) -> Result<List<Member>, AllocError>
    requires { IsDistinct bytes_eq (map (λ member. member.name) members) }
    ensures { IfOk result (AreOthers (bytes_eq (codes "elementId")) (find_in (pairs members))) }
{
    let mut rest = members.into_vec();
    rest.retain(|member| TARGET.as_bytes() != member.name.as_bytes());
    rest.sort_by(|a, b| a.name.cmp(&b.name))?;
    Ok(List::from_vec(rest))
}
