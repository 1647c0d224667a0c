//! Members that get a value.

ghost use Rattle.std.specs.Prelude.{◌≡◌, Some, false, bytes_eq, length, ◌≤◌, slice_get, IfOk, OnOk};
ghost use Rattle.std.specs.List.{list_any, prefix_len};
ghost use Rattle.std.specs.Option.{option_map_or};
ghost use Rattle.json_text.specs.Value.{IsCompact};
ghost use Rattle.frac_keys.specs.Keys.{bytes_less};
ghost use Rattle.delta.specs.Rest.{with_value};
ghost use Rattle.effects.specs.Settings.{given_value, with_set_member, is_protected};

use board_base::List;
use elem::{Element, SharedMembers};
use json_text::{Member, Raw, Text};
use restore_table::default_of;
use scene_json::{is_null, is_one_of};
use std::alloc::{AllocError, Global};

/// The names of the members that no value can be given.
const PROTECTED: [&str; 15] = [
    "id",
    "type",
    "version",
    "versionNonce",
    "updated",
    "index",
    "isDeleted",
    "groupIds",
    "frameId",
    "boundElements",
    "boundElementIds",
    "containerId",
    "startBinding",
    "endBinding",
    "fileId",
];

/// Whether no value can be given to a member of this name.
pub(crate) fn is_protected(name: &Text) -> bool
    ensures { result ≡ is_protected name.now }
{
    is_one_of(name, &PROTECTED)
}

/// The element, whose member of this name gets the value, or, where that is null, the default.
pub(crate) fn with_member(
    alloc: Global,
    e: &Element,
    name: &Text,
    value: &Raw,
) -> Result<Element, AllocError>
    requires free { is_protected name.now ≡ false }
    requires nests { IsCompact 100 value.now }
    ensures { IfOk result (λ new. new ≡ with_set_member name.now value.now e.now) }
{
    let value = given_value(alloc, name, value)?;
    let mut members = e.rest.to_list(alloc)?.into_vec();
    put_value(&mut members, name, value)?;
    let rest = SharedMembers::new(alloc, List::from_vec(members))?;
    let mut changed = e.try_clone()?;
    changed.rest = rest;
    Ok(changed)
}

/// The value that a member gets: the default for null, where there is one.
fn given_value(alloc: Global, name: &Text, value: &Raw) -> Result<Raw, AllocError>
    requires { IsCompact 100 value.now }
    ensures value { IfOk result (λ given. given ≡ given_value name.now value.now) }
    ensures nests { IfOk result (IsCompact 100) }
{
    if is_null(value) {
        if let Some(default) = default_of(alloc, name)? {
            return Ok(default);
        }
    }
    value.try_clone()
}

/// Gives the member of this name a value.
fn put_value(members: &mut Vec<Member>, name: &Text, value: Raw) -> Result<(), AllocError>
    ensures { OnOk result (members.new.items ≡ with_value name.now (Some value) members.old.items) }
{
    let name = name.try_clone()?;
    let place = count_below(members, &name);
    if is_named_at(members, place, &name) {
        members[place] = Member { name, value };
    } else {
        members.insert(place, Member { name, value })?;
    }
    Ok(())
}

/// How many of the first members have lesser names.
fn count_below(members: &Vec<Member>, name: &Text) -> usize
    ensures count { result ≡ prefix_len
        (λ member. bytes_less member.name name.now) members.now.items }
    ensures bound { result ≤ length members.now.items }
{
    members
        .iter()
        .take_while(|member| is_below(member, name))
        .count()
}

/// Whether the name of a member is less than this one.
fn is_below(member: &Member, name: &Text) -> bool
    ensures { result ≡ bytes_less member.now.name name.now }
{
    member.name.cmp(name).is_lt()
}

/// Whether a member of this name is at the place.
fn is_named_at(members: &Vec<Member>, place: usize, name: &Text) -> bool
    ensures { result ≡ option_map_or (λ member. bytes_eq name.now member.name)
        (slice_get members.now.items place) false }
{
    match members.get(place) {
        Some(member) => *name == member.name,
        None => false,
    }
}
