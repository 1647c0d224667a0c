//! Members in the order of their names.

ghost use Rattle.std.specs.Prelude.{◌≡◌, ◌≤◌, true, false, length, take, drop, ◌++◌, All, slice_get, option_copied, OnOk, bytes_eq};
ghost use Rattle.std.specs.Option.{option_map_or, option_and_then};
ghost use Rattle.frac_keys.specs.Keys.{bytes_less};
ghost use Rattle.frac_keys.specs.Rising.{are_rising};
ghost use Rattle.elem.specs.Facts.{names};
ghost use Rattle.delta.specs.Headers.{value_named};
ghost use Rattle.delta.specs.Rest.{value_if, with_value, without_first};

use json_text::{Member, Raw, Text};
use std::alloc::AllocError;

/// The value of the member of this name, if there is one.
pub(crate) fn find_value<'a>(members: &'a [Member], name: &Text) -> Option<&'a Raw>
    requires { are_rising (names members.now) ≡ true }
    ensures { option_copied result ≡ value_named name.now members.now }
{
    value_at(members, place_of(members, name), name)
}

/// The value of the member at the place, if it has this name.
fn value_at<'a>(members: &'a [Member], place: usize, name: &Text) -> Option<&'a Raw>
    ensures { option_copied result
        ≡ option_and_then (value_if name.now) (slice_get members.now place) }
{
    match members.get(place) {
        Some(member) if *name == member.name => Some(&member.value),
        _ => None,
    }
}

/// Gives the member of this name a value, or takes it away.
pub(crate) fn put_value(
    members: &mut Vec<Member>,
    name: &Text,
    value: Option<Raw>,
) -> Result<(), AllocError>
    requires { are_rising (names members.old.items) ≡ true }
    ensures { OnOk result (members.new.items ≡ with_value name.now value members.old.items) }
{
    let place = place_of(members, name);
    drop_named(members, place, name);
    if let Some(value) = value {
        let name = name.try_clone()?;
        members.insert(place, Member { name, value })?;
    }
    Ok(())
}

/// Takes the member at the place away, if it has this name.
fn drop_named(members: &mut Vec<Member>, place: usize, name: &Text)
    ensures { members.new.items ≡ take place members.old.items
        ++ without_first name.now (drop place members.old.items) }
{
    if is_named_at(members, place, name) {
        members.remove(place);
    }
}

/// Whether a member of this name is at the place.
fn is_named_at(members: &Vec<Member>, place: usize, name: &Text) -> bool
    ensures { result ≡ option_map_or (λ member. bytes_eq name.now member.name)
        (slice_get members.now.items place) false }
{
    match members.get(place) {
        Some(member) => *name == member.name,
        None => false,
    }
}

/// Where the members begin whose names aren't less.
pub(crate) fn place_of(members: &[Member], name: &Text) -> usize
    requires { are_rising (names members.now) ≡ true }
    ensures bound { result ≤ length members.now }
    ensures before { All (λ member. bytes_less member.name name.now ≡ true)
        (take result members.now) }
    ensures behind { All (λ member. bytes_less member.name name.now ≡ false)
        (drop result members.now) }
{
    members.partition_point(|member| is_less(&member.name, name))
}

/// Whether a name comes before another one.
fn is_less(name: &Text, other: &Text) -> bool
    ensures { result ≡ bytes_less name.now other.now }
{
    name.cmp(other).is_lt()
}
