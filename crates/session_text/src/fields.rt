//! The members of a session's texts, each of one form.

ghost use Rattle.std.specs.Prelude.{◌≡◌, ◌↔◌, Some, IfOk, IsTrue, MatchOption};
ghost use Rattle.std.specs.Result.{result_map_both};
ghost use Rattle.json_text.specs.Members.{pairs};
ghost use Rattle.elem_read.specs.Faults.{Lacks};
ghost use Rattle.elem.specs.Forms.{IsText, IsWholeNumber, IsObject};
ghost use Rattle.session_text.specs.Forms.{IsFrom, IsThere, IsArray, HasObject, IsShallow, AreIds, IsCapture, IsSide, IsSpot, IsRest};
ghost use Rattle.session_text.specs.Reads.{Or, MemberOf};
ghost use Rattle.session_text.specs.inner.Reads.{IsReadResult};
ghost use Rattle.session_text.specs.declared.fault.TextFault.TheVariants as faults;
ghost use Rattle.session_text.specs.declared.name.MemberName.TheVariants as names;

use crate::fault::TextFault;
use crate::name::MemberName;
use board_base::{List, Stop};
use board_commands::{Capture, Side, Spot};
use elem_read::{further_members, object_members};
use json_text::{Member, Raw, Text, first_occurrences};
use scene_json::{
    has_value, items, nests_at_most, shaped, text_named, texts_of, value_named, whole_named,
};
use std::alloc::{AllocError, Global};

/// How many brackets may be open at once in the value or the binding of a command.
const DEEPEST: u64 = 100;

/// The member of this name, a whole number. It takes no memory.
pub(crate) fn whole(members: &List<Member>, name: MemberName) -> Result<u64, Stop<TextFault>>
    ensures { IsReadResult (MemberOf name IsWholeNumber (pairs members.now)) result }
{
    match whole_named(members, name.word()) {
        Some(number) => Ok(number),
        None => Err(Stop::Fault(TextFault::Member(name))),
    }
}

/// The member of this name, a whole number from the least one on, below the limit. It takes no
/// memory.
pub(crate) fn number_from(
    members: &List<Member>,
    name: MemberName,
    least: u64,
    limit: u64,
) -> Result<u64, Stop<TextFault>>
    ensures { IsReadResult (MemberOf name (IsFrom least limit) (pairs members.now)) result }
{
    match whole_named(members, name.word()) {
        Some(number) if least <= number && number < limit => Ok(number),
        _ => Err(Stop::Fault(TextFault::Member(name))),
    }
}

/// The member of this name, a text.
pub(crate) fn text(
    alloc: Global,
    members: &List<Member>,
    name: MemberName,
) -> Result<Text, Stop<TextFault>>
    ensures { IsReadResult (MemberOf name IsText (pairs members.now)) result }
{
    match text_named(alloc, members, name.word())? {
        Some(text) => Ok(text),
        None => Err(Stop::Fault(TextFault::Member(name))),
    }
}

/// The member of this name, any value.
pub(crate) fn value(members: &List<Member>, name: MemberName) -> Result<Raw, Stop<TextFault>>
    ensures { IsReadResult (MemberOf name IsThere (pairs members.now)) result }
{
    match value_named(members, name.word()) {
        Some(value) => Ok(value.try_clone()?),
        None => Err(Stop::Fault(TextFault::Member(name))),
    }
}

/// The items of the member of this name, an array.
pub(crate) fn array(
    alloc: Global,
    members: &List<Member>,
    name: MemberName,
) -> Result<List<Raw>, Stop<TextFault>>
    ensures { IsReadResult (MemberOf name IsArray (pairs members.now)) result }
{
    let Some(value) = value_named(members, name.word()) else {
        return Err(Stop::Fault(TextFault::Member(name)));
    };
    match shaped(items(alloc, value))? {
        Some(items) => Ok(items),
        None => Err(Stop::Fault(TextFault::Member(name))),
    }
}

/// The members of the member of this name, an object.
pub(crate) fn object(
    alloc: Global,
    members: &List<Member>,
    name: MemberName,
) -> Result<List<Member>, Stop<TextFault>>
    ensures { IsReadResult (MemberOf name HasObject (pairs members.now))
        (result_map_both pairs (λ stop. stop) result) }
{
    let Some(value) = value_named(members, name.word()) else {
        return Err(Stop::Fault(TextFault::Member(name)));
    };
    match object_members(alloc, value)? {
        Some(members) => Ok(members),
        None => Err(Stop::Fault(TextFault::Member(name))),
    }
}

/// The members of the text, an object.
pub(crate) fn text_members(alloc: Global, text: &Raw) -> Result<List<Member>, Stop<TextFault>>
    ensures { IsReadResult (Or (IsObject text.now) faults.NotObject)
        (result_map_both pairs (λ stop. stop) result) }
{
    match object_members(alloc, text)? {
        Some(members) => Ok(members),
        None => Err(Stop::Fault(TextFault::NotObject)),
    }
}

/// The ids, each once.
pub(crate) fn ids(alloc: Global, members: &List<Member>) -> Result<List<Text>, Stop<TextFault>>
    ensures { IsReadResult (MemberOf names.Ids AreIds (pairs members.now)) result }
{
    let Some(value) = value_named(members, "ids") else {
        return Err(Stop::Fault(TextFault::Member(MemberName::Ids)));
    };
    match texts_of(alloc, value)? {
        Some(texts) => Ok(List::from_vec(first_occurrences(alloc, texts.as_slice())?)),
        None => Err(Stop::Fault(TextFault::Member(MemberName::Ids))),
    }
}

/// How a change is captured; now where nothing is said. It takes no memory.
#[tactic(auto, unfolding(json_text::specs::Characters::quote))]
pub(crate) fn capture(members: &List<Member>) -> Result<Capture, Stop<TextFault>>
    ensures { IsReadResult (MemberOf names.Capture IsCapture (pairs members.now)) result }
{
    let Some(value) = value_named(members, "capture") else {
        return Ok(Capture::Now);
    };
    if is(value, "\"now\"") {
        Ok(Capture::Now)
    } else if is(value, "\"later\"") {
        Ok(Capture::Later)
    } else if is(value, "\"never\"") {
        Ok(Capture::Never)
    } else {
        Err(Stop::Fault(TextFault::Member(MemberName::Capture)))
    }
}

/// The end of an arrow. It takes no memory.
#[tactic(auto, unfolding(json_text::specs::Characters::quote))]
pub(crate) fn side(members: &List<Member>) -> Result<Side, Stop<TextFault>>
    ensures { IsReadResult (MemberOf names.End IsSide (pairs members.now)) result }
{
    if has_value(members, "end", "\"start\"") {
        Ok(Side::Start)
    } else if has_value(members, "end", "\"end\"") {
        Ok(Side::End)
    } else {
        Err(Stop::Fault(TextFault::Member(MemberName::End)))
    }
}

/// The place in the order; the top where nothing is said.
pub(crate) fn spot(alloc: Global, members: &List<Member>) -> Result<Spot, Stop<TextFault>>
    ensures { IsReadResult (MemberOf names.Spot IsSpot (pairs members.now)) result }
{
    let Some(value) = value_named(members, "spot") else {
        return Ok(Spot::Top);
    };
    match spot_in(alloc, value)? {
        Some(spot) => Ok(spot),
        None => Err(Stop::Fault(TextFault::Member(MemberName::Spot))),
    }
}

/// The place in the order that the value is, if it is one.
#[tactic(auto, unfolding(json_text::specs::Characters::quote))]
fn spot_in(alloc: Global, value: &Raw) -> Result<Option<Spot>, AllocError>
    ensures { IfOk result (λ found. MatchOption found
        (Lacks (IsSpot (Some value.now))) (IsSpot (Some value.now))) }
{
    if is(value, "\"top\"") {
        return Ok(Some(Spot::Top));
    }
    if is(value, "\"bottom\"") {
        return Ok(Some(Spot::Bottom));
    }
    let Some(found) = object_members(alloc, value)? else {
        return Ok(None);
    };
    match text_named(alloc, &found, "after")? {
        Some(id) => Ok(Some(Spot::After(id))),
        None => Ok(None),
    }
}

/// Whether the value has this compact text.
fn is(value: &Raw, text: &str) -> bool
    ensures { IsTrue result ↔ (value.now ≡ text.now) }
{
    value.as_bytes() == text.as_bytes()
}

/// The value that a member gets. It nests at most 100.
pub(crate) fn shallow(members: &List<Member>) -> Result<Raw, Stop<TextFault>>
    ensures { IsReadResult (MemberOf names.Value IsShallow (pairs members.now)) result }
{
    match value_named(members, "value") {
        Some(value) if nests_at_most(value, DEEPEST) => Ok(value.try_clone()?),
        _ => Err(Stop::Fault(TextFault::Member(MemberName::Value))),
    }
}

/// The further members of the binding, which nests at most 100; none where nothing is said.
pub(crate) fn rest(alloc: Global, members: &List<Member>) -> Result<List<Member>, Stop<TextFault>>
    ensures { IsReadResult (MemberOf names.Binding IsRest (pairs members.now)) result }
{
    let Some(value) = value_named(members, "binding") else {
        return Ok(List::new(alloc));
    };
    match rest_in(alloc, value)? {
        Some(rest) => Ok(rest),
        None => Err(Stop::Fault(TextFault::Member(MemberName::Binding))),
    }
}

/// The further members of the binding that the value is, if it is one.
fn rest_in(alloc: Global, value: &Raw) -> Result<Option<List<Member>>, AllocError>
    ensures { IfOk result (λ found. MatchOption found
        (Lacks (IsRest (Some value.now))) (IsRest (Some value.now))) }
{
    if !nests_at_most(value, DEEPEST) {
        return Ok(None);
    }
    match object_members(alloc, value)? {
        Some(found) => Ok(Some(further_members(found)?)),
        None => Ok(None),
    }
}
