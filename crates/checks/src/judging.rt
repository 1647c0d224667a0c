//! A text is read as a scene, or its faults are told.

ghost use Rattle.std.specs.Prelude.{◌≡◌, ℕ, List as Items, IfOk, MatchOption, option_copied, codes};
ghost use Rattle.json_text.specs.Members.{pairs};
ghost use Rattle.scene_file.specs.Reading.{value_unless_null, HasItems, IsSceneFault};
ghost use Rattle.checks.specs.Reading.{is_of_element, AreVerdicts, HasValues, HasVerdicts, IsIdIn, IsJudged, IsVerdict};

use crate::judged::{Judged, Verdict};
use board_base::{List, Stop};
use elem_read::{object_members, read_element};
use json_text::{Member, Raw, Text};
use scene_file::{SceneFault, scene_of};
use scene_json::{is_null, items, shaped, text_named, value_named};
use std::alloc::{AllocError, Global};

/// What the text with this number is read as.
pub(crate) fn judged_of(alloc: Global, text: &Raw, number: u64) -> Result<Judged, AllocError>
    ensures { IfOk result (IsJudged number text.now) }
{
    match scene_of(alloc, text) {
        Ok(scene) => Ok(Judged::Whole(number, scene, verdicts_in(alloc, text)?)),
        Err(Stop::Fault(fault)) => faulty(alloc, text, number, fault),
        Err(Stop::Memory) => Err(AllocError),
    }
}

/// What the text with this number is read as, which has this first fault.
fn faulty(alloc: Global, text: &Raw, number: u64, fault: SceneFault) -> Result<Judged, AllocError>
    requires { IsSceneFault text.now fault }
    ensures { IfOk result (IsJudged number text.now) }
{
    if is_of_element(fault) {
        Ok(Judged::Flawed(number, verdicts_in(alloc, text)?))
    } else {
        Ok(Judged::Broken(number, fault))
    }
}

/// Whether a fault is one of an element.
fn is_of_element(fault: SceneFault) -> bool
    ensures { result ≡ is_of_element fault }
{
    matches!(fault, SceneFault::Element(_, _))
}

/// What the elements of a text are read as.
fn verdicts_in(alloc: Global, text: &Raw) -> Result<List<Verdict>, AllocError>
    requires { (values : Items (Items ℕ)) × HasValues text.now values }
    ensures { IfOk result (HasVerdicts text.now) }
{
    let Some(values) = values_in(alloc, text)? else {
        unreachable!();
    };
    verdicts_of(alloc, &values)
}

/// The elements of a text, if it is an object, and they are in an array or missing.
fn values_in(alloc: Global, text: &Raw) -> Result<Option<List<Raw>>, AllocError>
    ensures { IfOk result (λ found. MatchOption found
        ((values : Items (Items ℕ)) → HasValues text.now values → ⊥) (HasValues text.now)) }
{
    match object_members(alloc, text)? {
        Some(members) => items_given(alloc, &members),
        None => Ok(None),
    }
}

/// The items of the array under the name `elements`, none where it is missing. `None` where it is
/// no array.
fn items_given(alloc: Global, members: &List<Member>) -> Result<Option<List<Raw>>, AllocError>
    ensures { IfOk result (λ found. MatchOption found
        ((values : Items (Items ℕ))
        → HasItems (value_unless_null (codes "elements") (pairs members.now)) values → ⊥)
        (HasItems (value_unless_null (codes "elements") (pairs members.now)))) }
{
    match given(members) {
        Some(value) => shaped(items(alloc, value)),
        None => Ok(Some(List::new(alloc))),
    }
}

/// The value under the name `elements`; null counts as missing.
fn given(members: &List<Member>) -> Option<&Raw>
    ensures { option_copied result ≡ value_unless_null (codes "elements") (pairs members.now) }
{
    match value_named(members, "elements") {
        Some(value) if !is_null(value) => Some(value),
        _ => None,
    }
}

/// What each of the values is read as.
fn verdicts_of(alloc: Global, values: &List<Raw>) -> Result<List<Verdict>, AllocError>
    ensures { IfOk result (AreVerdicts 0 values.now) }
{
    let mut verdicts = Vec::new(alloc);
    for (place, value) in values.as_slice().iter().enumerate() {
        verdicts.push(verdict_of(alloc, value, place as u64)?)?;
    }
    Ok(List::from_vec(verdicts))
}

/// What the value at this place is read as.
fn verdict_of(alloc: Global, value: &Raw, place: u64) -> Result<Verdict, AllocError>
    ensures { IfOk result (IsVerdict place value.now) }
{
    match read_element(alloc, value) {
        Ok(None) => Ok(Verdict::Dropped),
        Ok(Some(_)) => match object_members(alloc, value)? {
            Some(members) => Ok(Verdict::Read(place, members)),
            None => unreachable!(),
        },
        Err(Stop::Fault(fault)) => Ok(Verdict::Faulty(place, fault, id_in(alloc, value)?)),
        Err(Stop::Memory) => Err(AllocError),
    }
}

/// The text that the value's object has for an id.
fn id_in(alloc: Global, value: &Raw) -> Result<Option<Text>, AllocError>
    ensures { IfOk result (IsIdIn value.now) }
{
    match object_members(alloc, value)? {
        Some(members) => text_named(alloc, &members, "id"),
        None => Ok(None),
    }
}
