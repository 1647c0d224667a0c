//! Header members, found near the place where they stand in most elements.

ghost use Rattle.std.specs.Prelude.{◌≡◌, ◌≤◌, ◌↔◌, ℕ, List as Items, Bool, Some, IfOk, IsTrue, if◌then◌else◌, decimal, bytes_eq};
ghost use Rattle.std.specs.Str.{IsUtf8};
ghost use Rattle.json_text.specs.Characters.{quote};
ghost use Rattle.json_text.specs.Members.{pairs};
ghost use Rattle.json_text.specs.Tree.{true_word, false_word};
ghost use Rattle.scene_json.specs.Named.{value_at, HaveRisingNames};
ghost use Rattle.scene_json.specs.TheOne.{IsTheOne};

use json_text::{Raw, Text};
use members::Members;
use scene_json::{GREATEST_WHOLE, shaped, text_of, truth_of, whole_of};
use std::alloc::{AllocError, Global};

/// The value of the member of this name, if there is one. It is sought from the place on, and then
/// from the front. No byte is copied.
pub(crate) fn value_near(
    members: &Members,
    name: &str,
    place: usize,
) -> Result<Option<Raw>, AllocError>
    requires { HaveRisingNames (pairs members.now) }
    ensures { IfOk result (λ found. found ≡ value_at name.now (pairs members.now)) }
{
    for at in place..members.len() {
        if is(members.name(at), name) {
            return Ok(Some(members.to_value(at)?));
        }
    }
    value_first(members, name)
}

/// The value of the first member of this name, if there is one. No byte is copied.
pub(crate) fn value_first(members: &Members, name: &str) -> Result<Option<Raw>, AllocError>
    ensures { IfOk result (λ found. found ≡ value_at name.now (pairs members.now)) }
{
    for at in 0..members.len() {
        if is(members.name(at), name) {
            return Ok(Some(members.to_value(at)?));
        }
    }
    Ok(None)
}

/// Whether the first member of this name has the value of this compact text.
pub(crate) fn has_value(members: &Members, name: &str, text: &str) -> Result<bool, AllocError>
    ensures { IfOk result (λ has. IsTrue has
        ↔ (value_at name.now (pairs members.now) ≡ Some text.now)) }
{
    match value_first(members, name)? {
        Some(value) => Ok(value.as_bytes() == text.as_bytes()),
        None => Ok(false),
    }
}

/// Whether the name is this one. Most are of another length, and so not compared.
fn is(name: &[u8], known: &str) -> bool
    ensures { result ≡ bytes_eq known.now name.now }
{
    name.len() == known.as_bytes().len() && known.as_bytes() == name
}

/// The text that the member of this name is a string of, if it is one.
pub(crate) fn text_near(
    alloc: Global,
    members: &Members,
    name: &str,
    place: usize,
) -> Result<Option<Text>, AllocError>
    requires { HaveRisingNames (pairs members.now) }
    ensures { IfOk result (IsTheOne
        (λ (text : Items ℕ). IsUtf8 text
        × (value_at name.now (pairs members.now) ≡ Some (quote text)))) }
{
    let Some(value) = value_near(members, name, place)? else {
        return Ok(None);
    };
    shaped(text_of(alloc, &value))
}

/// The whole number that the member of this name is, if it is one.
pub(crate) fn whole_near(
    members: &Members,
    name: &str,
    place: usize,
) -> Result<Option<u64>, AllocError>
    requires { HaveRisingNames (pairs members.now) }
    ensures { IfOk result (IsTheOne
        (λ (n : ℕ). (n ≤ GREATEST_WHOLE)
        × (value_at name.now (pairs members.now) ≡ Some (decimal n)))) }
{
    match value_near(members, name, place)? {
        Some(value) => Ok(whole_of(&value)),
        None => Ok(None),
    }
}

/// The truth that the member of this name is, if it is one.
pub(crate) fn truth_near(
    members: &Members,
    name: &str,
    place: usize,
) -> Result<Option<bool>, AllocError>
    requires { HaveRisingNames (pairs members.now) }
    ensures { IfOk result (IsTheOne (λ (truth : Bool).
        value_at name.now (pairs members.now) ≡ Some (if truth then true_word else false_word))) }
{
    match value_near(members, name, place)? {
        Some(value) => Ok(truth_of(&value)),
        None => Ok(None),
    }
}
