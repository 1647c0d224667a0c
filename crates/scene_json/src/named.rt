//! Members of an object by their names.

ghost use Rattle.std.specs.Prelude.{◌≡◌, ◌↔◌, ◌≤◌, ℕ, List as Items, Some, IfOk, OnErr, IsTrue, decimal, option_copied, bytes_eq};
ghost use Rattle.std.specs.List.{list_any};
ghost use Rattle.std.specs.Str.{IsUtf8};
ghost use Rattle.json_text.specs.Characters.{quote};
ghost use Rattle.json_text.specs.Members.{pairs};
ghost use Rattle.scene_json.specs.Named.{value_at};
ghost use Rattle.scene_json.specs.TheOne.{IsTheOne};

use crate::parts::{Shape, text_of};
use crate::scalar::{GREATEST_WHOLE, whole_of};
use board_base::{List, Stop};
use json_text::{Member, Raw, Text};
use std::alloc::{AllocError, Global};

/// The value of the first member with this name, if there is one. It takes no memory.
#[tactic(auto, using(crate::proofs::Lookups::lookup_steps))]
pub fn value_named<'a>(members: &'a List<Member>, name: &str) -> Option<&'a Raw>
    ensures { option_copied result ≡ value_at name.now (pairs members.now) }
{
    for member in members.as_slice() {
        if is(&member.name, name) {
            return Some(&member.value);
        }
    }
    None
}

/// Whether the first member with this name has the value of this compact text. It takes no memory.
pub fn has_value(members: &List<Member>, name: &str, text: &str) -> bool
    ensures { IsTrue result ↔ (value_at name.now (pairs members.now) ≡ Some text.now) }
{
    match value_named(members, name) {
        Some(value) => value.as_bytes() == text.as_bytes(),
        None => false,
    }
}

/// The whole number that the member with this name is, if it is one. It takes no memory.
pub fn whole_named(members: &List<Member>, name: &str) -> Option<u64>
    ensures { IsTheOne
        (λ (n : ℕ). (n ≤ GREATEST_WHOLE)
        × (value_at name.now (pairs members.now) ≡ Some (decimal n))) result }
{
    whole_of(value_named(members, name)?)
}

/// The text that the member with this name is a string of, if it is one.
pub fn text_named(
    alloc: Global,
    members: &List<Member>,
    name: &str,
) -> Result<Option<Text>, AllocError>
    ensures { IfOk result (IsTheOne
        (λ (text : Items ℕ). IsUtf8 text
        × (value_at name.now (pairs members.now) ≡ Some (quote text)))) }
{
    let Some(value) = value_named(members, name) else {
        return Ok(None);
    };
    shaped(text_of(alloc, value))
}

/// What was found, or none where the value is of another form.
pub fn shaped<T>(found: Result<T, Stop<Shape>>) -> Result<Option<T>, AllocError>
    ensures found { (x : T) → result ≡ Ok (Some x) → found ≡ Ok x }
    ensures none { result ≡ Ok None → found ≡ Err (Stop.Fault (record {})) }
    ensures memory { OnErr result (found ≡ Err Stop.Memory) }
{
    match found {
        Ok(found) => Ok(Some(found)),
        Err(Stop::Fault(Shape)) => Ok(None),
        Err(Stop::Memory) => Err(AllocError),
    }
}

/// Whether the name is one of these. It takes no memory.
pub fn is_one_of(name: &Text, names: &[&str]) -> bool
    ensures { result ≡ list_any (λ known. bytes_eq name.now known.now) names.now }
{
    names.iter().any(|known| is(name, known))
}

/// Whether the name is this one. Most are of another length, and so not compared.
fn is(name: &Text, known: &str) -> bool
    ensures told { result ≡ bytes_eq name.now known.now }
    ensures turned { result ≡ bytes_eq known.now name.now }
{
    name.len() == known.as_bytes().len() && name.as_bytes() == known.as_bytes()
}
