//! Taking values apart.

ghost use Rattle.std.specs.Prelude.{◌≡◌, ◌≢◌, ◌-◌, ◌<◌, ◌≤◌, ◌^◌, ◌↔◌, ℕ, List as Items, [], ◌∷◌, ◌++◌, length, take, drop, false, Some, option_copied, IsTrue, IfOk, IfSome, MatchOption, OnErr};
ghost use Rattle.std.specs.Str.{IsUtf8};
ghost use Rattle.std.specs.List.{AllByRecursion, prefix_len};
ghost use Rattle.json_text.specs.Characters.{quote, ends_value, is_inert};
ghost use Rattle.json_text.specs.Compact.{Member as Pair, array_text, object_text};
ghost use Rattle.json_text.specs.Members.{pairs};
ghost use Rattle.json_text.specs.Parts.{AreMembers};
ghost use Rattle.json_text.specs.Value.{IsCompact};
ghost use Rattle.scene_json.specs.inner.Passes.{Compacted, EndsAt, StandHere, HaveEnded, GoesOn};
ghost use Rattle.scene_json.specs.Walks.{AreLeft, AreBehind, AreTakenTo, IsTakenApart};

use crate::nesting::{after_opened, after_quiet, after_string};
use board_base::{List, Stop};
use json_text::{FEW_MEMBERS, Member, Raw, Text, inert_end, run_end, text_at};
use members::{Members, Place};
use std::alloc::{AllocError, Global};
use std::marker::Model;

/// The value is of another form.
#[derive(Clone, Copy, Debug, PartialEq, Eq)]
pub struct Shape;

/// The text of a string. `Shape` comes exactly where the value is no string.
pub fn text_of(alloc: Global, value: &Raw) -> Result<Text, Stop<Shape>>
    ensures spelled { IfOk result (λ found. value.now ≡ quote found) }
    ensures only { IfOk result (λ found. (other : Items ℕ) → IsUtf8 other → value.now ≡ quote other
        → found ≡ other) }
    ensures shape { result ≡ Err (Stop.Fault (record {})) → (other : Items ℕ)
        → value.now ≢ quote other }
{
    let bytes = value.as_bytes();
    if !begins_with(bytes, b'"') {
        return Err(Stop::Fault(Shape));
    }
    let (text, _end) = text_at(alloc, value, 0)?;
    Ok(text)
}

/// Whether this is the first byte.
fn begins_with(bytes: &[u8], first: u8) -> bool
    ensures yes { IsTrue result → (more : Items ℕ) × (bytes.now ≡ first ∷ more) }
    ensures no { result ≡ false → (more : Items ℕ) → bytes.now ≢ first ∷ more }
{
    match bytes.split_first() {
        Some((byte, _more)) => *byte == first,
        None => false,
    }
}

/// The items of an array, in their order. `Shape` comes exactly where the value is no array.
pub fn items(alloc: Global, value: &Raw) -> Result<List<Raw>, Stop<Shape>>
    ensures spelled { IfOk result (λ found. value.now ≡ array_text found) }
    ensures compact { IfOk result (λ found. AllByRecursion (IsCompact 127) found) }
    ensures only { IfOk result (λ found. (others : Items (Items ℕ))
        → AllByRecursion (IsCompact 127) others
        → value.now ≡ array_text others → found ≡ others) }
    ensures shape { result ≡ Err (Stop.Fault (record {})) → (others : Items (Items ℕ))
        → value.now ≢ array_text others }
{
    let bytes = value.as_bytes();
    if !begins_with(bytes, b'[') {
        return Err(Stop::Fault(Shape));
    }
    let mut found = Vec::new(alloc);
    let mut at = 1;
    while bytes[at] != b']' {
        let end = next_end(bytes, at);
        found.push(value.cut(at, end)?)?;
        at = past_comma(bytes, end);
    }
    Ok(List::from_vec(found))
}

/// The members of an object, in their order. `Shape` comes exactly where the value is no object.
pub fn members(alloc: Global, value: &Raw) -> Result<List<Member>, Stop<Shape>>
    ensures spelled { IfOk result (λ found. value.now ≡ object_text (pairs found)) }
    ensures kept { IfOk result (λ found. AreMembers 127 (pairs found)) }
    ensures only { IfOk result (λ found. (others : Items Pair) → AreMembers 127 others
        → value.now ≡ object_text others → pairs found ≡ others) }
    ensures shape { result ≡ Err (Stop.Fault (record {})) → (others : Items Pair)
        → value.now ≢ object_text others }
{
    if !begins_with(value.as_bytes(), b'{') {
        return Err(Stop::Fault(Shape));
    }
    let mut found = Vec::new(alloc);
    push_members(alloc, &mut found, value, 1, None)?;
    Ok(List::from_vec(found))
}

/// The members of an object before the one of this name whose value is an array, and a walk over
/// the array's items; or all members where there is none. `Shape` comes exactly where the value is
/// no object.
pub fn members_to<'a>(
    alloc: Global,
    value: &'a Raw,
    name: &str,
) -> Result<(List<Member>, Option<Objects<'a>>), Stop<Shape>>
    ensures taken { IfOk result (λ found. AreTakenTo name.now value.now (pairs found.0) found.1) }
    ensures shape { result ≡ Err (Stop.Fault (record {})) → (others : Items Pair)
        → value.now ≢ object_text others }
{
    let bytes = value.as_bytes();
    if !begins_with(bytes, b'{') {
        return Err(Stop::Fault(Shape));
    }
    let mut found = Vec::new(alloc);
    let end = push_members(alloc, &mut found, value, 1, Some(name))?;
    let taken = List::from_vec(found);
    if bytes[end] == b'[' {
        let text = value;
        let at = end + 1;
        return Ok((taken, Some(Objects { text, at })));
    }
    Ok((taken, None))
}

/// Appends the members of an object from an offset on, and gives the offset of the closing bracket;
/// or those before the one to stop at, and the offset of its value, which is an array.
#[inline(always)]
fn push_members(
    alloc: Global,
    found: &mut Vec<Member>,
    value: &Raw,
    start: usize,
    stop: Option<&str>,
) -> Result<usize, AllocError>
    requires { (all : Items Pair) × (rest : Items ℕ) × StandHere (drop start value.now) all rest }
    ensures found { IfOk result (λ end. (all : Items Pair) (rest : Items ℕ)
        → StandHere (drop start value.now) all rest
        → (passed : Items Pair) × (pairs found.new.items ≡ pairs found.old.items ++ passed)
        × HaveEnded (option_copied stop.entry) all passed rest (drop end value.now)) }
    ensures within { IfOk result (λ end. (start ≤ end) × (end < length value.now)) }
{
    let bytes = value.as_bytes();
    let mut at = start;
    while bytes[at] != b'}' {
        let (name, colon) = text_at(alloc, value, at)?;
        if stops_at(stop, &name, bytes[colon + 1]) {
            return Ok(colon + 1);
        }
        let end = next_end(bytes, colon + 1);
        let value = value.cut(colon + 1, end)?;
        found.push(Member { name, value })?;
        at = past_comma(bytes, end);
    }
    Ok(at)
}

/// Whether a member of this name, whose value begins with this byte, is the one to stop at.
#[inline(always)]
fn stops_at(stop: Option<&str>, name: &Text, first: u8) -> bool
    ensures { IsTrue result ↔ ((option_copied stop.entry ≡ Some name.now) × (first ≡ 91)) }
{
    match stop {
        Some(known) => first == b'[' && name.as_bytes() == known.as_bytes(),
        None => false,
    }
}

/// An item of an array, taken apart.
#[derive(Drop)]
pub enum Item {
    /// An object with these members.
    Object(Members),
    /// Any other value.
    Other,
}

/// A walk over the items of an array, in which each object is taken apart as it comes.
#[derive(Drop)]
pub struct Objects<'a> {
    /// The text in which the array stands.
    text: &'a Raw,
    /// The offset of the next item, or of the closing bracket.
    at: usize,
}

impl<'a> Model for Objects<'a> {
    ghost use Rattle.std.specs.Prelude.{ℕ, List};
    ghost use Rattle.scene_json.specs.Walks.{Walk, AreLeft};

    ghost Value = { Walk };

    ghost view = { λ o. record { text = o.text.now; at = o.at } };

    ghost invariant = { λ o. (left : List (List ℕ))
        × AreLeft (record { text = o.text.now; at = o.at }) left };
}

impl<'a> Objects<'a> {
    /// The next item. `None` comes exactly where no item is left.
    pub fn next(&mut self, alloc: Global) -> Result<Option<Item>, AllocError>
        ensures next { IfOk result (λ found. (left : Items (Items ℕ)) → AreLeft self.old left
            → MatchOption found (left ≡ [])
            (λ next. (item : Items ℕ) × (others : Items (Items ℕ)) × (left ≡ item ∷ others)
            × AreLeft self.new others × IsTakenApart item next)) }
        ensures taken { IfOk result (λ found. IfSome found (λ next. (item : Items ℕ)
            × IsTakenApart item next)) }
        ensures passed { IfOk result (λ found. IfSome found
            (λ next. (self.old.at < self.new.at) × (self.new.at < 2 ^ 64))) }
        ensures behind { (members : Items Pair) → AreBehind self.old members
            → AreBehind self.new members }
        ensures unchanged { OnErr result (self.new ≡ self.old) }
    {
        let bytes = self.text.as_bytes();
        if bytes[self.at] == b']' {
            return Ok(None);
        }
        let (item, end) = item_at(alloc, self.text, self.at)?;
        self.at = past_comma(bytes, end);
        Ok(Some(item))
    }

    /// The members before the array and those behind it, in their order.
    pub fn members_around(
        &self,
        alloc: Global,
        before: List<Member>,
    ) -> Result<List<Member>, AllocError>
        requires { (members : Items Pair) × AreBehind self.now members }
        ensures { IfOk result (λ found. (members : Items Pair) → AreBehind self.now members
            → pairs found ≡ pairs before ++ members) }
    {
        let bytes = self.text.as_bytes();
        let mut at = self.at;
        while bytes[at] != b']' {
            at = past_comma(bytes, next_end(bytes, at));
        }
        let mut found = before.into_vec();
        push_members(
            alloc,
            &mut found,
            self.text,
            past_comma(bytes, at + 1),
            None,
        )?;
        Ok(List::from_vec(found))
    }
}

/// The item at an offset, and the offset after it.
fn item_at(alloc: Global, array: &Raw, at: usize) -> Result<(Item, usize), AllocError>
    requires { (item rest : Items ℕ) × Compacted (drop at array.now) item rest }
    ensures item { IfOk result (λ found. (item rest : Items ℕ)
        → Compacted (drop at array.now) item rest
        → IsTakenApart item found.0 × (drop found.1 array.now ≡ rest)) }
    ensures within { IfOk result (λ found. (at ≤ found.1) × (found.1 ≤ length array.now)) }
{
    let bytes = array.as_bytes();
    if bytes[at] == b'{' {
        let (members, end) = members_from(alloc, array, at + 1)?;
        return Ok((Item::Object(members), end + 1));
    }
    Ok((Item::Other, next_end(bytes, at)))
}

/// The value, taken apart as an item of an array is.
pub fn item_of(alloc: Global, value: &Raw) -> Result<Item, AllocError>
    ensures { IfOk result (IsTakenApart value.now) }
{
    if !begins_with(value.as_bytes(), b'{') {
        return Ok(Item::Other);
    }
    let (members, _end) = members_from(alloc, value, 1)?;
    Ok(Item::Object(members))
}

/// The members of an object from an offset on, and the offset of the closing bracket.
fn members_from(alloc: Global, value: &Raw, start: usize) -> Result<(Members, usize), AllocError>
    requires { (all : Items Pair) × (rest : Items ℕ) × StandHere (drop start value.now) all rest }
    ensures found { IfOk result (λ found. (all : Items Pair) (rest : Items ℕ)
        → StandHere (drop start value.now) all rest
        → (pairs found.0 ≡ all) × (drop found.1 value.now ≡ 125 ∷ rest)) }
    ensures within { IfOk result (λ found. (start ≤ found.1) × (found.1 < length value.now)) }
{
    if let Some(found) = standing_from(alloc, value, start)? {
        return Ok(found);
    }
    let mut members = Vec::with_capacity(alloc, FEW_MEMBERS)?;
    let end = push_members(alloc, &mut members, value, start, None)?;
    Ok((Members::apart(List::from_vec(members)), end))
}

/// The members of an object from an offset on by their places, and the offset of the closing
/// bracket. `None` comes where a name has an escape, or offsets are beyond 32 bits.
#[inline(always)]
fn standing_from(
    alloc: Global,
    value: &Raw,
    start: usize,
) -> Result<Option<(Members, usize)>, AllocError>
    requires { (all : Items Pair) × (rest : Items ℕ) × StandHere (drop start value.now) all rest }
    ensures found { IfOk result (λ found. IfSome found (λ found. (all : Items Pair)
        (rest : Items ℕ) → StandHere (drop start value.now) all rest
        → (pairs found.0 ≡ all) × (drop found.1 value.now ≡ 125 ∷ rest))) }
    ensures within { IfOk result (λ found. IfSome found (λ found. (start ≤ found.1)
        × (found.1 < length value.now))) }
{
    let bytes = value.as_bytes();
    if bytes.len() > u32::MAX as usize {
        return Ok(None);
    }
    let mut places = Vec::with_capacity(alloc, FEW_MEMBERS)?;
    let mut at = start;
    while bytes[at] != b'}' {
        let mark = run_end(bytes, at + 1);
        if bytes[mark] != b'"' {
            return Ok(None);
        }
        let colon = mark + 1;
        let end = next_end(bytes, colon + 1);
        places.push(Place {
            start: at as u32,
            colon: colon as u32,
            end: end as u32,
        })?;
        at = past_comma(bytes, end);
    }
    Ok(Some((Members::standing(value.try_clone()?, places), at)))
}

/// Where the next item or member stands, or the closing bracket, behind the end of one.
#[inline(always)]
fn past_comma(bytes: &[u8], end: usize) -> usize
    requires { end < length bytes.now }
    ensures next { GoesOn bytes.now end result }
    ensures within { (end ≤ result) × (result ≤ length bytes.now) }
{
    if bytes[end] == b',' { end + 1 } else { end }
}

/// The offset after the compact text that stands at an offset.
#[inline(always)]
fn next_end(bytes: &[u8], at: usize) -> usize
    requires { at ≤ length bytes.now }
    ensures within { (at ≤ result) × (result ≤ length bytes.now) }
    ensures end { EndsAt bytes.now at result }
{
    bytes.len() - after_value(&bytes[at..]).len()
}

/// What stands behind the compact text at the front. Most values are strings, numbers and words.
#[tactic(auto, using(crate::proofs::Skipped::skip_steps))]
fn after_value(bytes: &[u8]) -> &[u8]
    ensures within { length result.now ≤ length bytes.now }
    ensures found { (text rest : Items ℕ) → Compacted bytes.now text rest → result.now ≡ rest }
{
    let rest = match bytes.split_first() {
        Some((b'"', others)) => after_string(others),
        _ => after_inert(bytes),
    };
    match rest.split_first() {
        Some((byte, _more)) if ends_value(*byte) => rest,
        _ => after_brackets(bytes),
    }
}

/// What stands behind the compact text at the front: the first comma or closing bracket outside
/// strings and brackets, and all that follows it.
#[tactic(auto, using(crate::proofs::Skipped::skip_steps))]
fn after_brackets(bytes: &[u8]) -> &[u8]
    ensures within { length result.now ≤ length bytes.now }
    ensures found { (text rest : Items ℕ) → Compacted bytes.now text rest → result.now ≡ rest }
{
    let mut level: u64 = 0;
    let mut rest = bytes;
    while let Some((byte, others)) = rest.split_first() {
        if ends_value(*byte) && level == 0 {
            return rest;
        }
        match *byte {
            b'"' => rest = after_string(others),
            b'[' | b'{' => {
                level += 1;
                rest = after_quiet(others);
            }
            b']' | b'}' if level > 1 => match after_opened(others) {
                Some(inner) => rest = after_quiet(inner),
                None => {
                    level -= 1;
                    rest = after_quiet(others);
                }
            },
            b']' | b'}' => {
                level -= 1;
                rest = others;
            }
            _ if level > 0 => rest = after_quiet(others),
            _ => rest = others,
        }
    }
    rest
}

/// What stands behind the bytes at the front that play no part in where a value ends.
#[inline(always)]
fn after_inert(bytes: &[u8]) -> &[u8]
    ensures inert { result.now ≡ drop (prefix_len is_inert bytes.now) bytes.now }
    ensures within { length result.now ≤ length bytes.now }
{
    &bytes[inert_end(bytes, 0)..]
}

/// Whether a value in a container may end before this byte.
fn ends_value(byte: u8) -> bool
    ensures { result ≡ ends_value byte }
{
    matches!(byte, b',' | b']' | b'}')
}
