//! Keeping each name of an object once.

ghost use Rattle.std.specs.Prelude.{◌≡◌, ◌<◌, ◌≤◌, length, slice_set, slice_index_or, IsTrue, false, IfOk, OnOk, IfSome, MatchOption, bytes_eq};
ghost use Rattle.std.specs.List.{list_any};
ghost use Rattle.json_text.specs.Compact.{collapsed};
ghost use Rattle.json_text.specs.Parts.{names_of};
ghost use Rattle.json_reader.specs.inner.Drafts.{pairs_text};
ghost use Rattle.json_reader.specs.inner.Places.{cut, entries, mark_of, IsWithin, AreWithin};

use json_text::FEW_MEMBERS;
use std::alloc::{AllocError, Global};
use std::collections::BTreeMap;

/// A stretch of bytes, by the offsets of its first byte and of the byte after it.
#[derive(Clone, Copy)]
pub(crate) struct Span {
    pub start: usize,
    pub end: usize,
}

/// Where a member stands: its quoted name and its value.
#[derive(Clone, Copy)]
pub(crate) struct MemberPlace {
    pub name: Span,
    pub value: Span,
}

/// Where a name comes again among the members that are all of the text, writes the text anew: the
/// last value stands at the first one's place. Names are equal where their quotes are. Those of few
/// members are compared one by one; among many an ordered map finds them, so that no choice of
/// names makes this slow.
pub(crate) fn collapse(text: &mut Vec<u8>, places: &[MemberPlace]) -> Result<(), AllocError>
    requires within { AreWithin (length text.old.items) places.now }
    requires written { text.old.items ≡ pairs_text (entries text.old.items places.now) }
    ensures { OnOk result (text.new.items
        ≡ pairs_text (collapsed (entries text.old.items places.now))) }
{
    if places.len() <= FEW_MEMBERS && are_distinct(text.as_slice(), places) {
        return Ok(());
    }
    let alloc = *text.allocator();
    if let Some(kept) = kept_places(alloc, text.as_slice(), places)? {
        *text = text_of(alloc, text.as_slice(), kept.as_slice())?;
    }
    Ok(())
}

/// Whether no name comes again. Only names with one mark are compared.
fn are_distinct(bytes: &[u8], places: &[MemberPlace]) -> bool
    requires { AreWithin (length bytes.now) places.now }
    ensures { IsTrue result → collapsed (entries bytes.now places.now)
        ≡ entries bytes.now places.now }
{
    let mut seen = [false; 256];
    for (i, place) in places.iter().enumerate() {
        let name = bytes_at(bytes, place.name);
        let mark = mark_of(name);
        if comes_again(bytes, name, seen[mark], &places[..i]) {
            return false;
        }
        seen[mark] = true;
    }
    true
}

/// A number below 256 that is the same for equal names, and mostly another one for others: the
/// names of an element's members have one each.
fn mark_of(name: &[u8]) -> usize
    ensures value { result ≡ mark_of name.now }
    ensures small { result < 256 }
{
    if name.len() < 2 {
        return 0;
    }
    let last = usize::from(name[name.len() - 2]);
    let middle = usize::from(name[name.len() / 2]);
    (name.len() + 6 * last + 5 * middle) % 256
}

/// Whether the name is one of those at these places. It is none of them if its mark wasn't seen.
fn comes_again(bytes: &[u8], name: &[u8], seen: bool, places: &[MemberPlace]) -> bool
    requires within { AreWithin (length bytes.now) places.now }
    requires marked { seen ≡ false
        → list_any (bytes_eq name.now) (names_of (entries bytes.now places.now)) ≡ false }
    ensures { result ≡ list_any (bytes_eq name.now) (names_of (entries bytes.now places.now)) }
{
    if !seen {
        return false;
    }
    for place in places {
        if name == bytes_at(bytes, place.name) {
            return true;
        }
    }
    false
}

/// Where the members stand that are kept, or `None` if no name comes again.
fn kept_places(
    alloc: Global,
    bytes: &[u8],
    places: &[MemberPlace],
) -> Result<Option<Vec<MemberPlace>>, AllocError>
    requires { AreWithin (length bytes.now) places.now }
    ensures kept { IfOk result (λ found. MatchOption found
        (collapsed (entries bytes.now places.now) ≡ entries bytes.now places.now)
        (λ kept. entries bytes.now kept.items ≡ collapsed (entries bytes.now places.now))) }
    ensures within { IfOk result (λ found. IfSome found
        (λ kept. AreWithin (length bytes.now) kept.items)) }
{
    let mut kept: Vec<MemberPlace> = Vec::new(alloc);
    let mut known: BTreeMap<&[u8], usize> = BTreeMap::new(alloc);
    let mut repeats = false;
    for place in places {
        let name = bytes_at(bytes, place.name);
        match known.get(&name).copied() {
            Some(first) => {
                keep_last(&mut kept, first, place.value);
                repeats = true;
            }
            None => {
                known.insert(name, kept.len())?;
                kept.push(*place)?;
            }
        }
    }
    Ok(if repeats { Some(kept) } else { None })
}

/// Has this value stand at a place.
fn keep_last(kept: &mut Vec<MemberPlace>, first: usize, value: Span)
    requires { first < length kept.old.items }
    ensures { kept.new.items ≡ slice_set kept.old.items first
        (record {
          name =
              (slice_index_or kept.old.items first (record { name = value; value = value })).name;
          value = value;
        }) }
{
    let name = kept[first].name;
    kept[first] = MemberPlace { name, value };
}

/// The members that stand at these places, between commas.
#[tactic(auto, using(crate::proofs::Drafting::text_steps))]
fn text_of(alloc: Global, bytes: &[u8], places: &[MemberPlace]) -> Result<Vec<u8>, AllocError>
    requires { AreWithin (length bytes.now) places.now }
    ensures { IfOk result (λ text. text.items ≡ pairs_text (entries bytes.now places.now)) }
{
    let mut text = Vec::new(alloc);
    for place in places {
        text.extend_from_slice(bytes_at(bytes, place.name))?;
        text.push(b':')?;
        text.extend_from_slice(bytes_at(bytes, place.value))?;
        text.push(b',')?;
    }
    let _comma = text.pop();
    Ok(text)
}

/// The bytes that stand there.
fn bytes_at(bytes: &[u8], span: Span) -> &[u8]
    requires { IsWithin (length bytes.now) span }
    ensures { result.now ≡ cut bytes.now span }
{
    &bytes[span.start..span.end]
}
