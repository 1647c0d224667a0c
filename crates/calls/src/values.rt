//! Calls on JSON values, members and texts.

ghost use Rattle.std.specs.Prelude.{◌≤◌, length};

use board_base::{List, Stop};
use case_text::{
    bytes_of, given, number_or, push_hex, push_member_of, push_number, push_string, push_told,
    push_truth, push_value,
};
use json_reader::scan;
use json_text::{Member, Raw, Text, first_occurrences, push_quote};
use members::push_member;
use restore_table::{default_of, restore};
use scene_json::{
    Shape, depth_of, is_null, items, members, pretty, push_comma, shaped, text_of, texts_of,
    truth_of, whole_of,
};
use std::alloc::{AllocError, Global};

/// Appends the value that stands in some bytes at the offset `at`, and the offset after it, or the
/// first fault there.
pub fn push_scanned(
    alloc: Global,
    line: &mut Vec<u8>,
    case: &List<Member>,
    value: &Raw,
) -> Result<(), Stop<Text>> {
    let bytes = given(bytes_of(alloc, value)?, "member scan")?;
    match number_or(case, "at", 0) {
        Some(at) if at <= bytes.as_slice().len() as u64 => {
            push_found(alloc, line, bytes.as_slice(), at as usize)?;
            Ok(())
        }
        _ => Err(Stop::Fault(Text::fixed("member at"))),
    }
}

/// Appends the value that stands at this offset, and the offset after it, or the first fault there.
fn push_found(alloc: Global, line: &mut Vec<u8>, bytes: &[u8], at: usize) -> Result<(), AllocError>
    requires { at ≤ length bytes.now }
{
    match scan(alloc, bytes, at) {
        Ok((found, after)) => {
            push_value(line, "value", found.as_bytes())?;
            push_number(line, "after", after as u64)
        }
        Err(Stop::Fault(fault)) => push_string(line, "fault", fault.words(alloc)?.as_str()),
        Err(Stop::Memory) => Err(AllocError),
    }
}

/// Appends the layout of a value on lines.
pub fn push_pretty(alloc: Global, line: &mut Vec<u8>, value: &Raw) -> Result<(), Stop<Text>> {
    let laid_out = pretty(alloc, value)?;
    push_member_of(line, "text")?;
    push_told(alloc, line, laid_out.as_slice(), b"\n")?;
    Ok(())
}

/// Appends what a value is: how deep it nests, and the number, truth, null, text, items or members
/// that it is.
pub fn push_taken_apart(alloc: Global, line: &mut Vec<u8>, value: &Raw) -> Result<(), Stop<Text>> {
    push_number(line, "depth", depth_of(value))?;
    push_scalar(line, value)?;
    push_text(alloc, line, value)?;
    push_items(alloc, line, value)?;
    push_members(alloc, line, value)?;
    Ok(())
}

/// Appends the number, the truth or the null that a value is.
fn push_scalar(line: &mut Vec<u8>, value: &Raw) -> Result<(), AllocError> {
    if let Some(number) = whole_of(value) {
        return push_number(line, "whole", number);
    }
    if let Some(truth) = truth_of(value) {
        return push_truth(line, "truth", truth);
    }
    if is_null(value) {
        return push_truth(line, "null", true);
    }
    Ok(())
}

/// Appends the bytes of the text that a value is.
fn push_text(alloc: Global, line: &mut Vec<u8>, value: &Raw) -> Result<(), AllocError> {
    let Some(text) = shaped(text_of(alloc, value))? else {
        return Ok(());
    };
    push_member_of(line, "bytes")?;
    push_hex(alloc, line, text.as_bytes())
}

/// Appends the items of the list that a value is.
fn push_items(alloc: Global, line: &mut Vec<u8>, value: &Raw) -> Result<(), AllocError> {
    let Some(items) = shaped(items(alloc, value))? else {
        return Ok(());
    };
    push_member_of(line, "items")?;
    line.push(b'[')?;
    for (i, item) in items.as_slice().iter().enumerate() {
        push_comma(line, i)?;
        line.extend_from_slice(item.as_bytes())?;
    }
    line.push(b']')?;
    Ok(())
}

/// Appends the members of the object that a value is, as a list of pairs.
fn push_members(alloc: Global, line: &mut Vec<u8>, value: &Raw) -> Result<(), AllocError> {
    let Some(members) = shaped(members(alloc, value))? else {
        return Ok(());
    };
    push_member_of(line, "members")?;
    line.push(b'[')?;
    for (i, member) in members.as_slice().iter().enumerate() {
        push_comma(line, i)?;
        push_pair(line, member)?;
    }
    line.push(b']')?;
    Ok(())
}

/// Appends the name and the value of a member.
fn push_pair(line: &mut Vec<u8>, member: &Member) -> Result<(), AllocError> {
    line.push(b'[')?;
    push_quote(line, &member.name)?;
    line.push(b',')?;
    line.extend_from_slice(member.value.as_bytes())?;
    line.push(b']')?;
    Ok(())
}

/// Appends the members that an object is restored to.
pub fn push_restored(alloc: Global, line: &mut Vec<u8>, value: &Raw) -> Result<(), Stop<Text>> {
    let restored = given(shaped(restored_of(alloc, value))?, "member restore")?;
    push_member_of(line, "restored")?;
    line.push(b'{')?;
    for (i, member) in restored.as_slice().iter().enumerate() {
        push_comma(line, i)?;
        push_member(line, &member.name, &member.value)?;
    }
    line.push(b'}')?;
    Ok(())
}

/// The members that an object is restored to.
fn restored_of(alloc: Global, value: &Raw) -> Result<List<Member>, Stop<Shape>> {
    let found = members(alloc, value)?;
    Ok(restore(alloc, &found)?)
}

/// Appends a list of the default of the member with this name, or an empty one.
pub fn push_default(alloc: Global, line: &mut Vec<u8>, value: &Raw) -> Result<(), Stop<Text>> {
    let name = given(shaped(text_of(alloc, value))?, "member default")?;
    push_member_of(line, "default")?;
    line.push(b'[')?;
    if let Some(default) = default_of(alloc, &name)? {
        line.extend_from_slice(default.as_bytes())?;
    }
    line.push(b']')?;
    Ok(())
}

/// Appends each text of a list where it first stands.
pub fn push_first(alloc: Global, line: &mut Vec<u8>, value: &Raw) -> Result<(), Stop<Text>> {
    let texts = given(texts_of(alloc, value)?, "member first")?;
    let found = first_occurrences(alloc, texts.as_slice())?;
    push_member_of(line, "texts")?;
    line.push(b'[')?;
    for (i, text) in found.iter().enumerate() {
        push_comma(line, i)?;
        push_quote(line, text)?;
    }
    line.push(b']')?;
    Ok(())
}
