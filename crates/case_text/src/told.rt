//! How names, truths and bytes are told in a line.

use board_base::Stop;
use json_reader::scan;
use json_text::push_quoted;
use scene_json::push_whole;
use std::alloc::{AllocError, Global};

/// Appends what stands before the value of a further member.
pub fn push_member_of(line: &mut Vec<u8>, name: &str) -> Result<(), AllocError> {
    line.push(b',')?;
    push_quoted(line, name)?;
    line.push(b':')?;
    Ok(())
}

/// Appends a further member that is true or false.
pub fn push_truth(line: &mut Vec<u8>, name: &str, truth: bool) -> Result<(), AllocError> {
    push_member_of(line, name)?;
    let word = if truth { "true" } else { "false" };
    line.extend_from_slice(word.as_bytes())
}

/// Appends a further member that is a number.
pub fn push_number(line: &mut Vec<u8>, name: &str, number: u64) -> Result<(), AllocError> {
    push_member_of(line, name)?;
    push_whole(line, number)
}

/// Appends a further member that is a string of these characters.
pub fn push_string(line: &mut Vec<u8>, name: &str, characters: &str) -> Result<(), AllocError> {
    push_member_of(line, name)?;
    push_quoted(line, characters)
}

/// Appends a further member that is a value of this compact text.
pub fn push_value(line: &mut Vec<u8>, name: &str, text: &[u8]) -> Result<(), AllocError> {
    push_member_of(line, name)?;
    line.extend_from_slice(text)
}

/// Appends what these bytes are: `{"value":V}` where they are one compact text with this end behind
/// it, else a text, or
/// `{"hex":TEXT}` where they aren't UTF-8.
pub fn push_told(
    alloc: Global,
    line: &mut Vec<u8>,
    bytes: &[u8],
    ending: &[u8],
) -> Result<(), AllocError> {
    if let Some(text) = bytes.strip_suffix(ending) {
        if is_compact(alloc, text)? {
            return push_wrapped(line, text);
        }
    }
    match std::str::from_utf8(bytes) {
        Ok(text) => push_quoted(line, text),
        Err(_) => push_hex(alloc, line, bytes),
    }
}

/// Appends bytes as digits of base 16.
pub fn push_hex(alloc: Global, line: &mut Vec<u8>, bytes: &[u8]) -> Result<(), AllocError> {
    let digits = hex::encode(alloc, bytes)?;
    line.extend_from_slice(b"{\"hex\":")?;
    push_quoted(line, digits.as_str())?;
    line.push(b'}')?;
    Ok(())
}

/// Appends a value as a value.
fn push_wrapped(line: &mut Vec<u8>, value: &[u8]) -> Result<(), AllocError> {
    line.extend_from_slice(b"{\"value\":")?;
    line.extend_from_slice(value)?;
    line.push(b'}')?;
    Ok(())
}

/// Whether the bytes are the compact text of a value.
fn is_compact(alloc: Global, bytes: &[u8]) -> Result<bool, AllocError> {
    match scan(alloc, bytes, 0) {
        Ok((value, _after)) => Ok(value.as_bytes() == bytes),
        Err(Stop::Fault(_)) => Ok(false),
        Err(Stop::Memory) => Err(AllocError),
    }
}
