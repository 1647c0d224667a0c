//! What a case is given: its members by their names, and what their values tell.

use board_base::{Bytes, List, Stop};
use hex::FromHexError;
use json_text::{Member, Raw, Text};
use scene_json::{items, members, shaped, text_named, text_of, value_named, whole_of};
use std::alloc::{AllocError, Global};

/// How many keys, steps or changes a case may ask for.
const MOST: u64 = 100000;

/// What was found, or this fault of the case.
pub fn given<T>(found: Option<T>, fault: &'static str) -> Result<T, Stop<Text>> {
    match found {
        Some(found) => Ok(found),
        None => Err(Stop::Fault(Text::fixed(fault))),
    }
}

/// Whether the case has a member of this name.
pub fn is_given(case: &List<Member>, name: &str) -> bool {
    value_named(case, name).is_some()
}

/// The name of the case, empty where it has none, if that is a text.
pub fn name_of(alloc: Global, case: &List<Member>) -> Result<Option<Text>, AllocError> {
    if is_given(case, "name") {
        text_named(alloc, case, "name")
    } else {
        Ok(Some(Text::fixed("")))
    }
}

/// The number that a member is, or this one where the case has no such member.
pub fn number_or(case: &List<Member>, name: &str, default: u64) -> Option<u64> {
    match value_named(case, name) {
        Some(value) => whole_of(value),
        None => Some(default),
    }
}

/// The number that a member is, if it is not too great, and 0 where the case has no such member.
pub fn count_of(case: &List<Member>, name: &str) -> Option<usize> {
    match number_or(case, name, 0) {
        Some(n) if n <= MOST => Some(n as usize),
        _ => None,
    }
}

/// The numbers that a member lists, none where the case has no such member.
pub fn numbers_of(
    alloc: Global,
    case: &List<Member>,
    name: &str,
) -> Result<Option<List<u64>>, AllocError> {
    let mut numbers = Vec::new(alloc);
    for value in values_of(alloc, case, name)?.as_slice() {
        match whole_of(value) {
            Some(number) => numbers.push(number)?,
            None => return Ok(None),
        }
    }
    Ok(Some(List::from_vec(numbers)))
}

/// The values that a member lists, none where it is missing or no list.
pub fn values_of(alloc: Global, case: &List<Member>, name: &str) -> Result<List<Raw>, AllocError> {
    match value_named(case, name) {
        Some(value) => listed(alloc, value),
        None => Ok(List::new(alloc)),
    }
}

/// The items of a list, none of any other value.
pub fn listed(alloc: Global, value: &Raw) -> Result<List<Raw>, AllocError> {
    match shaped(items(alloc, value))? {
        Some(values) => Ok(values),
        None => Ok(List::new(alloc)),
    }
}

/// The words that the case lists, each told as bytes are.
pub fn words_of(alloc: Global, case: &List<Member>) -> Result<Option<List<Bytes>>, AllocError> {
    let mut words = Vec::new(alloc);
    for value in values_of(alloc, case, "words")?.as_slice() {
        match bytes_of(alloc, value)? {
            Some(word) => words.push(word)?,
            None => return Ok(None),
        }
    }
    Ok(Some(List::from_vec(words)))
}

/// The bytes that a member tells, none where the case has no such member.
pub fn bytes_named(
    alloc: Global,
    case: &List<Member>,
    name: &str,
) -> Result<Option<Bytes>, AllocError> {
    match value_named(case, name) {
        Some(value) => bytes_of(alloc, value),
        None => Ok(Some(Bytes::from_vec(Vec::new(alloc)))),
    }
}

/// The bytes that a value tells: those of a text; or by a member `hex` any bytes; or by a member
/// `texts` the compact texts of these values, each followed by a newline.
pub fn bytes_of(alloc: Global, value: &Raw) -> Result<Option<Bytes>, AllocError> {
    if let Some(text) = shaped(text_of(alloc, value))? {
        return Ok(Some(Bytes::from_slice(alloc, text.as_bytes())?));
    }
    let Some(told) = shaped(members(alloc, value))? else {
        return Ok(None);
    };
    match text_named(alloc, &told, "hex")? {
        Some(digits) => bytes_of_hex(alloc, &digits),
        None => bytes_of_texts(alloc, &told),
    }
}

/// The bytes that these digits of base 16 tell.
fn bytes_of_hex(alloc: Global, digits: &Text) -> Result<Option<Bytes>, AllocError> {
    match hex::decode(alloc, digits.as_bytes()) {
        Ok(bytes) => Ok(Some(Bytes::from_vec(bytes))),
        Err(FromHexError::OutOfMemory) => Err(AllocError),
        Err(_) => Ok(None),
    }
}

/// The compact texts of the values that a member `texts` lists, each followed by a newline.
fn bytes_of_texts(alloc: Global, told: &List<Member>) -> Result<Option<Bytes>, AllocError> {
    if !is_given(told, "texts") {
        return Ok(None);
    }
    let mut bytes = Vec::new(alloc);
    for value in values_of(alloc, told, "texts")?.as_slice() {
        bytes.extend_from_slice(value.as_bytes())?;
        bytes.push(b'\n')?;
    }
    Ok(Some(Bytes::from_vec(bytes)))
}
