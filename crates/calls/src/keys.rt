//! Calls on fractional keys.

ghost use Rattle.std.specs.Prelude.{◌≡◌, option_copied};
ghost use Rattle.frac_keys.specs.Keys.{bytes_less};
ghost use Rattle.frac_keys.specs.Rising.{ends_rise};

use board_base::{List, Stop};
use case_text::{count_of, given, listed, push_member_of, push_truth};
use frac_keys::{Key, between, n_between};
use index_repair::{repair, rising};
use json_text::{Member, Raw, Text, push_quoted};
use scene_json::{has_value, is_null, push_comma, shaped, text_of};
use std::alloc::{AllocError, Global};

/// Two ends, each a key or absent.
type Ends = (Option<Key>, Option<Key>);

/// Appends whether a text is a key.
pub fn push_is_key(alloc: Global, line: &mut Vec<u8>, value: &Raw) -> Result<(), Stop<Text>> {
    let text = given(shaped(text_of(alloc, value))?, "member key")?;
    let key = Key::read(alloc, text.as_bytes())?;
    push_truth(line, "is_key", key.is_some())?;
    Ok(())
}

/// Appends the key between two ends.
pub fn push_between(alloc: Global, line: &mut Vec<u8>, value: &Raw) -> Result<(), Stop<Text>> {
    let ends = given(ends_of(alloc, value)?, "member between")?;
    let key = given(key_between(alloc, &ends)?, "member between")?;
    push_member_of(line, "key")?;
    push_key(line, &key)?;
    Ok(())
}

/// Appends some keys between two ends; how many, the member `n` says.
pub fn push_n_between(
    alloc: Global,
    line: &mut Vec<u8>,
    case: &List<Member>,
    value: &Raw,
) -> Result<(), Stop<Text>> {
    let ends = given(ends_of(alloc, value)?, "member n_between")?;
    let n = given(count_of(case, "n"), "member n")?;
    let keys = given(keys_between(alloc, &ends, n)?, "member n_between")?;
    push_member_of(line, "keys")?;
    push_keys(line, keys.as_slice())?;
    Ok(())
}

/// Appends the two ends that some steps lead to: in each the key between them takes the place of
/// the end that the member
/// `moves` names, or of the low end and the high end in turn.
pub fn push_walk(
    alloc: Global,
    line: &mut Vec<u8>,
    case: &List<Member>,
    value: &Raw,
) -> Result<(), Stop<Text>> {
    let ends = given(ends_of(alloc, value)?, "member walk")?;
    let steps = given(count_of(case, "steps"), "member steps")?;
    let low = has_value(case, "moves", "\"low\"");
    let high = has_value(case, "moves", "\"high\"");
    let (low, high) = given(walked(alloc, ends, steps, (low, high))?, "member walk")?;
    push_member_of(line, "low")?;
    push_end(line, &low)?;
    push_member_of(line, "high")?;
    push_end(line, &high)?;
    Ok(())
}

/// Appends the keys that a list of keys and nulls is repaired to.
pub fn push_repaired(alloc: Global, line: &mut Vec<u8>, value: &Raw) -> Result<(), Stop<Text>> {
    let keys = given(keys_of(alloc, value)?, "member repair")?;
    let keys = repair(alloc, &keys)?;
    push_member_of(line, "keys")?;
    push_keys(line, keys.as_slice())?;
    Ok(())
}

/// Appends whether keys rise strictly.
pub fn push_rising(alloc: Global, line: &mut Vec<u8>, value: &Raw) -> Result<(), Stop<Text>> {
    let mut keys = Vec::new(alloc);
    for key in given(keys_of(alloc, value)?, "member rising")?.into_vec() {
        keys.push(given(key, "member rising")?)?;
    }
    push_truth(line, "rise", rising(&List::from_vec(keys)))?;
    Ok(())
}

/// The key between these ends, where the low one is less than the high one.
fn key_between(alloc: Global, ends: &Ends) -> Result<Option<Key>, AllocError> {
    let (low, high) = (ends.0.as_ref(), ends.1.as_ref());
    if rise(low, high) {
        Ok(Some(between(alloc, low, high)?))
    } else {
        Ok(None)
    }
}

/// So many keys between these ends, where the low one is less than the high one.
fn keys_between(alloc: Global, ends: &Ends, n: usize) -> Result<Option<List<Key>>, AllocError> {
    let (low, high) = (ends.0.as_ref(), ends.1.as_ref());
    if rise(low, high) {
        Ok(Some(n_between(alloc, low, high, n)?))
    } else {
        Ok(None)
    }
}

/// The ends that so many steps lead to; in each the low end moves, or the high one, or both in
/// turn.
fn walked(
    alloc: Global,
    ends: Ends,
    steps: usize,
    moves: (bool, bool),
) -> Result<Option<Ends>, AllocError> {
    let mut ends = ends;
    for step in 0..steps {
        let Some(key) = key_between(alloc, &ends)? else {
            return Ok(None);
        };
        if moves.0 || !moves.1 && step % 2 == 0 {
            ends.0 = Some(key);
        } else {
            ends.1 = Some(key);
        }
    }
    Ok(Some(ends))
}

/// Whether the low end is less than the high one; an absent end is beyond all keys.
fn rise(low: Option<&Key>, high: Option<&Key>) -> bool
    ensures { result ≡ ends_rise (option_copied low.entry) (option_copied high.entry) }
{
    let Some(low) = low else {
        return true;
    };
    match high {
        Some(high) => is_less(low, high),
        None => true,
    }
}

/// Whether a key is less than another one.
fn is_less(key: &Key, other: &Key) -> bool
    ensures { result ≡ bytes_less key.now other.now }
{
    let bytes = other.as_bytes();
    key.as_bytes() < bytes
}

/// The two ends that a list tells.
fn ends_of(alloc: Global, value: &Raw) -> Result<Option<Ends>, AllocError> {
    let Some(keys) = keys_of(alloc, value)? else {
        return Ok(None);
    };
    let mut keys = keys.into_vec();
    match (keys.pop(), keys.pop(), keys.is_empty()) {
        (Some(high), Some(low), true) => Ok(Some((low, high))),
        _ => Ok(None),
    }
}

/// The keys and nulls of a list.
fn keys_of(alloc: Global, value: &Raw) -> Result<Option<List<Option<Key>>>, AllocError> {
    let mut keys = Vec::new(alloc);
    for item in listed(alloc, value)?.as_slice() {
        if is_null(item) {
            keys.push(None)?;
            continue;
        }
        match key_of(alloc, item)? {
            Some(key) => keys.push(Some(key))?,
            None => return Ok(None),
        }
    }
    Ok(Some(List::from_vec(keys)))
}

/// The key that a value is a text of, if it is one.
fn key_of(alloc: Global, value: &Raw) -> Result<Option<Key>, AllocError> {
    match shaped(text_of(alloc, value))? {
        Some(text) => Key::read(alloc, text.as_bytes()),
        None => Ok(None),
    }
}

/// Appends keys as a list.
fn push_keys(line: &mut Vec<u8>, keys: &[Key]) -> Result<(), AllocError> {
    line.push(b'[')?;
    for (i, key) in keys.iter().enumerate() {
        push_comma(line, i)?;
        push_key(line, key)?;
    }
    line.push(b']')?;
    Ok(())
}

/// Appends an end, null where it is absent.
pub fn push_end(line: &mut Vec<u8>, end: &Option<Key>) -> Result<(), AllocError> {
    match end {
        Some(key) => push_key(line, key),
        None => line.extend_from_slice(b"null"),
    }
}

/// Appends a key as a text; its digits need no escape.
fn push_key(line: &mut Vec<u8>, key: &Key) -> Result<(), AllocError> {
    line.push(b'"')?;
    line.extend_from_slice(key.as_bytes())?;
    line.push(b'"')?;
    Ok(())
}
