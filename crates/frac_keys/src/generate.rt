//! Keys between two others.

ghost use Rattle.std.specs.Prelude.{◌≡◌, ◌++◌, IfOk, IsTrue, option_copied};
ghost use Rattle.std.specs.List.{list_all};
ghost use Rattle.frac_keys.specs.Digits.{is_key_digit};
ghost use Rattle.frac_keys.specs.Keys.{is_key, bytes_less};
ghost use Rattle.frac_keys.specs.Between.{midpoint, midpoint_above, key_above, key_below, key_inside, key_between};
ghost use Rattle.frac_keys.specs.Rising.{ends_rise, is_key_or_none, lies_between};

use crate::integers::{decrement, increment};
use crate::key::Key;
use crate::midpoint::{push_midpoint, push_midpoint_above};
use crate::parts::{SMALLEST, is_less, split};
use std::alloc::{AllocError, Global};

/// The key between two ends, the first of which is less; an absent end is beyond all keys. Fails
/// only for want of memory. Source: rocicorp's fractional-indexing; that the smallest integer part
/// is followed by `V`, where that part alone would come out, is this project's own.
pub fn between(alloc: Global, a: Option<&Key>, b: Option<&Key>) -> Result<Key, AllocError>
    requires { IsTrue (ends_rise (option_copied a) (option_copied b)) }
    ensures exact { IfOk result (λ key. key
        ≡ key_between (option_copied a.entry) (option_copied b.entry)) }
    ensures key { IfOk result (λ key. IsTrue (is_key key)) }
    ensures inside { IfOk result (λ key. IsTrue
        (lies_between (option_copied a.entry) (option_copied b.entry) key)) }
{
    key_between(alloc, end_bytes(a), end_bytes(b))
}

/// The bytes of an end.
pub(crate) fn end_bytes(end: Option<&Key>) -> Option<&[u8]>
    ensures value { option_copied result ≡ option_copied end.entry }
    ensures end { IsTrue (is_key_or_none (option_copied result)) }
{
    end.map(|key| key.as_bytes())
}

/// The key between two ends, by their bytes.
pub(crate) fn key_between(
    alloc: Global,
    a: Option<&[u8]>,
    b: Option<&[u8]>,
) -> Result<Key, AllocError>
    requires a { IsTrue (is_key_or_none (option_copied a)) }
    requires b { IsTrue (is_key_or_none (option_copied b)) }
    requires rise { IsTrue (ends_rise (option_copied a) (option_copied b)) }
    ensures exact { IfOk result (λ key. key
        ≡ key_between (option_copied a.entry) (option_copied b.entry)) }
    ensures key { IfOk result (λ key. IsTrue (is_key key)) }
    ensures inside { IfOk result (λ key. IsTrue
        (lies_between (option_copied a.entry) (option_copied b.entry) key)) }
{
    let bytes = bytes_between(alloc, a, b)?;
    Ok(Key::from_vec(bytes))
}

/// The bytes of the key between two ends.
fn bytes_between(alloc: Global, a: Option<&[u8]>, b: Option<&[u8]>) -> Result<Vec<u8>, AllocError>
    requires a { IsTrue (is_key_or_none (option_copied a)) }
    requires b { IsTrue (is_key_or_none (option_copied b)) }
    ensures { IfOk result (λ v. v.items
        ≡ key_between (option_copied a.entry) (option_copied b.entry)) }
{
    match (a, b) {
        (None, None) => Vec::from_slice(alloc, b"a0"),
        (None, Some(b)) => key_below(alloc, b),
        (Some(a), None) => key_above(alloc, a),
        (Some(a), Some(b)) => key_inside(alloc, a, b),
    }
}

/// The key above a key: the integer part above, or a greater fraction where there is none.
#[tactic(auto, unfolding(crate::specs::Between::key_above))]
fn key_above(alloc: Global, a: &[u8]) -> Result<Vec<u8>, AllocError>
    requires { IsTrue (is_key a.now) }
    ensures { IfOk result (λ v. v.items ≡ key_above a.now) }
{
    let (integer, fraction) = split(a);
    if let Some(above) = increment(alloc, integer)? {
        return Ok(above);
    }
    with_midpoint_above(alloc, integer, fraction)
}

/// The key below a key: its integer part or the one below, and a fraction where only the smallest
/// is left.
#[tactic(auto, unfolding(crate::specs::Between::key_below))]
fn key_below(alloc: Global, b: &[u8]) -> Result<Vec<u8>, AllocError>
    requires { IsTrue (is_key b.now) }
    ensures { IfOk result (λ v. v.items ≡ key_below b.now) }
{
    let (integer, fraction) = split(b);
    if integer == SMALLEST {
        return with_midpoint(alloc, integer, &[], fraction);
    }
    if is_less(integer, b) {
        return Vec::from_slice(alloc, integer);
    }
    if let Some(below) = decrement(alloc, integer)? {
        if below.as_slice() != SMALLEST {
            return Ok(below);
        }
    }
    let mut bytes = Vec::from_slice(alloc, SMALLEST)?;
    bytes.push(b'V')?;
    Ok(bytes)
}

/// The key between two keys: by their fractions where the integer parts agree, else the integer
/// part above the first one, or a greater fraction where that is too far.
#[tactic(auto, using(crate::proofs::OrderLaws::bytes_less_itself), unfolding(crate::specs::Between::key_inside))]
fn key_inside(alloc: Global, a: &[u8], b: &[u8]) -> Result<Vec<u8>, AllocError>
    requires low { IsTrue (is_key a.now) }
    requires high { IsTrue (is_key b.now) }
    ensures { IfOk result (λ v. v.items ≡ key_inside a.now b.now) }
{
    let (integer, low) = split(a);
    let (other, high) = split(b);
    if integer == other {
        return with_midpoint(alloc, integer, low, high);
    }
    if let Some(above) = increment(alloc, integer)? {
        if is_less(above.as_slice(), b) {
            return Ok(above);
        }
    }
    with_midpoint_above(alloc, integer, low)
}

/// The integer part, with the fraction between two.
fn with_midpoint(alloc: Global, integer: &[u8], a: &[u8], b: &[u8]) -> Result<Vec<u8>, AllocError>
    requires low { IsTrue (list_all is_key_digit a.now) }
    requires high { IsTrue (list_all is_key_digit b.now) }
    ensures { IfOk result (λ v. v.items ≡ integer.now ++ midpoint a.now b.now) }
{
    let mut bytes = Vec::from_slice(alloc, integer)?;
    push_midpoint(&mut bytes, a, b)?;
    Ok(bytes)
}

/// The integer part, with a fraction above the one given.
fn with_midpoint_above(alloc: Global, integer: &[u8], a: &[u8]) -> Result<Vec<u8>, AllocError>
    requires { IsTrue (list_all is_key_digit a.now) }
    ensures { IfOk result (λ v. v.items ≡ integer.now ++ midpoint_above a.now) }
{
    let mut bytes = Vec::from_slice(alloc, integer)?;
    push_midpoint_above(&mut bytes, a)?;
    Ok(bytes)
}
