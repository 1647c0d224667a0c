//! The integer parts above and below another one.

ghost use Rattle.std.specs.Prelude.{◌≡◌, ◌≢◌, ◌+◌, ◌-◌, ◌<◌, ◌≤◌, ◌∷◌, ◌++◌, None, Some, option_map, IfOk, IsTrue, IfNone, IfSome, ◌==◌, length, drop, replicate, slice_index};
ghost use Rattle.std.specs.Char.{is_ascii_alphabetic};
ghost use Rattle.std.specs.List.{list_all};
ghost use Rattle.frac_keys.specs.Keys.{is_integer};
ghost use Rattle.frac_keys.specs.Between.{increment, decrement, next_head, previous_head};

use crate::digits::{digit_byte, digit_value};
use crate::parts::digit_count;
use std::alloc::{AllocError, Global};

/// The integer part one above, if there is one.
pub(crate) fn increment(alloc: Global, integer: &[u8]) -> Result<Option<Vec<u8>>, AllocError>
    requires { IsTrue (is_integer integer.now) }
    ensures { IfOk result (λ above. option_map (λ v. v.items) above ≡ increment integer.now) }
{
    if let Some(at) = last_other(integer, b'z') {
        let next = digit_byte(digit_value(integer[at]) + 1);
        let above = filled(alloc, &integer[..at], next, integer.len(), b'0')?;
        return Ok(Some(above));
    }
    let Some(head) = next_head(integer[0]) else {
        return Ok(None);
    };
    let above = filled(alloc, &[], head, 1 + digit_count(head), b'0')?;
    Ok(Some(above))
}

/// The integer part one below, if there is one.
pub(crate) fn decrement(alloc: Global, integer: &[u8]) -> Result<Option<Vec<u8>>, AllocError>
    requires { IsTrue (is_integer integer.now) }
    ensures { IfOk result (λ below. option_map (λ v. v.items) below ≡ decrement integer.now) }
{
    if let Some(at) = last_other(integer, b'0') {
        let previous = digit_byte(digit_value(integer[at]) - 1);
        let below = filled(alloc, &integer[..at], previous, integer.len(), b'z')?;
        return Ok(Some(below));
    }
    let Some(head) = previous_head(integer[0]) else {
        return Ok(None);
    };
    let below = filled(alloc, &[], head, 1 + digit_count(head), b'z')?;
    Ok(Some(below))
}

/// The place of the last digit behind the head that isn't `full`.
fn last_other(integer: &[u8], full: u8) -> Option<usize>
    ensures none { IfNone result (IsTrue (list_all (λ digit. digit == full) (drop 1 integer.now))) }
    ensures place { IfSome result (λ at. (0 < at) × (at < length integer.now)) }
    ensures other { IfSome result (λ at. slice_index integer.now at ≢ full) }
    ensures behind { IfSome result
        (λ at. IsTrue (list_all (λ digit. digit == full) (drop (at + 1) integer.now))) }
{
    for at in (1..integer.len()).rev() {
        if integer[at] != full {
            return Some(at);
        }
    }
    None
}

/// The bytes in front, one more, and as many of another one as fill up the length.
fn filled(
    alloc: Global,
    front: &[u8],
    byte: u8,
    len: usize,
    fill: u8,
) -> Result<Vec<u8>, AllocError>
    requires { length front.now + 1 ≤ len }
    ensures { IfOk result (λ v. v.items ≡ front.now ++ byte
        ∷ replicate (len - length front.now - 1) fill) }
{
    let mut bytes = Vec::with_capacity(alloc, len)?;
    bytes.extend_from_slice(front)?;
    bytes.push(byte)?;
    bytes.resize(len, fill)?;
    Ok(bytes)
}

/// The head after another one, if there is one.
#[tactic(auto, unfolding(crate::specs::Between::next_head))]
fn next_head(head: u8) -> Option<u8>
    requires { IsTrue (is_ascii_alphabetic head) }
    ensures value { result ≡ next_head head }
    ensures head { IfSome result (λ other. IsTrue (is_ascii_alphabetic other)) }
{
    match head {
        b'z' => None,
        b'Z' => Some(b'a'),
        _ => Some(head + 1),
    }
}

/// The head before another one, if there is one.
#[tactic(auto, unfolding(crate::specs::Between::previous_head))]
fn previous_head(head: u8) -> Option<u8>
    requires { IsTrue (is_ascii_alphabetic head) }
    ensures value { result ≡ previous_head head }
    ensures head { IfSome result (λ other. IsTrue (is_ascii_alphabetic other)) }
{
    match head {
        b'A' => None,
        b'a' => Some(b'Z'),
        _ => Some(head - 1),
    }
}
