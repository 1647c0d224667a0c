//! Fractions between fractions.

ghost use Rattle.std.specs.Prelude.{◌≡◌, ◌≢◌, ◌<◌, ◌≤◌, ◌==◌, ◌++◌, OnOk, IsTrue, length, take, drop, slice_index};
ghost use Rattle.std.specs.List.{list_all, prefix_len};
ghost use Rattle.frac_keys.specs.Digits.{is_key_digit};
ghost use Rattle.frac_keys.specs.Between.{first_digit, later_digits, midpoint, midpoint_above};

use crate::digits::{digit_value, middle_digit};
use std::alloc::AllocError;

/// Appends the fraction between two, the first of which is less.
pub(crate) fn push_midpoint(bytes: &mut Vec<u8>, a: &[u8], b: &[u8]) -> Result<(), AllocError>
    requires low { IsTrue (list_all is_key_digit a.now) }
    requires high { IsTrue (list_all is_key_digit b.now) }
    ensures { OnOk result (bytes.new.items ≡ bytes.old.items ++ midpoint a.now b.now) }
{
    let shared = shared_len(a, b);
    bytes.extend_from_slice(&b[..shared])?;
    push_parted(bytes, &a[shared.min(a.len())..], &b[shared..])
}

/// How many digits two fractions begin with alike, `0`s behind the first one counted.
fn shared_len(a: &[u8], b: &[u8]) -> usize
    ensures within { result ≤ length b.now }
    ensures shared { midpoint a.now b.now ≡ take result b.now
        ++ midpoint (drop result a.now) (drop result b.now) }
    ensures parted { result < length b.now
        → first_digit (drop result a.now) ≢ slice_index b.now result }
{
    for (i, digit) in b.iter().enumerate() {
        if first_digit(&a[i.min(a.len())..]) != *digit {
            return i;
        }
    }
    b.len()
}

/// Appends the fraction between two whose first digits differ.
fn push_parted(bytes: &mut Vec<u8>, a: &[u8], b: &[u8]) -> Result<(), AllocError>
    requires low { IsTrue (list_all is_key_digit a.now) }
    requires high { IsTrue (list_all is_key_digit b.now) }
    requires parted { 0 < length b.now → first_digit a.now ≢ slice_index b.now 0 }
    ensures { OnOk result (bytes.new.items ≡ bytes.old.items ++ midpoint a.now b.now) }
{
    let Some((digit, rest)) = b.split_first() else {
        return Ok(());
    };
    let first = first_digit(a);
    let (low, high) = (digit_value(first), digit_value(*digit));
    if low + 1 < high {
        bytes.push(middle_digit(low, high))?;
        return Ok(());
    }
    if !rest.is_empty() {
        bytes.push(*digit)?;
        return Ok(());
    }
    bytes.push(first)?;
    push_midpoint_above(bytes, later_digits(a))
}

/// Appends a fraction above the one given.
pub(crate) fn push_midpoint_above(bytes: &mut Vec<u8>, a: &[u8]) -> Result<(), AllocError>
    requires { IsTrue (list_all is_key_digit a.now) }
    ensures { OnOk result (bytes.new.items ≡ bytes.old.items ++ midpoint_above a.now) }
{
    let full = full_len(a);
    bytes.extend_from_slice(&a[..full])?;
    let low = digit_value(first_digit(&a[full..]));
    bytes.push(middle_digit(low, 62))?;
    Ok(())
}

/// How many digits of 61 a fraction begins with.
fn full_len(a: &[u8]) -> usize
    ensures { result ≡ prefix_len (λ digit. digit == 122) a.now }
{
    a.iter().take_while(|digit| **digit == b'z').count()
}

/// The first digit of a fraction, which is `0` at its end.
fn first_digit(a: &[u8]) -> u8
    ensures { result ≡ first_digit a.now }
{
    a.first().copied().unwrap_or(b'0')
}

/// What follows the first digit of a fraction.
fn later_digits(a: &[u8]) -> &[u8]
    ensures { result.now ≡ later_digits a.now }
{
    match a {
        [_, rest @ ..] => rest,
        [] => a,
    }
}
