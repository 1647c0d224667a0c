//! Stretches of bytes of one class, found 16 bytes at a time.

ghost use Rattle.std.specs.Prelude.{◌≡◌, ℕ, ◌+◌, ◌≤◌, Bool, not, map, drop, length};
ghost use Rattle.std.specs.List.{prefix_len};
ghost use Rattle.std.specs.Simd.Lanes.{mask_l};
ghost use Rattle.json_text.specs.Characters.{is_plain, is_bare, is_digit, is_inert, is_quiet, is_space};

use crate::space::is_space;
use std::simd::prelude::*;

/// A class of bytes.
trait Class {
    ghost holds: { ℕ → Bool };

    fn has(byte: u8) -> bool
        ensures { result ≡ holds byte };

    /// A bit for each byte that isn't of the class.
    fn others(bytes: u8x16) -> u64
        ensures { result ≡ mask_l (map (λ b. not (holds b)) bytes) };
}

/// What stands in a string as it is.
struct Plain;

impl Class for Plain {
    ghost holds = { is_plain };

    /// Most are letters.
    #[inline(always)]
    fn has(byte: u8) -> bool {
        matches!(byte, b']'..) || !matches!(byte, b'"' | b'\\')
    }

    #[inline(always)]
    fn others(bytes: u8x16) -> u64 {
        (bytes.simd_eq(u8x16::splat(b'"')) | bytes.simd_eq(u8x16::splat(b'\\'))).to_bitmask()
    }
}

/// The ASCII characters among them.
struct Bare;

impl Class for Bare {
    ghost holds = { is_bare };

    #[inline(always)]
    fn has(byte: u8) -> bool {
        matches!(byte, b']'..=0x7f) || matches!(byte, b' ' | b'!' | b'#'..=b'[')
    }

    #[inline(always)]
    fn others(bytes: u8x16) -> u64 {
        (bytes.simd_eq(u8x16::splat(b'"'))
            | bytes.simd_eq(u8x16::splat(b'\\'))
            | bytes.simd_lt(u8x16::splat(b' '))
            | bytes.simd_ge(u8x16::splat(0x80))).to_bitmask()
    }
}

/// The digits of base 10.
struct Digit;

impl Class for Digit {
    ghost holds = { is_digit };

    #[inline(always)]
    fn has(byte: u8) -> bool {
        byte.is_ascii_digit()
    }

    #[inline(always)]
    fn others(bytes: u8x16) -> u64 {
        (bytes.simd_lt(u8x16::splat(b'0')) | bytes.simd_ge(u8x16::splat(58))).to_bitmask()
    }
}

/// White space.
struct Space;

impl Class for Space {
    ghost holds = { is_space };

    #[inline(always)]
    fn has(byte: u8) -> bool {
        is_space(byte)
    }

    #[inline(always)]
    fn others(bytes: u8x16) -> u64 {
        (bytes.simd_ne(u8x16::splat(b' '))
            & bytes.simd_ne(u8x16::splat(b'\n'))
            & bytes.simd_ne(u8x16::splat(b'\r'))
            & bytes.simd_ne(u8x16::splat(b'\t'))).to_bitmask()
    }
}

/// No quotation mark, no bracket and no comma.
struct Inert;

impl Class for Inert {
    ghost holds = { is_inert };

    #[inline(always)]
    fn has(byte: u8) -> bool {
        !matches!(byte, b'"' | b',' | b'[' | b']' | b'{' | b'}')
    }

    #[inline(always)]
    fn others(bytes: u8x16) -> u64 {
        (bytes.simd_eq(u8x16::splat(b'"'))
            | bytes.simd_eq(u8x16::splat(b','))
            | bytes.simd_eq(u8x16::splat(b'['))
            | bytes.simd_eq(u8x16::splat(b']'))
            | bytes.simd_eq(u8x16::splat(b'{'))
            | bytes.simd_eq(u8x16::splat(b'}'))).to_bitmask()
    }
}

/// No quotation mark and no bracket.
struct Quiet;

impl Class for Quiet {
    ghost holds = { is_quiet };

    #[inline(always)]
    fn has(byte: u8) -> bool {
        !matches!(byte, b'"' | b'[' | b']' | b'{' | b'}')
    }

    #[inline(always)]
    fn others(bytes: u8x16) -> u64 {
        (bytes.simd_eq(u8x16::splat(b'"'))
            | bytes.simd_eq(u8x16::splat(b'['))
            | bytes.simd_eq(u8x16::splat(b']'))
            | bytes.simd_eq(u8x16::splat(b'{'))
            | bytes.simd_eq(u8x16::splat(b'}'))).to_bitmask()
    }
}

/// Where the first `"` or `\` stands from an offset on.
#[inline(always)]
pub fn run_end(bytes: &[u8], at: usize) -> usize
    requires { at ≤ length bytes.now }
    ensures value { result ≡ at + prefix_len is_plain (drop at bytes.now) }
    ensures within { (at ≤ result) × (result ≤ length bytes.now) }
{
    end_of::<Plain>(bytes, at)
}

/// Where the first byte stands from an offset on that isn't an ASCII character which stands in a
/// string as it is.
#[inline(always)]
pub fn bare_end(bytes: &[u8], at: usize) -> usize
    requires { at ≤ length bytes.now }
    ensures value { result ≡ at + prefix_len is_bare (drop at bytes.now) }
    ensures within { (at ≤ result) × (result ≤ length bytes.now) }
{
    end_of::<Bare>(bytes, at)
}

/// Where the first byte stands from an offset on that isn't a digit.
#[inline(always)]
pub fn digits_end(bytes: &[u8], at: usize) -> usize
    requires { at ≤ length bytes.now }
    ensures value { result ≡ at + prefix_len is_digit (drop at bytes.now) }
    ensures within { (at ≤ result) × (result ≤ length bytes.now) }
{
    end_of::<Digit>(bytes, at)
}

/// Where the first byte stands from an offset on that isn't white space, or the length.
#[inline(always)]
pub fn skip_space(bytes: &[u8], at: usize) -> usize
    requires { at ≤ length bytes.now }
    ensures { result ≡ at + prefix_len is_space (drop at bytes.now) }
{
    end_of::<Space>(bytes, at)
}

/// Where the first quotation mark, bracket or comma stands from an offset on.
#[inline(always)]
pub fn inert_end(bytes: &[u8], at: usize) -> usize
    requires { at ≤ length bytes.now }
    ensures value { result ≡ at + prefix_len is_inert (drop at bytes.now) }
    ensures within { (at ≤ result) × (result ≤ length bytes.now) }
{
    end_of::<Inert>(bytes, at)
}

/// Where the first quotation mark or bracket stands from an offset on.
#[inline(always)]
pub fn quiet_end(bytes: &[u8], at: usize) -> usize
    requires { at ≤ length bytes.now }
    ensures value { result ≡ at + prefix_len is_quiet (drop at bytes.now) }
    ensures within { (at ≤ result) × (result ≤ length bytes.now) }
{
    end_of::<Quiet>(bytes, at)
}

#[inline(always)]
#[tactic(auto, using(crate::proofs::Masks::run_steps))]
fn end_of<C: Class>(bytes: &[u8], at: usize) -> usize
    requires { at ≤ length bytes.now }
    ensures value { result ≡ at + prefix_len C.holds (drop at bytes.now) }
    ensures within { (at ≤ result) × (result ≤ length bytes.now) }
{
    let mut i = at;
    while bytes.len() - i >= 16 {
        let others = C::others(u8x16::from_slice(&bytes[i..]));
        if others != 0 {
            return i + others.trailing_zeros() as usize;
        }
        i += 16;
    }
    last_end::<C>(bytes, i)
}

/// The same, one byte at a time.
#[inline(never)]
fn last_end<C: Class>(bytes: &[u8], at: usize) -> usize
    requires { at ≤ length bytes.now }
    ensures { result ≡ at + prefix_len C.holds (drop at bytes.now) }
{
    for i in at..bytes.len() {
        if !C::has(bytes[i]) {
            return i;
        }
    }
    bytes.len()
}
