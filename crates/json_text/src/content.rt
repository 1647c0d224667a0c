//! The text of a string in a text that is known to be JSON.

ghost use Rattle.std.specs.Prelude.{◌≡◌, ◌≢◌, ℕ, [], ◌∷◌, true, ◌+◌, ◌*◌, ◌^◌, ◌<◌, ◌≤◌, List, ◌++◌, drop, length, slice_get, slice_index, Some, IfOk, OnOk, IfSome, IfNone, encode_utf8};
ghost use Rattle.std.specs.List.{list_all};
ghost use Rattle.json_text.specs.Characters;
ghost use Rattle.json_text.specs.Characters.{is_hex};
ghost use Rattle.json_text.specs.inner.Spans.{between};
ghost use Rattle.json_text.specs.Tree.{unit, IsPiece};
ghost use Rattle.json_text.specs.Compact.{lone, piece_value};
ghost use Rattle.json_text.specs.Compact;
ghost use Rattle.json_text.specs.Tree;
ghost use Rattle.json_text.specs.Walk.{Quoted};
ghost use Rattle.json_text.specs.inner.Walk.{Unread, Takes, StartsWithUnit, unit_at};

use crate::runs::run_end;
use crate::text::{Raw, Text};
use std::alloc::{AllocError, Global};

/// The text of the string at an offset of a value, and the offset after the string. Where no
/// character is escaped, no byte is copied.
#[inline(always)]
pub fn text_at(alloc: Global, value: &Raw, at: usize) -> Result<(Text, usize), AllocError>
    requires { (text rest : List ℕ) × Quoted (drop at value.now) text rest }
    ensures found { IfOk result (λ found. (text rest : List ℕ)
        → Quoted (drop at value.now) text rest
        → (found.0 ≡ text) × (drop found.1 value.now ≡ rest)) }
    ensures within { IfOk result (λ found. (at < found.1) × (found.1 ≤ length value.now)) }
{
    let bytes = value.as_bytes();
    let end = run_end(bytes, at + 1);
    if bytes[end] == b'"' {
        return Ok((value.cut_text(at + 1, end)?, end + 1));
    }
    content_of(alloc, bytes, at)
}

/// The text of the string at an offset, and the offset after the string.
pub fn content_of(alloc: Global, bytes: &[u8], at: usize) -> Result<(Text, usize), AllocError>
    requires { (text rest : List ℕ) × Quoted (drop at bytes.now) text rest }
    ensures found { IfOk result (λ found. (text rest : List ℕ)
        → Quoted (drop at bytes.now) text rest
        → (found.0 ≡ text) × (drop found.1 bytes.now ≡ rest)) }
    ensures within { IfOk result (λ found. (at < found.1) × (found.1 ≤ length bytes.now)) }
{
    let mut text = Vec::new(alloc);
    let mut next = at + 1;
    loop {
        let end = run_end(bytes, next);
        text.extend_from_slice(&bytes[next..end])?;
        if bytes[end] == b'"' {
            return Ok((Text::from_utf8(text)?, end + 1));
        }
        next = end + push_escape(&mut text, &bytes[end..])?;
    }
}

/// Appends the character of the escape at the front, or of a pair of surrogates, and tells how many
/// bytes that takes.
#[tactic(auto, using(crate::proofs::Contents::letter_takes))]
fn push_escape(out: &mut Vec<u8>, rest: &[u8]) -> Result<usize, AllocError>
    requires unread { (text after : List ℕ) × Unread rest.now text after }
    requires escape { slice_index rest.now 0 ≡ 92 }
    ensures ok { IfOk result (λ count. Takes Unread rest.now count out.old.items out.new.items) }
    ensures within { IfOk result (λ count. (0 < count) × (count ≤ length rest.now)) }
{
    let [_, kind, ..] = rest else { unreachable!() };
    if *kind != b'u' {
        out.push(letter_meaning(*kind))?;
        return Ok(2);
    }
    let [_, _, a, b, c, d, tail @ ..] = rest else {
        unreachable!()
    };
    let first = unit_of(*a, *b, *c, *d);
    if let Some(second) = second_unit(first, tail) {
        push_character(
            out,
            0x1_0000 + ((first - 0xd800) * 1024 + (second - 0xdc00)),
        )?;
        return Ok(12);
    }
    push_character(out, first)?;
    Ok(6)
}

/// The low surrogate that follows, where the first unit is a high one.
fn second_unit(first: u32, tail: &[u8]) -> Option<u32>
    requires { slice_index tail.now 0 ≡ 92 → slice_index tail.now 1 ≡ 117
        → IsPiece (unit_at tail.now) }
    ensures found { IfSome result (λ second. (Compact.is_high first ≡ true)
        × (Compact.is_low second ≡ true)
        × StartsWithUnit tail.now second) }
    ensures none { IfNone result ((second : ℕ) → Compact.is_high first ≡ true
        → Compact.is_low second ≡ true
        → StartsWithUnit tail.now second → ⊥) }
{
    if !is_high(first) {
        return None;
    }
    match tail {
        [b'\\', b'u', a, b, c, d, ..] => {
            let second = unit_of(*a, *b, *c, *d);
            if is_low(second) { Some(second) } else { None }
        }
        _ => None,
    }
}

/// The number of four digits of base 16.
#[tactic(auto, using(crate::proofs::Strings::string_steps))]
fn unit_of(a: u8, b: u8, c: u8, d: u8) -> u32
    requires { list_all is_hex (a ∷ b ∷ c ∷ d ∷ []) ≡ true }
    ensures value { result ≡ piece_value (unit a b c d) }
    ensures small { result < 2 ^ 16 }
{
    ((hex_value(a) * 16 + hex_value(b)) * 16 + hex_value(c)) * 16 + hex_value(d)
}

/// The value of a digit of base 16.
fn hex_value(digit: u8) -> u32
    requires { is_hex digit ≡ true }
    ensures value { result ≡ Characters.hex_value digit }
    ensures small { result < 16 }
{
    match digit {
        b'0'..=b'9' => u32::from(digit - b'0'),
        b'A'..=b'F' => u32::from(digit - 55),
        _ => u32::from(digit - 87),
    }
}

fn is_high(unit: u32) -> bool
    ensures { result ≡ Compact.is_high unit }
{
    0xd800 <= unit && unit < 0xdc00
}

fn is_low(unit: u32) -> bool
    ensures { result ≡ Compact.is_low unit }
{
    0xdc00 <= unit && unit < 0xe000
}

/// The character that a letter behind a `\` stands for, and 0 for a letter that may not stand
/// there.
fn letter_meaning(letter: u8) -> u8
    ensures value { result ≡ Tree.letter_meaning letter }
    ensures ascii { result < 128 }
{
    match letter {
        b'"' | b'\\' | b'/' => letter,
        b'b' => 0x08,
        b'f' => 0x0c,
        b'n' => b'\n',
        b'r' => b'\r',
        b't' => b'\t',
        _ => 0,
    }
}

/// Appends a character, or U+FFFD for a surrogate.
fn push_character(out: &mut Vec<u8>, code: u32) -> Result<(), AllocError>
    requires { code < 0x110000 }
    ensures { OnOk result (out.new.items ≡ out.old.items ++ encode_utf8 (lone code)) }
{
    let character = char::from_u32(code).unwrap_or(char::REPLACEMENT_CHARACTER);
    let mut buffer = [0; 4];
    out.extend_from_slice(character.encode_utf8(&mut buffer).as_bytes())
}
