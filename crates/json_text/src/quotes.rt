//! Quotes of texts.

ghost use Rattle.std.specs.Prelude.{◌≡◌, ◌++◌, ◌+◌, ◌<◌, take, OnOk, OnErr, flat_map, position};
ghost use Rattle.std.specs.Str.{IsUtf8};
ghost use Rattle.json_text.specs.Appending.{Extends};
ghost use Rattle.json_text.specs.Characters;
ghost use Rattle.json_text.specs.Characters.{quote, quoted_byte, needs_escape};
ghost use Rattle.json_text.specs.Value.{IsCompact};

use crate::text::Text;
use std::alloc::AllocError;

/// Appends the quote of a text. For want of memory nothing is appended.
#[tactic(auto, using(crate::proofs::CompactLaws::compact_texts))]
#[inline(always)]
pub fn push_quote(out: &mut Vec<u8>, text: &Text) -> Result<(), AllocError>
    ensures ok { OnOk result (out.new.items ≡ out.old.items ++ quote text.now) }
    ensures err { OnErr result (out.new.items ≡ out.old.items) }
    ensures utf8 { IsUtf8 text.now }
    ensures nests { IsCompact 0 (quote text.now) }
{
    match text.as_quote() {
        Some(quote) => out.extend_from_slice(quote),
        None => push_quote_of(out, text.as_bytes()),
    }
}

/// Appends the quote of these characters. For want of memory nothing is appended.
#[tactic(auto, using(crate::proofs::CompactLaws::compact_texts))]
pub fn push_quoted(out: &mut Vec<u8>, characters: &str) -> Result<(), AllocError>
    ensures ok { OnOk result (out.new.items ≡ out.old.items ++ quote characters.now) }
    ensures err { OnErr result (out.new.items ≡ out.old.items) }
    ensures nests { IsCompact 0 (quote characters.now) }
{
    push_quote_of(out, characters.as_bytes())
}

/// What an append to a vector of this length came to. Where it failed, the vector is cut back to
/// that length.
pub fn whole_or_cut(
    out: &mut Vec<u8>,
    length: usize,
    appended: Result<(), AllocError>,
) -> Result<(), AllocError>
    ensures same { result ≡ appended }
    ensures ok { OnOk result (out.new.items ≡ out.old.items) }
    ensures err { OnErr result (out.new.items ≡ take length out.old.items) }
{
    if appended.is_err() {
        out.truncate(length);
    }
    appended
}

/// Appends the quote of a text of these bytes. For want of memory nothing is appended.
#[inline(never)]
fn push_quote_of(out: &mut Vec<u8>, text: &[u8]) -> Result<(), AllocError>
    ensures ok { OnOk result (out.new.items ≡ out.old.items ++ quote text.now) }
    ensures err { OnErr result (out.new.items ≡ out.old.items) }
{
    let start = out.len();
    let appended = push_quote_parts(out, text);
    whole_or_cut(out, start, appended)
}

/// Appends the quote of a text of these bytes. After want of memory a part of it may stand there.
#[tactic(auto, using(std::proofs::lemmas::Grind::common_steps), unfolding(crate::specs::Characters::quote))]
fn push_quote_parts(out: &mut Vec<u8>, text: &[u8]) -> Result<(), AllocError>
    ensures ok { OnOk result (out.new.items ≡ out.old.items ++ quote text.now) }
    ensures kept { OnErr result (Extends out.old.items out.new.items) }
{
    out.push(b'"')?;
    push_escaped(out, text)?;
    out.push(b'"')?;
    Ok(())
}

/// Appends what stands between the quotation marks. Bytes that stand for themselves are copied
/// together.
#[tactic(auto, using(crate::proofs::Appending::extends_same, crate::proofs::Appending::extends_by, crate::proofs::Appending::extends_then, crate::proofs::Strings::string_steps))]
fn push_escaped(out: &mut Vec<u8>, text: &[u8]) -> Result<(), AllocError>
    ensures ok { OnOk result (out.new.items ≡ out.old.items ++ flat_map quoted_byte text.now) }
    ensures kept { OnErr result (Extends out.old.items out.new.items) }
{
    let mut rest = text;
    while let Some(plain) = first_escaped(rest) {
        out.extend_from_slice(&rest[..plain])?;
        push_quoted_byte(out, rest[plain])?;
        rest = &rest[plain + 1..];
    }
    out.extend_from_slice(rest)
}

/// Where the first byte stands that needs an escape, if there is one.
fn first_escaped(text: &[u8]) -> Option<usize>
    ensures { result ≡ position needs_escape text.now }
{
    text.iter()
        .position(|byte| *byte < b' ' || *byte == b'"' || *byte == b'\\')
}

/// Appends a byte as it stands in a quote.
fn push_quoted_byte(out: &mut Vec<u8>, byte: u8) -> Result<(), AllocError>
    ensures ok { OnOk result (out.new.items ≡ out.old.items ++ quoted_byte byte) }
    ensures err { OnErr result (out.new.items ≡ out.old.items) }
{
    match byte {
        b'"' | b'\\' => out.extend_from_slice(&[b'\\', byte]),
        b' '.. => out.extend_from_slice(&[byte]),
        0x08 => out.extend_from_slice(b"\\b"),
        b'\t' => out.extend_from_slice(b"\\t"),
        b'\n' => out.extend_from_slice(b"\\n"),
        0x0c => out.extend_from_slice(b"\\f"),
        b'\r' => out.extend_from_slice(b"\\r"),
        _ => {
            let digits = [
                b'\\',
                b'u',
                b'0',
                b'0',
                hex_digit(byte / 16),
                hex_digit(byte % 16),
            ];
            out.extend_from_slice(&digits)
        }
    }
}

/// The digit of base 16, in lower case.
pub(crate) fn hex_digit(value: u8) -> u8
    requires { value < 16 }
    ensures { result ≡ Characters.hex_digit value }
{
    if value < 10 { value + b'0' } else { value + 87 }
}
