//! The bytes of a quote, one after the other, without memory.

ghost use Rattle.std.specs.Prelude.{◌≡◌, ◌<◌, [], ◌∷◌, drop, MatchOption};
ghost use Rattle.json_text.specs.Characters.{quote, quoted_byte};

use crate::quotes::hex_digit;
use std::marker::Model;

/// What is left of the quote of a text: first a byte or an escape, which stands at the end of
/// `lead`, then the text's further bytes, then, while it is open, the closing mark.
#[derive(Drop)]
pub struct QuoteBytes<'a> {
    lead: [u8; 6],
    at: usize,
    rest: &'a [u8],
    is_open: bool,
}

impl<'a> Model for QuoteBytes<'a> {
    ghost use Rattle.std.specs.Prelude.{List, [], ◌∷◌, ℕ, ◌≤◌, ◌++◌, drop, flat_map, if◌then◌else◌};
    ghost use Rattle.json_text.specs.Characters.{quoted_byte};

    ghost Value = { List ℕ };

    ghost view = { λ q. drop q.at q.lead ++ (if q.is_open then flat_map quoted_byte q.rest.now ++ 34
        ∷ [] else []) };

    ghost invariant = { λ q. q.at ≤ 6 };
}

impl<'a> QuoteBytes<'a> {
    /// The quote of a text.
    #[tactic(auto, unfolding(crate::specs::Characters::quote))]
    pub fn of(text: &'a [u8]) -> QuoteBytes<'a>
        ensures { result ≡ quote text.now }
    {
        QuoteBytes {
            lead: [0, 0, 0, 0, 0, b'"'],
            at: 5,
            rest: text,
            is_open: true,
        }
    }

    /// No quote.
    pub fn none() -> QuoteBytes<'a>
        ensures { result ≡ [] }
    {
        QuoteBytes {
            lead: [0; 6],
            at: 6,
            rest: &[],
            is_open: false,
        }
    }

    /// Takes the next byte.
    pub fn next(&mut self) -> Option<u8>
        ensures { MatchOption result ((self.old ≡ []) × (self.new ≡ [])) (λ byte. self.old ≡ byte
            ∷ self.new) }
    {
        if self.at < 6 {
            let byte = self.lead[self.at];
            self.at += 1;
            return Some(byte);
        }
        if !self.is_open {
            return None;
        }
        match self.rest.split_first() {
            None => {
                self.is_open = false;
                Some(b'"')
            }
            Some((byte, rest)) => {
                let (lead, at) = escaped(*byte);
                self.lead = lead;
                self.at = at + 1;
                self.rest = rest;
                Some(lead[at])
            }
        }
    }
}

/// A byte as it stands in a quote, at the end of six bytes, and where it begins.
fn escaped(byte: u8) -> ([u8; 6], usize)
    ensures within { result.1 < 6 }
    ensures text { drop result.1 result.0 ≡ quoted_byte byte }
{
    match byte {
        b'"' | b'\\' => ([0, 0, 0, 0, b'\\', byte], 4),
        b' '.. => ([0, 0, 0, 0, 0, byte], 5),
        0x08 => ([0, 0, 0, 0, b'\\', b'b'], 4),
        b'\t' => ([0, 0, 0, 0, b'\\', b't'], 4),
        b'\n' => ([0, 0, 0, 0, b'\\', b'n'], 4),
        0x0c => ([0, 0, 0, 0, b'\\', b'f'], 4),
        b'\r' => ([0, 0, 0, 0, b'\\', b'r'], 4),
        _ => (
            [
                b'\\',
                b'u',
                b'0',
                b'0',
                hex_digit(byte / 16),
                hex_digit(byte % 16),
            ],
            0,
        ),
    }
}
