//! Stretches of an element's text that are read byte by byte.

ghost use Rattle.std.specs.Prelude.{◌≡◌, [], ◌∷◌, ◌++◌, MatchOption};
ghost use Rattle.json_text.specs.Characters.{quote};

use json_text::QuoteBytes;
use std::marker::Model;

/// What is left of a stretch: a mark, a quote, a colon, another quote, and bytes as they are.
#[derive(Drop)]
pub(crate) struct TextPiece<'a> {
    mark: &'static [u8],
    name: QuoteBytes<'a>,
    colon: &'static [u8],
    quote: QuoteBytes<'a>,
    plain: &'a [u8],
}

impl<'a> Model for TextPiece<'a> {
    ghost use Rattle.std.specs.Prelude.{List, ℕ, ◌++◌};

    ghost Value = { List ℕ };

    ghost view = { λ p. p.mark.now ++ (p.name ++ (p.colon.now ++ (p.quote ++ p.plain.now))) };
}

impl<'a> TextPiece<'a> {
    /// These bytes.
    pub(crate) fn plain(bytes: &'a [u8]) -> TextPiece<'a>
        ensures { result ≡ bytes.now }
    {
        TextPiece {
            mark: b"",
            name: QuoteBytes::none(),
            colon: b"",
            quote: QuoteBytes::none(),
            plain: bytes,
        }
    }

    /// A quote behind a mark.
    pub(crate) fn quote(mark: &'static [u8], text: &'a [u8]) -> TextPiece<'a>
        ensures { result ≡ mark.now ++ quote text.now }
    {
        TextPiece {
            mark,
            name: QuoteBytes::of(text),
            colon: b"",
            quote: QuoteBytes::none(),
            plain: b"",
        }
    }

    /// A member of this name behind a mark, its value a quote and bytes as they are.
    pub(crate) fn member(
        mark: &'static [u8],
        name: &'a [u8],
        value: QuoteBytes<'a>,
        plain: &'a [u8],
    ) -> TextPiece<'a>
        ensures { result ≡ mark.now ++ (quote name.now ++ 58 ∷ (value.entry ++ plain.now)) }
    {
        TextPiece {
            mark,
            name: QuoteBytes::of(name),
            colon: b":",
            quote: value,
            plain,
        }
    }

    /// Takes the next byte.
    pub(crate) fn next(&mut self) -> Option<u8>
        ensures { MatchOption result ((self.old ≡ []) × (self.new ≡ [])) (λ byte. self.old ≡ byte
            ∷ self.new) }
    {
        if let Some((byte, rest)) = self.mark.split_first() {
            self.mark = rest;
            return Some(*byte);
        }
        if let Some(byte) = self.name.next() {
            return Some(byte);
        }
        if let Some((byte, rest)) = self.colon.split_first() {
            self.colon = rest;
            return Some(*byte);
        }
        if let Some(byte) = self.quote.next() {
            return Some(byte);
        }
        let (byte, rest) = self.plain.split_first()?;
        self.plain = rest;
        Some(*byte)
    }
}
