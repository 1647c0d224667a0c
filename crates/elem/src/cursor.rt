//! The bytes of an element's text, one after the other, without memory.

ghost use Rattle.std.specs.Prelude.{◌≡◌, [], ◌∷◌, ◌++◌, drop, MatchOption, if◌then◌else◌};
ghost use Rattle.json_text.specs.Compact.{member_text};
ghost use Rattle.elem.specs.declared.source.Source.{Source};
ghost use Rattle.elem.specs.inner.Left.{value_left, open_left, members_left, IsElementSource, Splits};
ghost use Rattle.elem.specs.inner.Printing.{header_pair};
ghost use Rattle.elem.specs.Texts.{element_text};

use crate::element::Element;
use crate::header::{Header, headers_of};
use crate::object::next_below;
use crate::piece::TextPiece;
use crate::source::Source;
use crate::value::{Value, member_piece, object_end, object_mark, value_of};
use members::Members;
use std::marker::Model;

/// What is left of an element's text: of a piece of it, of the value that the piece belongs to, and
/// its further members.
#[derive(Drop)]
pub(crate) struct Cursor<'a> {
    source: Source<'a>,
    piece: TextPiece<'a>,
    value: Value<'a>,
    members: Left<'a>,
}

/// The members of an element that are left: header members, and others from an index on, until the
/// object is closed. The truth tells that none was read.
#[derive(Clone, Copy)]
pub(crate) enum Left<'a> {
    Open(bool, &'static [Header], &'a Members, usize),
    Closed,
}

impl<'a> Model for Cursor<'a> {
    ghost use Rattle.std.specs.Prelude.{List, ℕ, ◌++◌};
    ghost use Rattle.elem.specs.inner.Left.{value_left, members_left, IsElementSource};

    ghost Value = { List ℕ };

    ghost view = { λ c. c.piece ++ (value_left c.value ++ members_left c.source c.members) };

    ghost invariant = { λ c. IsElementSource c.source };
}

impl<'a> Cursor<'a> {
    /// All of the text of an element.
    pub(crate) fn of(source: Source<'a>) -> Cursor<'a>
        requires { IsElementSource source }
        ensures { result ≡ element_text source.entry.e.now }
    {
        Cursor {
            source,
            piece: TextPiece::plain(b""),
            value: Value::Nothing,
            members: members_of(source.e),
        }
    }

    /// Takes the next byte.
    pub(crate) fn next(&mut self) -> Option<u8>
        ensures { MatchOption result ((self.old ≡ []) × (self.new ≡ [])) (λ byte. self.old ≡ byte
            ∷ self.new) }
    {
        if let Some(byte) = self.piece.next() {
            return Some(byte);
        }
        if let Some((piece, value)) = self.value.next() {
            self.piece = piece;
            self.value = value;
            return self.piece.next();
        }
        let (piece, value, members) = self.members.next(self.source)?;
        self.piece = piece;
        self.value = value;
        self.members = members;
        self.piece.next()
    }
}

/// All members of an element.
fn members_of(e: &Element) -> Left<'_>
    ensures { (source : Source) → source.e.now ≡ e.now
        → members_left source result ≡ element_text e.now }
{
    Left::Open(true, headers_of(&e.kind), e.rest.as_members(), 0)
}

impl<'a> Left<'a> {
    /// A piece of the next member, what is left of its value, and the further members.
    fn next(self, source: Source<'a>) -> Option<(TextPiece<'a>, Value<'a>, Left<'a>)>
        requires { IsElementSource source }
        ensures { MatchOption result (members_left source.entry self.entry ≡ [])
            (λ next. Splits (members_left source.entry self.entry) next.0
            (value_left next.1 ++ members_left source.entry next.2)) }
    {
        match self {
            Left::Open(first, headers, rest, at) => Some(next_of(source, first, headers, rest, at)),
            Left::Closed => None,
        }
    }
}

/// A piece of the next member, what is left of its value, and the further members.
fn next_of<'a>(
    source: Source<'a>,
    first: bool,
    headers: &'static [Header],
    rest: &'a Members,
    at: usize,
) -> (TextPiece<'a>, Value<'a>, Left<'a>)
    requires { IsElementSource source }
    ensures { Splits (open_left source.entry first headers.now (drop at rest.now)) result.0
        (value_left result.1 ++ members_left source.entry result.2) }
{
    match headers.split_first() {
        None => next_kept(first, rest, at),
        Some((header, others)) => match next_below(rest, at, header.name()) {
            Some(next) => {
                let piece = member_piece(first, rest, at);
                (
                    piece,
                    Value::Nothing,
                    Left::Open(false, headers, rest, next),
                )
            }
            None => {
                let (piece, value) = header_piece(source, first, *header);
                (piece, value, Left::Open(false, others, rest, at))
            }
        },
    }
}

/// The next member behind all header members, or the end.
fn next_kept<'a>(first: bool, rest: &'a Members, at: usize) -> (TextPiece<'a>, Value<'a>, Left<'a>)
    ensures { (source : Source) → Splits (open_left source first [] (drop at rest.now)) result.0
        (value_left result.1 ++ members_left source result.2) }
{
    match at < rest.len() {
        true => (
            member_piece(first, rest, at),
            Value::Nothing,
            Left::Open(false, &[], rest, at + 1),
        ),
        false => (
            TextPiece::plain(object_end(first)),
            Value::Nothing,
            Left::Closed,
        ),
    }
}

/// A piece of a header member, and what is left of its value.
fn header_piece<'a>(source: Source<'a>, first: bool, header: Header) -> (TextPiece<'a>, Value<'a>)
    requires { IsElementSource source }
    ensures { Splits ((if first then 123 else 44)
        ∷ member_text (header_pair source.entry.e.now header))
        result.0 (value_left result.1) }
{
    let start = value_of(source, header);
    let name = header.name().as_bytes();
    let piece = TextPiece::member(object_mark(first), name, start.quote, start.plain);
    (piece, start.value)
}
