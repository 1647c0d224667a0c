//! The value of a header member, read piece by piece.

ghost use Rattle.std.specs.Prelude.{◌≡◌, ◌++◌, ◌<◌, [], ◌∷◌, Some, false, map, length, drop, MatchOption, IfSome, if◌then◌else◌, codes};
ghost use Rattle.json_text.specs.Characters.{quote};
ghost use Rattle.json_text.specs.Members.{pair_of};
ghost use Rattle.json_text.specs.Compact.{array_text, member_text};
ghost use Rattle.members.specs.Standing.{nth};
ghost use Rattle.elem.specs.Facts.{IsBinding};
ghost use Rattle.elem.specs.inner.Printing.{header_value};
ghost use Rattle.elem.specs.inner.Left.{list_left, object_left, value_left, start_left, Splits, IsElementSource};
ghost use Rattle.elem.specs.Texts.{bound_text, binding_text, kind_name, role_name, truth_text, text_or_null};

use crate::header::Header;
use crate::kind::{Kind, Role};
use crate::object::next_below;
use crate::parts::{Binding, BoundRef};
use crate::piece::TextPiece;
use crate::source::Source;
use frac_keys::Key;
use json_text::{QuoteBytes, Text};
use members::Members;

/// What is left of the value of a header member, behind a piece of it. The truth tells that nothing
/// of it was read.
#[derive(Clone, Copy)]
pub(crate) enum Value<'a> {
    Nothing,
    /// An array of texts.
    Texts(bool, &'a [Text]),
    /// A listing.
    Listing(bool, &'a [BoundRef]),
    /// A binding whose target comes among its further members.
    Target(bool, &'a Text, &'a Members, usize),
    /// A binding of which further members alone come.
    Members(&'a Members, usize),
}

/// The value of a header member: a quote, bytes as they are, and more.
#[derive(Drop)]
pub(crate) struct Start<'a> {
    pub(crate) quote: QuoteBytes<'a>,
    pub(crate) plain: &'a [u8],
    pub(crate) value: Value<'a>,
}

impl<'a> Start<'a> {
    /// A value with these bytes.
    fn plain(bytes: &'a [u8]) -> Start<'a>
        ensures { start_left result ≡ bytes.now }
    {
        Start {
            quote: QuoteBytes::none(),
            plain: bytes,
            value: Value::Nothing,
        }
    }

    /// A text.
    fn quote(text: &'a [u8]) -> Start<'a>
        ensures { start_left result ≡ quote text.now }
    {
        Start {
            quote: QuoteBytes::of(text),
            plain: b"",
            value: Value::Nothing,
        }
    }

    /// A value all of which is to come.
    fn more(value: Value<'a>) -> Start<'a>
        ensures { start_left result ≡ value_left value.entry }
    {
        Start {
            quote: QuoteBytes::none(),
            plain: b"",
            value,
        }
    }
}

/// The value of a header member.
pub(crate) fn value_of<'a>(source: Source<'a>, header: Header) -> Start<'a>
    requires { IsElementSource source }
    ensures { start_left result ≡ header_value source.entry.e.now header }
{
    let e = source.e;
    match header {
        Header::BoundElements => listing_start(e.bound.as_slice()),
        Header::ContainerId => text_start(&e.container),
        Header::EndBinding => binding_start(&e.end_binding),
        Header::FileId => text_start(&e.file),
        Header::FrameId => text_start(&e.frame),
        Header::GroupIds => texts_start(e.groups.as_slice()),
        Header::Id => Start::quote(e.id.as_bytes()),
        Header::Index => key_start(&e.index),
        Header::IsDeleted => truth_start(e.deleted),
        Header::StartBinding => binding_start(&e.start_binding),
        Header::KindName => Start::quote(name_of(&e.kind)),
        Header::Updated => Start::plain(source.updated),
        Header::Version => Start::plain(source.version),
        Header::VersionNonce => Start::plain(source.nonce),
    }
}

/// An array of texts.
#[tactic(auto, using(crate::proofs::Leaving::array_left))]
fn texts_start(texts: &[Text]) -> Start<'_>
    ensures { start_left result ≡ array_text (map quote texts.now) }
{
    Start::more(Value::Texts(true, texts))
}

/// A listing.
#[tactic(auto, using(crate::proofs::Leaving::array_left))]
fn listing_start(entries: &[BoundRef]) -> Start<'_>
    ensures { start_left result ≡ array_text (map bound_text entries.now) }
{
    Start::more(Value::Listing(true, entries))
}

/// A text, or null where there is none.
fn text_start(text: &Option<Text>) -> Start<'_>
    ensures { start_left result ≡ text_or_null text.now }
{
    match text {
        None => Start::plain(b"null"),
        Some(text) => Start::quote(text.as_bytes()),
    }
}

/// A key, or null where there is none.
fn key_start(key: &Option<Key>) -> Start<'_>
    ensures { start_left result ≡ text_or_null key.now }
{
    match key {
        None => Start::plain(b"null"),
        Some(key) => Start::quote(key.as_bytes()),
    }
}

/// True or false.
fn truth_start(truth: bool) -> Start<'static>
    ensures { start_left result ≡ truth_text truth }
{
    match truth {
        true => Start::plain(b"true"),
        false => Start::plain(b"false"),
    }
}

/// A binding, or null where there is none.
fn binding_start(binding: &Option<Binding>) -> Start<'_>
    requires { IfSome binding.now IsBinding }
    ensures { start_left result ≡ binding_text binding.now }
{
    match binding {
        None => Start::plain(b"null"),
        Some(binding) => target_start(binding),
    }
}

/// A binding.
#[tactic(auto, using(crate::proofs::Leaving::binding_left))]
fn target_start(binding: &Binding) -> Start<'_>
    requires { IsBinding binding.now }
    ensures { start_left result ≡ binding_text (Some binding.now) }
{
    Start::more(Value::Target(true, &binding.target, binding.rest.as_members(), 0))
}

/// The name of a kind.
fn name_of(kind: &Kind) -> &[u8]
    ensures { result.now ≡ kind_name kind.now }
{
    match kind {
        Kind::Rectangle => b"rectangle",
        Kind::Diamond => b"diamond",
        Kind::Ellipse => b"ellipse",
        Kind::Arrow => b"arrow",
        Kind::Line => b"line",
        Kind::Freedraw => b"freedraw",
        Kind::Text => b"text",
        Kind::Image => b"image",
        Kind::Frame => b"frame",
        Kind::Magicframe => b"magicframe",
        Kind::Iframe => b"iframe",
        Kind::Embeddable => b"embeddable",
        Kind::Other(name) => name.as_bytes(),
    }
}

impl<'a> Value<'a> {
    /// The next piece, and what is left behind it.
    pub(crate) fn next(self) -> Option<(TextPiece<'a>, Value<'a>)>
        ensures { MatchOption result (value_left self.entry ≡ [])
            (λ next. Splits (value_left self.entry) next.0 (value_left next.1)) }
    {
        match self {
            Value::Nothing => None,
            Value::Texts(first, texts) => Some(next_text(first, texts)),
            Value::Listing(first, entries) => Some(next_entry(first, entries)),
            Value::Target(first, target, rest, at) => Some(next_bound(first, target, rest, at)),
            Value::Members(rest, at) => Some(next_member(rest, at)),
        }
    }
}

/// The next text of an array.
fn next_text(first: bool, texts: &[Text]) -> (TextPiece<'_>, Value<'_>)
    ensures { Splits (list_left 91 93 first (map quote texts.now)) result.0 (value_left result.1) }
{
    match texts.split_first() {
        None => (TextPiece::plain(array_end(first)), Value::Nothing),
        Some((text, texts)) => {
            let piece = TextPiece::quote(array_mark(first), text.as_bytes());
            (piece, Value::Texts(false, texts))
        }
    }
}

/// What stands before an item of an array.
fn array_mark(first: bool) -> &'static [u8]
    ensures { result.now ≡ (if first then 91 else 44) ∷ [] }
{
    match first {
        true => b"[",
        false => b",",
    }
}

/// What stands behind the items of an array.
fn array_end(first: bool) -> &'static [u8]
    ensures { result.now ≡ list_left 91 93 first [] }
{
    match first {
        true => b"[]",
        false => b"]",
    }
}

/// The next entry of a listing.
fn next_entry(first: bool, entries: &[BoundRef]) -> (TextPiece<'_>, Value<'_>)
    ensures { Splits (list_left 91 93 first (map bound_text entries.now)) result.0
        (value_left result.1) }
{
    match entries.split_first() {
        None => (TextPiece::plain(array_end(first)), Value::Nothing),
        Some((entry, entries)) => {
            let piece = entry_piece(first, entry);
            (piece, Value::Listing(false, entries))
        }
    }
}

/// An entry of a listing.
fn entry_piece(first: bool, entry: &BoundRef) -> TextPiece<'_>
    ensures { result ≡ (if first then 91 else 44) ∷ bound_text entry.now }
{
    let id = QuoteBytes::of(entry.id.as_bytes());
    TextPiece::member(entry_mark(first), b"id", id, role_end(entry.role))
}

/// What stands before the members of an entry of a listing.
fn entry_mark(first: bool) -> &'static [u8]
    ensures { result.now ≡ (if first then 91 else 44) ∷ 123 ∷ [] }
{
    match first {
        true => b"[{",
        false => b",{",
    }
}

/// What stands behind the id of an entry of a listing.
#[tactic(auto, unfolding(json_text::specs::Characters::quote))]
fn role_end(role: Role) -> &'static [u8]
    ensures { result.now ≡ 44 ∷ (member_text (codes "type", quote (role_name role)) ++ 125 ∷ []) }
{
    match role {
        Role::Arrow => b",\"type\":\"arrow\"}",
        Role::Text => b",\"type\":\"text\"}",
    }
}

/// The next member of a binding, whose further members are left from an index on.
fn next_bound<'a>(
    first: bool,
    target: &'a Text,
    rest: &'a Members,
    at: usize,
) -> (TextPiece<'a>, Value<'a>)
    ensures { Splits (object_left first ((codes "elementId", quote target.now) ∷ [])
        (drop at rest.now)) result.0 (value_left result.1) }
{
    match next_below(rest, at, "elementId") {
        Some(next) => {
            let piece = member_piece(first, rest, at);
            (piece, Value::Target(false, target, rest, next))
        }
        None => {
            let target = QuoteBytes::of(target.as_bytes());
            let piece = TextPiece::member(object_mark(first), b"elementId", target, b"");
            (piece, Value::Members(rest, at))
        }
    }
}

/// The next of the members behind a binding's target.
fn next_member(rest: &Members, at: usize) -> (TextPiece<'_>, Value<'_>)
    ensures { Splits (object_left false [] (drop at rest.now)) result.0 (value_left result.1) }
{
    match at < rest.len() {
        true => {
            let piece = member_piece(false, rest, at);
            (piece, Value::Members(rest, at + 1))
        }
        false => (TextPiece::plain(object_end(false)), Value::Nothing),
    }
}

/// What stands before a member of an object.
pub(crate) fn object_mark(first: bool) -> &'static [u8]
    ensures { result.now ≡ (if first then 123 else 44) ∷ [] }
{
    match first {
        true => b"{",
        false => b",",
    }
}

/// What stands behind the members of an object.
pub(crate) fn object_end(first: bool) -> &'static [u8]
    ensures { result.now ≡ list_left 123 125 first [] }
{
    match first {
        true => b"{}",
        false => b"}",
    }
}

/// A member that is kept as it came.
pub(crate) fn member_piece(first: bool, members: &Members, at: usize) -> TextPiece<'_>
    requires { at < length members.now }
    ensures { result ≡ (if first then 123 else 44) ∷ member_text (pair_of (nth members.now at)) }
{
    let mark = object_mark(first);
    let (name, value) = (members.name(at), members.value(at));
    TextPiece::member(mark, name, QuoteBytes::none(), value)
}
