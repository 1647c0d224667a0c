//! The scalar members that an element has fields for.

ghost use Rattle.std.specs.Prelude.{◌≡◌, ℕ, Option, List, IfOk, IfSome, OnOk, IsTrue, bytes_eq};
ghost use Rattle.json_text.specs.Value.{IsCompact};
ghost use Rattle.frac_keys.specs.Keys.{is_key};
ghost use Rattle.elem.specs.Facts.{IsElement};
ghost use Rattle.elem.specs.Texts.{text_or_null, truth_text};
ghost use Rattle.delta.specs.Facts.{IsAccepted};
ghost use Rattle.delta.specs.Headers as headers;
ghost use Rattle.delta.specs.Headers.{scalar_text};
ghost use Rattle.delta.specs.inner.Kept.{IsHeaderSet, BelongsTo};

use crate::binding::{binding_of, binding_raw, text_in};
use elem::{Element, Kind};
use frac_keys::Key;
use json_text::{Raw, Text};
use scene_json::{is_null, raw_null, raw_text, raw_truth, truth_of};
use std::alloc::{AllocError, Global};

/// A scalar member that an element has a field for.
#[derive(Clone, Copy)]
pub(crate) enum Header {
    Deleted,
    Index,
    Frame,
    Container,
    StartBinding,
    EndBinding,
    File,
}

/// The header member of this name in elements of this kind.
pub(crate) fn header_named(kind: &Kind, name: &Text) -> Option<Header>
    ensures { result ≡ headers.header_named kind.now name.now }
{
    if is_named(name, "isDeleted") {
        Some(Header::Deleted)
    } else if is_named(name, "index") {
        Some(Header::Index)
    } else if is_named(name, "frameId") {
        Some(Header::Frame)
    } else {
        own_header(kind, name)
    }
}

/// The header member of this name that this kind alone has.
fn own_header(kind: &Kind, name: &Text) -> Option<Header>
    ensures { result ≡ headers.own_header kind.now name.now }
{
    match kind {
        Kind::Text if is_named(name, "containerId") => Some(Header::Container),
        Kind::Arrow if is_named(name, "startBinding") => Some(Header::StartBinding),
        Kind::Arrow if is_named(name, "endBinding") => Some(Header::EndBinding),
        Kind::Image if is_named(name, "fileId") => Some(Header::File),
        _ => None,
    }
}

/// Whether these are the characters of the name.
fn is_named(name: &Text, characters: &str) -> bool
    ensures { result ≡ bytes_eq name.now characters.now }
{
    name.as_bytes() == characters.as_bytes()
}

/// The compact text of a header member, which has a form that is accepted.
pub(crate) fn header_raw(alloc: Global, e: &Element, header: Header) -> Result<Raw, AllocError>
    ensures text { IfOk result (λ raw. raw ≡ scalar_text e.now header) }
    ensures accepted { IfOk result (IsAccepted header) }
    ensures nests { IfOk result (IsCompact 119) }
{
    match header {
        Header::Deleted => truth_raw(alloc, e.deleted),
        Header::Index => key_raw(alloc, &e.index),
        Header::Frame => text_raw(alloc, &e.frame),
        Header::Container => text_raw(alloc, &e.container),
        Header::StartBinding => binding_raw(alloc, &e.start_binding),
        Header::EndBinding => binding_raw(alloc, &e.end_binding),
        Header::File => text_raw(alloc, &e.file),
    }
}

/// `true` or `false`.
fn truth_raw(alloc: Global, truth: bool) -> Result<Raw, AllocError>
    ensures text { IfOk result (λ raw. raw ≡ truth_text truth) }
    ensures nests { IfOk result (IsCompact 119) }
{
    raw_truth(alloc, truth)
}

/// The text, or null where there is none.
fn text_raw(alloc: Global, text: &Option<Text>) -> Result<Raw, AllocError>
    ensures text { IfOk result (λ raw. raw ≡ text_or_null text.now) }
    ensures nests { IfOk result (IsCompact 119) }
{
    match text {
        None => raw_null(alloc),
        Some(text) => raw_text(alloc, text),
    }
}

/// The key as a text, or null where there is none.
fn key_raw(alloc: Global, key: &Option<Key>) -> Result<Raw, AllocError>
    ensures text { IfOk result (λ raw. raw ≡ text_or_null key.now) }
    ensures key { IfSome key.now (λ k. IsTrue (is_key k)) }
    ensures nests { IfOk result (IsCompact 119) }
{
    match key {
        None => raw_null(alloc),
        Some(key) => raw_text(alloc, &key_text(alloc, key)?),
    }
}

/// The text of a key, whose bytes are letters and digits.
fn key_text(alloc: Global, key: &Key) -> Result<Text, AllocError>
    ensures text { IfOk result (λ text. text ≡ key.now) }
    ensures key { IsTrue (is_key key.now) }
{
    Ok(Text::read(alloc, key.as_bytes())?.unwrap())
}

/// Gives a header member of the element's kind a value of a form that is accepted.
pub(crate) fn set_header(
    alloc: Global,
    e: &mut Element,
    header: Header,
    value: &Raw,
) -> Result<(), AllocError>
    requires own { BelongsTo e.old.kind header }
    requires accepted { IsAccepted header value.now }
    ensures set { OnOk result (IsHeaderSet e.old e.new header value.now) }
    ensures element { OnOk result (IsElement e.new) }
{
    match header {
        Header::Deleted => e.deleted = truth_in(value),
        Header::Index => e.index = key_or_none(alloc, value)?,
        Header::Frame => e.frame = text_or_none(alloc, value)?,
        Header::Container => e.container = text_or_none(alloc, value)?,
        Header::StartBinding => e.start_binding = binding_of(alloc, value)?,
        Header::EndBinding => e.end_binding = binding_of(alloc, value)?,
        Header::File => e.file = text_or_none(alloc, value)?,
    }
    Ok(())
}

/// Which truth the value is.
fn truth_in(value: &Raw) -> bool
    requires { IsAccepted Header.Deleted value.now }
    ensures { truth_text result ≡ value.now }
{
    truth_of(value).unwrap()
}

/// The text of the value, or none where it is null.
fn text_or_none(alloc: Global, value: &Raw) -> Result<Option<Text>, AllocError>
    requires { (text : Option (List ℕ)) × (value.now ≡ text_or_null text) }
    ensures { IfOk result (λ found. text_or_null found ≡ value.now) }
{
    if is_null(value) {
        return Ok(None);
    }
    Ok(Some(text_in(alloc, value)?))
}

/// The key of the value, or none where it is null.
fn key_or_none(alloc: Global, value: &Raw) -> Result<Option<Key>, AllocError>
    requires { IsAccepted Header.Index value.now }
    ensures { IfOk result (λ found. text_or_null found ≡ value.now) }
{
    match text_or_none(alloc, value)? {
        None => Ok(None),
        Some(text) => Key::read(alloc, text.as_bytes()),
    }
}
