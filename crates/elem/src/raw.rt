//! The text of an element.

ghost use Rattle.std.specs.Prelude.{◌≡◌, ◌≢◌, ℕ, ◌+◌, List as Items, [], ◌∷◌, ◌++◌, map, IfOk, OnOk, OnErr, IfSome, IsTrue, IsPermutation, All, length, ◌≤◌};
ghost use Rattle.std.specs.List.{join_with_byte};
ghost use Rattle.std.specs.Str.{IsUtf8};
ghost use Rattle.json_text.specs.Appending.{Extends};
ghost use Rattle.json_text.specs.Characters.{quote};
ghost use Rattle.json_text.specs.Compact.{Member as Pair, object_text};
ghost use Rattle.json_text.specs.Members.{pairs};
ghost use Rattle.json_text.specs.Value.{IsCompact};
ghost use Rattle.frac_keys.specs.Rising.{are_rising};
ghost use Rattle.elem.specs.Facts.{IsBinding};
ghost use Rattle.elem.specs.inner.Printing.{IsBegun, header_name, header_value, header_pair};
ghost use Rattle.elem.specs.Texts.{binding_text, header_members, element_members, element_text};

use crate::element::Element;
use crate::header::{Header, headers_of};
use crate::object::{begin_quoted, push_below, push_mark, push_members};
use crate::parts::Binding;
use crate::values::{
    push_key, push_kind, push_listing, push_null, push_text, push_texts, push_truth,
};
use json_text::{Raw, push_quote, whole_or_cut};
use scene_json::{push_comma, push_whole, raw_of};
use std::alloc::{AllocError, Global};

/// The text of an element: the object of its header members and of all others, in the order of the
/// bytes of their names. Fails only for want of memory.
pub fn element_raw(alloc: Global, e: &Element) -> Result<Raw, AllocError>
    ensures text { IfOk result (λ raw. raw ≡ element_text e.now) }
    ensures sorted { IfOk result
        (λ raw. (members : Items Pair) × (raw ≡ object_text members)
        × IsPermutation (header_members e.now ++ pairs e.now.rest) members
        × IsTrue (are_rising (map (λ (member : Pair). member.0) members))) }
    ensures nests { IfOk result (IsCompact 120) }
{
    let mut out = Vec::new(alloc);
    push_element(&mut out, e)?;
    raw_of(out)
}

/// Appends the text of an element. For want of memory nothing is appended.
pub fn push_element(out: &mut Vec<u8>, e: &Element) -> Result<(), AllocError>
    ensures text { OnOk result (out.new.items ≡ out.old.items ++ element_text e.now) }
    ensures err { OnErr result (out.new.items ≡ out.old.items) }
    ensures nests { OnOk result (IsCompact 120 (element_text e.now)) }
    ensures rise { OnOk result (IsTrue
        (are_rising (map (λ (member : Pair). member.0) (element_members e.now)))) }
{
    let start = out.len();
    let appended = push_element_parts(out, e);
    whole_or_cut(out, start, appended)
}

/// Appends the text of an element. After want of memory a part of it may stand there.
fn push_element_parts(out: &mut Vec<u8>, e: &Element) -> Result<(), AllocError>
    ensures text { OnOk result (out.new.items ≡ out.old.items ++ element_text e.now) }
    ensures kept { OnErr result (Extends out.old.items out.new.items) }
    ensures nests { OnOk result (IsCompact 120 (element_text e.now)) }
    ensures rise { OnOk result (IsTrue
        (are_rising (map (λ (member : Pair). member.0) (element_members e.now)))) }
{
    let start = out.len();
    let rest = e.rest.as_members();
    let mut at = 0;
    for header in headers_of(&e.kind) {
        at = push_below(out, start, rest, at, header.name())?;
        push_header(out, start, e, *header)?;
    }
    push_members(out, start, rest, at)?;
    out.push(b'}')?;
    Ok(())
}

/// Appends the texts of elements, with commas between them. For want of memory nothing is appended.
pub fn push_elements(out: &mut Vec<u8>, elements: &[Element]) -> Result<(), AllocError>
    ensures text { OnOk result (out.new.items ≡ out.old.items
        ++ join_with_byte 44 (map element_text elements.now)) }
    ensures err { OnErr result (out.new.items ≡ out.old.items) }
    ensures nest { OnOk result (All (λ e. IsCompact 120 (element_text e)) elements.now) }
{
    let start = out.len();
    let appended = push_elements_parts(out, elements);
    whole_or_cut(out, start, appended)
}

/// Appends the texts of elements. After want of memory a part of them may stand there.
fn push_elements_parts(out: &mut Vec<u8>, elements: &[Element]) -> Result<(), AllocError>
    ensures text { OnOk result (out.new.items ≡ out.old.items
        ++ join_with_byte 44 (map element_text elements.now)) }
    ensures kept { OnErr result (Extends out.old.items out.new.items) }
    ensures nest { OnOk result (All (λ e. IsCompact 120 (element_text e)) elements.now) }
{
    for (i, e) in elements.iter().enumerate() {
        push_comma(out, i)?;
        push_element(out, e)?;
    }
    Ok(())
}

/// Appends a header member.
#[tactic(auto, using(crate::proofs::Appending::extends_same, crate::proofs::Appending::extends_by, crate::proofs::Appending::extends_then, crate::proofs::Appending::on_err_then))]
fn push_header(
    out: &mut Vec<u8>,
    start: usize,
    e: &Element,
    header: Header,
) -> Result<(), AllocError>
    ensures begun { OnOk result ((before : Items ℕ) (members : Items Pair) → start ≡ length before
        → IsBegun before members out.old.items → IsBegun before
        (members ++ header_pair e.now header ∷ []) out.new.items) }
    ensures nests { OnOk result (IsCompact 119 (header_value e.now header)) }
    ensures kept { OnErr result (Extends out.old.items out.new.items) }
{
    push_mark(out, start)?;
    push_named(out, e, header)
}

/// Appends a header member's name in quotes, a colon and its value.
#[tactic(auto, using(crate::proofs::Appending::extends_same, crate::proofs::Appending::extends_by, crate::proofs::Appending::extends_then, crate::proofs::Appending::on_err_same, crate::proofs::Appending::on_err_then))]
fn push_named(out: &mut Vec<u8>, e: &Element, header: Header) -> Result<(), AllocError>
    ensures text { OnOk result (out.new.items
        ≡ (out.old.items ++ (quote (header_name header) ++ 58 ∷ [])) ++ header_value e.now header) }
    ensures kept { OnErr result (Extends out.old.items out.new.items) }
    ensures nests { OnOk result (IsCompact 119 (header_value e.now header)) }
{
    push_label(out, header)?;
    push_value(out, e, header)
}

/// Appends a header's name in quotes and a colon. Each name is written out here, so that its length
/// is known when it is copied.
#[tactic(auto, using(crate::proofs::Appending::extends_same, crate::proofs::Appending::on_err_same), unfolding(json_text::specs::Characters::quote))]
fn push_label(out: &mut Vec<u8>, header: Header) -> Result<(), AllocError>
    ensures text { OnOk result (out.new.items
        ≡ out.old.items ++ (quote (header_name header) ++ 58 ∷ [])) }
    ensures kept { OnErr result (Extends out.old.items out.new.items) }
{
    match header {
        Header::BoundElements => out.extend_from_slice(b"\"boundElements\":"),
        Header::ContainerId => out.extend_from_slice(b"\"containerId\":"),
        Header::EndBinding => out.extend_from_slice(b"\"endBinding\":"),
        Header::FileId => out.extend_from_slice(b"\"fileId\":"),
        Header::FrameId => out.extend_from_slice(b"\"frameId\":"),
        Header::GroupIds => out.extend_from_slice(b"\"groupIds\":"),
        Header::Id => out.extend_from_slice(b"\"id\":"),
        Header::Index => out.extend_from_slice(b"\"index\":"),
        Header::IsDeleted => out.extend_from_slice(b"\"isDeleted\":"),
        Header::StartBinding => out.extend_from_slice(b"\"startBinding\":"),
        Header::KindName => out.extend_from_slice(b"\"type\":"),
        Header::Updated => out.extend_from_slice(b"\"updated\":"),
        Header::Version => out.extend_from_slice(b"\"version\":"),
        Header::VersionNonce => out.extend_from_slice(b"\"versionNonce\":"),
    }
}

/// Appends the value of a header member.
#[tactic(auto, using(crate::proofs::Appending::extends_same, crate::proofs::Appending::extends_by, crate::proofs::Appending::on_err_same))]
fn push_value(out: &mut Vec<u8>, e: &Element, header: Header) -> Result<(), AllocError>
    ensures text { OnOk result (out.new.items ≡ out.old.items ++ header_value e.now header) }
    ensures kept { OnErr result (Extends out.old.items out.new.items) }
    ensures nests { OnOk result (IsCompact 119 (header_value e.now header)) }
{
    match header {
        Header::BoundElements => push_listing(out, &e.bound),
        Header::ContainerId => push_text(out, &e.container),
        Header::EndBinding => push_binding(out, &e.end_binding),
        Header::FileId => push_text(out, &e.file),
        Header::FrameId => push_text(out, &e.frame),
        Header::GroupIds => push_texts(out, &e.groups),
        Header::Id => push_quote(out, &e.id),
        Header::Index => push_key(out, &e.index),
        Header::IsDeleted => push_truth(out, e.deleted),
        Header::StartBinding => push_binding(out, &e.start_binding),
        Header::KindName => push_kind(out, &e.kind),
        Header::Updated => push_whole(out, e.updated),
        Header::Version => push_whole(out, e.version),
        Header::VersionNonce => push_whole(out, e.nonce),
    }
}

/// Appends the object of a binding, its members in the order of the bytes of their names, or null
/// where there is none.
#[tactic(auto, using(crate::proofs::Appending::extends_same, crate::proofs::Appending::extends_by, crate::proofs::Appending::extends_then, crate::proofs::Appending::on_err_same))]
fn push_binding(out: &mut Vec<u8>, binding: &Option<Binding>) -> Result<(), AllocError>
    requires { IfSome binding.now IsBinding }
    ensures text { OnOk result (out.new.items ≡ out.old.items ++ binding_text binding.now) }
    ensures kept { OnErr result (Extends out.old.items out.new.items) }
    ensures nests { OnOk result (IsCompact 119 (binding_text binding.now)) }
{
    let Some(binding) = binding else {
        return push_null(out);
    };
    let start = out.len();
    let rest = binding.rest.as_members();
    let at = push_below(out, start, rest, 0, "elementId")?;
    begin_quoted(out, start, b"\"elementId\":")?;
    push_quote(out, &binding.target)?;
    push_members(out, start, rest, at)?;
    out.push(b'}')?;
    Ok(())
}
