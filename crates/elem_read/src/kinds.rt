//! Kinds, and the members that they have.

ghost use Rattle.std.specs.Prelude.{◌≡◌, ◌≢◌, ◌↔◌, Some, IsTrue, codes, not, filter, bytes_eq, [], false, IfOk};
ghost use Rattle.std.specs.List.{list_any};
ghost use Rattle.json_text.specs.Members.{pairs};
ghost use Rattle.scene_json.specs.Named.{value_at, HaveRisingNames};
ghost use Rattle.elem.specs.Facts as facts;
ghost use Rattle.elem.specs.Facts.{IsKind, header_names, own_names};
ghost use Rattle.elem.specs.Forms.{IsText, IsKindName};
ghost use Rattle.elem.specs.Said.{is_named};
ghost use Rattle.elem.specs.Texts.{kind_name};
ghost use Rattle.elem_read.specs.inner.Parts.{ReadsOr};
ghost use Rattle.elem_read.specs.Reading.{selection_text};
ghost use Rattle.elem_read.specs.declared.fault.ElemFault.TheVariants as faults;

use crate::fault::ElemFault;
use crate::forms::text;
use crate::places::TYPE;
use board_base::Stop;
use elem::{Kind, SharedMembers};
use json_text::Text;
use members::Members;
use std::alloc::{AllocError, Global};

/// The kind, which isn't `selection`.
pub(crate) fn kind(alloc: Global, members: &Members) -> Result<Kind, Stop<ElemFault>>
    requires rise { HaveRisingNames (pairs members.now) }
    requires kept { value_at (codes "type") (pairs members.now) ≢ Some selection_text }
    ensures { ReadsOr (IsKindName (value_at (codes "type") (pairs members.now)))
        (IsText (value_at (codes "type") (pairs members.now))) faults.Kind result }
{
    Ok(kind_named(text(alloc, members, "type", TYPE, ElemFault::Kind)?))
}

/// The kind of this name.
fn kind_named(name: Text) -> Kind
    requires { name ≢ codes "selection" }
    ensures named { kind_name result ≡ name }
    ensures kind { IsKind result }
{
    if is(&name, "rectangle") {
        Kind::Rectangle
    } else if is(&name, "diamond") {
        Kind::Diamond
    } else if is(&name, "ellipse") {
        Kind::Ellipse
    } else if is(&name, "arrow") {
        Kind::Arrow
    } else if is(&name, "line") {
        Kind::Line
    } else if is(&name, "freedraw") {
        Kind::Freedraw
    } else if is(&name, "text") {
        Kind::Text
    } else if is(&name, "image") {
        Kind::Image
    } else if is(&name, "frame") {
        Kind::Frame
    } else if is(&name, "magicframe") {
        Kind::Magicframe
    } else if is(&name, "iframe") {
        Kind::Iframe
    } else if is(&name, "embeddable") {
        Kind::Embeddable
    } else {
        Kind::Other(name)
    }
}

/// Whether the name is this word.
fn is(name: &Text, word: &str) -> bool
    ensures { IsTrue result ↔ (name.now ≡ word.now) }
{
    name.as_bytes() == word.as_bytes()
}

/// Whether this is a text.
pub(crate) fn is_text(kind: &Kind) -> bool
    requires { IsKind kind.now }
    ensures { result ≡ is_named (codes "text") kind.now }
{
    matches!(kind, Kind::Text)
}

/// Whether this is an arrow.
pub(crate) fn is_arrow(kind: &Kind) -> bool
    requires { IsKind kind.now }
    ensures { result ≡ is_named (codes "arrow") kind.now }
{
    matches!(kind, Kind::Arrow)
}

/// Whether this is an image.
pub(crate) fn is_image(kind: &Kind) -> bool
    requires { IsKind kind.now }
    ensures { result ≡ is_named (codes "image") kind.now }
{
    matches!(kind, Kind::Image)
}

/// The members that are no header members of the kind, in their order, to be shared. They are kept
/// as long as the element, so no room is left beside them.
pub(crate) fn others(
    alloc: Global,
    members: Members,
    kind: &Kind,
) -> Result<SharedMembers, AllocError>
    ensures { IfOk result (λ others. others
        ≡ filter (λ member. not (facts.is_header kind.now member.name)) members) }
{
    let mut others = members;
    drop_headers(&mut others, kind);
    let shrunk = others.shrunk(alloc)?;
    SharedMembers::of(alloc, shrunk)
}

/// Drops the header members of the kind.
fn drop_headers(members: &mut Members, kind: &Kind)
    ensures { members.new ≡ filter (λ member. not (facts.is_header kind.now member.name))
        members.old }
{
    let mut at = 0;
    while at < members.len() {
        if is_header(kind, members.name(at)) {
            members.remove(at);
        } else {
            at += 1;
        }
    }
}

/// Whether a member of this name is a header member of the kind.
fn is_header(kind: &Kind, name: &[u8]) -> bool
    ensures { result ≡ facts.is_header kind.now name.now }
{
    is_common(name) || is_own(kind, name)
}

/// Whether all kinds have a header member of this name. The first letter tells most names apart.
fn is_common(name: &[u8]) -> bool
    ensures { result ≡ list_any (bytes_eq name.now) header_names }
{
    match name {
        [b'b', ..] => name == b"boundElements".as_slice(),
        [b'f', ..] => name == b"frameId".as_slice(),
        [b'g', ..] => name == b"groupIds".as_slice(),
        [b'i', ..] => {
            name == b"id".as_slice()
                || name == b"index".as_slice()
                || name == b"isDeleted".as_slice()
        }
        [b't', ..] => name == b"type".as_slice(),
        [b'u', ..] => name == b"updated".as_slice(),
        [b'v', ..] => name == b"version".as_slice() || name == b"versionNonce".as_slice(),
        _ => false,
    }
}

/// Whether the kind alone has a header member of this name.
fn is_own(kind: &Kind, name: &[u8]) -> bool
    ensures { result ≡ list_any (bytes_eq name.now) (own_names kind.now) }
{
    match kind {
        Kind::Text => name == b"containerId".as_slice(),
        Kind::Arrow => name == b"startBinding".as_slice() || name == b"endBinding".as_slice(),
        Kind::Image => name == b"fileId".as_slice(),
        _ => false,
    }
}
