//! Comparing elements, without memory.

ghost use Rattle.std.specs.Prelude.{◌≡◌, ◌↔◌, IsTrue};
ghost use Rattle.frac_keys.specs.Keys.{bytes_less};
ghost use Rattle.elem.specs.Order as order;
ghost use Rattle.elem.specs.Order.{unstamped};
ghost use Rattle.elem.specs.Texts.{element_text};

use crate::compare::Same;
use crate::cursor::Cursor;
use crate::element::Element;
use crate::source::Source;
use itoa::Buffer;

/// Whether the new element takes the place of the old one of the same id: its version is higher, or
/// the versions are equal and its nonce is lower, or both are equal and its text is less. Source:
/// Excalidraw's reconcile; the last case is this project's own.
pub fn beats(new: &Element, old: &Element) -> bool
    ensures { result ≡ order.beats new.now old.now }
{
    if new.version != old.version {
        return new.version > old.version;
    }
    if new.nonce != old.nonce {
        return new.nonce < old.nonce;
    }
    text_less(new, old)
}

/// Whether the text of the one is less than that of the other, in the order of their bytes. Neither
/// is made.
#[tactic(auto, unfolding(crate::specs::Order::text_less))]
pub fn text_less(a: &Element, b: &Element) -> bool
    ensures { result ≡ order.text_less a.now b.now }
{
    // Most updates that tie are the same one again, and bytes compare faster side by side.
    if same(a, b) {
        return false;
    }
    let (mut version, mut nonce, mut updated) = (Buffer::new(), Buffer::new(), Buffer::new());
    let source = Source {
        e: a,
        version: version.format(a.version).as_bytes(),
        nonce: nonce.format(a.nonce).as_bytes(),
        updated: updated.format(a.updated).as_bytes(),
    };
    is_less_than(Cursor::of(source), b)
}

/// Whether bytes are less than the text of an element.
fn is_less_than(bytes: Cursor<'_>, e: &Element) -> bool
    ensures { result ≡ bytes_less bytes.entry (element_text e.now) }
{
    let (mut version, mut nonce, mut updated) = (Buffer::new(), Buffer::new(), Buffer::new());
    let source = Source {
        e,
        version: version.format(e.version).as_bytes(),
        nonce: nonce.format(e.nonce).as_bytes(),
        updated: updated.format(e.updated).as_bytes(),
    };
    is_less(bytes, Cursor::of(source))
}

/// Whether the bytes of the one are less than those of the other.
fn is_less(mut bytes: Cursor<'_>, mut others: Cursor<'_>) -> bool
    ensures { result ≡ bytes_less bytes.entry others.entry }
{
    while let Some(other) = others.next() {
        match bytes.next() {
            None => return true,
            Some(byte) if byte != other => return byte < other,
            Some(_) => {}
        }
    }
    false
}

/// Whether the two are equal in all their parts.
pub fn same(a: &Element, b: &Element) -> bool
    ensures { IsTrue result ↔ (a.now ≡ b.now) }
{
    same_but_stamp(a, b) && a.version == b.version && a.nonce == b.nonce && a.updated == b.updated
}

/// Whether the two are equal but for their stamp: their version, nonce and time of the last change.
pub fn same_but_stamp(a: &Element, b: &Element) -> bool
    ensures { IsTrue result ↔ (unstamped a.now ≡ unstamped b.now) }
{
    a.id.same(&b.id)
        && a.kind.same(&b.kind)
        && a.deleted == b.deleted
        && a.index.same(&b.index)
        && a.groups.same(&b.groups)
        && a.frame.same(&b.frame)
        && a.bound.same(&b.bound)
        && a.container.same(&b.container)
        && a.start_binding.same(&b.start_binding)
        && a.end_binding.same(&b.end_binding)
        && a.file.same(&b.file)
        && a.rest.same(&b.rest)
}
