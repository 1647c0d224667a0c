//! The texts of answers; no line feed ends one.

ghost use Rattle.std.specs.Prelude.{◌≡◌, ◌+◌, ◌≤◌, ◌++◌, codes, length, option_copied, vec_capacity, vec_len, IfOk};
ghost use Rattle.std.specs.Option.{option_map_or};
ghost use Rattle.json_text.specs.Tree.{null_word};
ghost use Rattle.elem.specs.Texts.{element_text, truth_text};
ghost use Rattle.line_replica.specs.Living as living;

use board_base::Bytes;
use elem::{Element, push_element};
use itoa::Buffer;
use json_text::push_quoted;
use scene_json::push_whole;
use std::alloc::{AllocError, Global};

/// The object that has this member alone.
#[tactic(auto, unfolding(json_text::specs::Compact::object_text))]
pub(crate) fn told(alloc: Global, name: &str, value: &[u8]) -> Result<Bytes, AllocError>
    ensures { IfOk result (λ text. text ≡ living.told name.now value.now) }
{
    let mut out = Vec::new(alloc);
    out.push(b'{')?;
    push_quoted(&mut out, name)?;
    out.push(b':')?;
    out.extend_from_slice(value)?;
    out.push(b'}')?;
    Ok(Bytes::from_vec(out))
}

/// What an opening is answered with.
pub(crate) fn opened_text(alloc: Global) -> Result<Bytes, AllocError>
    ensures { IfOk result (λ text. text ≡ living.opened_text) }
{
    told(alloc, "replica", b"1")
}

/// What a fault with these words is answered with.
pub(crate) fn fault_text(alloc: Global, words: &str) -> Result<Bytes, AllocError>
    ensures { IfOk result (λ text. text ≡ living.fault_text words.now) }
{
    let mut quote = Vec::new(alloc);
    push_quoted(&mut quote, words)?;
    told(alloc, "fault", quote.as_slice())
}

/// The object whose one member is a truth.
pub(crate) fn truth_told(alloc: Global, name: &str, truth: bool) -> Result<Bytes, AllocError>
    ensures { IfOk result (λ text. text ≡ living.told name.now (truth_text truth)) }
{
    if truth {
        told(alloc, name, b"true")
    } else {
        told(alloc, name, b"false")
    }
}

/// The numbers of entries to undo and to redo.
#[tactic(auto, unfolding(json_text::specs::Compact::object_text, json_text::specs::Characters::quote))]
pub(crate) fn lengths_text(alloc: Global, undo: u64, redo: u64) -> Result<Bytes, AllocError>
    ensures { IfOk result (λ text. text ≡ living.lengths_text undo redo) }
{
    let mut out = Vec::new(alloc);
    out.extend_from_slice(b"{\"undo\":")?;
    push_whole(&mut out, undo)?;
    out.extend_from_slice(b",\"redo\":")?;
    push_whole(&mut out, redo)?;
    out.push(b'}')?;
    Ok(Bytes::from_vec(out))
}

/// A stored element, or null.
pub(crate) fn stored_text(alloc: Global, e: Option<&Element>) -> Result<Bytes, AllocError>
    ensures { IfOk result (λ text. text
        ≡ living.told (codes "stored") (option_map_or element_text (option_copied e.entry)
        null_word)) }
{
    match e {
        None => told(alloc, "stored", b"null"),
        Some(e) => {
            let mut text = Vec::new(alloc);
            push_element(&mut text, e)?;
            told(alloc, "stored", text.as_slice())
        }
    }
}

/// The front of what elements that are taken are answered with, and room for the rest.
pub(crate) fn taken_begun(alloc: Global) -> Result<Vec<u8>, AllocError>
    ensures text { IfOk result (λ out. out.items ≡ codes "{\"taken\":") }
    ensures room { IfOk result (λ out. vec_len out + 41 ≤ vec_capacity out) }
{
    let mut out = Vec::with_capacity(alloc, 64)?;
    out.extend_from_slice(b"{\"taken\":")?;
    Ok(out)
}

/// The rest of it. It takes no memory.
#[tactic(auto, unfolding(json_text::specs::Compact::object_text, json_text::specs::Characters::quote))]
pub(crate) fn taken_ended(begun: Vec<u8>, count: u64) -> Bytes
    requires text { begun.items ≡ codes "{\"taken\":" }
    requires room { vec_len begun + 41 ≤ vec_capacity begun }
    ensures { result ≡ living.taken_text count }
{
    let mut out = begun;
    let mut buffer = Buffer::new();
    push_within(&mut out, buffer.format(count).as_bytes());
    push_within(&mut out, b"}");
    Bytes::from_vec(out)
}

/// Appends bytes for which there is room. It takes no memory.
fn push_within(out: &mut Vec<u8>, bytes: &[u8])
    requires { vec_len out.old + length bytes.now ≤ vec_capacity out.old }
    ensures text { out.new.items ≡ out.old.items ++ bytes.now }
    ensures len { vec_len out.new ≡ vec_len out.old + length bytes.now }
    ensures room { vec_capacity out.old ≤ vec_capacity out.new }
{
    match out.extend_from_slice(bytes) {
        Ok(()) => {}
        Err(_) => unreachable!(),
    }
}
