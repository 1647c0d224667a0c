//! The compact texts of an element's parts.

ghost use Rattle.std.specs.Prelude.{◌≡◌, ℕ, [], ◌∷◌, ◌++◌, map, codes, IfOk, OnOk, OnErr};
ghost use Rattle.json_text.specs.Appending.{Extends};
ghost use Rattle.json_text.specs.Characters.{quote};
ghost use Rattle.json_text.specs.Compact.{array_text};
ghost use Rattle.json_text.specs.Tree.{null_word};
ghost use Rattle.json_text.specs.Value.{IsCompact};
ghost use Rattle.elem.specs.Texts.{truth_text, text_or_null, kind_name, role_name, bound_text};

use crate::kind::{Kind, Role};
use crate::object::begin_quoted;
use crate::parts::BoundRef;
use board_base::List;
use frac_keys::Key;
use json_text::{Text, push_quote};
use std::alloc::AllocError;

/// Appends null.
pub(crate) fn push_null(out: &mut Vec<u8>) -> Result<(), AllocError>
    ensures text { OnOk result (out.new.items ≡ out.old.items ++ null_word) }
    ensures err { OnErr result (out.new.items ≡ out.old.items) }
    ensures nests { IsCompact 0 null_word }
{
    out.extend_from_slice(b"null")
}

/// Appends true or false.
pub(crate) fn push_truth(out: &mut Vec<u8>, truth: bool) -> Result<(), AllocError>
    ensures text { OnOk result (out.new.items ≡ out.old.items ++ truth_text truth) }
    ensures err { OnErr result (out.new.items ≡ out.old.items) }
    ensures nests { IsCompact 0 (truth_text truth) }
{
    match truth {
        true => out.extend_from_slice(b"true"),
        false => out.extend_from_slice(b"false"),
    }
}

/// Appends the quote of a kind's name.
#[tactic(auto, using(json_text::proofs::CallerLemmas::compact_texts), unfolding(json_text::specs::Characters::quote))]
pub(crate) fn push_kind(out: &mut Vec<u8>, kind: &Kind) -> Result<(), AllocError>
    ensures text { OnOk result (out.new.items ≡ out.old.items ++ quote (kind_name kind.now)) }
    ensures err { OnErr result (out.new.items ≡ out.old.items) }
    ensures nests { IsCompact 0 (quote (kind_name kind.now)) }
{
    match kind {
        Kind::Rectangle => out.extend_from_slice(b"\"rectangle\""),
        Kind::Diamond => out.extend_from_slice(b"\"diamond\""),
        Kind::Ellipse => out.extend_from_slice(b"\"ellipse\""),
        Kind::Arrow => out.extend_from_slice(b"\"arrow\""),
        Kind::Line => out.extend_from_slice(b"\"line\""),
        Kind::Freedraw => out.extend_from_slice(b"\"freedraw\""),
        Kind::Text => out.extend_from_slice(b"\"text\""),
        Kind::Image => out.extend_from_slice(b"\"image\""),
        Kind::Frame => out.extend_from_slice(b"\"frame\""),
        Kind::Magicframe => out.extend_from_slice(b"\"magicframe\""),
        Kind::Iframe => out.extend_from_slice(b"\"iframe\""),
        Kind::Embeddable => out.extend_from_slice(b"\"embeddable\""),
        Kind::Other(name) => push_quote(out, name),
    }
}

/// Appends the quote of a text, or null where there is none.
pub(crate) fn push_text(out: &mut Vec<u8>, text: &Option<Text>) -> Result<(), AllocError>
    ensures text { OnOk result (out.new.items ≡ out.old.items ++ text_or_null text.now) }
    ensures err { OnErr result (out.new.items ≡ out.old.items) }
    ensures nests { IsCompact 0 (text_or_null text.now) }
{
    match text {
        None => push_null(out),
        Some(text) => push_quote(out, text),
    }
}

/// Appends the quote of a key, or null where there is none.
#[tactic(auto, using(crate::proofs::Appending::on_err_same))]
pub(crate) fn push_key(out: &mut Vec<u8>, key: &Option<Key>) -> Result<(), AllocError>
    ensures text { OnOk result (out.new.items ≡ out.old.items ++ text_or_null key.now) }
    ensures kept { OnErr result (Extends out.old.items out.new.items) }
    ensures nests { OnOk result (IsCompact 0 (text_or_null key.now)) }
{
    match key {
        None => push_null(out),
        Some(key) => push_key_quote(out, key),
    }
}

/// Appends the quote of a key, in which letters and digits stand as they are.
#[tactic(auto, using(crate::proofs::Appending::extends_same, crate::proofs::Appending::extends_by, crate::proofs::Appending::extends_then))]
fn push_key_quote(out: &mut Vec<u8>, key: &Key) -> Result<(), AllocError>
    ensures text { OnOk result (out.new.items ≡ out.old.items ++ quote key.now) }
    ensures kept { OnErr result (Extends out.old.items out.new.items) }
    ensures nests { OnOk result (IsCompact 0 (quote key.now)) }
{
    out.push(b'"')?;
    out.extend_from_slice(key.as_bytes())?;
    out.push(b'"')?;
    Ok(())
}

/// Appends the array of the texts.
#[tactic(auto, using(crate::proofs::Appending::extends_same, crate::proofs::Appending::extends_by, crate::proofs::Appending::extends_then))]
pub(crate) fn push_texts(out: &mut Vec<u8>, texts: &List<Text>) -> Result<(), AllocError>
    ensures text { OnOk result (out.new.items ≡ out.old.items ++ array_text (map quote texts.now)) }
    ensures kept { OnErr result (Extends out.old.items out.new.items) }
    ensures nests { OnOk result (IsCompact 1 (array_text (map quote texts.now))) }
{
    out.push(b'[')?;
    for (i, text) in texts.as_slice().iter().enumerate() {
        if i > 0 {
            out.push(b',')?;
        }
        push_quote(out, text)?;
    }
    out.push(b']')?;
    Ok(())
}

/// Appends the array of the entries of a listing.
#[tactic(auto, using(crate::proofs::Appending::extends_same, crate::proofs::Appending::extends_by, crate::proofs::Appending::extends_then))]
pub(crate) fn push_listing(out: &mut Vec<u8>, entries: &List<BoundRef>) -> Result<(), AllocError>
    ensures text { OnOk result (out.new.items ≡ out.old.items
        ++ array_text (map bound_text entries.now)) }
    ensures kept { OnErr result (Extends out.old.items out.new.items) }
    ensures nests { OnOk result (IsCompact 2 (array_text (map bound_text entries.now))) }
{
    out.push(b'[')?;
    for (i, entry) in entries.as_slice().iter().enumerate() {
        if i > 0 {
            out.push(b',')?;
        }
        push_entry(out, entry)?;
    }
    out.push(b']')?;
    Ok(())
}

/// Appends the object of an entry of a listing.
#[tactic(auto, using(crate::proofs::Appending::extends_same, crate::proofs::Appending::extends_by, crate::proofs::Appending::extends_then))]
fn push_entry(out: &mut Vec<u8>, entry: &BoundRef) -> Result<(), AllocError>
    ensures text { OnOk result (out.new.items ≡ out.old.items ++ bound_text entry.now) }
    ensures kept { OnErr result (Extends out.old.items out.new.items) }
    ensures nests { OnOk result (IsCompact 1 (bound_text entry.now)) }
{
    let start = out.len();
    begin_quoted(out, start, b"\"id\":")?;
    push_quote(out, &entry.id)?;
    begin_quoted(out, start, b"\"type\":")?;
    push_role(out, entry.role)?;
    out.push(b'}')?;
    Ok(())
}

/// Appends the quote of a role's name.
#[tactic(auto, using(json_text::proofs::CallerLemmas::compact_texts), unfolding(json_text::specs::Characters::quote))]
fn push_role(out: &mut Vec<u8>, role: Role) -> Result<(), AllocError>
    ensures text { OnOk result (out.new.items ≡ out.old.items ++ quote (role_name role)) }
    ensures err { OnErr result (out.new.items ≡ out.old.items) }
    ensures nests { IsCompact 0 (quote (role_name role)) }
{
    match role {
        Role::Arrow => out.extend_from_slice(b"\"arrow\""),
        Role::Text => out.extend_from_slice(b"\"text\""),
    }
}
