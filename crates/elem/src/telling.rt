//! What the types of an element's texts keep. Of a text alone a read of it says that it is UTF-8,
//! so each is read.

ghost use Rattle.std.specs.Prelude.{◌≡◌, true, IfSome};
ghost use Rattle.std.specs.List.{AllByRecursion};
ghost use Rattle.std.specs.Str.{IsUtf8};
ghost use Rattle.frac_keys.specs.Keys.{is_key};
ghost use Rattle.elem.specs.Facts.{names, IsElement};
ghost use Rattle.elem.specs.Said.{IsBindingText, HasValidTexts};
ghost use Rattle.elem.specs.Texts.{kind_name};
ghost use Rattle.elem.specs.declared.parts.BoundRef.{BoundRef};

use crate::element::Element;
use crate::kind::Kind;
use crate::parts::{Binding, BoundRef};
use crate::shared_members::SharedMembers;
use board_base::List;
use frac_keys::Key;
use json_text::Text;

/// An element is one, and its texts are texts.
pub(crate) fn tell(e: &Element)
    ensures is_element { IsElement e.now }
    ensures is_written { HasValidTexts e.now }
{
    tell_text(&e.id);
    tell_kind(&e.kind);
    tell_key(&e.index);
    tell_texts(&e.groups);
    tell_optional(&e.frame);
    tell_entries(&e.bound);
    tell_optional(&e.container);
    tell_binding(&e.start_binding);
    tell_binding(&e.end_binding);
    tell_optional(&e.file);
    tell_names(&e.rest);
}

/// A text is UTF-8.
fn tell_text(text: &Text)
    ensures { IsUtf8 text.now }
{
    let _bytes = text.as_bytes();
}

/// A text is UTF-8, if there is one.
fn tell_optional(text: &Option<Text>)
    ensures { IfSome text.now IsUtf8 }
{
    if let Some(text) = text {
        tell_text(text);
    }
}

/// The name of a kind is UTF-8.
fn tell_kind(kind: &Kind)
    ensures { IsUtf8 (kind_name kind.now) }
{
    if let Kind::Other(name) = kind {
        tell_text(name);
    }
}

/// A key is one, if there is one.
fn tell_key(key: &Option<Key>)
    ensures { IfSome key.now (λ key. is_key key ≡ true) }
{
    if let Some(key) = key {
        let _bytes = key.as_bytes();
    }
}

/// Texts are UTF-8.
fn tell_texts(texts: &List<Text>)
    ensures { AllByRecursion IsUtf8 texts.now }
{
    for text in texts.as_slice() {
        tell_text(text);
    }
}

/// The ids of entries are UTF-8.
fn tell_entries(entries: &List<BoundRef>)
    ensures { AllByRecursion (λ (entry : BoundRef). IsUtf8 entry.id) entries.now }
{
    for entry in entries.as_slice() {
        tell_text(&entry.id);
    }
}

/// The names of members are UTF-8.
fn tell_names(members: &SharedMembers)
    ensures { AllByRecursion IsUtf8 (names members.now) }
{
    let members = members.as_members();
    for at in 0..members.len() {
        let _bytes = members.name(at);
    }
}

/// The texts of a binding are UTF-8, if there is one.
fn tell_binding(binding: &Option<Binding>)
    ensures { IfSome binding.now IsBindingText }
{
    if let Some(binding) = binding {
        tell_texts_of(binding);
    }
}

/// The texts of a binding are UTF-8.
fn tell_texts_of(binding: &Binding)
    ensures { IsBindingText binding.now }
{
    tell_text(&binding.target);
    tell_names(&binding.rest);
}
