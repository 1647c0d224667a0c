//! What a command makes of the live elements, with what it looks up on the board.

ghost use Rattle.std.specs.Prelude.{◌≡◌, false, bytes_eq, if◌then◌else◌, IfOk};
ghost use Rattle.std.specs.BTreeSet.{contains};
ghost use Rattle.std.specs.Cmp.Lexicographic.{slice_cmp};
ghost use Rattle.std.specs.Option.{unwrap_or};
ghost use Rattle.std.specs.Ordering.{nat_cmp};
ghost use Rattle.json_text.specs.Value.{IsCompact};
ghost use Rattle.effects.specs.Effects as effects;
ghost use Rattle.effects.specs.inner.Prepared.{made_by, IsSoundEffect};
ghost use Rattle.effects.specs.Settings as settings;

use crate::deleting::deleted_from;
use crate::framing::{with_frame, with_group, without_group};
use crate::linking::{Label, Link, linked, put_in, taken_out};
use crate::placing::{Keys, placed, settled};
use crate::setting::with_member;
use elem::{BoundRef, Element};
use frac_keys::Key;
use json_text::{Raw, Text};
use std::alloc::{AllocError, Global};
use std::collections::BTreeSet;

/// What a command makes of the live elements.
pub(crate) enum Effect {
    /// Each gets its key.
    Settle {
        keys: Keys,
    },
    /// Each gets its key, and one another one.
    Place {
        keys: Keys,
        id: Text,
        key: Option<Key>,
    },
    /// A member of one gets a value.
    Set {
        id: Text,
        member: Text,
        value: Raw,
    },
    /// These become deleted.
    Delete {
        ids: BTreeSet<Text>,
    },
    /// An end of an arrow is bound.
    Link {
        link: Link,
    },
    /// A text gets a container.
    Label {
        label: Label,
    },
    /// A text loses its container.
    Unlabel {
        text: Text,
        old: Option<Text>,
        entry: BoundRef,
    },
    /// These get a frame, or none.
    Frame {
        ids: BTreeSet<Text>,
        frame: Option<Text>,
    },
    /// These get a group.
    Group {
        ids: BTreeSet<Text>,
        group: Text,
    },
    /// These lose a group.
    Ungroup {
        ids: BTreeSet<Text>,
        group: Text,
    },
}

// By hand, so that whoever drops an effect sees one call and not what it holds.
impl Drop for Effect {
    fn drop(self) {
        match self {
            Effect::Settle { keys: _keys } => {}
            Effect::Place {
                keys: _keys,
                id: _id,
                key: _key,
            } => {}
            Effect::Set {
                id: _id,
                member: _member,
                value: _value,
            } => {}
            Effect::Delete { ids: _ids } => {}
            Effect::Link { link: _link } => {}
            Effect::Label { label: _label } => {}
            Effect::Unlabel {
                text: _text,
                old: _old,
                entry: _entry,
            } => {}
            Effect::Frame {
                ids: _ids,
                frame: _frame,
            } => {}
            Effect::Group {
                ids: _ids,
                group: _group,
            } => {}
            Effect::Ungroup {
                ids: _ids,
                group: _group,
            } => {}
        }
    }
}

impl Effect {
    /// What is made of an element, or None where it stays as it is.
    pub(crate) fn apply(&self, alloc: Global, e: &Element) -> Result<Option<Element>, AllocError>
        requires { IsSoundEffect self.now }
        ensures { IfOk result (λ new. unwrap_or new e.now ≡ made_by self.now e.now) }
    {
        match self {
            Effect::Settle { keys } => settled(keys, e),
            Effect::Place { keys, id, key } => placed(keys, id, key, e),
            Effect::Set { id, member, value } => set(alloc, id, member, value, e),
            Effect::Delete { ids } => deleted_from(ids, e),
            Effect::Link { link } => linked(link, e),
            Effect::Label { label } => put_in(label, e),
            Effect::Unlabel { text, old, entry } => taken_out(text, old, entry, e),
            Effect::Frame { ids, frame } => framed(ids, frame, e),
            Effect::Group { ids, group } => grouped(ids, group, e),
            Effect::Ungroup { ids, group } => ungrouped(ids, group, e),
        }
    }
}

/// The element, a member of which has a value if it is of the id.
fn set(
    alloc: Global,
    id: &Text,
    member: &Text,
    value: &Raw,
    e: &Element,
) -> Result<Option<Element>, AllocError>
    requires free { settings.is_protected member.now ≡ false }
    requires nests { IsCompact 100 value.now }
    ensures { IfOk result
        (λ new. unwrap_or new e.now
        ≡ (if bytes_eq id.now e.now.id then settings.with_set_member member.now value.now e.now
        else e.now)) }
{
    if *id == e.id {
        return Ok(Some(with_member(alloc, e, member, value)?));
    }
    Ok(None)
}

/// The element, in a frame or none if it is of these ids.
fn framed(
    ids: &BTreeSet<Text>,
    frame: &Option<Text>,
    e: &Element,
) -> Result<Option<Element>, AllocError>
    ensures { IfOk result
        (λ new. unwrap_or new e.now
        ≡ (if contains (slice_cmp nat_cmp) ids.now e.now.id then
        record e.now { frame = frame.now } else e.now)) }
{
    if ids.contains(&e.id) {
        return Ok(Some(with_frame(e, frame)?));
    }
    Ok(None)
}

/// The element, in a group if it is of these ids.
fn grouped(ids: &BTreeSet<Text>, group: &Text, e: &Element) -> Result<Option<Element>, AllocError>
    ensures { IfOk result
        (λ new. unwrap_or new e.now
        ≡ (if contains (slice_cmp nat_cmp) ids.now e.now.id then
        record e.now { groups = effects.with_group group.now e.now.groups } else e.now)) }
{
    if ids.contains(&e.id) {
        return Ok(Some(with_group(e, group)?));
    }
    Ok(None)
}

/// The element, not in a group if it is of these ids.
fn ungrouped(ids: &BTreeSet<Text>, group: &Text, e: &Element) -> Result<Option<Element>, AllocError>
    ensures { IfOk result
        (λ new. unwrap_or new e.now
        ≡ (if contains (slice_cmp nat_cmp) ids.now e.now.id then
        record e.now { groups = effects.without_group group.now e.now.groups } else e.now)) }
{
    if ids.contains(&e.id) {
        return Ok(Some(without_group(e, group)?));
    }
    Ok(None)
}
