//! Entries by their ids.

ghost use Rattle.std.specs.Prelude.{◌≡◌, [], ◌∷◌, ◌++◌, IfOk, OnOk, OnErr, option_copied};
ghost use Rattle.json_text.specs.Members.{pair_of, pairs};
ghost use Rattle.json_text.specs.Value.{IsCompact};
ghost use Rattle.scene_json.specs.Named.{value_at};
ghost use Rattle.elem.specs.Texts.{sorted_members};
ghost use Rattle.file_table.specs.Table.{takes_place, AreLeastEntries, HaveFiles};

use indexmap::IndexMap;
use json_text::{Member, Raw, Text};
use std::alloc::{AllocError, Global};
use std::hash::{BuildHasherDefault, DefaultHasher};

/// Entries by their ids, in the order in which these came.
pub(crate) type Entries = IndexMap<Text, Raw, BuildHasherDefault<DefaultHasher>>;

/// Adds an entry, or keeps the lesser one where the id has one. For want of memory nothing is
/// changed.
pub(crate) fn keep_lesser(entries: &mut Entries, id: Text, entry: Raw) -> Result<(), AllocError>
    requires nest { IsCompact 126 entry }
    requires table { HaveFiles entries.old.entries }
    ensures taken { OnOk result
        (AreLeastEntries (sorted_members entries.old.entries ++ (id, entry) ∷ [])
        (sorted_members entries.new.entries)) }
    ensures table { HaveFiles entries.new.entries }
    ensures err { OnErr result (entries.new.entries ≡ entries.old.entries) }
{
    if takes_place(entries, &id, &entry) {
        entries.insert(id, entry)?;
    }
    Ok(())
}

/// Whether the id has no entry, or a greater one.
fn takes_place(entries: &Entries, id: &Text, entry: &Raw) -> bool
    ensures { result ≡ takes_place (value_at id.now entries.now.entries) entry.now }
{
    match entry_of(entries, id) {
        Some(old) => entry.as_bytes().cmp(old.as_bytes()).is_lt(),
        None => true,
    }
}

/// The entry of an id, if there is one.
pub(crate) fn entry_of<'a>(entries: &'a Entries, id: &Text) -> Option<&'a Raw>
    ensures { option_copied result ≡ value_at id.now entries.now.entries }
{
    entries.get(id)
}

/// The entries as members, in the order of their ids.
pub(crate) fn members_by_id(alloc: Global, entries: &Entries) -> Result<Vec<Member>, AllocError>
    requires { HaveFiles entries.now.entries }
    ensures { IfOk result (λ members. pairs members.items ≡ sorted_members entries.now.entries) }
{
    let mut members = members_of(alloc, entries)?;
    members.sort_by(|a, b| a.name.cmp(&b.name))?;
    Ok(members)
}

/// The entries as members, in the order in which their ids came.
fn members_of(alloc: Global, entries: &Entries) -> Result<Vec<Member>, AllocError>
    ensures { IfOk result (λ members. pairs members.items ≡ entries.now.entries) }
{
    let mut members = Vec::with_capacity(alloc, entries.len())?;
    for (id, entry) in entries {
        members.push(member(id, entry)?)?;
    }
    Ok(members)
}

/// The member of this id with this entry.
fn member(id: &Text, entry: &Raw) -> Result<Member, AllocError>
    ensures { IfOk result (λ member. pair_of member ≡ (id.now, entry.now)) }
{
    let name = id.try_clone()?;
    let value = entry.try_clone()?;
    Ok(Member { name, value })
}
