//! The part of two elements.

ghost use Rattle.std.specs.Prelude.{◌≡◌, ◌≤◌, length, take, drop, All, slice_get, ℕ, List as Items, [], ◌∷◌, ◌++◌, Option, Some, true, false, codes, bytes_eq, option_copied, IfOk, IfSome, OnOk};
ghost use Rattle.std.specs.List.{list_any};
ghost use Rattle.frac_keys.specs.Rising.{are_rising};
ghost use Rattle.elem.specs.Facts.{names};
ghost use Rattle.frac_keys.specs.Keys.{bytes_less};
ghost use Rattle.delta.specs.Facts.{IsScalar, name_of, change_names, other_names};
ghost use Rattle.delta.specs.Placed.{with_item};
ghost use Rattle.std.specs.Option.{option_map_or};
ghost use Rattle.delta.specs.Headers.{header_named, scalar_of, value_named};
ghost use Rattle.delta.specs.Parts as parts;
ghost use Rattle.delta.specs.Parts.{PartStandsFor, counted, groups_change, bound_change};
ghost use Rattle.delta.specs.inner.Told.{AreChangesOf, AreAllChanges, with_change};

use crate::change::Change;
use crate::header::{header_named, header_raw};
use crate::join::are_same;
use crate::part::Part;
use board_base::List;
use elem::{BoundRef, Element, SharedMembers};
use json_text::{Raw, Text};
use std::alloc::{AllocError, Global};

/// The members outside the stamp in which the elements differ. Where there is no old element, it
/// counts as the new one, deleted.
pub fn difference(alloc: Global, old: Option<&Element>, new: &Element) -> Result<Part, AllocError>
    requires { IfSome (option_copied old) (λ old. (old.id ≡ new.now.id)
        × (old.kind ≡ new.now.kind)) }
    ensures { IfOk result (λ part. PartStandsFor part (counted (option_copied old.entry) new.now)
        new.now) }
{
    let changes = match old {
        Some(old) => changes_between(alloc, old, new)?,
        None => creation(alloc, new)?,
    };
    Ok(Part {
        id: new.id.try_clone()?,
        kind: new.kind.try_clone()?,
        changes: List::from_vec(changes),
    })
}

/// The changes from the element, deleted, to itself.
fn creation(alloc: Global, new: &Element) -> Result<Vec<Change>, AllocError>
    ensures { IfOk result (λ changes. AreAllChanges (record new.now { deleted = true }) new.now
        changes.items) }
{
    let mut old = new.try_clone()?;
    old.deleted = true;
    changes_between(alloc, &old, new)
}

/// The changes from an element to another one of its kind.
fn changes_between(alloc: Global, old: &Element, new: &Element) -> Result<Vec<Change>, AllocError>
    requires { old.now.kind ≡ new.now.kind }
    ensures { IfOk result (λ changes. AreAllChanges old.now new.now changes.items) }
{
    let mut changes = Vec::new(alloc);
    note_groups(&mut changes, old, new)?;
    note_bound(&mut changes, old, new)?;
    note_headers(alloc, &mut changes, old, new)?;
    note_rest(alloc, &mut changes, old, new, &old.rest)?;
    note_rest(alloc, &mut changes, old, new, &new.rest)?;
    Ok(changes)
}

/// Adds the change of the groups, if they differ.
fn note_groups(changes: &mut Vec<Change>, old: &Element, new: &Element) -> Result<(), AllocError>
    requires { AreChangesOf old.now new.now [] changes.old.items }
    ensures { OnOk result (AreChangesOf old.now new.now (codes "groupIds" ∷ []) changes.new.items) }
{
    add(changes, groups_change(&old.groups, &new.groups)?)
}

/// The change of the groups, if they differ.
fn groups_change(before: &List<Text>, after: &List<Text>) -> Result<Option<Change>, AllocError>
    ensures { IfOk result (λ change. change ≡ groups_change before.now after.now) }
{
    if are_same(before, after) {
        return Ok(None);
    }
    Ok(Some(Change::Groups {
        before: before.try_clone_with(Text::try_clone)?,
        after: after.try_clone_with(Text::try_clone)?,
    }))
}

/// Adds the change of the listing, if it differs.
fn note_bound(changes: &mut Vec<Change>, old: &Element, new: &Element) -> Result<(), AllocError>
    requires { AreChangesOf old.now new.now (codes "groupIds" ∷ []) changes.old.items }
    ensures { OnOk result (AreChangesOf old.now new.now (codes "groupIds" ∷ codes "boundElements"
        ∷ []) changes.new.items) }
{
    add(changes, bound_change(&old.bound, &new.bound)?)
}

/// The change of the listing, if it differs.
fn bound_change(
    before: &List<BoundRef>,
    after: &List<BoundRef>,
) -> Result<Option<Change>, AllocError>
    ensures { IfOk result (λ change. change ≡ bound_change before.now after.now) }
{
    if are_same(before, after) {
        return Ok(None);
    }
    Ok(Some(Change::Bound {
        before: before.try_clone_with(BoundRef::try_clone)?,
        after: after.try_clone_with(BoundRef::try_clone)?,
    }))
}

/// Adds the changes of the scalar header members.
fn note_headers(
    alloc: Global,
    changes: &mut Vec<Change>,
    old: &Element,
    new: &Element,
) -> Result<(), AllocError>
    requires kind { old.now.kind ≡ new.now.kind }
    requires told { AreChangesOf old.now new.now (codes "groupIds" ∷ codes "boundElements" ∷ [])
        changes.old.items }
    ensures { OnOk result (AreChangesOf old.now new.now
        (codes "groupIds" ∷ codes "boundElements" ∷ codes "isDeleted" ∷ codes "index"
        ∷ codes "frameId"
        ∷ codes "containerId" ∷ codes "startBinding" ∷ codes "endBinding" ∷ codes "fileId" ∷ [])
        changes.new.items) }
{
    note_named(alloc, changes, old, new, "isDeleted")?;
    note_named(alloc, changes, old, new, "index")?;
    note_named(alloc, changes, old, new, "frameId")?;
    note_named(alloc, changes, old, new, "containerId")?;
    note_named(alloc, changes, old, new, "startBinding")?;
    note_named(alloc, changes, old, new, "endBinding")?;
    note_named(alloc, changes, old, new, "fileId")
}

/// Adds the change of the scalar of these characters, if it differs.
fn note_named(
    alloc: Global,
    changes: &mut Vec<Change>,
    old: &Element,
    new: &Element,
    name: &str,
) -> Result<(), AllocError>
    requires free { list_any (bytes_eq name.now) other_names ≡ false }
    requires kind { old.now.kind ≡ new.now.kind }
    ensures { (names : Items (Items ℕ)) → AreChangesOf old.now new.now names changes.old.items
        → OnOk result (AreChangesOf old.now new.now (names ++ name.now ∷ []) changes.new.items) }
{
    note(alloc, changes, old, new, &Text::from_str(alloc, name)?)
}

/// Adds the changes of the scalars of these members' names.
fn note_rest(
    alloc: Global,
    changes: &mut Vec<Change>,
    old: &Element,
    new: &Element,
    rest: &SharedMembers,
) -> Result<(), AllocError>
    requires free { list_any (λ name. list_any (bytes_eq name) other_names) (names rest.now)
        ≡ false }
    requires kind { old.now.kind ≡ new.now.kind }
    ensures { (known : Items (Items ℕ)) → AreChangesOf old.now new.now known changes.old.items
        → OnOk result (AreChangesOf old.now new.now (known ++ names rest.now) changes.new.items) }
{
    let list = rest.to_list(alloc)?;
    for member in list.as_slice() {
        note(alloc, changes, old, new, &member.name)?;
    }
    Ok(())
}

/// Adds the change of the scalar of this name, if it differs.
fn note(
    alloc: Global,
    changes: &mut Vec<Change>,
    old: &Element,
    new: &Element,
    name: &Text,
) -> Result<(), AllocError>
    requires free { list_any (bytes_eq name.now) other_names ≡ false }
    requires kind { old.now.kind ≡ new.now.kind }
    ensures { (names : Items (Items ℕ)) → AreChangesOf old.now new.now names changes.old.items
        → OnOk result (AreChangesOf old.now new.now (names ++ name.now ∷ []) changes.new.items) }
{
    let before = scalar_raw(alloc, old, name)?;
    let after = scalar_raw(alloc, new, name)?;
    add(changes, scalar_change(name, before, after)?)
}

/// The change of a scalar, if it differs.
fn scalar_change(
    name: &Text,
    before: Option<Raw>,
    after: Option<Raw>,
) -> Result<Option<Change>, AllocError>
    ensures { IfOk result (λ change. change ≡ parts.scalar_change name.now before after) }
{
    if are_same_scalars(&before, &after) {
        return Ok(None);
    }
    Ok(Some(Change::Scalar {
        name: name.try_clone()?,
        before,
        after,
    }))
}

/// Whether two scalars are the same.
fn are_same_scalars(before: &Option<Raw>, after: &Option<Raw>) -> bool
    ensures { result ≡ parts.scalars_same before.now after.now }
{
    match (before, after) {
        (None, None) => true,
        (Some(before), Some(after)) => before == after,
        _ => false,
    }
}

/// The compact text of the scalar of this name, if the element has one.
fn scalar_raw(alloc: Global, e: &Element, name: &Text) -> Result<Option<Raw>, AllocError>
    ensures value { IfOk result (λ value. value ≡ scalar_of e.now name.now) }
    ensures scalar { IfOk result (λ value. IsScalar (header_named e.now.kind name.now) value) }
{
    match header_named(&e.kind, name) {
        Some(header) => Ok(Some(header_raw(alloc, e, header)?)),
        None => rest_raw(&e.rest, name),
    }
}

/// The value of the member of this name, if there is one.
fn rest_raw(rest: &SharedMembers, name: &Text) -> Result<Option<Raw>, AllocError>
    ensures { IfOk result (λ value. value ≡ value_named name.now rest.now) }
{
    let members = rest.as_members();
    for at in 0..members.len() {
        if name.as_bytes() == members.name(at) {
            return Ok(Some(members.to_value(at)?));
        }
    }
    Ok(None)
}

/// Puts the change, if there is one, where the name of its member belongs.
fn add(changes: &mut Vec<Change>, change: Option<Change>) -> Result<(), AllocError>
    ensures { are_rising (change_names changes.old.items) ≡ true
        → OnOk result (changes.new.items ≡ with_change changes.old.items change) }
{
    match change {
        Some(change) => put(changes, change),
        None => Ok(()),
    }
}

/// Puts the change where the name of its member belongs, in the place of the one of this member, if
/// there is one.
fn put(changes: &mut Vec<Change>, change: Change) -> Result<(), AllocError>
    ensures { are_rising (change_names changes.old.items) ≡ true
        → OnOk result (changes.new.items ≡ with_item name_of change changes.old.items) }
{
    let place = place_of(changes, &change);
    if is_same_at(changes, place, &change) {
        changes[place] = change;
    } else {
        changes.insert(place, change)?;
    }
    Ok(())
}

/// Where the changes begin whose members' names aren't less.
fn place_of(changes: &[Change], change: &Change) -> usize
    ensures bound { result ≤ length changes.now }
    ensures before { are_rising (change_names changes.now) ≡ true
        → All (λ other. bytes_less (name_of other) (name_of change.now) ≡ true)
        (take result changes.now) }
    ensures behind { are_rising (change_names changes.now) ≡ true
        → All (λ other. bytes_less (name_of other) (name_of change.now) ≡ false)
        (drop result changes.now) }
{
    changes.partition_point(|other| is_before(other, change))
}

/// Whether the name of a change's member comes before that of another one's.
fn is_before(change: &Change, other: &Change) -> bool
    ensures { result ≡ bytes_less (name_of change.now) (name_of other.now) }
{
    member_name(change).cmp(member_name(other)).is_lt()
}

/// Whether the change at the place is of the same member.
fn is_same_at(changes: &Vec<Change>, place: usize, change: &Change) -> bool
    ensures { result ≡ option_map_or (λ other. bytes_eq (name_of change.now) (name_of other))
        (slice_get changes.now.items place) false }
{
    match changes.get(place) {
        Some(other) => member_name(change) == member_name(other),
        None => false,
    }
}

/// The name of the member that a change is of.
fn member_name(change: &Change) -> &[u8]
    ensures { result.now ≡ name_of change.now }
{
    match change {
        Change::Scalar { name, .. } => name.as_bytes(),
        Change::Groups { .. } => b"groupIds",
        Change::Bound { .. } => b"boundElements",
    }
}
