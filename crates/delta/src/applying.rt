//! What a part makes of an element.

ghost use Rattle.std.specs.Prelude.{◌≡◌, [], ◌∷◌, true, false, None, bytes_eq, IfOk, OnOk};
ghost use Rattle.std.specs.List.{AllByRecursion, list_any};
ghost use Rattle.frac_keys.specs.Rising.{are_rising};
ghost use Rattle.elem.specs.declared.parts.BoundRef.{BoundRef};
ghost use Rattle.elem.specs.Facts.{IsElement};
ghost use Rattle.delta.specs.Applied.{Changes, IsApplied, KeepsStamp};
ghost use Rattle.delta.specs.Facts.{IsChange, IsScalar, change_names, other_names};
ghost use Rattle.delta.specs.Headers as headers;
ghost use Rattle.delta.specs.inner.Kept.{IsScalarSet};

use crate::change::Change;
use crate::header::{header_named, set_header};
use crate::join::join;
use crate::kinds::are_one_kind;
use crate::part::Part;
use crate::rest::put_value;
use board_base::List;
use elem::{BoundRef, Element, SharedMembers};
use json_text::{Raw, Text};
use std::alloc::{AllocError, Global};
use std::mem;

/// What the part makes of an element with its id: each scalar becomes that of after, whatever it is
/// now, and the lists change item by item. An element of another kind stays as it is, and so does
/// every stamp.
pub fn apply(alloc: Global, part: &Part, now: &Element) -> Result<Element, AllocError>
    requires { part.now.id ≡ now.now.id }
    ensures applied { IfOk result (IsApplied part.now now.now) }
    ensures element { IfOk result IsElement }
    ensures given { IfOk result (λ _. IsElement now.now) }
    ensures stamp { IfOk result (KeepsStamp now.now) }
{
    let mut e = now.try_clone()?;
    if are_one_kind(&part.kind, &now.kind) {
        apply_all(alloc, &mut e, &part.changes)?;
    }
    Ok(e)
}

/// Applies each of the changes.
fn apply_all(alloc: Global, e: &mut Element, changes: &List<Change>) -> Result<(), AllocError>
    requires rise { are_rising (change_names changes.now) ≡ true }
    requires each { AllByRecursion (IsChange e.old.kind) changes.now }
    requires element { IsElement e.old }
    ensures changes { OnOk result (Changes changes.now e.old e.new) }
    ensures element { OnOk result (IsElement e.new) }
{
    for change in changes.as_slice() {
        apply_change(alloc, e, change)?;
    }
    Ok(())
}

/// Applies a change.
fn apply_change(alloc: Global, e: &mut Element, change: &Change) -> Result<(), AllocError>
    requires { IsChange e.old.kind change.now }
    ensures changes { OnOk result (Changes (change.now ∷ []) e.old e.new) }
    ensures element { OnOk result (IsElement e.new) }
{
    match change {
        Change::Scalar {
            name,
            before: _,
            after,
        } => set_scalar(alloc, e, name, after),
        Change::Groups { before, after } => change_groups(alloc, e, before, after),
        Change::Bound { before, after } => change_bound(alloc, e, before, after),
    }
}

/// Changes the groups.
fn change_groups(
    alloc: Global,
    e: &mut Element,
    before: &List<Text>,
    after: &List<Text>,
) -> Result<(), AllocError>
    ensures changes { OnOk result (Changes (Change.Groups before.now after.now ∷ []) e.old e.new) }
    ensures element { OnOk result (IsElement e.new) }
{
    e.groups = join(alloc, before, after, &e.groups)?;
    Ok(())
}

/// Changes the listing.
fn change_bound(
    alloc: Global,
    e: &mut Element,
    before: &List<BoundRef>,
    after: &List<BoundRef>,
) -> Result<(), AllocError>
    ensures changes { OnOk result (Changes (Change.Bound before.now after.now ∷ []) e.old e.new) }
    ensures element { OnOk result (IsElement e.new) }
{
    e.bound = join(alloc, before, after, &e.bound)?;
    Ok(())
}

/// Gives a scalar a value, or takes it away.
fn set_scalar(
    alloc: Global,
    e: &mut Element,
    name: &Text,
    value: &Option<Raw>,
) -> Result<(), AllocError>
    requires free { list_any (bytes_eq name.now) other_names ≡ false }
    requires value { IsScalar (headers.header_named e.old.kind name.now) value.now }
    ensures set { OnOk result (IsScalarSet e.old e.new name.now value.now) }
    ensures element { OnOk result (IsElement e.new) }
{
    match (header_named(&e.kind, name), value) {
        (Some(header), Some(value)) => set_header(alloc, e, header, value),
        (Some(_), None) => unreachable!(),
        (None, value) => set_member(
            alloc,
            e,
            name,
            value.as_ref().map(Raw::try_clone).transpose()?,
        ),
    }
}

/// Gives a further member a value, or takes it away.
fn set_member(
    alloc: Global,
    e: &mut Element,
    name: &Text,
    value: Option<Raw>,
) -> Result<(), AllocError>
    requires free { list_any (bytes_eq name.now) other_names ≡ false }
    requires other { headers.header_named e.old.kind name.now ≡ None }
    requires value { IsScalar None value }
    ensures set { OnOk result (IsScalarSet e.old e.new name.now value) }
    ensures element { OnOk result (IsElement e.new) }
{
    let none = SharedMembers::new(alloc, List::new(alloc))?;
    let mut rest = mem::replace(&mut e.rest, none).into_list(alloc)?.into_vec();
    put_value(&mut rest, name, value)?;
    e.rest = SharedMembers::new(alloc, List::from_vec(rest))?;
    Ok(())
}
