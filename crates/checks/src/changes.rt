//! The lines on elements that are shown otherwise than they stand.

ghost use Rattle.std.specs.Prelude.{◌≡◌, ◌++◌, ◌∷◌, List as Items, IfOk, OnOk, option_copied, flat_map};
ghost use Rattle.std.specs.BTreeMap.{get};
ghost use Rattle.std.specs.Cmp.Lexicographic.{slice_cmp};
ghost use Rattle.std.specs.Ordering.{nat_cmp};
ghost use Rattle.json_text.specs.Members.{pair_of, pairs};
ghost use Rattle.scene_json.specs.Named.{value_at};
ghost use Rattle.elem.specs.Facts.{IsElement};
ghost use Rattle.elem.specs.Said.{AreElements, HasValidTexts};
ghost use Rattle.elem.specs.Texts.{element_members};
ghost use Rattle.checks.specs.Lines as lines;
ghost use Rattle.checks.specs.Lines.{change_line, changed_line, changed_lines, changed_name, further_name, has_member, lacked_name, spot_at};

use crate::judged::Spot;
use crate::kept::Kept;
use board_base::List;
use elem::{Element, element_raw};
use elem_read::object_members;
use json_text::{Member, Raw, Text, push_quote};
use std::alloc::{AllocError, Global};

/// Appends a line on each shown element whose members differ from those that it stands with.
pub(crate) fn push_changes(
    alloc: Global,
    out: &mut Vec<u8>,
    kept: &Kept,
    spots: &[Spot],
    shown: &[Element],
) -> Result<(), AllocError>
    requires { AreElements shown.now }
    ensures { OnOk result (out.new.items ≡ out.old.items
        ++ changed_lines (get (slice_cmp nat_cmp) kept.now) spots.now shown.now) }
{
    for e in shown {
        push_change(alloc, out, kept, spots, e)?;
    }
    Ok(())
}

/// Appends the line on a shown element, if it differs.
fn push_change(
    alloc: Global,
    out: &mut Vec<u8>,
    kept: &Kept,
    spots: &[Spot],
    e: &Element,
) -> Result<(), AllocError>
    requires { IsElement e.now × HasValidTexts e.now }
    ensures { OnOk result (out.new.items ≡ out.old.items
        ++ changed_line (get (slice_cmp nat_cmp) kept.now) spots.now e.now) }
{
    let Some(spot) = spot_at(spots, kept.get(&e.id)) else {
        return Ok(());
    };
    let names = changed_names(alloc, &spot.members, &members_of(alloc, e)?)?;
    push_names(out, &e.id, names.as_slice())
}

/// The spot with this number.
fn spot_at<'a>(spots: &'a [Spot], n: Option<&usize>) -> Option<&'a Spot>
    ensures { option_copied result ≡ spot_at spots.now (option_copied n.entry) }
{
    spots.get(*n?)
}

/// The members of an element as it is written.
fn members_of(alloc: Global, e: &Element) -> Result<List<Member>, AllocError>
    requires { IsElement e.now × HasValidTexts e.now }
    ensures { IfOk result (λ members. pairs members ≡ element_members e.now) }
{
    match object_members(alloc, &element_raw(alloc, e)?)? {
        Some(members) => Ok(members),
        None => unreachable!(),
    }
}

/// The names of the shown members that the given ones lack or have another value of, and then of
/// those given members whose names the shown ones lack.
fn changed_names(
    alloc: Global,
    given: &List<Member>,
    shown: &List<Member>,
) -> Result<Vec<Text>, AllocError>
    ensures { IfOk result
        (λ names. names.items ≡ lines.changed_names (pairs given.now) (pairs shown.now)) }
{
    let mut names = Vec::new(alloc);
    push_changed(&mut names, given, shown)?;
    push_lacked(&mut names, given, shown)?;
    Ok(names)
}

/// Appends the names of the shown members that the given ones lack or have another value of.
fn push_changed(
    names: &mut Vec<Text>,
    given: &List<Member>,
    shown: &List<Member>,
) -> Result<(), AllocError>
    ensures { OnOk result (names.new.items
        ≡ names.old.items ++ flat_map (changed_name (pairs given.now)) (pairs shown.now)) }
{
    for member in shown.as_slice() {
        if !has_member(given, member) {
            names.push(member.name.try_clone()?)?;
        }
    }
    Ok(())
}

/// Appends the names of those given members whose names the shown ones lack.
fn push_lacked(
    names: &mut Vec<Text>,
    given: &List<Member>,
    shown: &List<Member>,
) -> Result<(), AllocError>
    ensures { OnOk result (names.new.items
        ≡ names.old.items ++ flat_map (lacked_name (pairs shown.now)) (pairs given.now)) }
{
    for member in given.as_slice() {
        if value_of(shown, &member.name).is_none() {
            names.push(member.name.try_clone()?)?;
        }
    }
    Ok(())
}

/// Whether members have the name of this one with its value.
fn has_member(members: &List<Member>, member: &Member) -> bool
    ensures { result ≡ has_member (pairs members.now) (pair_of member.now) }
{
    match value_of(members, &member.name) {
        Some(value) => member.value.as_bytes() == value.as_bytes(),
        None => false,
    }
}

/// The value of the first member with this name, if there is one.
fn value_of<'a>(members: &'a List<Member>, name: &Text) -> Option<&'a Raw>
    ensures { option_copied result ≡ value_at name.now (pairs members.now) }
{
    for member in members.as_slice() {
        if name.as_bytes() == member.name.as_bytes() {
            return Some(&member.value);
        }
    }
    None
}

/// Appends the line that tells these names of the element with this id, if there is one.
fn push_names(out: &mut Vec<u8>, id: &Text, names: &[Text]) -> Result<(), AllocError>
    ensures { OnOk result (out.new.items ≡ out.old.items ++ change_line id.now names.now) }
{
    let Some((name, more)) = names.split_first() else {
        return Ok(());
    };
    out.extend_from_slice(b"element ")?;
    push_quote(out, id)?;
    out.extend_from_slice(b": ")?;
    out.extend_from_slice(name.as_bytes())?;
    push_further(out, more)?;
    out.push(b'\n')?;
    Ok(())
}

/// Appends names that stand behind another one.
fn push_further(out: &mut Vec<u8>, names: &[Text]) -> Result<(), AllocError>
    ensures { OnOk result (out.new.items ≡ out.old.items ++ flat_map further_name names.now) }
{
    for name in names {
        out.extend_from_slice(b", ")?;
        out.extend_from_slice(name.as_bytes())?;
    }
    Ok(())
}
