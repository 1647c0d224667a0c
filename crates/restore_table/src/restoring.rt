//! Members with the defaults of those that are missing.

ghost use Rattle.std.specs.Prelude.{◌≡◌, ◌↔◌, ◌≤◌, ℕ, List as Items, [], ◌∷◌, map, slice_get, All, IfOk, IfSome, OnOk, IsPermutation, IsTrue, bytes_eq};
ghost use Rattle.std.specs.Cmp.Lexicographic.{slice_cmp};
ghost use Rattle.std.specs.List.{IsDistinct};
ghost use Rattle.std.specs.Option.{option_map_or};
ghost use Rattle.std.specs.Ordering.{nat_cmp};
ghost use Rattle.std.specs.declared.cmp.Ordering.TheVariants.{Less};
ghost use Rattle.json_text.specs.Compact.{Member as Pair};
ghost use Rattle.json_text.specs.Members.{pairs, pair_of};
ghost use Rattle.json_text.specs.Value.{IsCompact};
ghost use Rattle.restore_table.specs.Merged.{chosen, merged};
ghost use Rattle.restore_table.specs.inner.Merged.{row_pair, RiseAfter, IsWholeAfter, IsWhole, AreCompleted};
ghost use Rattle.restore_table.specs.Restored.{AreRestored};
ghost use Rattle.restore_table.specs.Table.{defaults};

use crate::legacy::{is_old_listing, updated};
use crate::table::{Row, rows};
use board_base::{List, bytes_order};
use json_text::{Member, Raw, Text};
use members::Members;
use scene_json::is_null;
use std::alloc::{AllocError, Global};
use std::cmp::Ordering;

/// The members with the default of each one of the table that is missing or null, in the order of
/// the bytes of their names; an old listing of ids becomes one of arrows. Fails only for want of
/// memory.
pub fn restore(alloc: Global, members: &List<Member>) -> Result<List<Member>, AllocError>
    requires { IsDistinct bytes_eq (map (λ member. member.name) members.now) }
    ensures restored { IfOk result (λ restored. AreRestored (pairs members.now) (pairs restored)) }
    ensures nests { (limit : ℕ) → 2 ≤ limit
        → All (λ member. IsCompact limit member.value) members.now
        → IfOk result (λ restored. All (λ member. IsCompact limit member.value) restored) }
{
    restored(alloc, members.try_clone_with(Member::try_clone)?)
}

/// As `restore`, but of members that are handed over. For want of memory they are dropped.
pub fn into_restored(alloc: Global, members: Members) -> Result<Members, AllocError>
    requires { IsDistinct bytes_eq (map (λ member. member.name) members) }
    ensures restored { IfOk result (λ restored. AreRestored (pairs members) (pairs restored)) }
    ensures nests { (limit : ℕ) → 2 ≤ limit → All (λ member. IsCompact limit member.value) members
        → IfOk result (λ restored. All (λ member. IsCompact limit member.value) restored) }
{
    let mut members = members;
    if are_whole_in_order(&mut members)? {
        return Ok(members);
    }
    Ok(Members::apart(restored(alloc, members.into_list(alloc)?)?))
}

/// As `restore`, but of members that are handed over.
fn restored(alloc: Global, members: List<Member>) -> Result<List<Member>, AllocError>
    requires { IsDistinct bytes_eq (map (λ member. member.name) members) }
    ensures restored { IfOk result (λ restored. AreRestored (pairs members) (pairs restored)) }
    ensures nests { (limit : ℕ) → 2 ≤ limit → All (λ member. IsCompact limit member.value) members
        → IfOk result (λ restored. All (λ member. IsCompact limit member.value) restored) }
{
    let mut members = updated(alloc, members)?;
    complete(&mut members)?;
    Ok(List::from_vec(members))
}

/// Puts the members in the order of their names, with the defaults of those that are missing or
/// null.
fn complete(members: &mut Vec<Member>) -> Result<(), AllocError>
    ensures { OnOk result (AreCompleted members.old.items members.new.items) }
{
    members.sort_by(|a, b| a.name.cmp(&b.name))?;
    fill_up(members)?;
    Ok(())
}

/// Whether the members are whole as they stand, or in the order of the fronts of their names, in
/// which they are left then. That is mostly so, and no member is copied.
fn are_whole_in_order(members: &mut Members) -> Result<bool, AllocError>
    ensures moved { OnOk result (IsPermutation members.old members.new) }
    ensures whole { IfOk result (λ whole. IsTrue whole → IsWhole (pairs members.new)) }
{
    if is_whole(members) {
        return Ok(true);
    }
    members.sort_by_fronts()?;
    Ok(is_whole(members))
}

/// Whether the names of the members rise, none of the table is missing, nor null if its default
/// isn't, and there is no old listing.
fn is_whole(members: &Members) -> bool
    ensures { IsTrue result → IsWhole (pairs members.now) }
{
    let mut last: &[u8] = &[];
    let mut left = rows();
    for at in 0..members.len() {
        let name = members.name(at);
        if is_old_listing(name) {
            return false;
        }
        let Some(behind) = rows_behind(left, last, name, members.value(at)) else {
            return false;
        };
        left = behind;
        last = name;
    }
    left.is_empty()
}

/// The rows behind a member of this name and value. `None` where its name isn't greater than the
/// last one, a row before it is missing, or its value is to be that of its row.
fn rows_behind(
    rows: &'static [Row],
    last: &[u8],
    name: &[u8],
    value: &[u8],
) -> Option<&'static [Row]>
    requires { RiseAfter last.now (map row_pair rows.now) }
    ensures rise { IfSome result (λ behind. RiseAfter name.now (map row_pair behind.now)) }
    ensures whole { IfSome result (λ behind. (others : Items Pair)
        → IsWholeAfter name.now (map row_pair behind.now) others
        → IsWholeAfter last.now (map row_pair rows.now) ((name.now, value.now) ∷ others)) }
{
    if let Some((row, others)) = rows.split_first() {
        if name == row.name.as_bytes() {
            return stays(row, value).then_some(others);
        }
        if !is_less(name, row.name.as_bytes()) {
            return None;
        }
    }
    is_less(last, name).then_some(rows)
}

/// Whether a member of the row's name keeps this value. Most are of another length than null, and
/// so not compared.
fn stays(row: &Row, value: &[u8]) -> bool
    ensures { IsTrue result → (name : Items ℕ)
        → chosen (row_pair row.now) (name, value.now) ≡ (name, value.now) }
{
    value.len() != 4 || value != b"null".as_slice() || row.default == "null"
}

/// Whether the first name comes before the second.
fn is_less(name: &[u8], other: &[u8]) -> bool
    ensures { IsTrue result ↔ (slice_cmp nat_cmp name.now other.now ≡ Less) }
{
    bytes_order(name, other).is_lt()
}

/// Fills up the members, whose names rise: puts the defaults of those that are missing between
/// them, and in the place of a null.
fn fill_up(members: &mut Vec<Member>) -> Result<(), AllocError>
    ensures { OnOk result (pairs members.new.items ≡ merged (pairs members.old.items) defaults) }
{
    let mut left = rows();
    let mut place = 0;
    while let Some((row, others)) = left.split_first() {
        match order_at(members, place, row) {
            Ordering::Less => {
                members.insert(place, default_member(row))?;
                left = others;
            }
            Ordering::Equal => {
                fill(&mut members[place], row);
                left = others;
            }
            Ordering::Greater => {}
        }
        place += 1;
    }
    Ok(())
}

/// How the name of the row compares to that of the member at the place; behind the members it is
/// less.
fn order_at(members: &[Member], place: usize, row: &Row) -> Ordering
    ensures { result ≡ option_map_or (λ member. slice_cmp nat_cmp row.now.name.now member.name)
        (slice_get members.now place) Less }
{
    match members.get(place) {
        Some(member) => bytes_order(row.name.as_bytes(), member.name.as_bytes()),
        None => Ordering::Less,
    }
}

/// The member with the default of a row.
fn default_member(row: &Row) -> Member
    requires { IsCompact 1 row.now.default.now }
    ensures { pair_of result ≡ row_pair row.now }
{
    Member {
        name: Text::fixed(row.name),
        value: Raw::fixed(row.default),
    }
}

/// Gives a null the default of its row.
fn fill(member: &mut Member, row: &Row)
    requires { IsCompact 1 row.now.default.now }
    ensures { pair_of member.new ≡ chosen (row_pair row.now) (pair_of member.old) }
{
    if is_null(&member.value) {
        member.value = Raw::fixed(row.default);
    }
}
