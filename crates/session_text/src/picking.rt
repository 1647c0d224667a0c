//! What is picked of messages.

ghost use Rattle.std.specs.Prelude.{Some, IfOk, MatchOption};
ghost use Rattle.json_text.specs.Members.{pairs};
ghost use Rattle.elem_read.specs.Faults.{Lacks};
ghost use Rattle.session_text.specs.Forms.{IsFrom, IsPair, IsPick, ArePicks, HasPicks};
ghost use Rattle.session_text.specs.Reads.{MemberOf};
ghost use Rattle.session_text.specs.inner.Reads.{IsReadResult};
ghost use Rattle.session_text.specs.declared.name.MemberName.TheVariants as names;

use crate::event::Pick;
use crate::fault::TextFault;
use crate::name::MemberName;
use board_base::{List, Stop};
use json_text::{Member, Raw};
use scene_json::{items, shaped, value_named, whole_of};
use std::alloc::{AllocError, Global};

/// What is picked, where so many messages were made before.
pub(crate) fn picks(
    alloc: Global,
    members: &List<Member>,
    made: u64,
) -> Result<List<Pick>, Stop<TextFault>>
    ensures { IsReadResult (MemberOf names.Picks (HasPicks made) (pairs members.now)) result }
{
    let Some(value) = value_named(members, "picks") else {
        return Err(Stop::Fault(TextFault::Member(MemberName::Picks)));
    };
    let Some(found) = shaped(items(alloc, value))? else {
        return Err(Stop::Fault(TextFault::Member(MemberName::Picks)));
    };
    match picks_in(alloc, &found, made)? {
        Some(picks) => Ok(picks),
        None => Err(Stop::Fault(TextFault::Member(MemberName::Picks))),
    }
}

/// What these items pick, if each picks something.
fn picks_in(alloc: Global, items: &List<Raw>, made: u64) -> Result<Option<List<Pick>>, AllocError>
    ensures { IfOk result (λ found. MatchOption found
        (Lacks (ArePicks made items.now)) (ArePicks made items.now)) }
{
    let mut picks = Vec::new(alloc);
    for item in items.as_slice() {
        match pick(alloc, item, made)? {
            Some(pick) => picks.push(pick)?,
            None => return Ok(None),
        }
    }
    Ok(Some(List::from_vec(picks)))
}

/// What the item picks, if it picks something.
fn pick(alloc: Global, item: &Raw, made: u64) -> Result<Option<Pick>, AllocError>
    ensures { IfOk result (λ found. MatchOption found
        (Lacks (IsPick made item.now)) (IsPick made item.now)) }
{
    match shaped(items(alloc, item))? {
        Some(parts) => match pair(&parts, made) {
            Some((message, element)) => Ok(Some(Pick::One(message, element))),
            None => Ok(None),
        },
        None => match message(item, made) {
            Some(message) => Ok(Some(Pick::All(message))),
            None => Ok(None),
        },
    }
}

/// The numbers of a message and of an element that these values are, if they are two and numbers.
fn pair(parts: &List<Raw>, made: u64) -> Option<(u64, u64)>
    ensures { MatchOption result (Lacks (IsPair made parts.now)) (IsPair made parts.now) }
{
    let [first, second] = parts.as_slice() else {
        return None;
    };
    let message = message(first, made)?;
    let element = whole_of(second)?;
    Some((message, element))
}

/// The number of a message that the item is, if it is one.
fn message(item: &Raw, made: u64) -> Option<u64>
    ensures { MatchOption result (Lacks (IsFrom 0 made (Some item.now)))
        (IsFrom 0 made (Some item.now)) }
{
    match whole_of(item) {
        Some(message) if message < made => Some(message),
        _ => None,
    }
}
