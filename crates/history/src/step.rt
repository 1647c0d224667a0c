//! What taking an entry back comes to.

ghost use Rattle.std.specs.Prelude.{◌≡◌, ◌≢◌, ◌⊎◌, ◌+◌, ◌<◌, ◌++◌, [], ◌∷◌, List as Items, Some, None, true, false, IfOk, IfErr, IfSome, OnOk};
ghost use Rattle.elem.specs.ElementValue.{ElementValue};
ghost use Rattle.frac_keys.specs.Rising.{are_rising};
ghost use Rattle.delta.specs.Delta.{Delta};
ghost use Rattle.delta.specs.Facts.{part_ids};
ghost use Rattle.delta.specs.Parts.{PartStandsFor};
ghost use Rattle.elem_store.specs.Updates.{element_of};
ghost use Rattle.history.specs.inner.Places.{IsSeenAt};
ghost use Rattle.history.specs.Stacks.{HasStoredIds, HaveStoredIds, AreUnseen, StopsAt, OnFull, with_entry};
ghost use Rattle.history.specs.inner.Stacks.{IsPlanned};
ghost use Rattle.history.specs.Steps.{IsStep, IsFull, IsLeastFull, IsSeen, IsSeenPart, Differ, Reverts};
ghost use Rattle.history.specs.inner.Steps.{ComesOf};

use crate::planned::Plan;
use board_base::{List, Stop};
use delta::{AtLimit, Entry, Part, VersionFull, apply, difference, invert};
use elem::{Element, Stamp, same_but_stamp};
use elem_store::Store;
use std::alloc::{AllocError, Global};

/// What a step comes to.
#[derive(Drop)]
pub enum Step {
    /// These elements change, in the order of their ids.
    Done(List<Element>),
    /// No entry is seen.
    Nothing,
}

/// The plan for the topmost entry of a stack that is seen, if there is one, once an entry that
/// isn't empty was put on it.
pub(crate) fn plan_noted(
    alloc: Global,
    pending: &Entry,
    stack: &Vec<Entry>,
    store: &Store,
    stamp: Stamp,
) -> Result<Option<Plan>, Stop<VersionFull>>
    requires pending { HasStoredIds store.now.elements pending.now }
    requires stored { HaveStoredIds store.now.elements stack.now.items }
    ensures none { IfOk result (λ plan. plan ≡ None
        → AreUnseen store.now.elements (with_entry pending.now stack.now.items)) }
    ensures some { IfOk result
        (λ plan. IfSome plan (IsPlanned store.now.elements stamp
        (with_entry pending.now stack.now.items))) }
    ensures full { IfErr result
        (λ stop. OnFull stop
        (StopsAt store.now.elements (with_entry pending.now stack.now.items))) }
{
    if is_nothing(pending) {
        plan_back(alloc, stack, store, stamp)
    } else {
        plan_over(alloc, pending, stack, store, stamp)
    }
}

/// Whether an entry has no part.
pub(crate) fn is_nothing(entry: &Entry) -> bool
    ensures nothing { result ≡ true → entry.now ≡ [] }
    ensures more { result ≡ false → entry.now ≢ [] }
{
    entry.parts.as_slice().is_empty()
}

/// The plan for the topmost entry of a stack that is seen, if there is one, once an entry was put
/// on it.
fn plan_over(
    alloc: Global,
    pending: &Entry,
    stack: &Vec<Entry>,
    store: &Store,
    stamp: Stamp,
) -> Result<Option<Plan>, Stop<VersionFull>>
    requires pending { HasStoredIds store.now.elements pending.now }
    requires stored { HaveStoredIds store.now.elements stack.now.items }
    ensures none { IfOk result (λ plan. plan ≡ None
        → AreUnseen store.now.elements (stack.now.items ++ pending.now ∷ [])) }
    ensures some { IfOk result
        (λ plan. IfSome plan (IsPlanned store.now.elements stamp
        (stack.now.items ++ pending.now ∷ []))) }
    ensures full { IfErr result
        (λ stop. OnFull stop (StopsAt store.now.elements (stack.now.items ++ pending.now ∷ []))) }
{
    let seen = is_seen(alloc, pending, store)?;
    if seen {
        let plan = planned(alloc, pending, 0, store, stamp)?;
        return Ok(Some(plan));
    }
    match plan_back(alloc, stack, store, stamp)? {
        Some(plan) => Ok(Some(with_one_more(plan))),
        None => Ok(None),
    }
}

/// The plan, with one more entry passed over.
fn with_one_more(plan: Plan) -> Plan
    requires { plan.passed < 18446744073709551615 }
    ensures { result ≡ record plan { passed = plan.passed + 1 } }
{
    Plan {
        passed: plan.passed + 1,
        ..plan
    }
}

/// The plan for the topmost entry of a stack that is seen, if there is one.
pub(crate) fn plan_back(
    alloc: Global,
    stack: &Vec<Entry>,
    store: &Store,
    stamp: Stamp,
) -> Result<Option<Plan>, Stop<VersionFull>>
    requires stored { HaveStoredIds store.now.elements stack.now.items }
    ensures none { IfOk result (λ plan. plan ≡ None
        → AreUnseen store.now.elements stack.now.items) }
    ensures some { IfOk result
        (λ plan. IfSome plan (IsPlanned store.now.elements stamp
        stack.now.items)) }
    ensures passed { IfOk result (λ plan. IfSome plan (λ p. p.passed < 18446744073709551615)) }
    ensures full { IfErr result (λ stop. OnFull stop (StopsAt store.now.elements stack.now.items)) }
{
    match topmost_seen(alloc, stack, store)? {
        Some(i) => {
            let entry = &stack[i];
            let passed = (stack.len() - 1 - i) as u64;
            let plan = planned(alloc, entry, passed, store, stamp)?;
            Ok(Some(plan))
        }
        None => Ok(None),
    }
}

/// The index of the topmost entry of a stack that is seen, if there is one.
fn topmost_seen(
    alloc: Global,
    stack: &Vec<Entry>,
    store: &Store,
) -> Result<Option<usize>, AllocError>
    requires { HaveStoredIds store.now.elements stack.now.items }
    ensures none { IfOk result (λ found. found ≡ None
        → AreUnseen store.now.elements stack.now.items) }
    ensures some { IfOk result
        (λ found. IfSome found (λ i. IsSeenAt store.now.elements stack.now.items i)) }
{
    let mut count = stack.len();
    while 0 < count {
        let last = count - 1;
        let entry = &stack[last];
        let seen = is_seen(alloc, entry, store)?;
        if seen {
            return Ok(Some(last));
        }
        count = last;
    }
    Ok(None)
}

/// Whether an entry is seen: its inverted parts change an element that is live before or after.
fn is_seen(alloc: Global, entry: &Entry, store: &Store) -> Result<bool, AllocError>
    requires { HasStoredIds store.now.elements entry.now }
    ensures seen { IfOk result (λ seen. seen ≡ true → IsSeen store.now.elements entry.now) }
    ensures unseen { IfOk result (λ seen. seen ≡ false → ¬ (IsSeen store.now.elements entry.now)) }
{
    for part in entry.parts.as_slice() {
        let now = store.get(&part.id).unwrap();
        let seen = is_part_seen(alloc, part, now)?;
        if seen {
            return Ok(true);
        }
    }
    Ok(false)
}

/// Whether the inverse of a part changes an element, outside the stamp, that is live before or
/// after.
fn is_part_seen(alloc: Global, part: &Part, now: &Element) -> Result<bool, AllocError>
    requires { part.now.id ≡ now.now.id }
    ensures seen { IfOk result (λ seen. seen ≡ true → IsSeenPart part.now now.now) }
    ensures unseen { IfOk result (λ seen. seen ≡ false → ¬ (IsSeenPart part.now now.now)) }
{
    let e = reverted(alloc, part, now)?;
    Ok(is_shown_change(now, &e))
}

/// What the inverse of a part makes of an element.
fn reverted(alloc: Global, part: &Part, now: &Element) -> Result<Element, AllocError>
    requires { part.now.id ≡ now.now.id }
    ensures { IfOk result (Reverts part.now now.now) }
{
    apply(alloc, &invert(part.try_clone()?), now)
}

/// Whether two elements differ outside the stamp and one of them is live.
fn is_shown_change(now: &Element, e: &Element) -> bool
    ensures shown { result ≡ true → Differ now.now e.now
        × ((now.now.deleted ≡ false) ⊎ (e.now.deleted ≡ false)) }
    ensures hidden { result ≡ false → Differ now.now e.now
        → ((now.now.deleted ≡ false) ⊎ (e.now.deleted ≡ false)) → ⊥ }
{
    !same_but_stamp(now, e) && !(now.deleted && e.deleted)
}

/// The plan for an entry, so many of which are passed over.
fn planned(
    alloc: Global,
    entry: &Entry,
    passed: u64,
    store: &Store,
    stamp: Stamp,
) -> Result<Plan, Stop<VersionFull>>
    requires stored { HasStoredIds store.now.elements entry.now }
    ensures ok { IfOk result
        (λ plan. IsStep entry.now store.now.elements stamp.time stamp.nonce plan.given plan.made) }
    ensures passed { IfOk result (λ plan. plan.passed ≡ passed) }
    ensures full { IfErr result
        (λ stop. OnFull stop (λ id. IsLeastFull entry.now store.now.elements id)) }
{
    let mut given = Vec::new(alloc);
    let mut made = Vec::new(alloc);
    for part in entry.parts.as_slice() {
        let now = store.get(&part.id).unwrap();
        revert(alloc, part, now, stamp, &mut given, &mut made)?;
    }
    Ok(Plan {
        given: List::from_vec(given),
        made: Entry {
            parts: List::from_vec(made),
        },
        passed,
    })
}

/// Adds what comes of a part to what came of those of lesser ids.
fn revert(
    alloc: Global,
    part: &Part,
    now: &Element,
    stamp: Stamp,
    given: &mut Vec<Element>,
    made: &mut Vec<Part>,
) -> Result<(), Stop<VersionFull>>
    requires id { part.now.id ≡ now.now.id }
    ensures ok { (parts : Items Delta) (store : Items ElementValue)
        → IsStep parts store stamp.time stamp.nonce given.old.items made.old.items
        → are_rising (part_ids (parts ++ part.now ∷ [])) ≡ true
        → element_of store part.now.id ≡ Some now.now
        → OnOk result (IsStep
        (parts ++ part.now ∷ []) store stamp.time stamp.nonce given.new.items made.new.items) }
    ensures full { IfErr result (λ stop. OnFull stop (λ id. (id ≡ part.now.id)
        × IsFull part.now now.now)) }
{
    if let Some(e) = stamped(alloc, part, now, stamp)? {
        add(alloc, given, made, now, e)?;
    }
    Ok(())
}

/// The stored element after the inverse of the part was applied to it, stamped, if it then differs.
fn stamped(
    alloc: Global,
    part: &Part,
    now: &Element,
    stamp: Stamp,
) -> Result<Option<Element>, Stop<VersionFull>>
    requires id { part.now.id ≡ now.now.id }
    ensures ok { IfOk result (ComesOf part.now now.now stamp.time stamp.nonce) }
    ensures full { IfErr result (λ stop. OnFull stop (λ id. (id ≡ part.now.id)
        × IsFull part.now now.now)) }
{
    let mut e = reverted(alloc, part, now)?;
    if same_but_stamp(now, &e) {
        return Ok(None);
    }
    match delta::stamp(&mut e, stamp) {
        Ok(()) => Ok(Some(e)),
        Err(AtLimit) => Err(Stop::Fault(VersionFull(part.id.try_clone()?))),
    }
}

/// Adds an element, and the part from what is stored to it.
fn add(
    alloc: Global,
    given: &mut Vec<Element>,
    made: &mut Vec<Part>,
    now: &Element,
    e: Element,
) -> Result<(), AllocError>
    requires id { now.now.id ≡ e.id }
    requires kind { now.now.kind ≡ e.kind }
    ensures given { OnOk result (given.new.items ≡ given.old.items ++ e ∷ []) }
    ensures made { OnOk result ((part : Delta) × (made.new.items ≡ made.old.items ++ part ∷ [])
        × PartStandsFor part now.now e) }
{
    made.push(difference(alloc, Some(now), &e)?)?;
    given.push(e)?;
    Ok(())
}
