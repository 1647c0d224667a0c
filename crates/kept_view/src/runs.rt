//! The runs of equal keys around a place among shown elements, and their repair.

ghost use Rattle.std.specs.Prelude.{◌≡◌, ◌<◌, ◌≤◌, true, length, drop, slice_get, Some, option_copied, IfOk, IfSome};
ghost use Rattle.frac_keys.specs.Rising.{are_rising};
ghost use Rattle.elem_store.specs.Updates.{ids_of};
ghost use Rattle.index_repair.specs.Repair as repair;
ghost use Rattle.view.specs.Shown.{as_stored};
ghost use Rattle.kept_view.specs.inner.Runs as runs;
ghost use Rattle.kept_view.specs.inner.Runs.{first_of, key_rises, part_of, stored_keys, AreKeysWith, AreKeysWithout, AreRepaired, IsRunStart};

use crate::places::element_of;
use board_base::List;
use elem::{Element, SharedElement};
use frac_keys::Key;
use index_repair::repair_part;
use std::alloc::{AllocError, Global};

/// Keys that are set from a place on.
#[derive(Drop)]
pub(crate) struct Rekeying {
    pub(crate) start: usize,
    pub(crate) keys: List<Key>,
}

/// The keys around a place once an element with this index came to it, if they can be repaired
/// apart.
pub(crate) fn keys_with(
    alloc: Global,
    live: &Vec<SharedElement>,
    shown: &Vec<SharedElement>,
    place: usize,
    index: &Option<Key>,
) -> Result<Option<Rekeying>, AllocError>
    requires ordered { are_rising (ids_of live.now.items) ≡ true }
    requires within { place ≤ length shown.now.items }
    ensures { IfOk result
        (λ found. IfSome found
        (λ r. AreKeysWith
        (stored_keys live.now.items shown.now.items) index.now place r.start r.keys)) }
{
    let start = run_start(live, shown, place);
    let end = end_with(live, shown, place, index);
    let mut part = keys_between(alloc, live, shown, start, end)?;
    part.insert(place - start, key_copied(index)?)?;
    match repaired(alloc, live, shown, part, end)? {
        Some(keys) => Ok(Some(Rekeying { start, keys })),
        None => Ok(None),
    }
}

/// The keys around a place once its element is gone, if they can be repaired apart.
pub(crate) fn keys_without(
    alloc: Global,
    live: &Vec<SharedElement>,
    shown: &Vec<SharedElement>,
    place: usize,
) -> Result<Option<Rekeying>, AllocError>
    requires ordered { are_rising (ids_of live.now.items) ≡ true }
    requires within { place < length shown.now.items }
    ensures { IfOk result
        (λ found. IfSome found
        (λ r. AreKeysWithout (stored_keys live.now.items shown.now.items) place r.start r.keys)) }
{
    let start = run_start(live, shown, place);
    let end = run_end(live, shown, place + 1);
    let mut part = keys_between(alloc, live, shown, start, end)?;
    if !may_be_cut(live, shown, &part, end) {
        return Ok(None);
    }
    part.remove(place - start);
    match repaired(alloc, live, shown, part, end)? {
        Some(keys) => Ok(Some(Rekeying { start, keys })),
        None => Ok(None),
    }
}

/// The repaired keys of a part, if it may be cut off at its end.
fn repaired(
    alloc: Global,
    live: &Vec<SharedElement>,
    shown: &Vec<SharedElement>,
    part: Vec<Option<Key>>,
    end: usize,
) -> Result<Option<List<Key>>, AllocError>
    requires ordered { are_rising (ids_of live.now.items) ≡ true }
    requires within { end ≤ length shown.now.items }
    ensures { IfOk result
        (λ found. IfSome found
        (AreRepaired (stored_keys live.now.items shown.now.items) part.items end)) }
{
    if !may_be_cut(live, shown, &part, end) {
        return Ok(None);
    }
    let keys = List::from_vec(part);
    Ok(Some(repair_part(alloc, &keys, key_at(live, shown, end))?))
}

/// Whether a part may be cut off where this place follows it: at the end, or at a key that is
/// greater than all of the part.
#[tactic(auto, using(crate::proofs::KeyPlaces::cut_end, crate::proofs::KeyPlaces::cut_key))]
fn may_be_cut(
    live: &Vec<SharedElement>,
    shown: &Vec<SharedElement>,
    part: &Vec<Option<Key>>,
    end: usize,
) -> bool
    requires ordered { are_rising (ids_of live.now.items) ≡ true }
    requires within { end ≤ length shown.now.items }
    ensures cut { result ≡ true
        → runs.is_cut part.now.items (drop end
        (stored_keys live.now.items shown.now.items)) ≡ true }
    ensures below { result ≡ true
        → repair.are_below (first_of
        (drop end (stored_keys live.now.items shown.now.items))) part.now.items ≡ true }
{
    if end == shown.len() {
        return are_below(None, part);
    }
    match key_at(live, shown, end) {
        Some(key) => are_below(Some(key), part),
        None => false,
    }
}

/// Whether all keys of a part are less than a key, if there is one.
fn are_below(above: Option<&Key>, part: &Vec<Option<Key>>) -> bool
    ensures { result ≡ repair.are_below (option_copied above.entry) part.now.items }
{
    for key in part {
        if !is_below(above, key) {
            return false;
        }
    }
    true
}

/// Whether a key is less than another one, if both are there.
fn is_below(above: Option<&Key>, key: &Option<Key>) -> bool
    ensures { result ≡ repair.is_below (option_copied above.entry) key.now }
{
    match key {
        Some(key) => match above {
            Some(above) => key < above,
            None => true,
        },
        None => true,
    }
}

/// The place before another one at which the keys rise, or the first one.
fn run_start(live: &Vec<SharedElement>, shown: &Vec<SharedElement>, place: usize) -> usize
    requires ordered { are_rising (ids_of live.now.items) ≡ true }
    requires within { place ≤ length shown.now.items }
    ensures { IsRunStart (stored_keys live.now.items shown.now.items) place result }
{
    for back in 1..place {
        let start = place - back;
        if rises_at(live, shown, start) {
            return start;
        }
    }
    0
}

/// Where the run ends to which an element with this index comes at a place.
fn end_with(
    live: &Vec<SharedElement>,
    shown: &Vec<SharedElement>,
    place: usize,
    index: &Option<Key>,
) -> usize
    requires ordered { are_rising (ids_of live.now.items) ≡ true }
    requires within { place ≤ length shown.now.items }
    ensures { (place ≤ result) × (result ≤ length shown.now.items) }
{
    if place == shown.len() || rises(index, stored_index(live, shown, place)) {
        return place;
    }
    run_end(live, shown, place + 1)
}

/// The first place from this one on at which the keys rise, or the end.
fn run_end(live: &Vec<SharedElement>, shown: &Vec<SharedElement>, from: usize) -> usize
    requires ordered { are_rising (ids_of live.now.items) ≡ true }
    requires within { (0 < from) × (from ≤ length shown.now.items) }
    ensures { (from ≤ result) × (result ≤ length shown.now.items) }
{
    for at in from..shown.len() {
        if rises_at(live, shown, at) {
            return at;
        }
    }
    shown.len()
}

/// Whether the keys rise at a place.
#[tactic(auto, using(crate::proofs::KeyPlaces::rises_is))]
fn rises_at(live: &Vec<SharedElement>, shown: &Vec<SharedElement>, at: usize) -> bool
    requires ordered { are_rising (ids_of live.now.items) ≡ true }
    requires within { (0 < at) × (at < length shown.now.items) }
    ensures { result ≡ runs.rises_at (stored_keys live.now.items shown.now.items) at }
{
    rises(
        stored_index(live, shown, at - 1),
        stored_index(live, shown, at),
    )
}

/// Whether there are two keys, and the second is greater.
fn rises(key: &Option<Key>, next: &Option<Key>) -> bool
    ensures { result ≡ key_rises key.now next.now }
{
    match key {
        Some(key) => match next {
            Some(next) => key < next,
            None => false,
        },
        None => false,
    }
}

/// The stored keys from one place to another, copied.
#[tactic(auto, using(crate::proofs::KeyPlaces::part_none, crate::proofs::KeyPlaces::part_more))]
fn keys_between(
    alloc: Global,
    live: &Vec<SharedElement>,
    shown: &Vec<SharedElement>,
    start: usize,
    end: usize,
) -> Result<Vec<Option<Key>>, AllocError>
    requires ordered { are_rising (ids_of live.now.items) ≡ true }
    requires within { (start ≤ end) × (end ≤ length shown.now.items) }
    ensures { IfOk result
        (λ keys. keys.items ≡ part_of (stored_keys live.now.items shown.now.items) start end) }
{
    let mut keys = Vec::new(alloc);
    for at in start..end {
        keys.push(key_copied(stored_index(live, shown, at))?)?;
    }
    Ok(keys)
}

/// The stored key of a place, if there is one.
#[tactic(auto, using(crate::proofs::KeyPlaces::first_drop, crate::proofs::KeyPlaces::past_keys))]
fn key_at<'a>(
    live: &'a Vec<SharedElement>,
    shown: &'a Vec<SharedElement>,
    at: usize,
) -> Option<&'a Key>
    requires ordered { are_rising (ids_of live.now.items) ≡ true }
    requires within { at ≤ length shown.now.items }
    ensures { option_copied result ≡ first_of
        (drop at (stored_keys live.now.items shown.now.items)) }
{
    if at == shown.len() {
        return None;
    }
    match stored_index(live, shown, at) {
        Some(key) => Some(key),
        None => None,
    }
}

/// The stored index of a place.
#[tactic(auto, using(crate::proofs::KeyPlaces::stored_index_is))]
fn stored_index<'a>(
    live: &'a Vec<SharedElement>,
    shown: &'a Vec<SharedElement>,
    at: usize,
) -> &'a Option<Key>
    requires ordered { are_rising (ids_of live.now.items) ≡ true }
    requires within { at < length shown.now.items }
    ensures { slice_get (stored_keys live.now.items shown.now.items) at ≡ Some result.now }
{
    &stored_of(live, shown[at].get()).index
}

/// The stored element of a shown one.
pub(crate) fn stored_of<'a>(live: &'a Vec<SharedElement>, shown: &'a Element) -> &'a Element
    requires { are_rising (ids_of live.now.items) ≡ true }
    ensures { result.now ≡ as_stored live.now.items shown.now }
{
    match element_of(live, &shown.id) {
        Some(e) => e,
        None => shown,
    }
}

/// An index, copied.
fn key_copied(index: &Option<Key>) -> Result<Option<Key>, AllocError>
    ensures { IfOk result (λ copy. copy ≡ index.now) }
{
    index.as_ref().map(Key::try_clone).transpose()
}
