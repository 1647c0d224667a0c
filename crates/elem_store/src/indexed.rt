//! Places in an order, of which new ones come at any index.

ghost use Rattle.std.specs.Prelude.{◌≡◌, ◌+◌, ◌-◌, ◌<◌, ◌≤◌, [], ◌∷◌, ◌++◌, take, drop, length, insert, slice_get, OnOk, OnErr, IsOk, vec_len, vec_capacity};
ghost use Rattle.std.specs.List.Sorted.{IsNonDecreasingBy};
ghost use Rattle.elem_store.specs.inner.Indexed.{woven, AreGaps, AreBefore, HasPutLate};

use std::alloc::{AllocError, Global};
use std::marker::Model;

/// How many places stand beside the settled ones before all are put among them.
const MOST_LATE: usize = 256;

/// A place that came lately, and how many of the settled ones stand before it.
#[derive(Clone, Copy)]
pub(crate) struct Late {
    pub(crate) gap: usize,
    pub(crate) place: usize,
}

/// Places in an order. Most of them are settled in one list; those that came lately stand beside
/// it in a short one, so a new one moves few others. There is room for all of them in the long
/// list.
#[derive(Drop)]
pub(crate) struct Places {
    settled: Vec<usize>,
    late: Vec<Late>,
}

impl Model for Places {
    ghost use Rattle.std.specs.Prelude.{◌+◌, ◌-◌, ◌≤◌, vec_capacity, vec_len};
    ghost use Rattle.elem_store.specs.inner.Indexed.{PlaceList, woven, AreGaps};

    ghost Value = { PlaceList };

    ghost view = { λ p. record {
      places = woven p.settled.items p.late.items;
      spare = vec_capacity p.settled - (vec_len p.settled + vec_len p.late);
    } };

    ghost invariant = { λ p. AreGaps (vec_len p.settled) p.late.items
        × (vec_len p.settled + vec_len p.late ≤ vec_capacity p.settled) };
}

impl Places {
    /// With no place.
    pub(crate) fn new(alloc: Global) -> Places
        ensures { result.places ≡ [] }
    {
        Places {
            settled: Vec::new(alloc),
            late: Vec::new(alloc),
        }
    }

    /// These places in their order.
    pub(crate) fn of(alloc: Global, places: Vec<usize>) -> Places
        ensures { result.places ≡ places.items }
    {
        Places {
            settled: places,
            late: Vec::new(alloc),
        }
    }

    /// How many there are.
    pub(crate) fn len(&self) -> usize
        ensures { result ≡ length self.now.places }
    {
        self.settled.len() + self.late.len()
    }

    /// The place at this index.
    pub(crate) fn get(&self, i: usize) -> Option<usize>
        ensures { result ≡ slice_get self.now.places i }
    {
        read(&self.settled, &self.late, i)
    }

    /// The settled places and the late ones.
    pub(crate) fn parts(&self) -> (&Vec<usize>, &Vec<Late>)
        ensures places { self.now.places ≡ woven result.0.now.items result.1.now.items }
        ensures gaps { AreGaps (vec_len result.0.now) result.1.now.items }
    {
        (&self.settled, &self.late)
    }

    /// Makes room for this many more. The places stay, also for want of memory.
    pub(crate) fn reserve(&mut self, n: usize) -> Result<(), AllocError>
        ensures room { OnOk result (n ≤ self.new.spare) }
        ensures kept { self.old.spare ≤ self.new.spare }
        ensures succeeds { n ≤ self.old.spare → IsOk result }
        ensures places { self.new.places ≡ self.old.places }
    {
        make_room(&mut self.settled, &mut self.late, n)
    }

    /// Puts the place at this index. It takes no memory where there is room; for want of memory
    /// nothing is changed.
    pub(crate) fn insert(&mut self, i: usize, place: usize) -> Result<(), AllocError>
        requires { i ≤ length self.old.places }
        ensures places { OnOk result (self.new.places ≡ insert self.old.places i place) }
        ensures err { OnErr result (self.new.places ≡ self.old.places) }
        ensures room { 0 < self.old.spare → IsOk result }
        ensures spare { self.old.spare ≤ self.new.spare + 1 }
    {
        make_room(&mut self.settled, &mut self.late, 1)?;
        put(&mut self.settled, &mut self.late, i, place);
        Ok(())
    }
}

/// Makes room for this many more, in the long list, and in the short one as far as it serves. It
/// takes no memory where there is room.
fn make_room(settled: &mut Vec<usize>, late: &mut Vec<Late>, n: usize) -> Result<(), AllocError>
    requires { vec_len settled.old + vec_len late.old ≤ vec_capacity settled.old }
    ensures settled { settled.new.items ≡ settled.old.items }
    ensures late { late.new.items ≡ late.old.items }
    ensures room { OnOk result (vec_len settled.new + vec_len late.new + n ≤ vec_capacity
        settled.new) }
    ensures kept { vec_capacity settled.old ≤ vec_capacity settled.new }
    ensures succeeds { vec_len settled.old + vec_len late.old + n ≤ vec_capacity settled.old
        → IsOk result }
{
    if n <= settled.capacity() - settled.len() - late.len() {
        return Ok(());
    }
    settled.reserve(late.len().saturating_add(n))?;
    let most = settled.capacity().min(MOST_LATE);
    late.reserve(most.saturating_sub(late.len()))
}

/// The place at this index of all.
fn read(settled: &Vec<usize>, late: &Vec<Late>, i: usize) -> Option<usize>
    requires { AreGaps (vec_len settled.now) late.now.items }
    ensures { result ≡ slice_get (woven settled.now.items late.now.items) i }
{
    let j = late_before(late, i);
    let gap = i - j;
    match late.get(j) {
        Some(late) if late.gap == gap => Some(late.place),
        _ => settled_at(settled, gap),
    }
}

/// The settled place at this index of them.
fn settled_at(settled: &Vec<usize>, i: usize) -> Option<usize>
    ensures { result ≡ slice_get settled.now.items i }
{
    settled.get(i).copied()
}

/// How many of the late places stand before this index of all.
fn late_before(late: &Vec<Late>, i: usize) -> usize
    requires { IsNonDecreasingBy (λ l. l.gap) late.now.items }
    ensures { AreBefore late.now.items i result }
{
    let mut low = 0;
    let mut high = late.len();
    while low < high {
        let middle = low + (high - low) / 2;
        if late[middle].gap < i.saturating_sub(middle) {
            low = middle + 1;
        } else {
            high = middle;
        }
    }
    low
}

/// Puts the place at this index of all. There is room, so it takes no memory.
fn put(settled: &mut Vec<usize>, late: &mut Vec<Late>, i: usize, place: usize)
    requires gaps { AreGaps (vec_len settled.old) late.old.items }
    requires in_range { i ≤ vec_len settled.old + vec_len late.old }
    requires room { vec_len settled.old + vec_len late.old < vec_capacity settled.old }
    ensures gaps { AreGaps (vec_len settled.new) late.new.items }
    ensures places { woven settled.new.items late.new.items
        ≡ insert (woven settled.old.items late.old.items) i place }
    ensures count { vec_len settled.new + vec_len late.new
        ≡ vec_len settled.old + vec_len late.old + 1 }
    ensures kept { vec_capacity settled.old ≤ vec_capacity settled.new }
{
    if late.len() < MOST_LATE && late.len() < late.capacity() {
        put_late(late, i, place);
    } else {
        settle(settled, late);
        put_settled(settled, i, place);
    }
}

/// Puts the place among the late ones, where there is room.
fn put_late(late: &mut Vec<Late>, i: usize, place: usize)
    requires rising { IsNonDecreasingBy (λ l. l.gap) late.old.items }
    requires room { vec_len late.old < vec_capacity late.old }
    ensures { HasPutLate late.old.items i place late.new.items }
{
    let j = late_before(late, i);
    let gap = i - j;
    if late.insert(j, Late { gap, place }).is_err() {
        unreachable!();
    }
}

/// Puts the place among the settled ones, where there is room.
fn put_settled(settled: &mut Vec<usize>, i: usize, place: usize)
    requires in_range { i ≤ vec_len settled.old }
    requires room { vec_len settled.old < vec_capacity settled.old }
    ensures places { settled.new.items ≡ insert settled.old.items i place }
    ensures count { vec_len settled.new ≡ vec_len settled.old + 1 }
    ensures kept { vec_capacity settled.old ≤ vec_capacity settled.new }
{
    if settled.insert(i, place).is_err() {
        unreachable!();
    }
}

/// Puts the late places among the settled ones, from the back, so that each place moves once.
/// There is room, so it takes no memory.
fn settle(settled: &mut Vec<usize>, late: &mut Vec<Late>)
    requires gaps { AreGaps (vec_len settled.old) late.old.items }
    requires room { vec_len settled.old + vec_len late.old ≤ vec_capacity settled.old }
    ensures settled { settled.new.items ≡ woven settled.old.items late.old.items }
    ensures late { late.new.items ≡ [] }
    ensures count { vec_len settled.new ≡ vec_len settled.old + vec_len late.old }
    ensures kept { vec_capacity settled.old ≤ vec_capacity settled.new }
{
    let mut end = settled.len();
    if settled.resize(end + late.len(), 0).is_err() {
        unreachable!();
    }
    while let Some(last) = late.pop() {
        move_up(settled, last.gap, end, late.len());
        settled[last.gap + late.len()] = last.place;
        end = last.gap;
    }
}

/// Moves the places from one index to another up by so many and one more.
fn move_up(settled: &mut Vec<usize>, from: usize, to: usize, by: usize)
    requires order { from ≤ to }
    requires within { to + by < vec_len settled.old }
    ensures count { vec_len settled.new ≡ vec_len settled.old }
    ensures moved { settled.new.items ≡ take (from + by + 1) settled.old.items
        ++ (take (to - from) (drop from settled.old.items)
        ++ drop (to + by + 1) settled.old.items) }
    ensures kept { vec_capacity settled.old ≤ vec_capacity settled.new }
{
    settled.copy_within(from..to, from + by + 1);
}
