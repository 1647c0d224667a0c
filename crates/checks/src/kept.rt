//! Which elements a board keeps, and the lines on the others.

ghost use Rattle.std.specs.Prelude.{◌≡◌, ◌++◌, ◌∷◌, [], ℕ, List as Items, IfOk, OnOk, length};
ghost use Rattle.std.specs.BTreeMap.{get};
ghost use Rattle.std.specs.Cmp.Lexicographic.{slice_cmp};
ghost use Rattle.std.specs.Ordering.{nat_cmp};
ghost use Rattle.elem.specs.ElementValue.{ElementValue};
ghost use Rattle.checks.specs.inner.Kept.{AreKept};
ghost use Rattle.checks.specs.Lines.{beaten_line, beaten_lines, is_at, is_kept, kept_of, stand_in_order};

use crate::faults::push_element;
use crate::judged::Spot;
use elem::{Element, beats};
use elem_store::Store;
use json_text::Text;
use std::alloc::{AllocError, Global};
use std::collections::BTreeMap;

/// Which of the elements is kept of each id, by their numbers, counted from 0.
pub(crate) type Kept = BTreeMap<Text, usize>;

/// Which of the elements the store keeps.
pub(crate) fn kept_of(alloc: Global, store: &Store, updates: &[Element]) -> Result<Kept, AllocError>
    ensures { IfOk result (λ kept. (id : Items ℕ) → get (slice_cmp nat_cmp) kept id
        ≡ kept_of store.now.elements updates.now id) }
{
    let mut kept = BTreeMap::new(alloc);
    for (n, e) in updates.iter().enumerate() {
        add(&mut kept, store, e, n)?;
    }
    Ok(kept)
}

/// Adds the element with this number, if the store keeps it and none before it is the kept one of
/// its id.
fn add(kept: &mut Kept, store: &Store, e: &Element, n: usize) -> Result<(), AllocError>
    ensures { OnOk result ((updates : Items ElementValue) → n ≡ length updates
        → AreKept store.now.elements kept.old updates
        → AreKept store.now.elements kept.new (updates ++ e.now ∷ [])) }
{
    if !is_unbeaten(store, e) {
        return Ok(());
    }
    if kept.contains_key(&e.id) {
        return Ok(());
    }
    kept.insert(e.id.try_clone()?, n)?;
    Ok(())
}

/// Whether the stored element of its id doesn't beat an element.
fn is_unbeaten(store: &Store, e: &Element) -> bool
    ensures { result ≡ is_kept store.now.elements e.now.id e.now }
{
    match store.get(&e.id) {
        Some(stored) => !beats(stored, e),
        None => false,
    }
}

/// Appends a line on each element that isn't kept.
pub(crate) fn push_beaten(
    out: &mut Vec<u8>,
    kept: &Kept,
    updates: &[Element],
    spots: &[Spot],
) -> Result<(), AllocError>
    ensures { OnOk result (out.new.items ≡ out.old.items
        ++ beaten_lines (get (slice_cmp nat_cmp) kept.now) 0 updates.now spots.now) }
{
    for (n, e) in updates.iter().enumerate() {
        let Some(spot) = spots.get(n) else {
            return Ok(());
        };
        push_if_beaten(out, kept, n, e, spot)?;
    }
    Ok(())
}

/// Appends the line on the element with this number at a spot, if it isn't kept.
fn push_if_beaten(
    out: &mut Vec<u8>,
    kept: &Kept,
    n: usize,
    e: &Element,
    spot: &Spot,
) -> Result<(), AllocError>
    ensures { OnOk result (out.new.items ≡ out.old.items
        ++ beaten_line (get (slice_cmp nat_cmp) kept.now) n e.now spot.now) }
{
    if is_at(kept, &e.id, n) {
        return Ok(());
    }
    push_element(out, spot.number, spot.place, Some(&e.id), "beaten")
}

/// Whether the element with this number is kept of the id.
fn is_at(kept: &Kept, id: &Text, n: usize) -> bool
    ensures { result ≡ is_at n (get (slice_cmp nat_cmp) kept.now id.now) }
{
    match kept.get(id) {
        Some(other) => *other == n,
        None => false,
    }
}

/// Whether the elements stand in the order in which they are shown.
pub(crate) fn stand_in_order(kept: &Kept, shown: &[Element]) -> bool
    ensures { result ≡ stand_in_order (get (slice_cmp nat_cmp) kept.now) 0 shown.now }
{
    let mut least = 0;
    for e in shown {
        match kept.get(&e.id).copied() {
            Some(n) if n < least => return false,
            Some(n) => least = n,
            None => {}
        }
    }
    true
}
