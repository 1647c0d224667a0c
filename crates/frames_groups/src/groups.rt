//! Groups.

ghost use Rattle.std.specs.Prelude.{◌≡◌, map, IfOk, OnOk};
ghost use Rattle.json_text.specs.FirstOccurrences as first;
ghost use Rattle.frames_groups.specs.Groups.{grouped, groups_settled, without_groups, HaveDistinctGroups};

use board_base::List;
use elem::Element;
use json_text::{Text, first_occurrences};
use std::alloc::{AllocError, Global};

/// The elements, each in its groups once, in the order in which these first stand. Fails only for
/// want of memory.
pub fn settle_groups(alloc: Global, list: List<Element>) -> Result<List<Element>, AllocError>
    ensures exact { IfOk result (λ settled. settled ≡ groups_settled list) }
    ensures distinct { IfOk result HaveDistinctGroups }
    ensures others { IfOk result (λ settled. map without_groups settled ≡ map without_groups list) }
    ensures again { IfOk result (λ settled. groups_settled settled ≡ settled) }
{
    let mut elements = list.into_vec();
    settle_each(alloc, &mut elements)?;
    Ok(List::from_vec(elements))
}

/// Leaves each element each of its groups once.
fn settle_each(alloc: Global, elements: &mut Vec<Element>) -> Result<(), AllocError>
    ensures { OnOk result (elements.new.items ≡ map grouped elements.old.items) }
{
    for e in elements.iter_mut() {
        settle(alloc, e)?;
    }
    Ok(())
}

/// Leaves an element each of its groups once. One group or none can stay as it is.
fn settle(alloc: Global, e: &mut Element) -> Result<(), AllocError>
    ensures { OnOk result (e.new ≡ grouped e.old) }
{
    if e.groups.as_slice().len() <= 1 {
        return Ok(());
    }
    e.groups = groups_once(alloc, e)?;
    Ok(())
}

/// The groups of an element, each once.
fn groups_once(alloc: Global, e: &Element) -> Result<List<Text>, AllocError>
    ensures { IfOk result (λ groups. groups ≡ first.first_texts e.now.groups) }
{
    Ok(List::from_vec(first_occurrences(alloc, e.groups.as_slice())?))
}
