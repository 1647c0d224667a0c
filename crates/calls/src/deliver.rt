//! A replica that is delivered many elements at once, and then one after the other again.

use crate::follow::{are_shown, element_of_text};
use board_base::{List, Stop};
use case_text::{count_of, given, push_number, push_truth};
use elem::Element;
use frac_keys::{Key, n_between};
use json_text::{Member, Text};
use replica::Replica;
use std::alloc::{AllocError, Global};
use std::slice;

/// Appends how many elements were taken of as many deliveries of one as the case says, to a replica
/// that was delivered earlier versions of all; and whether it shows all of them then, as they were
/// delivered last.
pub fn push_delivered(
    alloc: Global,
    line: &mut Vec<u8>,
    case: &List<Member>,
) -> Result<(), Stop<Text>> {
    let count = given(count_of(case, "deliver"), "member deliver")?;
    let keys = n_between(alloc, None, None, count)?;
    let first = given(rectangles(alloc, keys.as_slice(), 1)?, "member deliver")?;
    let last = given(rectangles(alloc, keys.as_slice(), 2)?, "member deliver")?;
    push_taken(alloc, line, first.as_slice(), last.as_slice())?;
    Ok(())
}

/// Delivers the first elements at once and the last ones one by one, and appends what came of it.
fn push_taken(
    alloc: Global,
    line: &mut Vec<u8>,
    first: &[Element],
    last: &[Element],
) -> Result<(), AllocError> {
    let mut replica = Replica::new(alloc);
    replica.deliver(first)?;
    let mut taken = 0u64;
    for e in last {
        taken = taken.saturating_add(replica.deliver(slice::from_ref(e))?);
    }
    push_number(line, "taken", taken)?;
    push_truth(line, "equal", are_shown(replica.view(), last))
}

/// A rectangle for each key, in this version; their ids rise.
fn rectangles(
    alloc: Global,
    keys: &[Key],
    version: u64,
) -> Result<Option<List<Element>>, AllocError> {
    let mut elements = Vec::new(alloc);
    for (place, key) in keys.iter().enumerate() {
        match rectangle(alloc, key, place as u64, version)? {
            Some(e) => elements.push(e)?,
            None => return Ok(None),
        }
    }
    Ok(Some(List::from_vec(elements)))
}

/// The rectangle with this key, whose id and, in its second version, whose place tell which it is.
fn rectangle(
    alloc: Global,
    key: &Key,
    place: u64,
    version: u64,
) -> Result<Option<Element>, AllocError> {
    let number = place.saturating_add(10_000);
    let x = if version == 1 { 0 } else { place };
    let text = format!(in alloc;
        "{{\"id\":\"e{number}\",\"type\":\"rectangle\",\"version\":{version},\"x\":{x}}}"
    )?;
    let index = key.try_clone()?;
    let Some(mut e) = element_of_text(alloc, text.as_str())? else {
        return Ok(None);
    };
    e.index = Some(index);
    Ok(Some(e))
}
