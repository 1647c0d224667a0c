//! The events that a case tells of links.

ghost use Rattle.std.specs.Prelude.{◌≡◌, IsTrue};
ghost use Rattle.board_ends.specs.Events.{OpensFrom};

use crate::forms::{bytes_named, is_given, values_of};
use board_base::List;
use board_ends::LinkEvent;
use json_text::{Member, Raw};
use scene_json::{members, shaped, whole_named};
use std::alloc::{AllocError, Global};

/// The events of the case, if each is one and the links that are opened are numbered from 0.
pub fn events_of(
    alloc: Global,
    case: &List<Member>,
) -> Result<Option<List<LinkEvent>>, AllocError> {
    let mut events = Vec::new(alloc);
    for value in values_of(alloc, case, "events")?.as_slice() {
        match event_of(alloc, value)? {
            Some(event) => events.push(event)?,
            None => return Ok(None),
        }
    }
    Ok(Some(List::from_vec(events)))
}

/// The event that a value is, if it is one.
fn event_of(alloc: Global, value: &Raw) -> Result<Option<LinkEvent>, AllocError> {
    if value.as_bytes() == b"\"idle\"".as_slice() {
        return Ok(Some(LinkEvent::Idle));
    }
    let Some(told) = shaped(members(alloc, value))? else {
        return Ok(None);
    };
    if let Some(link) = whole_named(&told, "opened") {
        return Ok(Some(LinkEvent::Opened(link)));
    }
    if let Some(link) = whole_named(&told, "closed") {
        return Ok(Some(LinkEvent::Closed(link)));
    }
    let Some(link) = whole_named(&told, "text") else {
        return Ok(None);
    };
    match bytes_named(alloc, &told, "bytes")? {
        Some(text) => Ok(Some(LinkEvent::Text(link, text))),
        None => Ok(None),
    }
}

/// Whether the links that these events open are numbered on from this count.
pub fn open_from(count: u64, events: &[LinkEvent]) -> bool
    ensures { IsTrue result → OpensFrom count events.now }
{
    let Some((event, others)) = events.split_first() else {
        return true;
    };
    match event {
        LinkEvent::Opened(link) => {
            *link == count && count < u64::MAX && open_from(count + 1, others)
        }
        _ => open_from(count, others),
    }
}
