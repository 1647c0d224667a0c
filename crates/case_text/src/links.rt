//! The links that a case tells, and what was sent over them.

use crate::events::{events_of, open_from};
use crate::forms::{given, numbers_of};
use crate::told::{push_member_of, push_told};
use board_base::{Bytes, List, Stop};
use board_ends::{LinkEvent, ScriptLinks};
use json_text::{Member, Text};
use scene_json::{push_comma, push_whole};
use std::alloc::{AllocError, Global};

/// The links of the case: their events, and the calls that fail or find their link gone.
pub fn links_of(alloc: Global, case: &List<Member>) -> Result<ScriptLinks, Stop<Text>> {
    let events = given(events_of(alloc, case)?, "member events")?;
    let fails = given(numbers_of(alloc, case, "links")?, "member links")?;
    let gone = given(numbers_of(alloc, case, "gone")?, "member gone")?;
    given(links_over(alloc, events, fails, gone), "member events")
}

/// Links of these events, if the links that they open are numbered from 0.
fn links_over(
    alloc: Global,
    events: List<LinkEvent>,
    fails: List<u64>,
    gone: List<u64>,
) -> Option<ScriptLinks> {
    if open_from(0, events.as_slice()) {
        Some(ScriptLinks::new(alloc, events, fails, gone))
    } else {
        None
    }
}

/// Appends the pairs of link and text that were sent.
pub fn push_sent(
    alloc: Global,
    line: &mut Vec<u8>,
    sent: &[(u64, Bytes)],
) -> Result<(), AllocError> {
    push_member_of(line, "sent")?;
    line.push(b'[')?;
    for (i, (link, text)) in sent.iter().enumerate() {
        push_comma(line, i)?;
        push_pair(alloc, line, *link, text)?;
    }
    line.push(b']')?;
    Ok(())
}

/// Appends a link and the text that was sent over it.
fn push_pair(alloc: Global, line: &mut Vec<u8>, link: u64, text: &Bytes) -> Result<(), AllocError> {
    line.push(b'[')?;
    push_whole(line, link)?;
    line.push(b',')?;
    push_told(alloc, line, text.as_slice(), b"")?;
    line.push(b']')?;
    Ok(())
}
