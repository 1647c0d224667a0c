//! Reading sessions.

ghost use Rattle.std.specs.Prelude.{◌≡◌, ◌⊎◌, ◌<◌, ◌≤◌, true, false, is_none, Err, IfOk, OnOk, length, drop};
ghost use Rattle.json_text.specs.Characters.{is_blank};
ghost use Rattle.session_text.specs.Facts.{IsSession};
ghost use Rattle.session_text.specs.Sessions.{IsSessionOf, IsSessionFault};
ghost use Rattle.session_text.specs.Taken.{is_full};
ghost use Rattle.session_text.specs.inner.Taken.{LeadsUpTo};
ghost use Rattle.session_text.specs.declared.fault.SessionFault.{SessionFault};

use crate::fault::{SessionFault, TextFault};
use crate::session::Session;
use crate::taking::SessionFeed;
use board_base::Stop;
use json_reader::scan;
use json_text::skip_space;
use std::alloc::Global;

/// The session that the bytes are, or their first fault: of texts with faults the first counts, and
/// of the faults of a text the first in the order of its members.
pub fn read_session(alloc: Global, bytes: &[u8]) -> Result<Session, Stop<SessionFault>>
    ensures session { IfOk result (IsSessionOf bytes.now) }
    ensures fault { (fault : SessionFault) → result ≡ Err (Stop.Fault fault)
        → IsSessionFault bytes.now fault }
    ensures kept { IfOk result IsSession }
{
    let mut feed = SessionFeed::new(alloc);
    let mut at = next_text(alloc, &mut feed, bytes, 0)?;
    'texts: while skip_space(bytes, at) < bytes.len() {
        if feed.is_full() {
            return Err(Stop::Fault(SessionFault::TooMany));
        }
        at = next_text(alloc, &mut feed, bytes, at)?;
    }
    match feed.finish() {
        Some(session) => Ok(session),
        None => unreachable!(),
    }
}

/// Takes the text that stands at an offset, and gives the offset after it.
fn next_text(
    alloc: Global,
    feed: &mut SessionFeed,
    bytes: &[u8],
    at: usize,
) -> Result<usize, Stop<SessionFault>>
    requires within { at ≤ length bytes.now }
    requires leads { LeadsUpTo bytes.now feed.old at }
    requires more { (is_none feed.old ≡ true) ⊎ (is_blank (drop at bytes.now) ≡ false) }
    requires room { is_full feed.old ≡ false }
    ensures within { IfOk result (λ end. (at < end) × (end ≤ length bytes.now)) }
    ensures leads { IfOk result (LeadsUpTo bytes.now feed.new) }
    ensures begun { OnOk result (is_none feed.new ≡ false) }
    ensures fault { (fault : SessionFault) → result ≡ Err (Stop.Fault fault)
        → IsSessionFault bytes.now fault }
{
    let number = feed.texts() + 1;
    let (text, end) = match scan(alloc, bytes, at) {
        Ok(found) => found,
        Err(Stop::Fault(fault)) => {
            return Err(Stop::Fault(SessionFault::In(number, TextFault::Json(fault))));
        }
        Err(Stop::Memory) => return Err(Stop::Memory),
    };
    match feed.take(alloc, &text) {
        Ok(()) => Ok(end),
        Err(Stop::Fault(fault)) => Err(Stop::Fault(SessionFault::In(number, fault))),
        Err(Stop::Memory) => Err(Stop::Memory),
    }
}
