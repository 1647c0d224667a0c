//! Sessions are replayed.

ghost use Rattle.std.specs.Prelude.{IfOk};
ghost use Rattle.session_text.specs.Facts.{IsSession};
ghost use Rattle.session.specs.Reports.{IsReportOf};
ghost use Rattle.session.specs.Worlds.{last_world};

use crate::report::Report;
use crate::reporting::report_of;
use crate::world::World;
use session_text::Session;
use std::alloc::{AllocError, Global};

/// Lets the events of a session happen in their order, and reports what came of it. Fails only for
/// want of memory; a count that doesn't fit counts as such.
pub fn replay(alloc: Global, session: &Session) -> Result<Report, AllocError>
    requires { IsSession session.now }
    ensures { IfOk result (IsReportOf session.now (last_world session.now)) }
{
    let mut world = World::opened(alloc, session)?;
    for event in session.events.as_slice() {
        world.step(event)?;
    }
    report_of(alloc, session, world)
}
