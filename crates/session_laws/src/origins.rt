//! Laws on sessions whose updates all come from their replicas, and on those that end with every
//! replica told of all. They do nothing when they run.

ghost use Rattle.std.specs.Prelude.{◌≡◌, ℕ, [], Contains};
ghost use Rattle.elem_store.specs.Updates.{HaveSameUpdates};
ghost use Rattle.session_laws.specs.Own.{HasOwnUpdates};
ghost use Rattle.session_laws.specs.Told.{HasNoHolds, IsToldAll};
ghost use Rattle.session.specs.Clashes.{HaveClashes};
ghost use Rattle.session.specs.Reports.{IsReportOf};
ghost use Rattle.session.specs.Worlds.{Seat, opening_elements, all_elements, last_world, world_after};
ghost use Rattle.session.specs.declared.report.Report.{Report};
ghost use Rattle.session_text.specs.Facts.{IsSession};
ghost use Rattle.session_text.specs.declared.session.Session.{Session};

/// Where every update comes from a replica and no two of the opening elements clash, no two
/// elements ever do: after every event none clashes with an earlier one, and the report tells no
/// clash.
pub fn sessions_without_updates_have_no_clash()
    ensures none { (session : Session) → IsSession session → HasOwnUpdates session
        → HaveClashes [] (opening_elements session) 0
        → (count : ℕ) → HaveClashes [] (all_elements session (world_after session count)) 0 }
    ensures told { (session : Session) → IsSession session → HasOwnUpdates session
        → HaveClashes [] (opening_elements session) 0
        → (report : Report) → IsReportOf session (last_world session) report → report.clashes ≡ 0 }
{}

/// Where no updates are held off and each replica is told of every message in the end, each took
/// all the updates that there were, so that any two took the same.
pub fn told_all_store_the_same()
    ensures all { (session : Session) → HasNoHolds session → IsToldAll session
        → (s : Seat) → Contains (last_world session).seats s
        → HaveSameUpdates s.taken (all_elements session (last_world session)) }
    ensures same { (session : Session) → HasNoHolds session → IsToldAll session
        → (s other : Seat) → Contains (last_world session).seats s
        → Contains (last_world session).seats other
        → HaveSameUpdates s.taken other.taken }
{}
