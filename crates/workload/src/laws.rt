//! Laws on drills, for all of them. They do nothing when they run.

ghost use Rattle.std.specs.Prelude.{ℕ, ◌≤◌};
ghost use Rattle.elem.specs.Facts.{greatest_whole};
ghost use Rattle.session_text.specs.Facts.{IsSession};
ghost use Rattle.session_text.specs.Sessions.{IsSessionOf};
ghost use Rattle.workload.specs.Deeds.{most_drilled};
ghost use Rattle.workload.specs.Drills.{drill_session};
ghost use Rattle.workload.specs.Facts.{IsDrill, PicksAll};
ghost use Rattle.workload.specs.Texts.{drill_text};

/// The text of a drill is read as its session, so it has no fault; four replicas begin with
/// nothing, make changes, undo and redo them and hear of each other, and in the end each is
/// delivered all messages.
pub fn drill_is_read()
    ensures read { (seed events : ℕ) → seed ≤ greatest_whole → events ≤ most_drilled
        → IsSessionOf (drill_text seed events) (drill_session seed events) }
    ensures limits { (seed events : ℕ) → seed ≤ greatest_whole → events ≤ most_drilled
        → IsSession (drill_session seed events) }
    ensures drill { (seed events : ℕ) → IsDrill seed events (drill_session seed events) }
    ensures all { (made : ℕ) → PicksAll made }
{}
