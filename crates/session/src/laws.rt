//! Laws on sessions, for all of them. They do nothing when they run.

ghost use Rattle.std.specs.Prelude.{◌≡◌, ℕ, List, [], ◌++◌, Contains, length, take};
ghost use Rattle.elem.specs.ElementValue.{ElementValue};
ghost use Rattle.elem.specs.Said.{AreElements};
ghost use Rattle.elem_store.specs.Updates.{AreStored, HaveSameUpdates};
ghost use Rattle.scene_file.specs.Scenes.{scene_text};
ghost use Rattle.session.specs.Clashes.{HaveClashes};
ghost use Rattle.session.specs.Reports.{shown_at};
ghost use Rattle.session.specs.Worlds.{Seat, all_elements, head_of, last_world, world_after};
ghost use Rattle.session_text.specs.declared.session.Session.{Session};

/// The world after all events is the last one.
pub fn all_events_lead_to_the_last_world()
    ensures { (session : Session)
        → world_after session (length session.events) ≡ last_world session }
{}

/// After every event each replica stores the best of the updates that it took, for each id, and
/// nothing else.
pub fn replicas_store_what_they_took()
    ensures { (session : Session) (count : ℕ) (s : Seat)
        → Contains (world_after session count).seats s → AreStored s.taken s.state.stored }
{}

/// A replica takes nothing but elements of the scene and of messages.
pub fn taken_updates_were_made()
    ensures { (session : Session) (count : ℕ) (s : Seat) (e : ElementValue)
        → Contains (world_after session count).seats s → Contains s.taken e
        → Contains (all_elements session (world_after session count)) e }
{}

/// Replicas that took the same updates, in whatever order, grouping and repetition, store and show
/// the same.
pub fn replicas_converge()
    ensures stored { (session : Session) (count : ℕ) (s other : Seat)
        → Contains (world_after session count).seats s
        → Contains (world_after session count).seats other
        → AreElements s.taken → HaveSameUpdates s.taken other.taken
        → s.state.stored ≡ other.state.stored }
    ensures shown { (session : Session) (count : ℕ) (s other : Seat)
        → Contains (world_after session count).seats s
        → Contains (world_after session count).seats other
        → AreElements s.taken → HaveSameUpdates s.taken other.taken
        → scene_text (head_of session) (shown_at s) ≡ scene_text (head_of session)
        (shown_at other) }
{}

/// Elements have one number of clashes.
pub fn clashes_are_counted_once()
    ensures { (before elements : List ElementValue) (count other : ℕ)
        → HaveClashes before elements count → HaveClashes before elements other → count ≡ other }
{}
