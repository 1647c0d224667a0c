//! Laws on sessions, for all of them. They do nothing when they run.

ghost use Rattle.std.specs.Prelude.{◌≡◌, ◌≤◌, ◌<◌, ◌+◌, ℕ, List, ◌++◌, Some, Ok, Contains, drop, take};
ghost use Rattle.std.specs.List.{AllByRecursion};
ghost use Rattle.elem.specs.ElementValue.{ElementValue};
ghost use Rattle.elem.specs.Said.{AreElements};
ghost use Rattle.elem_store.specs.Updates.{HaveSameUpdates};
ghost use Rattle.replica.specs.Back.{HasNothingPending, IsAs, IsCaptured, IsFound};
ghost use Rattle.replica.specs.Sound.{IsSoundState};
ghost use Rattle.replica.specs.State.{after_redo, after_undo, captured, redo_on, undo_on};
ghost use Rattle.scene_file.specs.Scenes.{scene_text};
ghost use Rattle.undo_model.specs.Leaving.{StepLeavesOthers};
ghost use Rattle.undo_model.specs.Steps.{Turn};
ghost use Rattle.view.specs.Settled.{AreSettled};
ghost use Rattle.index_repair.specs.Keyed.{HaveRisingKeys};
ghost use Rattle.session.specs.Reports.{shown_at};
ghost use Rattle.session.specs.Worlds.{Seat, after_events, head_of, state_at, world_after};
ghost use Rattle.session_laws.specs.Turning.{AreChangesAt, AreRedosAt, AreUndosAt, IsLaterAt};
ghost use Rattle.session_text.specs.Facts.{IsSession};
ghost use Rattle.session_text.specs.declared.event.Event.{Event};
ghost use Rattle.session_text.specs.declared.session.Session.{Session};

/// After every event each replica's state is sound, and all updates that it took and all messages
/// are of elements.
pub fn states_are_sound()
    ensures sound { (session : Session) (count : ℕ) (s : Seat) → IsSession session
        → Contains (world_after session count).seats s → IsSoundState s.state }
    ensures taken { (session : Session) (count : ℕ) (s : Seat) → IsSession session
        → Contains (world_after session count).seats s → AreElements s.taken }
    ensures messages { (session : Session) (count : ℕ) (message : List ElementValue)
        → IsSession session
        → Contains (world_after session count).messages message → AreElements message }
{}

/// Replicas that took the same updates, in whatever order, grouping and repetition, store and show
/// the same. What each replica shows has strictly rising keys and agrees on its links, frames and
/// groups.
pub fn replicas_converge()
    ensures stored { (session : Session) (count : ℕ) (s other : Seat) → IsSession session
        → Contains (world_after session count).seats s
        → Contains (world_after session count).seats other
        → HaveSameUpdates s.taken other.taken → s.state.stored ≡ other.state.stored }
    ensures shown { (session : Session) (count : ℕ) (s other : Seat) → IsSession session
        → Contains (world_after session count).seats s
        → Contains (world_after session count).seats other
        → HaveSameUpdates s.taken other.taken
        → scene_text (head_of session) (shown_at s) ≡ scene_text (head_of session)
        (shown_at other) }
    ensures rise { (session : Session) (count : ℕ) (s : Seat) → IsSession session
        → Contains (world_after session count).seats s → HaveRisingKeys (shown_at s) }
    ensures settled { (session : Session) (count : ℕ) (s : Seat) → IsSession session
        → Contains (world_after session count).seats s → AreSettled (shown_at s) }
{}

/// Nothing is pending at a replica at which no change was captured later, whatever else happened.
pub fn nothing_is_pending()
    ensures none { (session : Session) (count at : ℕ) → IsSession session → at < session.replicas
        → AllByRecursion (λ (event : Event). IsLaterAt at event → ⊥) (take count session.events)
        → HasNothingPending (state_at (world_after session count) at) }
    ensures captured { (session : Session) (count at : ℕ) → IsSession session
        → at < session.replicas
        → AllByRecursion (λ (event : Event). IsLaterAt at event → ⊥) (take count session.events)
        → IsCaptured (state_at (world_after session count) at) }
{}

/// A replica on which nothing is pending makes changes, and then as many undos are done: it is as
/// it was before the changes, whatever else happens meanwhile that keeps away from it. As nothing
/// is pending after a change, this tells also what it is after each of several undos: as it was
/// before as many of the last changes. While changes are left, undo finds an entry, and is refused
/// for a full version alone.
pub fn undo_brings_back()
    ensures back { (session : Session) (count at n : ℕ) (changes undos rest : List Event)
        → IsSession session
        → drop count session.events ≡ changes ++ undos ++ rest → at < session.replicas
        → HasNothingPending (state_at (world_after session count) at)
        → AreChangesAt at changes (world_after session count) n
        → AreUndosAt at undos (after_events changes (world_after session count)) n
        → IsAs (state_at (world_after session count) at)
        (state_at (after_events undos (after_events changes (world_after session count))) at) }
    ensures captured { (session : Session) (count at n : ℕ) (changes rest : List Event)
        → IsSession session
        → drop count session.events ≡ changes ++ rest → at < session.replicas
        → AreChangesAt at changes (world_after session count) n → 1 ≤ n
        → IsCaptured (state_at (after_events changes (world_after session count)) at) }
    ensures none { (session : Session) (count at n : ℕ) (changes rest : List Event)
        → IsSession session
        → drop count session.events ≡ changes ++ rest → at < session.replicas
        → AreChangesAt at changes (world_after session count) n → 1 ≤ n
        → HasNothingPending (state_at (after_events changes (world_after session count)) at) }
    ensures found { (session : Session) (count at n j : ℕ) (changes undos rest : List Event)
        → IsSession session
        → drop count session.events ≡ changes ++ undos ++ rest → at < session.replicas
        → HasNothingPending (state_at (world_after session count) at)
        → AreChangesAt at changes (world_after session count) n
        → AreUndosAt at undos (after_events changes (world_after session count)) j → j < n
        → (time nonce : ℕ)
        → let s = state_at (after_events undos
        (after_events changes (world_after session count))) at in
        IsFound s.stored (undo_on time nonce s) }
{}

/// A replica on which nothing is pending makes some changes and then others, all of them are
/// undone, and as many redos are done as there were first changes: it is as it was after these,
/// whatever else happens meanwhile that keeps away from it. While undos are left, redo finds an
/// entry, and is refused for a full version alone.
pub fn redo_repeats()
    ensures again { (session : Session) (count at r l : ℕ)
        (again others undos redos rest : List Event) → IsSession session
        → drop count session.events ≡ again ++ others ++ undos ++ redos ++ rest
        → at < session.replicas
        → HasNothingPending (state_at (world_after session count) at)
        → AreChangesAt at again (world_after session count) r
        → AreChangesAt at others (after_events again (world_after session count)) l
        → AreUndosAt at undos (after_events others
        (after_events again (world_after session count))) (r + l)
        → AreRedosAt at redos (after_events undos
        (after_events others (after_events again (world_after session count)))) r
        → IsAs (state_at (after_events again (world_after session count)) at)
        (state_at (after_events redos (after_events undos
        (after_events others (after_events again (world_after session count))))) at) }
    ensures found { (session : Session) (count at n j k : ℕ)
        (changes undos redos rest : List Event) → IsSession session
        → drop count session.events ≡ changes ++ undos ++ redos ++ rest → at < session.replicas
        → HasNothingPending (state_at (world_after session count) at)
        → AreChangesAt at changes (world_after session count) n
        → AreUndosAt at undos (after_events changes (world_after session count)) j
        → AreRedosAt at redos (after_events undos
        (after_events changes (world_after session count))) k → j ≤ n → k < j
        → (time nonce : ℕ)
        → let w = after_events undos (after_events changes (world_after session count)) in
        let s = state_at (after_events redos w) at in IsFound s.stored (redo_on time nonce s) }
{}

/// An undo and a redo leave what others changed: each element of which the entry has no part; each
/// member outside the stamp that its part doesn't name; and of the groups and the listing all items
/// but those that the part gained or lost.
pub fn others_changes_stay()
    ensures undo { (session : Session) (count at time nonce : ℕ) (turn : Turn) → IsSession session
        → at < session.replicas → let s = state_at (world_after session count) at in
        undo_on time nonce s ≡ Some (Ok turn)
        → StepLeavesOthers (captured s).undo (captured s).redo s.stored
        (after_undo time nonce s).stored }
    ensures redo { (session : Session) (count at time nonce : ℕ) (turn : Turn) → IsSession session
        → at < session.replicas → let s = state_at (world_after session count) at in
        redo_on time nonce s ≡ Some (Ok turn)
        → StepLeavesOthers (captured s).redo (captured s).undo s.stored
        (after_redo time nonce s).stored }
{}
