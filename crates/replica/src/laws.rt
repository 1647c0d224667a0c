//! Laws on successive changes and the undo and redo of them, for all replicas. They do nothing when
//! they run.

ghost use Rattle.std.specs.Prelude.{◌≡◌, ◌≢◌, ◌≤◌, ◌<◌, ◌+◌, ◌-◌, ℕ, List, [], true, None, length, take};
ghost use Rattle.frac_keys.specs.Rising.{are_rising};
ghost use Rattle.elem.specs.ElementValue.{ElementValue};
ghost use Rattle.elem_store.specs.Updates.{ids_of, takings};
ghost use Rattle.reconcile.specs.Ids.{free_elements};
ghost use Rattle.replica.specs.Back.{IsAs, HasNothingPending, changed_all, AreChanges, Call, undone_all, redone_all, AreUndos, AreRedos};
ghost use Rattle.replica.specs.Sound.{IsSoundState};
ghost use Rattle.replica.specs.State.{State, after_delivery, undo_on, redo_on};

/// After successive changes and at most as many undos it is as it was before the changes that were
/// undone: each element that was stored then is stored the same but for the stamp, every other one
/// is deleted, and what is shown is the same but for stamps. So it is as it was before them all
/// after as many undos. While changes are left, undo finds an entry.
pub fn undo_brings_back()
    ensures back { (s : State) (givens : List (List ElementValue)) → IsSoundState s
        → HasNothingPending s → AreChanges givens s
        → (undos : List Call) → length undos ≤ length givens → AreUndos undos (changed_all givens s)
        → IsAs (changed_all (take (length givens - length undos) givens) s)
        (undone_all undos (changed_all givens s)) }
    ensures all { (s : State) (givens : List (List ElementValue)) → IsSoundState s
        → HasNothingPending s → AreChanges givens s
        → (undos : List Call) → length undos ≤ length givens → AreUndos undos (changed_all givens s)
        → length undos ≡ length givens → IsAs s (undone_all undos (changed_all givens s)) }
    ensures found { (s : State) (givens : List (List ElementValue)) → IsSoundState s
        → HasNothingPending s → AreChanges givens s
        → (undos : List Call) → length undos ≤ length givens → AreUndos undos (changed_all givens s)
        → length undos < length givens
        → (time nonce : ℕ) → undo_on time nonce (undone_all undos (changed_all givens s)) ≢ None }
{}

/// After at most as many redos behind the undos it is as it was after as many more of the changes.
/// So it is as it was after them all after as many redos as undos. While undos are left, redo finds
/// an entry.
pub fn redo_repeats()
    ensures again { (s : State) (givens : List (List ElementValue)) → IsSoundState s
        → HasNothingPending s → AreChanges givens s
        → (undos : List Call) → length undos ≤ length givens → AreUndos undos (changed_all givens s)
        → (redos : List Call) → length redos ≤ length undos
        → AreRedos redos (undone_all undos (changed_all givens s))
        → IsAs (changed_all (take (length redos + (length givens - length undos)) givens) s)
        (redone_all redos (undone_all undos (changed_all givens s))) }
    ensures all { (s : State) (givens : List (List ElementValue)) → IsSoundState s
        → HasNothingPending s → AreChanges givens s
        → (undos : List Call) → length undos ≤ length givens → AreUndos undos (changed_all givens s)
        → (redos : List Call) → length redos ≤ length undos
        → AreRedos redos (undone_all undos (changed_all givens s))
        → length redos ≡ length undos
        → IsAs (changed_all givens s) (redone_all redos (undone_all undos (changed_all givens s))) }
    ensures found { (s : State) (givens : List (List ElementValue)) → IsSoundState s
        → HasNothingPending s → AreChanges givens s
        → (undos : List Call) → length undos ≤ length givens → AreUndos undos (changed_all givens s)
        → (redos : List Call) → length redos ≤ length undos
        → AreRedos redos (undone_all undos (changed_all givens s))
        → length redos < length undos
        → (time nonce : ℕ)
        → redo_on time nonce (redone_all redos (undone_all undos (changed_all givens s))) ≢ None }
{}

/// A delivery of which nothing becomes stored leaves the state as it is.
pub fn empty_deliveries_stay()
    ensures { (s : State) (list : List ElementValue) → are_rising (ids_of s.stored) ≡ true
        → takings s.stored (free_elements s.held list) ≡ [] → after_delivery list s ≡ s }
{}
