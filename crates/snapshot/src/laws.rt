//! Laws on snapshots, for all elements. They do nothing when they run.

ghost use Rattle.std.specs.Prelude.{◌≡◌, ℕ, List, true, Contains, IsSome};
ghost use Rattle.frac_keys.specs.Rising.{are_rising};
ghost use Rattle.elem.specs.ElementValue.{ElementValue};
ghost use Rattle.elem_store.specs.Updates.{element_of, ids_of, is_taken, takings};
ghost use Rattle.delta.specs.Delta.{Delta};
ghost use Rattle.delta.specs.Pairs.{EntryStandsFor};
ghost use Rattle.undo_model.specs.Carrying.{carried, carried_all, taken, taken_all};
ghost use Rattle.undo_model.specs.Differing.{pending};
ghost use Rattle.snapshot.specs.Carried.{AreOfStoredKinds};
ghost use Rattle.snapshot.specs.Pending.{pairs_since};
ghost use Rattle.snapshot.specs.Touched.{AreUntouched, HasTouched, StillTouches};

/// Each element of a snapshot has a stored one of its kind where it is what is stored, as after a
/// capture; its ids are then stored.
pub fn stored_kinds_are_known()
    ensures captured { (stored : List ElementValue) → AreOfStoredKinds stored stored }
    ensures known { (snapshot stored : List ElementValue) (id : List ℕ)
        → AreOfStoredKinds snapshot stored → IsSome (element_of snapshot id)
        → IsSome (element_of stored id) }
{}

/// It still has once a stored update was carried into it, and all of a list that became stored.
pub fn carrying_keeps_kinds()
    ensures one { (snapshot stored : List ElementValue) (e : ElementValue)
        → AreOfStoredKinds snapshot stored → is_taken stored e ≡ true
        → AreOfStoredKinds (carried
        (record { before = element_of stored e.id; taken = e }) snapshot) (taken e stored) }
    ensures list { (list snapshot stored : List ElementValue)
        → are_rising (ids_of stored) ≡ true → AreOfStoredKinds snapshot stored
        → AreOfStoredKinds (carried_all (takings stored list) snapshot) (taken_all list stored) }
{}

/// A captured entry has stored ids.
pub fn captured_ids_are_stored()
    ensures since { (parts : List Delta) (snapshot stored : List ElementValue) (part : Delta)
        → EntryStandsFor parts (pairs_since snapshot stored) → Contains parts part
        → IsSome (element_of stored part.id) }
    ensures pending { (parts : List Delta) (snapshot stored : List ElementValue) (part : Delta)
        → EntryStandsFor parts (pending snapshot stored) → Contains parts part
        → IsSome (element_of stored part.id) }
{}

/// What isn't touched is stored as the snapshot has it where more is touched, and once those that
/// are touched besides become stored, carried into the snapshot or not.
pub fn untouched_ids_stay()
    ensures grown { (old new : List (List ℕ)) (snapshot stored : List ElementValue)
        → StillTouches old new → AreUntouched old snapshot stored
        → AreUntouched new snapshot stored }
    ensures taken { (old new : List (List ℕ)) (list snapshot stored : List ElementValue)
        → HasTouched old list new → AreUntouched old snapshot stored
        → AreUntouched new snapshot (taken_all list stored) }
    ensures carried { (old new : List (List ℕ)) (list snapshot stored : List ElementValue)
        → are_rising (ids_of stored) ≡ true → HasTouched old list new
        → AreUntouched old snapshot stored
        → AreUntouched new (carried_all (takings stored list) snapshot) (taken_all list stored) }
{}
