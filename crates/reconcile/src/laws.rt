//! Laws on held ids, for all of them. They do nothing when they run.

ghost use Rattle.std.specs.Prelude.{◌≡◌, ℕ, List};
ghost use Rattle.elem_store.specs.Updates.{is_among};
ghost use Rattle.reconcile.specs.Ids.{AreStrictlySorted};

/// Ids that rise are determined by what they hold.
pub fn held_ids_are_unique()
    ensures { (ids others : List (List ℕ)) → AreStrictlySorted ids → AreStrictlySorted others
        → ((id : List ℕ) → is_among ids id ≡ is_among others id) → ids ≡ others }
{}
