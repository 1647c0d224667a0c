//! Laws on steps, for all entries and stores. They do nothing when they run.

ghost use Rattle.std.specs.Prelude.{◌≡◌, ◌↔◌, ◌≤◌, ℕ, List as Items, [], true, Some, None, IsSome, Ok, Err, Contains};
ghost use Rattle.frac_keys.specs.Rising.{are_rising};
ghost use Rattle.elem.specs.ElementValue.{ElementValue};
ghost use Rattle.elem.specs.Facts.{greatest_whole};
ghost use Rattle.elem.specs.Said.{AreElements};
ghost use Rattle.elem_store.specs.Updates.{HasTaken, element_of, ids_of, is_taken};
ghost use Rattle.delta.specs.Delta.{Delta};
ghost use Rattle.delta.specs.Pairs.{Pair, EntryStandsFor, pairs_from};
ghost use Rattle.delta.specs.Parts.{counted};
ghost use Rattle.history.specs.Pairs.{IsEntryOf, StackStandsFor, with_pairs, pairs_left};
ghost use Rattle.history.specs.Stacks.{HasStepped, HaveStoredIds, AreUnseen, StopsAt, with_entry, redo_left};
ghost use Rattle.history.specs.Steps.{AreGiven};
ghost use Rattle.history.specs.Undone.{EachIsElement, ArePairsOfElements, AreUndone, ComesBack};
ghost use Rattle.undo_model.specs.Steps.{Turn, step};

/// A step undoes the pairs of elements that its entry stands for: what others changed meanwhile
/// stays.
pub fn step_undoes_pairs()
    ensures { (parts : Items Delta) (pairs : Items Pair) (store given : Items ElementValue)
        (time nonce : ℕ)
        → EntryStandsFor parts pairs → ArePairsOfElements pairs → EachIsElement store
        → AreGiven parts store time nonce given → AreUndone pairs store time nonce given }
{}

/// A step whose entry stands for the change of older elements to the stored ones brings the older
/// ones back, but for the stamp; those that there weren't are deleted.
pub fn step_brings_back()
    ensures { (parts : Items Delta) (old store given : Items ElementValue) (time nonce : ℕ)
        (now : ElementValue)
        → EntryStandsFor parts (pairs_from (element_of old) store) → EachIsElement old
        → EachIsElement store
        → AreGiven parts store time nonce given → element_of store now.id ≡ Some now
        → (counted (element_of old now.id) now).kind ≡ now.kind
        → ComesBack given now (counted (element_of old now.id) now) }
{}

/// A step keeps that each id of both stacks is stored.
pub fn ids_stay_stored()
    ensures { (store given : Items ElementValue) (time nonce : ℕ)
        (from to left grown : Items (Items Delta))
        → HasStepped store time nonce given from to left grown → HaveStoredIds store from
        → HaveStoredIds store to
        → HaveStoredIds store left × HaveStoredIds store grown }
{}

/// Storing an element keeps that each id of a stack is stored.
pub fn ids_stay_stored_by_taking()
    ensures { (old new : Items ElementValue) (e : ElementValue) (stack : Items (Items Delta))
        → HasTaken old e new → HaveStoredIds old stack → HaveStoredIds new stack }
{}

/// A step from stacks of parts is the step from the stacks of pairs that these stand for: it gives
/// the same elements, and the stacks after it stand for those after it.
pub fn step_is_that_of_the_pairs()
    ensures done { (stored given : Items ElementValue) (time nonce : ℕ)
        (from to below grown : Items (Items Delta))
        → (old_from old_to : Items (Items Pair))
        → AreElements stored → time ≤ greatest_whole → nonce ≤ greatest_whole
        → StackStandsFor from old_from → StackStandsFor to old_to
        → HasStepped stored time nonce given from to below grown
        → (turn : Turn) × (step stored time nonce old_from old_to ≡ Some (Ok turn))
        × (turn.given ≡ given)
        × StackStandsFor below turn.from × StackStandsFor grown turn.to }
    ensures nothing { (stored : Items ElementValue) (time nonce : ℕ) (from : Items (Items Delta))
        (old_from old_to : Items (Items Pair))
        → AreElements stored → StackStandsFor from old_from
        → AreUnseen stored from → step stored time nonce old_from old_to ≡ None }
    ensures full { (stored : Items ElementValue) (time nonce : ℕ) (from to : Items (Items Delta))
        (old_from old_to : Items (Items Pair)) (id : Items ℕ)
        → AreElements stored → StackStandsFor from old_from → StackStandsFor to old_to
        → StopsAt stored from id → step stored time nonce old_from old_to ≡ Some (Err id) }
{}

/// What a step gives are elements in the order of their ids. Each of the ids is stored, and each
/// element becomes stored.
pub fn what_a_step_gives_is_taken()
    ensures elements { (stored given : Items ElementValue) (time nonce : ℕ)
        (from to below grown : Items (Items Delta)) (old_from : Items (Items Pair))
        → AreElements stored → time ≤ greatest_whole → nonce ≤ greatest_whole
        → StackStandsFor from old_from
        → HasStepped stored time nonce given from to below grown → AreElements given }
    ensures ordered { (stored given : Items ElementValue) (time nonce : ℕ)
        (from to below grown : Items (Items Delta))
        → HasStepped stored time nonce given from to below grown
        → are_rising (ids_of given) ≡ true }
    ensures taken { (stored given : Items ElementValue) (time nonce : ℕ)
        (from to below grown : Items (Items Delta)) (e : ElementValue)
        → HasStepped stored time nonce given from to below grown → Contains given e
        → IsSome (element_of stored e.id) × (is_taken stored e ≡ true) }
{}

/// Noting an entry is noting the pairs that it stands for. Nothing stands for nothing.
pub fn noting_is_that_of_the_pairs()
    ensures empty { (parts : Items Delta) (pairs : Items Pair) → IsEntryOf parts pairs
        → (parts ≡ []) ↔ (pairs ≡ []) }
    ensures undo { (parts : Items Delta) (pairs : Items Pair) (stack : Items (Items Delta))
        (old : Items (Items Pair))
        → IsEntryOf parts pairs → StackStandsFor stack old
        → StackStandsFor (with_entry parts stack) (with_pairs pairs old) }
    ensures redo { (parts : Items Delta) (pairs : Items Pair) (stack : Items (Items Delta))
        (old : Items (Items Pair))
        → IsEntryOf parts pairs → StackStandsFor stack old
        → StackStandsFor (redo_left parts stack) (pairs_left pairs old) }
    ensures none { StackStandsFor [] [] }
{}
