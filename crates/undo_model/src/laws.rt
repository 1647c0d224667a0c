//! Laws on what is undone, taken and carried, for all elements. They do nothing when they run.

ghost use Rattle.std.specs.Prelude.{◌≡◌, ◌≢◌, ◌≤◌, ℕ, List, ◌++◌, true, false, Some, None, Ok, Err, All, Contains, map, if◌then◌else◌};
ghost use Rattle.frac_keys.specs.Keys.{bytes_less};
ghost use Rattle.frac_keys.specs.Rising.{are_rising};
ghost use Rattle.elem.specs.ElementValue.{ElementValue};
ghost use Rattle.elem.specs.Facts.{IsElement, greatest_whole};
ghost use Rattle.elem.specs.Order.{unstamped, has_id};
ghost use Rattle.elem.specs.Said.{HasValidTexts, AreElements};
ghost use Rattle.elem_store.specs.Updates.{Taking, element_of, ids_of, is_taken, takings, AreStored, HasTaken};
ghost use Rattle.delta.specs.Applied.{IsApplied};
ghost use Rattle.delta.specs.Delta.{Delta};
ghost use Rattle.delta.specs.Pairs.{Pair, pairs_from, exchanged, IsChanged, IsUnchanged, EntryStandsFor};
ghost use Rattle.delta.specs.Parts.{PartStandsFor, inverse};
ghost use Rattle.delta.specs.Undone.{IsUndone};
ghost use Rattle.undo_model.specs.Carrying.{with_put, taken, taken_all, carried_all};
ghost use Rattle.undo_model.specs.Differing.{differ, is_changed, pending};
ghost use Rattle.undo_model.specs.Entries.{IsOfElements, IsTakingOfElements, pair_ids, IsEntry, AreEntries, IsGiven, IsFullId, IsSoundTurn};
ghost use Rattle.undo_model.specs.Steps.{Sought, Turn, given, full_id, sought, made, step};
ghost use Rattle.undo_model.specs.Undoing.{undone};

/// The texts tell whether two elements differ outside the stamp.
pub fn differing_is_told()
    ensures differ { (a b : ElementValue) → differ a b ≡ true → unstamped a ≢ unstamped b }
    ensures same { (a b : ElementValue) → IsElement a → HasValidTexts a → IsElement b
        → HasValidTexts b
        → differ a b ≡ false → unstamped a ≡ unstamped b }
{}

/// They tell whether a pair of elements is changed.
pub fn changed_is_told()
    ensures changed { (pair : Pair) → pair.before.id ≡ pair.after.id → IsElement pair.before
        → IsElement pair.after
        → is_changed pair ≡ true → IsChanged pair }
    ensures unchanged { (pair : Pair) → IsOfElements pair → is_changed pair ≡ false
        → IsUnchanged pair }
    ensures told { (pair : Pair) → IsOfElements pair → IsChanged pair → is_changed pair ≡ true }
{}

/// What is pending is an entry, and what stands for the pairs since the snapshot stands for it.
pub fn pending_is_an_entry()
    ensures entry { (snapshot stored : List ElementValue)
        → AreElements snapshot → AreElements stored → are_rising (ids_of stored) ≡ true
        → IsEntry (pending snapshot stored) }
    ensures stands { (snapshot stored : List ElementValue) (parts : List Delta)
        → AreElements snapshot → AreElements stored
        → EntryStandsFor parts (pairs_from (element_of snapshot) stored)
        → EntryStandsFor parts (pending snapshot stored) }
{}

/// What is made of an element by undoing a change is an element, undoes the change, and is the only
/// element that does.
pub fn undone_is_unique()
    ensures undoes { (pair : Pair) (now : ElementValue)
        → IsOfElements pair → pair.before.kind ≡ pair.after.kind → IsElement now → HasValidTexts now
        → IsUndone pair.before pair.after now (undone pair now) }
    ensures element { (pair : Pair) (now : ElementValue)
        → IsOfElements pair → pair.before.kind ≡ pair.after.kind → IsElement now → HasValidTexts now
        → IsElement (undone pair now) × HasValidTexts (undone pair now) }
    ensures only { (pair : Pair) (now : ElementValue)
        → IsOfElements pair → pair.before.kind ≡ pair.after.kind → IsElement now → HasValidTexts now
        → (result : ElementValue) → IsElement result → IsUndone pair.before pair.after now result
        → result ≡ undone pair now }
{}

/// The inverse of a part makes the undone element of any element, and the part that of the change
/// the other way round.
pub fn parts_make_the_undone()
    ensures inverse { (pair : Pair) (now : ElementValue)
        → IsOfElements pair → pair.before.kind ≡ pair.after.kind → IsElement now → HasValidTexts now
        → (part : Delta) (result : ElementValue) → PartStandsFor part pair.before pair.after
        → IsElement result → IsApplied (inverse part) now result → result ≡ undone pair now }
    ensures part { (old new captured : ElementValue)
        → IsElement old → HasValidTexts old → IsElement new → HasValidTexts new
        → old.kind ≡ new.kind
        → IsElement captured → HasValidTexts captured
        → (part : Delta) (result : ElementValue) → PartStandsFor part old new
        → IsElement result → IsApplied part captured result
        → result ≡ undone (record { before = new; after = old }) captured }
{}

/// An element that is put is the one of its id, the others stay, and the ids rise.
pub fn put_keeps_the_order()
    ensures { (e : ElementValue) (elements : List ElementValue)
        → are_rising (ids_of elements) ≡ true
        → (are_rising (ids_of (with_put e elements)) ≡ true)
        × ((id : List ℕ) → element_of (with_put e elements) id
        ≡ (if has_id id e then Some e else element_of elements id)) }
{}

/// What is made of stored elements by taking an update is what a store has that took it, and
/// nothing else is.
pub fn update_is_taken()
    ensures has { (stored : List ElementValue) (e : ElementValue)
        → are_rising (ids_of stored) ≡ true
        → HasTaken stored e (taken e stored) }
    ensures only { (stored : List ElementValue) (e : ElementValue) (new : List ElementValue)
        → are_rising (ids_of stored) ≡ true → HasTaken stored e new → new ≡ taken e stored }
{}

/// What is made of stored elements by taking a list is what is stored of all updates.
pub fn updates_are_taken()
    ensures stored { (updates stored list : List ElementValue)
        → AreStored updates stored → AreStored (updates ++ list) (taken_all list stored) }
    ensures only { (updates stored list new : List ElementValue)
        → AreStored updates stored → AreStored (updates ++ list) new → new ≡ taken_all list stored }
    ensures elements { (stored list : List ElementValue) → AreElements stored → AreElements list
        → AreElements (taken_all list stored) }
{}

/// A snapshot into which changes of elements are carried stays one of elements in the order of
/// their ids, and what becomes stored of elements are such changes.
pub fn carrying_keeps_elements()
    ensures elements { (takings : List Taking) (snapshot : List ElementValue)
        → All IsTakingOfElements takings → AreElements snapshot
        → AreElements (carried_all takings snapshot) }
    ensures takings { (updates list : List ElementValue)
        → AreElements updates → AreElements list → All IsTakingOfElements (takings updates list) }
    ensures ordered { (takings : List Taking) (snapshot : List ElementValue)
        → are_rising (ids_of snapshot) ≡ true → are_rising (ids_of (carried_all takings snapshot))
        ≡ true }
{}

/// What a step gives of an entry: each stored element that undoing a pair changes, stamped, so that
/// it becomes stored.
pub fn step_gives_the_undone()
    ensures each { (stored : List ElementValue) (time nonce : ℕ) (pairs : List Pair)
        (e : ElementValue)
        → Contains (given stored time nonce pairs) e → IsGiven stored time nonce pairs e }
    ensures all { (stored : List ElementValue) (time nonce : ℕ) (pairs : List Pair)
        (e : ElementValue)
        → IsGiven stored time nonce pairs e → Contains (given stored time nonce pairs) e }
    ensures taken { (stored : List ElementValue) (time nonce : ℕ) → AreElements stored
        → (pairs : List Pair) (e : ElementValue)
        → Contains (given stored time nonce pairs) e → is_taken stored e ≡ true }
{}

/// Their ids rise; where no version is full they are elements, and their changes are an entry.
pub fn step_gives_elements()
    ensures ordered { (stored : List ElementValue) (time nonce : ℕ) → AreElements stored
        → (pairs : List Pair)
        → are_rising (pair_ids pairs) ≡ true → are_rising (ids_of (given stored time nonce pairs))
        ≡ true }
    ensures elements { (stored : List ElementValue) (time nonce : ℕ) (pairs : List Pair)
        → AreElements stored → IsEntry pairs → time ≤ greatest_whole → nonce ≤ greatest_whole
        → full_id stored pairs ≡ None → AreElements (given stored time nonce pairs) }
    ensures made { (stored : List ElementValue) (time nonce : ℕ) (pairs : List Pair)
        → AreElements stored → IsEntry pairs → time ≤ greatest_whole → nonce ≤ greatest_whole
        → full_id stored pairs ≡ None → IsEntry (made stored (given stored time nonce pairs)) }
{}

/// A step that stops names the least id of which the stored element would change and stands at the
/// greatest version.
pub fn step_stops_at_the_least()
    ensures stops { (stored : List ElementValue) (time nonce : ℕ) (from to : List (List Pair))
        (id : List ℕ)
        → step stored time nonce from to ≡ Some (Err id)
        → (seen : Sought) × (sought stored from to ≡ Some seen)
        × (full_id stored seen.entry ≡ Some id) }
    ensures full { (stored : List ElementValue) (pairs : List Pair) (id : List ℕ)
        → full_id stored pairs ≡ Some id → IsFullId stored pairs id }
    ensures least { (stored : List ElementValue) (pairs : List Pair)
        → are_rising (pair_ids pairs) ≡ true
        → (id : List ℕ) → full_id stored pairs ≡ Some id
        → (other : List ℕ) → IsFullId stored pairs other → bytes_less other id ≡ false }
    ensures none { (stored : List ElementValue) (pairs : List Pair)
        → full_id stored pairs ≡ None → (id : List ℕ) → IsFullId stored pairs id → ⊥ }
{}

/// A step over entries gives elements, and leaves entries.
pub fn step_keeps_entries()
    ensures exchanged { (pairs : List Pair) → IsEntry pairs → IsEntry (map exchanged pairs) }
    ensures step { (stored : List ElementValue) (time nonce : ℕ) (from to : List (List Pair))
        (turn : Turn)
        → AreElements stored → AreEntries from → AreEntries to → time ≤ greatest_whole
        → nonce ≤ greatest_whole
        → step stored time nonce from to ≡ Some (Ok turn) → IsSoundTurn turn }
{}
