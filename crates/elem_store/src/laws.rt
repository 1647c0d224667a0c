//! Laws on stores, for all lists of updates. They do nothing when they run.

ghost use Rattle.std.specs.Prelude.{◌≡◌, ℕ, List, [], ◌∷◌, ◌++◌, true, is_some, Contains};
ghost use Rattle.std.specs.List.{list_any};
ghost use Rattle.frac_keys.specs.Rising.{are_rising};
ghost use Rattle.elem.specs.ElementValue.{ElementValue};
ghost use Rattle.elem.specs.Facts.{IsElement};
ghost use Rattle.elem.specs.Said.{HasValidTexts, AreElements};
ghost use Rattle.elem.specs.Order.{has_id};
ghost use Rattle.elem_store.specs.Updates.{best_updates, element_of, ids_of, AreStored, HasTaken, takings, HaveSameUpdates, AreBest};

/// The store of no updates has no element.
pub fn empty_is_stored()
    ensures { AreStored [] [] }
{}

/// Every list of updates has a store.
pub fn store_exists()
    ensures { (updates : List ElementValue) → (elements : List ElementValue)
        × AreStored updates elements }
{}

/// A list of updates has one store.
pub fn store_is_unique()
    ensures { (updates elements others : List ElementValue)
        → AreStored updates elements → AreStored updates others → elements ≡ others }
{}

/// A store that was given an update is the store of the list with this update at its end.
pub fn update_is_stored()
    ensures { (updates elements new : List ElementValue) (e : ElementValue)
        → AreStored updates elements → HasTaken elements e new → AreStored (updates ++ e ∷ []) new }
{}

/// A stored element is the best update of its id, and an id has one exactly if an update has it.
pub fn best_is_stored()
    ensures best { (updates elements : List ElementValue) (e : ElementValue)
        → AreStored updates elements → Contains elements e
        → Contains (best_updates updates e.id) e }
    ensures each_id { (updates elements : List ElementValue) (id : List ℕ)
        → AreStored updates elements → is_some (element_of elements id)
        ≡ list_any (has_id id) updates }
{}

/// All best updates of an id are the same.
pub fn best_is_unique()
    ensures { (updates : List ElementValue) (id : List ℕ) (e other : ElementValue)
        → AreElements updates → Contains (best_updates updates id) e
        → Contains (best_updates updates id) other → e ≡ other }
{}

/// What is stored is the best update of each id.
pub fn stored_are_best()
    ensures { (updates elements : List ElementValue) → AreStored updates elements
        → AreBest updates elements }
{}

/// The best update of each id is what is stored: there is no choice.
pub fn best_are_stored()
    ensures { (updates chosen : List ElementValue)
        → AreElements updates → AreBest updates chosen → AreStored updates chosen }
{}

/// The order and the repeats of updates don't count.
pub fn stores_converge()
    ensures { (updates others elements news : List ElementValue)
        → HaveSameUpdates updates others → AreElements updates
        → AreStored updates elements → AreStored others news → elements ≡ news }
{}

/// Their grouping doesn't count: what is stored of two stores' elements is what is stored of their
/// updates.
pub fn stores_join()
    ensures { (updates others elements news all : List ElementValue)
        → AreStored updates elements → AreStored others news
        → AreStored (elements ++ news) all → AreStored (updates ++ others) all }
{}

/// Elements whose ids rise are their own store.
pub fn store_is_stored()
    ensures { (elements : List ElementValue) → are_rising (ids_of elements) ≡ true
        → AreStored elements elements }
{}

/// What is stored was among the updates, so it is elements where these are.
pub fn stored_were_given()
    ensures among { (updates elements : List ElementValue) (e : ElementValue)
        → AreStored updates elements → Contains elements e → Contains updates e }
    ensures elements { (updates elements : List ElementValue)
        → AreElements updates → AreStored updates elements → AreElements elements }
{}

/// A store of elements that takes one is a store of elements.
pub fn taking_keeps_elements()
    ensures { (old new : List ElementValue) (e : ElementValue)
        → AreElements old → IsElement e → HasValidTexts e → HasTaken old e new → AreElements new }
{}

/// Ids stay stored over further updates.
pub fn ids_stay_stored()
    ensures { (updates more elements news : List ElementValue) (id : List ℕ)
        → AreStored updates elements → AreStored (updates ++ more) news
        → is_some (element_of elements id) ≡ true → is_some (element_of news id) ≡ true }
{}

/// Which of further updates become stored, and over what, is told by the stored elements as by the
/// updates.
pub fn takings_are_of_the_stored()
    ensures { (updates elements more : List ElementValue) → AreStored updates elements
        → takings elements more ≡ takings updates more }
{}

/// Where no two updates of one id differ, all updates are stored.
pub fn distinct_are_stored()
    ensures { (updates elements : List ElementValue) (e : ElementValue)
        → AreStored updates elements
        → ((e other : ElementValue) → Contains updates e → Contains updates other → e.id ≡ other.id
        → e ≡ other)
        → Contains updates e → Contains elements e }
{}
