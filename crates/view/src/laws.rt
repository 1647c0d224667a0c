//! Laws on what a board shows, for all lists of elements. They do nothing when they run.

ghost use Rattle.std.specs.Prelude.{◌≡◌, List, All, map, IsPermutation, IsTrue};
ghost use Rattle.std.specs.List.{list_all};
ghost use Rattle.frac_keys.specs.Rising.{are_rising};
ghost use Rattle.elem.specs.ElementValue.{ElementValue};
ghost use Rattle.elem.specs.Facts.{IsElement};
ghost use Rattle.elem.specs.Order.{unstamped, HaveDistinctIds};
ghost use Rattle.elem.specs.Said.{HasValidTexts};
ghost use Rattle.elem_store.specs.Updates.{ids_of};
ghost use Rattle.view.specs.Settled.{AreSettled};
ghost use Rattle.index_repair.specs.Keyed.{HaveKeysOrNone, HaveRisingKeys};
ghost use Rattle.view.specs.Shown.{is_live, live_elements, in_scene_order, IsSceneOrder, shown};

/// The scene order is the one permutation in which each element comes before those behind it.
pub fn scene_order_is_unique()
    ensures { (elements : List ElementValue)
        → HaveDistinctIds elements → IsSceneOrder elements (in_scene_order elements) }
{}

/// The live elements of a store have distinct ids.
pub fn live_ids_are_distinct()
    ensures { (stored : List ElementValue)
        → IsTrue (are_rising (ids_of stored)) → HaveDistinctIds (live_elements stored) }
{}

/// What is shown doesn't depend on the order in which elements are given.
pub fn given_order_plays_no_part()
    ensures { (live others : List ElementValue)
        → HaveDistinctIds live → IsPermutation live others → shown others ≡ shown live }
{}

/// The keys of what is shown rise strictly.
pub fn shown_keys_rise()
    ensures { (live : List ElementValue) → HaveKeysOrNone live → HaveRisingKeys (shown live) }
{}

/// What is shown agrees on its links, frames and groups.
pub fn shown_elements_are_settled()
    ensures { (live : List ElementValue) → HaveDistinctIds live → HaveKeysOrNone live
        → AreSettled (shown live) }
{}

/// The view of a view is that view, in whatever order its elements are stored.
pub fn view_of_a_view_is_that_view()
    ensures { (live stored : List ElementValue)
        → HaveDistinctIds live → HaveKeysOrNone live → IsTrue (list_all is_live live)
        → IsPermutation (shown live) stored → shown (live_elements stored) ≡ shown live }
{}

/// The stamps of elements play no part: lists that are the same but for versions, nonces and times
/// are shown the same but for these.
pub fn stamps_play_no_part()
    ensures { (live others : List ElementValue)
        → map unstamped live ≡ map unstamped others
        → map unstamped (shown live) ≡ map unstamped (shown others) }
{}

/// What holds of every element holds of what is shown of elements.
pub fn shown_elements_are_elements()
    ensures { (live : List ElementValue)
        → All (λ e. IsElement e × HasValidTexts e) live
        → All (λ e. IsElement e × HasValidTexts e) (shown live) }
{}
