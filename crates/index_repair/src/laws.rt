//! Laws on repaired keys, for all lists of optional keys and of elements. They do nothing when they
//! run.

ghost use Rattle.std.specs.Prelude.{◌≡◌, ℕ, List, [], ◌∷◌, ◌++◌, All, length, map, replicate, Option, Some, None, IsTrue};
ghost use Rattle.std.specs.List.{list_all};
ghost use Rattle.frac_keys.specs.Between.{keys_between};
ghost use Rattle.frac_keys.specs.Keys.{is_key, bytes_less};
ghost use Rattle.frac_keys.specs.Rising.{are_rising, is_key_or_none};
ghost use Rattle.elem.specs.ElementValue.{ElementValue};
ghost use Rattle.elem.specs.Facts.{IsElement};
ghost use Rattle.elem.specs.Said.{HasValidTexts};
ghost use Rattle.index_repair.specs.Keyed.{index_of, keyed};
ghost use Rattle.index_repair.specs.Repair.{kept, AreKept, filled, repaired_below, repaired, are_below, NeverFall, KeepsAll};

/// Exactly the positions are kept that have a key greater than all keys kept before it.
pub fn greater_keys_are_kept()
    ensures { (keys : List (Option (List ℕ))) → AreKept keys (kept keys) }
{}

/// There is a key for each position, the keys rise strictly, and each position that is kept has its
/// own.
pub fn repaired_keys_rise()
    ensures count { (keys : List (Option (List ℕ)))
        → IsTrue (list_all is_key_or_none keys) → length (repaired keys) ≡ length keys }
    ensures are_keys { (keys : List (Option (List ℕ)))
        → IsTrue (list_all is_key_or_none keys) → IsTrue (list_all is_key (repaired keys)) }
    ensures rise { (keys : List (Option (List ℕ)))
        → IsTrue (list_all is_key_or_none keys) → IsTrue (are_rising (repaired keys)) }
    ensures keeps { (keys : List (Option (List ℕ)))
        → IsTrue (list_all is_key_or_none keys) → KeepsAll (kept keys) (repaired keys) }
{}

/// Strictly rising keys stay as they are.
pub fn rising_keys_stay()
    ensures { (keys : List (List ℕ)) → IsTrue (are_rising keys) → repaired (map Some keys) ≡ keys }
{}

/// In a list whose kept keys are known, each run of positions without one gets the keys between its
/// two neighbours: the kept keys beside it, or at the two ends of the list what stands there.
pub fn runs_are_filled()
    ensures alone { (low above : Option (List ℕ)) (n : ℕ)
        → filled low above (replicate n None) ≡ keys_between low above n }
    ensures split { (low above : Option (List ℕ)) (before : List (Option (List ℕ))) (key : List ℕ)
        (after : List (Option (List ℕ)))
        → filled low above (before ++ Some key ∷ after) ≡ filled low (Some key) before ++ key
        ∷ filled (Some key) above after }
    ensures between { (low above : Option (List ℕ)) (before : List (Option (List ℕ))) (a : List ℕ)
        (n : ℕ) (b : List ℕ)
        (after : List (Option (List ℕ)))
        → filled low above (before ++ Some a ∷ (replicate n None ++ Some b ∷ after))
        ≡ filled low (Some a) before ++ a
        ∷ (keys_between (Some a) (Some b) n ++ b ∷ filled (Some b) above after) }
    ensures first { (low above : Option (List ℕ)) (n : ℕ) (b : List ℕ)
        (after : List (Option (List ℕ)))
        → filled low above (replicate n None ++ Some b ∷ after)
        ≡ keys_between low (Some b) n ++ b ∷ filled (Some b) above after }
    ensures last { (low above : Option (List ℕ)) (before : List (Option (List ℕ))) (a : List ℕ)
        (n : ℕ)
        → filled low above (before ++ Some a ∷ replicate n None)
        ≡ filled low (Some a) before ++ a ∷ keys_between (Some a) above n }
{}

/// A list may be repaired part by part: it is cut before a key that is greater than every key
/// before it. Where keys never fall, that is a key which isn't the one before it.
pub fn parts_are_repaired_apart()
    ensures whole { (before : List (Option (List ℕ))) (key : List ℕ)
        (after : List (Option (List ℕ)))
        → IsTrue (are_below (Some key) before)
        → repaired (before ++ Some key ∷ after) ≡ repaired_below (Some key) before
        ++ repaired (Some key ∷ after) }
    ensures part { (above : Option (List ℕ)) (before : List (Option (List ℕ))) (key : List ℕ)
        (after : List (Option (List ℕ)))
        → IsTrue (are_below (Some key) before)
        → repaired_below above (before ++ Some key ∷ after)
        ≡ repaired_below (Some key) before ++ repaired_below above (Some key ∷ after) }
    ensures never_fall { (before : List (Option (List ℕ))) (last key : List ℕ)
        → NeverFall (before ++ Some last ∷ []) → IsTrue (bytes_less last key)
        → IsTrue (are_below (Some key) (before ++ Some last ∷ [])) }
{}

/// What holds of every element holds of elements with repaired keys.
pub fn keyed_elements_are_elements()
    ensures { (elements : List ElementValue)
        → All (λ e. IsElement e × HasValidTexts e) elements
        → All (λ e. IsElement e × HasValidTexts e)
        (keyed elements (repaired (map index_of elements))) }
{}
