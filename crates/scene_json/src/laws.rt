//! Laws on members, for all bytes. They do nothing when they run.

ghost use Rattle.std.specs.Prelude.{◌≡◌, ℕ, List, Option, None, false, bytes_eq, IsPermutation};
ghost use Rattle.std.specs.List.{IsDistinct, list_any};
ghost use Rattle.json_text.specs.Compact.{Member};
ghost use Rattle.json_text.specs.Parts.{names_of};
ghost use Rattle.scene_json.specs.Named.{AreSameMembers, HaveRisingNames, value_at};

/// The order of members of distinct names plays no part in what is found by a name.
#[tactic(auto, using(crate::proofs::Lookups::same_moved))]
pub fn order_of_members_plays_no_part()
    ensures { (members others : List Member)
        → IsDistinct bytes_eq (names_of members) → IsPermutation members others
        → AreSameMembers members others }
{}

/// Members whose names rise have distinct names, and are told by what is found by each name.
#[tactic(auto, using(crate::proofs::Lookups::rising_distinct, crate::proofs::Lookups::rising_same))]
pub fn rising_members_are_unique()
    ensures distinct { (members : List Member) → HaveRisingNames members
        → IsDistinct bytes_eq (names_of members) }
    ensures unique { (members others : List Member)
        → HaveRisingNames members → HaveRisingNames others → AreSameMembers members others
        → members ≡ others }
{}

/// Whatever is found under some names, and under no others, is the members of a list whose names
/// rise.
#[tactic(auto, using(crate::proofs::Rising::tabled))]
pub fn rising_members_exist()
    ensures { (names : List (List ℕ)) (find : List ℕ → Option (List ℕ))
        → ((name : List ℕ) → list_any (bytes_eq name) names ≡ false → find name ≡ None)
        → (members : List Member) × HaveRisingNames members
        × ((name : List ℕ) → value_at name members ≡ find name) }
{}
