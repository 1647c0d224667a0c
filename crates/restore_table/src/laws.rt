//! Laws on restored members. They do nothing when they run.

ghost use Rattle.std.specs.Prelude.{◌≡◌, ◌≢◌, ℕ, List, Some, None};
ghost use Rattle.json_text.specs.Compact.{Member};
ghost use Rattle.json_text.specs.Tree.{null_word};
ghost use Rattle.scene_json.specs.Named.{AreSameMembers, value_at};
ghost use Rattle.restore_table.specs.Restored.{AreRestored, HasOldListing, LackNothing, listing_name, old_name};
ghost use Rattle.restore_table.specs.Table.{defaults};

/// Members are restored in one way.
pub fn restored_members_are_unique()
    ensures { (members restored others : List Member)
        → AreRestored members restored → AreRestored members others → restored ≡ others }
{}

/// The order of the members plays no part in what they are restored to.
pub fn given_order_plays_no_part()
    ensures { (members others restored : List Member)
        → AreSameMembers members others → AreRestored members restored
        → AreRestored others restored }
{}

/// Restored members lack nothing: each of the table is there, and is null only if that is its
/// default.
pub fn restored_members_lack_nothing()
    ensures { (members restored : List Member) → AreRestored members restored
        → LackNothing restored }
{}

/// Members that lack nothing stay as they are, but for their order; so restoring again changes
/// nothing.
pub fn what_lacks_nothing_stays()
    ensures same { (members restored : List Member)
        → LackNothing members → AreRestored members restored → AreSameMembers members restored }
    ensures again { (members restored others : List Member)
        → AreRestored members restored → AreRestored restored others → others ≡ restored }
{}

/// What is given and isn't null stays, and so does what the table doesn't have, but for listings.
pub fn given_values_stay()
    ensures given { (members restored : List Member) (name value : List ℕ)
        → AreRestored members restored → name ≢ old_name → name ≢ listing_name
        → value_at name members ≡ Some value → value ≢ null_word
        → value_at name restored ≡ Some value }
    ensures listing { (members restored : List Member) (value : List ℕ)
        → AreRestored members restored → ((ids : List (List ℕ)) → HasOldListing members ids → ⊥)
        → value_at listing_name members ≡ Some value → value ≢ null_word
        → value_at listing_name restored ≡ Some value }
    ensures unknown { (members restored : List Member) (name : List ℕ)
        → AreRestored members restored → name ≢ old_name → value_at name defaults ≡ None
        → value_at name restored ≡ value_at name members }
{}
