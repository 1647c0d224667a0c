//! Laws on parts, for all of them. They do nothing when they run.

ghost use Rattle.std.specs.Prelude.{◌≡◌, List, map};
ghost use Rattle.elem.specs.ElementValue.{ElementValue};
ghost use Rattle.elem.specs.Facts.{IsElement};
ghost use Rattle.elem.specs.Order.{unstamped};
ghost use Rattle.delta.specs.Applied.{IsApplied};
ghost use Rattle.delta.specs.Delta.{Delta};
ghost use Rattle.delta.specs.Pairs.{Pair, EntryStandsFor, HasSamePairs, exchanged};
ghost use Rattle.delta.specs.Parts.{PartStandsFor, inverse, inverses};
ghost use Rattle.delta.specs.Undone.{IsUndone};

/// Inverting twice is nothing.
pub fn inverse_of_inverse()
    ensures { (part : Delta) → inverse (inverse part) ≡ part }
{}

/// A part makes one element of another one, but for the stamp.
pub fn applied_is_unique()
    ensures { (part : Delta) (now result other : ElementValue)
        → IsElement result → IsElement other → part.kind ≡ now.kind
        → IsApplied part now result → IsApplied part now other
        → unstamped result ≡ unstamped other }
{}

/// The difference of two elements makes the new one of the old one, but for the stamp, and its
/// inverse makes the old one of the new one.
pub fn difference_leads_on_and_back()
    ensures on { (part : Delta) (old new result : ElementValue)
        → IsElement old → IsElement new → IsElement result → old.id ≡ new.id → old.kind ≡ new.kind
        → PartStandsFor part old new → IsApplied part old result
        → unstamped result ≡ unstamped new }
    ensures back { (part : Delta) (old new result : ElementValue)
        → IsElement old → IsElement new → IsElement result → old.id ≡ new.id → old.kind ≡ new.kind
        → PartStandsFor part old new → IsApplied (inverse part) new result
        → unstamped result ≡ unstamped old }
{}

/// The inverse of a part makes the undone element of any element: what others changed meanwhile
/// stays, but for the members in which the part's elements differ.
pub fn inverse_undoes()
    ensures { (part : Delta) (before after now result : ElementValue)
        → IsElement before → IsElement after → IsElement now → IsElement result
        → PartStandsFor part before after → IsApplied (inverse part) now result
        → IsUndone before after now result }
{}

/// Two elements have one part.
pub fn part_is_unique()
    ensures { (part other : Delta) (before after : ElementValue)
        → PartStandsFor part before after → PartStandsFor other before after → part ≡ other }
{}

/// Pairs have one entry.
pub fn entry_is_unique()
    ensures { (parts others : List Delta) (pairs : List Pair)
        → EntryStandsFor parts pairs → EntryStandsFor others pairs → parts ≡ others }
{}

/// Stamps play no part in what an entry stands for.
pub fn entry_leaves_stamps_out()
    ensures { (parts : List Delta) (pairs others : List Pair)
        → EntryStandsFor parts pairs → HasSamePairs pairs others → HasSamePairs others pairs
        → EntryStandsFor parts others }
{}

/// The inverse of an entry stands for the pairs with before and after exchanged.
pub fn inverse_stands_for_exchanged()
    ensures { (parts : List Delta) (pairs : List Pair)
        → EntryStandsFor parts pairs → EntryStandsFor (inverses parts) (map exchanged pairs) }
{}
