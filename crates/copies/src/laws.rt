//! Laws on copies, for all of them. They do nothing when they run.

ghost use Rattle.std.specs.Prelude.{◌≡◌, ◌↔◌, ℕ, List, ◌++◌, Contains};
ghost use Rattle.std.specs.Str.{IsUtf8};
ghost use Rattle.elem.specs.ElementValue.{ElementValue};
ghost use Rattle.elem.specs.Order.{HaveDistinctIds};
ghost use Rattle.elem.specs.Said.{AreElements};
ghost use Rattle.copies.specs.Copies.{copies_of};
ghost use Rattle.copies.specs.Naming.{Way, Names, copy_of};

/// Among the copies one names another one, in whatever way, exactly where its original names the
/// other's original.
pub fn copies_name_as_originals_do()
    ensures { (list : List ElementValue) (prefix : List ℕ) (way : Way) (e other : ElementValue)
        → Contains list other
        → Names way (copy_of list prefix e) (copy_of list prefix other).id ↔ Names way e other.id }
{}

/// What a copy names is a copy.
pub fn copies_name_copies_alone()
    ensures { (list : List ElementValue) (prefix : List ℕ) (way : Way) (copy : ElementValue)
        (id : List ℕ)
        → Contains (copies_of list prefix) copy → Names way copy id
        → (other : ElementValue) × Contains (copies_of list prefix) other × (other.id ≡ id) }
{}

/// A group of the copies has exactly the copies of the members of a group of the originals.
pub fn groups_of_copies_are_copied()
    ensures members { (list : List ElementValue) (prefix group : List ℕ) (e : ElementValue)
        → Contains (copy_of list prefix e).groups (prefix ++ group) ↔ Contains e.groups group }
    ensures only { (list : List ElementValue) (prefix name : List ℕ) (copy : ElementValue)
        → Contains (copies_of list prefix) copy → Contains copy.groups name
        → (group : List ℕ) × (name ≡ prefix ++ group) × (e : ElementValue) × Contains list e
        × Contains e.groups group }
{}

/// The ids of copies are distinct where those of the originals are.
pub fn ids_of_copies_are_distinct()
    ensures { (list : List ElementValue) (prefix : List ℕ) → HaveDistinctIds list
        → HaveDistinctIds (copies_of list prefix) }
{}

/// What holds of every element holds of copies.
pub fn copies_are_elements()
    ensures { (list : List ElementValue) (prefix : List ℕ)
        → IsUtf8 prefix → AreElements list → AreElements (copies_of list prefix) }
{}
