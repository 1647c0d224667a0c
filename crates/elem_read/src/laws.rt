//! Laws on reading, for all values. They do nothing when they run.

ghost use Rattle.std.specs.Prelude.{◌≡◌, ◌⊎◌, List, ℕ, All, map};
ghost use Rattle.std.specs.List.{AllByRecursion};
ghost use Rattle.json_text.specs.Compact.{Member};
ghost use Rattle.json_text.specs.Value.{IsCompact};
ghost use Rattle.scene_json.specs.Named.{AreSameMembers};
ghost use Rattle.elem.specs.ElementValue.{ElementValue};
ghost use Rattle.elem.specs.Facts.{IsElement};
ghost use Rattle.elem.specs.Forms.{IsObject};
ghost use Rattle.elem.specs.Said.{HasValidTexts, AreElements};
ghost use Rattle.elem.specs.Texts.{element_text};
ghost use Rattle.elem_read.specs.Elements.{AreRead, IsFirstFaulty};
ghost use Rattle.elem_read.specs.Reading.{IsSelection, IsElementIn, IsFaultIn, IsWholeElement};
ghost use Rattle.elem_read.specs.declared.fault.ElemFault.{ElemFault};

/// A value is read in one way at most: as one element, as no element, or with one first fault.
pub fn reading_is_unique()
    ensures element { (value : List ℕ) (e other : ElementValue) → IsElementIn value e
        → IsElementIn value other → e ≡ other }
    ensures fault { (value : List ℕ) (fault other : ElemFault)
        → IsFaultIn value fault → IsFaultIn value other → fault ≡ other }
    ensures faultless { (value : List ℕ) (e : ElementValue) (fault : ElemFault)
        → IsElementIn value e
        → IsFaultIn value fault → ⊥ }
    ensures kept { (value : List ℕ) (e : ElementValue) → IsElementIn value e → IsSelection value
        → ⊥ }
    ensures dropped { (value : List ℕ) (fault : ElemFault) → IsFaultIn value fault
        → IsSelection value → ⊥ }
{}

/// The order of an object's members plays no part in what it is read as.
pub fn order_of_members_plays_no_part()
    ensures element { (value other : List ℕ) (members others : List Member) (e : ElementValue)
        → IsObject value members → IsObject other others → AreSameMembers members others
        → IsElementIn value e → IsElementIn other e }
    ensures fault { (value other : List ℕ) (members others : List Member) (fault : ElemFault)
        → IsObject value members → IsObject other others → AreSameMembers members others
        → IsFaultIn value fault → IsFaultIn other fault }
    ensures selection { (value other : List ℕ) (members others : List Member)
        → IsObject value members → IsObject other others → AreSameMembers members others
        → IsSelection value → IsSelection other }
{}

/// A value is no element, or an element, or has a first fault.
pub fn reading_exists()
    ensures { (value : List ℕ) → IsCompact 128 value
        → IsSelection value ⊎ (((e : ElementValue) × IsElementIn value e)
        ⊎ ((fault : ElemFault) × IsFaultIn value fault)) }
{}

/// Values are read in one way at most: as one list of elements, or with one first faulty value.
pub fn reading_elements_is_unique()
    ensures elements { (values : List (List ℕ)) (elements others : List ElementValue)
        → AreRead values elements → AreRead values others → elements ≡ others }
    ensures fault { (values : List (List ℕ)) (place other : ℕ) (fault why : ElemFault)
        → IsFirstFaulty values place fault → IsFirstFaulty values other why → (place ≡ other)
        × (fault ≡ why) }
    ensures faultless { (values : List (List ℕ)) (elements : List ElementValue) (place : ℕ)
        (fault : ElemFault)
        → AreRead values elements → IsFirstFaulty values place fault → ⊥ }
{}

/// Values are read as a list of elements, or have a first faulty one.
pub fn reading_elements_exists()
    ensures { (values : List (List ℕ)) → AllByRecursion (IsCompact 127) values
        → ((elements : List ElementValue) × AreRead values elements)
        ⊎ ((place : ℕ) × (fault : ElemFault) × IsFirstFaulty values place fault) }
{}

/// Elements that are read of values are whole, each.
pub fn read_elements_are_whole()
    ensures { (values : List (List ℕ)) (elements : List ElementValue) → AreRead values elements
        → All IsWholeElement elements }
{}

/// The texts of whole elements are read as these elements.
pub fn texts_are_read()
    ensures { (elements : List ElementValue) → All IsWholeElement elements
        → AreRead (map element_text elements) elements }
{}

/// What a value is read as is an element, as its type keeps it; so are all whole elements.
pub fn what_is_read_is_an_element()
    ensures read { (value : List ℕ) (e : ElementValue) → IsElementIn value e → IsElement e
        × HasValidTexts e }
    ensures whole { (elements : List ElementValue) → All IsWholeElement elements
        → AreElements elements }
{}
