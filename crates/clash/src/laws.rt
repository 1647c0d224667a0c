//! Laws on noted elements, for all of them. They do nothing when they run.

ghost use Rattle.std.specs.Prelude.{◌≡◌, ◌↔◌, List, ◌∷◌, [], ◌++◌};
ghost use Rattle.elem.specs.ElementValue.{ElementValue};
ghost use Rattle.elem_store.specs.Updates.{IsFreeOfClashes};
ghost use Rattle.clash.specs.Firsts.{first_tied, firsts_with, firsts_of, IsLikeFirst};

/// Elements that are noted one after another leave the first one of each id, version and nonce.
pub fn firsts_are_noted()
    ensures { (elements : List ElementValue) (e : ElementValue)
        → firsts_of (elements ++ e ∷ []) ≡ firsts_with (firsts_of elements) e }
{}

/// The first one with an id, a version and a nonce is found among the first ones as among all.
pub fn firsts_tell_all()
    ensures { (elements : List ElementValue) (e : ElementValue)
        → first_tied (firsts_of elements) e ≡ first_tied elements e }
{}

/// Each element is like the first of those before it exactly where no two of all clash.
pub fn clashes_are_found()
    ensures { (elements : List ElementValue)
        → ((before after : List ElementValue) (e : ElementValue) → elements ≡ before ++ e ∷ after
        → IsLikeFirst before e)
        ↔ IsFreeOfClashes elements }
{}
