//! Laws on what is pasted, for all of them. They do nothing when they run.

ghost use Rattle.std.specs.Prelude.{◌≡◌, ◌↔◌, ℕ, List, ◌++◌, Contains, None, length};
ghost use Rattle.elem.specs.ElementValue.{ElementValue};
ghost use Rattle.elem.specs.Order.{HaveDistinctIds};
ghost use Rattle.elem_store.specs.Updates.{element_of, AreStored};
ghost use Rattle.copies.specs.Copies.{copies_of};
ghost use Rattle.board_paste.specs.Pasting.{first_stored, pasted};

/// No copy's id is stored exactly where no element's id under the prefix is stored, deleted or not.
pub fn ids_of_copies_are_new()
    ensures { (stored list : List ElementValue) (prefix places : List ℕ)
        → length places ≡ length list
        → (first_stored stored (copies_of list prefix) places ≡ None)
        ↔ ((e : ElementValue) → Contains list e → element_of stored (prefix ++ e.id) ≡ None) }
{}

/// After a paste each element that was stored is stored the same, and beside them each copy is.
pub fn pasted_elements_are_added()
    ensures kept { (updates stored elements news : List ElementValue) (prefix : List ℕ)
        → AreStored updates stored → AreStored (updates ++ pasted stored elements prefix) news
        → HaveDistinctIds elements
        → ((e : ElementValue) → Contains elements e → element_of stored (prefix ++ e.id) ≡ None)
        → (e : ElementValue) → Contains stored e → Contains news e }
    ensures added { (updates stored elements news : List ElementValue) (prefix : List ℕ)
        → AreStored updates stored → AreStored (updates ++ pasted stored elements prefix) news
        → HaveDistinctIds elements
        → ((e : ElementValue) → Contains elements e → element_of stored (prefix ++ e.id) ≡ None)
        → (e : ElementValue) → Contains (pasted stored elements prefix) e → Contains news e }
{}
