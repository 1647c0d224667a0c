//! Laws on settled links, for all lists of elements. They do nothing when they run.

ghost use Rattle.std.specs.Prelude.{◌≡◌, ℕ, List, Bool, All, Contains, IsTrue, find, filter, map};
ghost use Rattle.elem.specs.ElementValue.{ElementValue};
ghost use Rattle.elem.specs.Order.{has_id, HaveDistinctIds};
ghost use Rattle.links.specs.Arrows.{settled_arrows};
ghost use Rattle.links.specs.Settled.{unlinked, unplaced, settled_links, ArrowsAgree, TextsAgree, HaveOneText, NameTargets};
ghost use Rattle.links.specs.Looks.{HasAllSeen, LookAlike};
ghost use Rattle.links.specs.Steps.{is_within, near};
ghost use Rattle.links.specs.Texts.{settled_texts};

/// After texts and then arrows are settled, an arrow names an element exactly if that element lists
/// it, a text names a container exactly if the container lists it, an element lists one text at
/// most, and each binding names a bindable target of the list.
pub fn settled_links_agree()
    ensures arrows { (list : List ElementValue) → HaveDistinctIds list
        → ArrowsAgree (settled_links list) }
    ensures texts { (list : List ElementValue) → HaveDistinctIds list
        → TextsAgree (settled_links list) }
    ensures one_text { (list : List ElementValue) → HaveOneText (settled_links list) }
    ensures targets { (list : List ElementValue) → NameTargets (settled_links list) }
{}

/// Elements that are settled and settled again stay as they are.
pub fn settled_links_stay()
    ensures texts { (list : List ElementValue) → HaveDistinctIds list
        → settled_texts (settled_links list) ≡ settled_links list }
    ensures arrows { (list : List ElementValue) → settled_arrows (settled_links list)
        ≡ settled_links list }
    ensures both { (list : List ElementValue) → HaveDistinctIds list
        → settled_links (settled_links list) ≡ settled_links list }
{}

/// Settling changes listings, containers and bindings alone: order, ids, kinds, keys, stamps and
/// all other parts stay.
pub fn other_parts_stay()
    ensures { (list : List ElementValue) → map unlinked (settled_links list) ≡ map unlinked list }
{}

/// Settling looks at ids, kinds, listings, containers and bindings alone: with other keys, stamps,
/// groups, frames and further members it leaves the same.
pub fn other_parts_play_no_part()
    ensures { (list : List ElementValue) → settled_links (map unplaced list)
        ≡ map unplaced (settled_links list) }
{}

/// What settling makes of an element rests on the elements at most three steps of links from it
/// alone: where these are among the elements that are settled, it makes the same of it. What it
/// frames, and what else is in its frame, plays no part.
pub fn three_steps_are_enough()
    ensures { (list : List ElementValue) (among : ElementValue → Bool) (id : List ℕ)
        → HaveDistinctIds list → All (λ e. IsTrue (among e)) (near list id)
        → find (has_id id) (settled_links (filter among list))
        ≡ find (has_id id) (settled_links list) }
{}

/// What settling makes of an element rests on that alone at which it looks: the element; which
/// arrows and texts name it; its container, if it is a text, with the texts that name this; and the
/// kind of what its ends name, and a text among these, with its container. The other arrows that
/// are bound to what its ends name play no part, and neither does the listing of that, but where it
/// is a text.
pub fn what_is_seen_is_enough()
    // Two lists that look alike to an element settle it alike.
    ensures alike { (list other : List ElementValue) (id : List ℕ)
        → HaveDistinctIds list → HaveDistinctIds other → LookAlike list other id
        → find (has_id id) (settled_links list) ≡ find (has_id id) (settled_links other) }

    // Where all at which settling looks for it is among the elements that are settled, these settle
    // it as all do.
    ensures alone { (list : List ElementValue) (among : ElementValue → Bool) (id : List ℕ)
        → HaveDistinctIds list → HasAllSeen among list id
        → find (has_id id) (settled_links (filter among list))
        ≡ find (has_id id) (settled_links list) }
{}

/// Steps of links lead back: an element is as near another one as that is to it.
pub fn steps_lead_back()
    ensures { (list : List ElementValue) (n : ℕ) (e other : ElementValue)
        → HaveDistinctIds list → Contains list e → Contains list other
        → is_within n list e.id other ≡ is_within n list other.id e }
{}
