//! Laws on what settling makes of one element, for all lists of elements. They do nothing when they
//! run.

ghost use Rattle.std.specs.Prelude.{◌≡◌, ℕ, List, Bool, filter, map};
ghost use Rattle.elem.specs.ElementValue.{ElementValue};
ghost use Rattle.view.specs.Settled.{settled};
ghost use Rattle.elem.specs.Order.{HaveDistinctIds};
ghost use Rattle.view.specs.Shown.{without_index};
ghost use Rattle.view.specs.Steps.{is_framed, settled_of, settled_but_for_key, AreAlikeNear, HasAllLinked, HasAllNear, HasAllSeenFramed, LookAlikeFramed};

/// What texts, arrows, frames and groups make of an element depends on the elements at most three
/// steps of links from it, and on whether there is a frame of the id that it names as its frame:
/// where these are the same but for their keys, and in the same order, in two lists, settling makes
/// the same of the element in both, but for its key. Three steps are enough, since an arrow looks
/// at its target, at the container that the target names, and at the other texts that name this
/// container. What else its frame holds, and what it holds as a frame, plays no part.
pub fn three_steps_are_enough()
    ensures alike { (list other : List ElementValue) (id : List ℕ)
        → HaveDistinctIds list → HaveDistinctIds other → AreAlikeNear list other id
        → settled_but_for_key list id ≡ settled_but_for_key other id }

    // Settling some of the elements makes of one what settling all makes of it, if those near it
    // and its frame are among them.
    ensures alone { (list : List ElementValue) (among : ElementValue → Bool) (id : List ℕ)
        → HaveDistinctIds list → HasAllNear among list id
        → settled_of (filter among list) id ≡ settled_of list id }

    // Where some elements of two lists are the same but for their keys, and in the same order,
    // those linked to one are among them in both lists, and this one keeps its frame name in both
    // or in none, settling makes the same of it in both, but for its key.
    ensures unchanged { (list other : List ElementValue) (among : ElementValue → Bool) (id : List ℕ)
        → HaveDistinctIds list → HaveDistinctIds other
        → map without_index (filter among list) ≡ map without_index (filter among other)
        → HasAllLinked among list id → HasAllLinked among other id
        → is_framed list id ≡ is_framed other id
        → settled_but_for_key list id ≡ settled_but_for_key other id }
{}

/// Of what is at most three steps of links away, much plays no part: settling looks at an element;
/// at the arrows and texts that name it; at its container, if it is a text, and the texts that name
/// this; at the kind of what its ends name, and at a text among these, with its container; and at
/// its frame. At the other arrows that are bound to what its ends name it doesn't look, nor at the
/// listing of that, unless it is a text.
pub fn what_is_seen_is_enough()
    // Where two lists look alike to an element but for keys, settling makes the same of it in both,
    // but for its key.
    ensures alike { (list other : List ElementValue) (id : List ℕ)
        → HaveDistinctIds list → HaveDistinctIds other → LookAlikeFramed list other id
        → settled_but_for_key list id ≡ settled_but_for_key other id }

    // Settling some of the elements makes of one what settling all makes of it, if all at which it
    // looks for this one is among them.
    ensures alone { (list : List ElementValue) (among : ElementValue → Bool) (id : List ℕ)
        → HaveDistinctIds list → HasAllSeenFramed among list id
        → settled_of (filter among list) id ≡ settled_of list id }
{}

/// Keys play no part in settling.
pub fn keys_play_no_part()
    ensures { (list : List ElementValue) → settled (map without_index list)
        ≡ map without_index (settled list) }
{}
