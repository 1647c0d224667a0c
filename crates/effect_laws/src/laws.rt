//! Laws on what a command gives, for all boards and commands. They do nothing when they run.

ghost use Rattle.std.specs.Prelude.{◌≡◌, ◌≢◌, ◌≤◌, ℕ, List, Ok, None, Some, true, false, Contains, IsSomeAnd};
ghost use Rattle.frac_keys.specs.Rising.{are_rising};
ghost use Rattle.elem.specs.ElementValue.{ElementValue};
ghost use Rattle.elem.specs.Facts.{greatest_whole};
ghost use Rattle.elem.specs.Order.{HaveDistinctIds};
ghost use Rattle.elem.specs.Said.{AreElements};
ghost use Rattle.elem.specs.Stamp.{stamped};
ghost use Rattle.elem_store.specs.Updates.{element_of, ids_of, is_among};
ghost use Rattle.index_repair.specs.Keyed.{HaveRisingKeys};
ghost use Rattle.view.specs.Shown.{is_live, live_elements, shown};
ghost use Rattle.board_commands.specs.declared.command.Command.{Command};
ghost use Rattle.board_commands.specs.declared.command.Command.TheVariants as commands;
ghost use Rattle.board_commands.specs.declared.command.Spot.{Spot};
ghost use Rattle.effects.specs.Changed.{created, outcome};
ghost use Rattle.effects.specs.Copying.{settled_for, shown_among};
ghost use Rattle.effects.specs.Effects.{effect};
ghost use Rattle.effects.specs.Given.{stored_after, Stays};
ghost use Rattle.effects.specs.Placing.{gap_of, lies_within, settled_key, with_view_key};
ghost use Rattle.board_commands.specs.Limits.{IsWithinLimits};
ghost use Rattle.board_commands.specs.Written.{IsWrittenCommand};
ghost use Rattle.effect_laws.specs.Standing.{StandsAt};

/// What a command gives on a board of elements are elements.
pub fn given_are_elements()
    ensures { (stored given : List ElementValue) (command : Command) (time nonce : ℕ)
        → AreElements stored → IsWithinLimits command → IsWrittenCommand command
        → time ≤ greatest_whole → nonce ≤ greatest_whole
        → outcome stored (shown (live_elements stored)) command time nonce ≡ Ok given
        → AreElements given }
{}

/// Each element that a command gives has the time and the nonce of the command. If an element was
/// stored with its id, it is what the command makes of that, stamped.
pub fn given_elements_are_stamped()
    ensures time { (stored shown given : List ElementValue) (command : Command) (time nonce : ℕ)
        → are_rising (ids_of stored) ≡ true → outcome stored shown command time nonce ≡ Ok given
        → (e : ElementValue) → Contains given e → e.updated ≡ time }
    ensures nonce { (stored shown given : List ElementValue) (command : Command) (time nonce : ℕ)
        → are_rising (ids_of stored) ≡ true → outcome stored shown command time nonce ≡ Ok given
        → (e : ElementValue) → Contains given e → e.nonce ≡ nonce }
    ensures change { (stored shown given : List ElementValue) (command : Command) (time nonce : ℕ)
        → are_rising (ids_of stored) ≡ true → outcome stored shown command time nonce ≡ Ok given
        → (e old : ElementValue) → Contains given e → element_of stored e.id ≡ Some old
        → e ≡ stamped time nonce (effect stored shown command old) }
{}

/// Nothing else is new: if no element was stored with an id, and it isn't that of a new element of
/// the command, none is stored with it afterwards. The new element of a create is the one that was
/// asked for.
pub fn nothing_else_is_new()
    ensures each { (stored shown given : List ElementValue) (command : Command) (time nonce : ℕ)
        → are_rising (ids_of stored) ≡ true → outcome stored shown command time nonce ≡ Ok given
        → (id : List ℕ) → element_of stored id ≡ None
        → is_among (ids_of (created shown command time nonce)) id ≡ false → Stays stored given id }
    ensures beside_created { (stored shown given : List ElementValue) (element : ElementValue)
        (spot : Spot) (time nonce : ℕ)
        → are_rising (ids_of stored) ≡ true
        → outcome stored shown (commands.Create element spot) time nonce ≡ Ok given
        → (id : List ℕ) → element_of stored id ≡ None → id ≢ element.id → Stays stored given id }
{}

/// An element keeps its key of the view if it is placed at a spot within whose gap that key lies.
/// If that key is also the stored one, the element stays, its stamp too.
pub fn key_stays_at_its_spot()
    ensures key { (stored shown given : List ElementValue) (id : List ℕ) (spot : Spot)
        (time nonce : ℕ)
        → are_rising (ids_of stored) ≡ true
        → outcome stored shown (commands.Place id spot) time nonce ≡ Ok given
        → (seen : ElementValue) → element_of shown id ≡ Some seen
        → lies_within (gap_of shown spot (Some id)) seen.index ≡ true
        → IsSomeAnd (stored_after stored given id) (λ e. e.index ≡ seen.index) }
    ensures kept { (stored shown given : List ElementValue) (id : List ℕ) (spot : Spot)
        (time nonce : ℕ)
        → are_rising (ids_of stored) ≡ true
        → outcome stored shown (commands.Place id spot) time nonce ≡ Ok given
        → (old seen : ElementValue) → element_of stored id ≡ Some old
        → element_of shown id ≡ Some seen
        → lies_within (gap_of shown spot (Some id)) seen.index ≡ true → seen.index ≡ old.index
        → Stays stored given id }
{
    effects::laws::effect_is_stored();
}

/// An element keeps its key of the view if it is placed where it stands: as the lowest one, as the
/// topmost one, or as the next one above the element that the spot names. If that key is also the
/// stored one, the element stays, its stamp too.
pub fn place_leaves_what_stands_there()
    ensures key { (stored shown given : List ElementValue) (seen : ElementValue) (spot : Spot)
        (time nonce : ℕ)
        → are_rising (ids_of stored) ≡ true → HaveRisingKeys shown → HaveDistinctIds shown
        → outcome stored shown (commands.Place seen.id spot) time nonce ≡ Ok given
        → StandsAt shown seen spot
        → IsSomeAnd (stored_after stored given seen.id) (λ e. e.index ≡ seen.index) }
    ensures kept { (stored shown given : List ElementValue) (seen old : ElementValue) (spot : Spot)
        (time nonce : ℕ)
        → are_rising (ids_of stored) ≡ true → HaveRisingKeys shown → HaveDistinctIds shown
        → outcome stored shown (commands.Place seen.id spot) time nonce ≡ Ok given
        → StandsAt shown seen spot → element_of stored seen.id ≡ Some old
        → seen.index ≡ old.index → Stays stored given seen.id }
{
    key_stays_at_its_spot();
}

/// Beside what is created, placed or copied, keys settle. Each live element whose key of the view
/// isn't the stored one is given with that key, with the time and the nonce of the command, and one
/// version on; it is else as it was. Each element that has that key already stays, its stamp too.
pub fn settled_keys_are_stamped()
    ensures beside_created { (stored shown given : List ElementValue) (element : ElementValue)
        (spot : Spot) (time nonce : ℕ)
        → are_rising (ids_of stored) ≡ true
        → outcome stored shown (commands.Create element spot) time nonce ≡ Ok given
        → (id : List ℕ) (old : ElementValue) → element_of stored id ≡ Some old → is_live old ≡ true
        → settled_key shown old ≢ old.index
        → element_of given id ≡ Some (stamped time nonce (with_view_key shown old)) }
    ensures beside_placed { (stored shown given : List ElementValue) (id : List ℕ) (spot : Spot)
        (time nonce : ℕ)
        → are_rising (ids_of stored) ≡ true
        → outcome stored shown (commands.Place id spot) time nonce ≡ Ok given
        → (other : List ℕ) (old : ElementValue) → element_of stored other ≡ Some old
        → is_live old ≡ true → other ≢ id → settled_key shown old ≢ old.index
        → element_of given other ≡ Some (stamped time nonce (with_view_key shown old)) }
    ensures beside_duplicated { (stored shown given : List ElementValue) (ids : List (List ℕ))
        (prefix : List ℕ) (spot : Spot) (time nonce : ℕ)
        → are_rising (ids_of stored) ≡ true
        → outcome stored shown (commands.Duplicate ids prefix spot) time nonce ≡ Ok given
        → (id : List ℕ) (old : ElementValue) → element_of stored id ≡ Some old → is_live old ≡ true
        → settled_key (settled_for (shown_among ids shown) shown) old ≢ old.index
        → element_of given id ≡ Some (stamped time nonce
        (with_view_key (settled_for (shown_among ids shown) shown) old)) }
    ensures beside_pasted { (stored shown given elements : List ElementValue) (prefix : List ℕ)
        (spot : Spot) (time nonce : ℕ)
        → are_rising (ids_of stored) ≡ true
        → outcome stored shown (commands.Paste elements prefix spot) time nonce ≡ Ok given
        → (id : List ℕ) (old : ElementValue) → element_of stored id ≡ Some old → is_live old ≡ true
        → settled_key (settled_for elements shown) old ≢ old.index
        → element_of given id ≡ Some (stamped time nonce
        (with_view_key (settled_for elements shown) old)) }
    ensures kept_beside_created { (stored shown given : List ElementValue) (element : ElementValue)
        (spot : Spot) (time nonce : ℕ)
        → are_rising (ids_of stored) ≡ true
        → outcome stored shown (commands.Create element spot) time nonce ≡ Ok given
        → (id : List ℕ) (old : ElementValue) → element_of stored id ≡ Some old
        → settled_key shown old ≡ old.index → Stays stored given id }
    ensures kept_beside_placed { (stored shown given : List ElementValue) (id : List ℕ)
        (spot : Spot) (time nonce : ℕ)
        → are_rising (ids_of stored) ≡ true
        → outcome stored shown (commands.Place id spot) time nonce ≡ Ok given
        → (other : List ℕ) (old : ElementValue) → element_of stored other ≡ Some old → other ≢ id
        → settled_key shown old ≡ old.index → Stays stored given other }
{
    effects::laws::effect_is_stored();
}

/// After a label each other live element that named the container names none.
pub fn label_frees_the_others()
    ensures { (stored shown given : List ElementValue) (container text : List ℕ) (time nonce : ℕ)
        → are_rising (ids_of stored) ≡ true
        → outcome stored shown (commands.Label container text) time nonce ≡ Ok given
        → (id : List ℕ) (old : ElementValue) → element_of stored id ≡ Some old → is_live old ≡ true
        → id ≢ text → old.container ≡ Some container
        → IsSomeAnd (stored_after stored given id) (λ e. e.container ≡ None) }
{
    effects::laws::effect_is_stored();
}
