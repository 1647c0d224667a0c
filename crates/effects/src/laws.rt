//! Laws on what a command gives, for all boards. They do nothing when they run.

ghost use Rattle.std.specs.Prelude.{◌≡◌, ◌≢◌, ◌+◌, ◌⊎◌, ℕ, List, [], Option, Some, None, true, false, Contains, IsSomeAnd, bytes_eq, length, map};
ghost use Rattle.json_text.specs.declared.text.Member.{Member};
ghost use Rattle.frac_keys.specs.Rising.{are_rising, rise_between};
ghost use Rattle.elem.specs.ElementValue.{ElementValue};
ghost use Rattle.elem.specs.Order.{unstamped, HaveDistinctIds};
ghost use Rattle.elem_store.specs.Updates.{element_of, ids_of, is_taken, is_among};
ghost use Rattle.delta.specs.Headers.{value_named};
ghost use Rattle.links.specs.Entries.{arrow_entry, text_entry, lists};
ghost use Rattle.index_repair.specs.Keyed.{index_of, HaveRisingKeys, HaveKeysOrNone};
ghost use Rattle.copies.specs.Copies.{copies_of};
ghost use Rattle.view.specs.Shown.{is_live};
ghost use Rattle.effects.specs.Changed.{outcome};
ghost use Rattle.effects.specs.Copying.{copies_at, settled_for, shown_among, unplaced};
ghost use Rattle.effects.specs.Deleting.{without_names, has_gone_names};
ghost use Rattle.effects.specs.Effects.{effect, with_group, without_group};
ghost use Rattle.effects.specs.Given.{stored_after, Stays, Becomes, ChangesStored, IsNew};
ghost use Rattle.effects.specs.Keeping.{LabelKeeps, UnlabelKeeps, BindKeeps};
ghost use Rattle.effects.specs.Linking.{end_at, old_target, old_container};
ghost use Rattle.effects.specs.Placing.{gap_of, key_at, keys_at, lies_within, settled_key, with_view_key};
ghost use Rattle.effects.specs.Settings.{given_value};
ghost use Rattle.board_commands.specs.declared.command.Command.{Command};
ghost use Rattle.board_commands.specs.declared.command.Command.TheVariants as commands;
ghost use Rattle.board_commands.specs.declared.command.Side.{Side};
ghost use Rattle.board_commands.specs.declared.command.Spot.{Spot};

/// What a command gives, in the order of the ids: a store of the board's elements takes each; each
/// is of the kind of the stored element of its id, and one version on; and each differs from that
/// outside the stamp, or is new.
pub fn given_elements_are_taken()
    ensures rise { (stored shown given : List ElementValue) (command : Command) (time nonce : ℕ)
        → are_rising (ids_of stored) ≡ true → outcome stored shown command time nonce ≡ Ok given
        → are_rising (ids_of given) ≡ true }
    ensures taken { (stored shown given : List ElementValue) (command : Command) (time nonce : ℕ)
        → are_rising (ids_of stored) ≡ true → outcome stored shown command time nonce ≡ Ok given
        → (e : ElementValue) → Contains given e → is_taken stored e ≡ true }
    ensures kind { (stored shown given : List ElementValue) (command : Command) (time nonce : ℕ)
        → are_rising (ids_of stored) ≡ true → outcome stored shown command time nonce ≡ Ok given
        → (e old : ElementValue) → Contains given e → element_of stored e.id ≡ Some old
        → (old.kind ≡ e.kind) × (e.version ≡ old.version + 1) }
    ensures seen { (stored shown given : List ElementValue) (command : Command) (time nonce : ℕ)
        → are_rising (ids_of stored) ≡ true → outcome stored shown command time nonce ≡ Ok given
        → (e : ElementValue) → Contains given e → ChangesStored stored e ⊎ IsNew stored e }
{}

/// What is stored once the given elements are: of each live element what the command makes of it,
/// but for the stamp; and a deleted one stays.
pub fn effect_is_stored()
    ensures live { (stored shown given : List ElementValue) (command : Command) (time nonce : ℕ)
        → are_rising (ids_of stored) ≡ true → outcome stored shown command time nonce ≡ Ok given
        → (id : List ℕ) (old : ElementValue) → element_of stored id ≡ Some old → is_live old ≡ true
        → IsSomeAnd (stored_after stored given id)
        (λ e. unstamped e ≡ unstamped (effect stored shown command old)) }
    ensures dead { (stored shown given : List ElementValue) (command : Command) (time nonce : ℕ)
        → are_rising (ids_of stored) ≡ true → outcome stored shown command time nonce ≡ Ok given
        → (id : List ℕ) (old : ElementValue) → element_of stored id ≡ Some old → is_live old ≡ false
        → stored_after stored given id ≡ Some old }
{}

/// A bound arrow's end names the target, and the target lists the arrow; what the end alone named
/// before, if it is another element, doesn't list it. All else stays.
pub fn bind_links_both_ways()
    ensures names { (stored shown given : List ElementValue) (arrow : List ℕ) (side : Side)
        (target : List ℕ) (rest : List Member) (time nonce : ℕ)
        → are_rising (ids_of stored) ≡ true
        → outcome stored shown (commands.Bind arrow side target rest) time nonce ≡ Ok given
        → IsSomeAnd (stored_after stored given arrow)
        (λ e. end_at side e ≡ Some (record { target = target; rest = rest })) }
    ensures listed { (stored shown given : List ElementValue) (arrow : List ℕ) (side : Side)
        (target : List ℕ) (rest : List Member) (time nonce : ℕ)
        → are_rising (ids_of stored) ≡ true
        → outcome stored shown (commands.Bind arrow side target rest) time nonce ≡ Ok given
        → IsSomeAnd (stored_after stored given target)
        (λ e. lists e.bound (arrow_entry arrow) ≡ true) }
    ensures left { (stored shown given : List ElementValue) (arrow : List ℕ) (side : Side)
        (target : List ℕ) (rest : List Member) (time nonce : ℕ)
        → are_rising (ids_of stored) ≡ true
        → outcome stored shown (commands.Bind arrow side target rest) time nonce ≡ Ok given
        → (id : List ℕ) (e : ElementValue) → old_target stored arrow side ≡ Some id → id ≢ target
        → stored_after stored given id ≡ Some e → is_live e ≡ true
        → lists e.bound (arrow_entry arrow) ≡ false }
    ensures rest { (stored shown given : List ElementValue) (arrow : List ℕ) (side : Side)
        (target : List ℕ) (rest : List Member) (time nonce : ℕ)
        → are_rising (ids_of stored) ≡ true
        → outcome stored shown (commands.Bind arrow side target rest) time nonce ≡ Ok given
        → (id : List ℕ) (old : ElementValue) → element_of stored id ≡ Some old → is_live old ≡ true
        → IsSomeAnd (stored_after stored given id)
        (λ e. BindKeeps stored arrow side (Some target) old e) }
    ensures kept { (stored shown given : List ElementValue) (arrow : List ℕ) (side : Side)
        (target : List ℕ) (rest : List Member) (time nonce : ℕ)
        → are_rising (ids_of stored) ≡ true
        → outcome stored shown (commands.Bind arrow side target rest) time nonce ≡ Ok given
        → (id : List ℕ) → id ≢ arrow → id ≢ target → old_target stored arrow side ≢ Some id
        → Stays stored given id }
{}

/// An arrow's end that is unbound names nothing, and what it alone named doesn't list the arrow.
/// All else stays.
pub fn unbind_frees_the_end()
    ensures freed { (stored shown given : List ElementValue) (arrow : List ℕ) (side : Side)
        (time nonce : ℕ)
        → are_rising (ids_of stored) ≡ true
        → outcome stored shown (commands.Unbind arrow side) time nonce ≡ Ok given
        → IsSomeAnd (stored_after stored given arrow) (λ e. end_at side e ≡ None) }
    ensures left { (stored shown given : List ElementValue) (arrow : List ℕ) (side : Side)
        (time nonce : ℕ)
        → are_rising (ids_of stored) ≡ true
        → outcome stored shown (commands.Unbind arrow side) time nonce ≡ Ok given
        → (id : List ℕ) (e : ElementValue) → old_target stored arrow side ≡ Some id
        → stored_after stored given id ≡ Some e → is_live e ≡ true
        → lists e.bound (arrow_entry arrow) ≡ false }
    ensures rest { (stored shown given : List ElementValue) (arrow : List ℕ) (side : Side)
        (time nonce : ℕ)
        → are_rising (ids_of stored) ≡ true
        → outcome stored shown (commands.Unbind arrow side) time nonce ≡ Ok given
        → (id : List ℕ) (old : ElementValue) → element_of stored id ≡ Some old → is_live old ≡ true
        → IsSomeAnd (stored_after stored given id) (λ e. BindKeeps stored arrow side None old e) }
    ensures kept { (stored shown given : List ElementValue) (arrow : List ℕ) (side : Side)
        (time nonce : ℕ)
        → are_rising (ids_of stored) ≡ true
        → outcome stored shown (commands.Unbind arrow side) time nonce ≡ Ok given
        → (id : List ℕ) → id ≢ arrow → old_target stored arrow side ≢ Some id
        → Stays stored given id }
{}

/// Each element that is to be deleted is given as a deleted one, and no live element that is stored
/// then names one of them. A live one loses those names alone, and all else stays.
pub fn delete_leaves_no_names()
    ensures given { (stored shown given : List ElementValue) (ids : List (List ℕ)) (time nonce : ℕ)
        → are_rising (ids_of stored) ≡ true
        → outcome stored shown (commands.Delete ids) time nonce ≡ Ok given
        → (id : List ℕ) → Contains ids id
        → IsSomeAnd (element_of given id) (λ e. e.deleted ≡ true) }
    ensures unnamed { (stored shown given : List ElementValue) (ids : List (List ℕ))
        (time nonce : ℕ)
        → are_rising (ids_of stored) ≡ true
        → outcome stored shown (commands.Delete ids) time nonce ≡ Ok given
        → (id : List ℕ) (e : ElementValue) → stored_after stored given id ≡ Some e
        → is_live e ≡ true → has_gone_names (is_among ids) e ≡ false }
    ensures deleted { (stored shown given : List ElementValue) (ids : List (List ℕ))
        (time nonce : ℕ)
        → are_rising (ids_of stored) ≡ true
        → outcome stored shown (commands.Delete ids) time nonce ≡ Ok given
        → (id : List ℕ) → is_among ids id ≡ true
        → Becomes stored given id (λ old e. unstamped e ≡ unstamped
        (record old { deleted = true })) }
    ensures rest { (stored shown given : List ElementValue) (ids : List (List ℕ)) (time nonce : ℕ)
        → are_rising (ids_of stored) ≡ true
        → outcome stored shown (commands.Delete ids) time nonce ≡ Ok given
        → (id : List ℕ) (old : ElementValue) → element_of stored id ≡ Some old → is_live old ≡ true
        → is_among ids id ≡ false
        → IsSomeAnd (stored_after stored given id)
        (λ e. unstamped e ≡ unstamped (without_names (is_among ids) old)) }
    ensures kept { (stored shown given : List ElementValue) (ids : List (List ℕ)) (time nonce : ℕ)
        → are_rising (ids_of stored) ≡ true
        → outcome stored shown (commands.Delete ids) time nonce ≡ Ok given
        → (id : List ℕ) (old : ElementValue) → element_of stored id ≡ Some old
        → is_among ids id ≡ false → has_gone_names (is_among ids) old ≡ false
        → Stays stored given id }
{}

/// The key at a spot lies strictly between the keys beside it, and a new element and one that is
/// placed have such keys.
pub fn key_lies_at_its_spot()
    ensures key { (shown : List ElementValue) (spot : Spot) (except old : Option (List ℕ))
        → HaveRisingKeys shown → HaveKeysOrNone shown
        → lies_within (gap_of shown spot except) (key_at shown spot except old) ≡ true }
    ensures created { (stored shown given : List ElementValue) (element : ElementValue)
        (spot : Spot) (time nonce : ℕ)
        → are_rising (ids_of stored) ≡ true → HaveRisingKeys shown → HaveKeysOrNone shown
        → outcome stored shown (commands.Create element spot) time nonce ≡ Ok given
        → IsSomeAnd (element_of given element.id)
        (λ e. lies_within (gap_of shown spot None) e.index ≡ true) }
    ensures placed { (stored shown given : List ElementValue) (id : List ℕ) (spot : Spot)
        (time nonce : ℕ)
        → are_rising (ids_of stored) ≡ true → HaveRisingKeys shown → HaveKeysOrNone shown
        → outcome stored shown (commands.Place id spot) time nonce ≡ Ok given
        → IsSomeAnd (stored_after stored given id)
        (λ e. lies_within (gap_of shown spot (Some id)) e.index ≡ true) }
{}

/// Beside its place a create makes what was asked for, and a place changes nothing; each other live
/// element has its key of the view, and is else as it was.
pub fn new_keys_change_nothing_else()
    ensures created { (stored shown given : List ElementValue) (element : ElementValue)
        (spot : Spot) (time nonce : ℕ)
        → are_rising (ids_of stored) ≡ true
        → outcome stored shown (commands.Create element spot) time nonce ≡ Ok given
        → IsSomeAnd (element_of given element.id)
        (λ e. unstamped e ≡ unstamped (record element { deleted = false; index = e.index })) }
    ensures beside_created { (stored shown given : List ElementValue) (element : ElementValue)
        (spot : Spot) (time nonce : ℕ)
        → are_rising (ids_of stored) ≡ true
        → outcome stored shown (commands.Create element spot) time nonce ≡ Ok given
        → (id : List ℕ) (old : ElementValue) → element_of stored id ≡ Some old → is_live old ≡ true
        → IsSomeAnd (stored_after stored given id)
        (λ e. unstamped e ≡ unstamped (with_view_key shown old)) }
    ensures placed { (stored shown given : List ElementValue) (id : List ℕ) (spot : Spot)
        (time nonce : ℕ)
        → are_rising (ids_of stored) ≡ true
        → outcome stored shown (commands.Place id spot) time nonce ≡ Ok given
        → Becomes stored given id (λ old e. unstamped e ≡ unstamped
        (record old { index = e.index })) }
    ensures beside_placed { (stored shown given : List ElementValue) (id : List ℕ) (spot : Spot)
        (time nonce : ℕ)
        → are_rising (ids_of stored) ≡ true
        → outcome stored shown (commands.Place id spot) time nonce ≡ Ok given
        → (other : List ℕ) (old : ElementValue) → element_of stored other ≡ Some old
        → is_live old ≡ true → other ≢ id
        → IsSomeAnd (stored_after stored given other)
        (λ e. unstamped e ≡ unstamped (with_view_key shown old)) }
{}

/// Copies stand between the keys beside the spot, one above the other in the order of their
/// originals, and are else the copies of these under the prefix.
pub fn copies_stand_at_their_spot()
    ensures rise { (shown : List ElementValue) (spot : Spot) (count : ℕ)
        → HaveRisingKeys shown → HaveKeysOrNone shown
        → rise_between (gap_of shown spot None).low (gap_of shown spot None).high
        (keys_at shown spot count) ≡ true }
    ensures keys { (shown list : List ElementValue) (prefix : List ℕ) (spot : Spot) (time nonce : ℕ)
        → HaveRisingKeys shown → HaveKeysOrNone shown
        → map index_of (copies_at shown list prefix spot time nonce)
        ≡ map Some (keys_at shown spot (length list)) }
    ensures rest { (shown list : List ElementValue) (prefix : List ℕ) (spot : Spot) (time nonce : ℕ)
        → HaveRisingKeys shown → HaveKeysOrNone shown
        → map unplaced (copies_at shown list prefix spot time nonce)
        ≡ map unplaced (copies_of list prefix) }
{}

/// After a duplicate the copies of the shown elements that were named are stored, and after a paste
/// those of the given ones; nothing was stored with their ids.
pub fn copies_are_stored()
    ensures duplicated { (stored shown given : List ElementValue) (ids : List (List ℕ))
        (prefix : List ℕ) (spot : Spot) (time nonce : ℕ)
        → are_rising (ids_of stored) ≡ true → HaveDistinctIds shown
        → outcome stored shown (commands.Duplicate ids prefix spot) time nonce ≡ Ok given
        → (copy : ElementValue)
        → Contains (copies_at shown (shown_among ids shown) prefix spot time nonce) copy
        → (element_of stored copy.id ≡ None) × (stored_after stored given copy.id ≡ Some copy) }
    ensures pasted { (stored shown given elements : List ElementValue) (prefix : List ℕ)
        (spot : Spot) (time nonce : ℕ)
        → are_rising (ids_of stored) ≡ true → HaveDistinctIds elements
        → outcome stored shown (commands.Paste elements prefix spot) time nonce ≡ Ok given
        → (copy : ElementValue) → Contains (copies_at shown elements prefix spot time nonce) copy
        → (element_of stored copy.id ≡ None) × (stored_after stored given copy.id ≡ Some copy) }
{}

/// Beside the copies each live element has its key of the view, and is else as it was; what has
/// that key stays, its stamp too; and where nothing is copied, all stays.
pub fn copies_change_nothing_else()
    ensures duplicated { (stored shown given : List ElementValue) (ids : List (List ℕ))
        (prefix : List ℕ) (spot : Spot) (time nonce : ℕ)
        → are_rising (ids_of stored) ≡ true
        → outcome stored shown (commands.Duplicate ids prefix spot) time nonce ≡ Ok given
        → (id : List ℕ) (old : ElementValue) → element_of stored id ≡ Some old → is_live old ≡ true
        → IsSomeAnd (stored_after stored given id)
        (λ e. unstamped e ≡ unstamped (with_view_key (settled_for (shown_among ids shown) shown)
        old)) }
    ensures pasted { (stored shown given elements : List ElementValue) (prefix : List ℕ)
        (spot : Spot) (time nonce : ℕ)
        → are_rising (ids_of stored) ≡ true
        → outcome stored shown (commands.Paste elements prefix spot) time nonce ≡ Ok given
        → (id : List ℕ) (old : ElementValue) → element_of stored id ≡ Some old → is_live old ≡ true
        → IsSomeAnd (stored_after stored given id)
        (λ e. unstamped e ≡ unstamped (with_view_key (settled_for elements shown) old)) }
    ensures kept_beside_duplicated { (stored shown given : List ElementValue) (ids : List (List ℕ))
        (prefix : List ℕ) (spot : Spot) (time nonce : ℕ)
        → are_rising (ids_of stored) ≡ true
        → outcome stored shown (commands.Duplicate ids prefix spot) time nonce ≡ Ok given
        → (id : List ℕ) (old : ElementValue) → element_of stored id ≡ Some old
        → settled_key (settled_for (shown_among ids shown) shown) old ≡ old.index
        → Stays stored given id }
    ensures kept_beside_pasted { (stored shown given elements : List ElementValue) (prefix : List ℕ)
        (spot : Spot) (time nonce : ℕ)
        → are_rising (ids_of stored) ≡ true
        → outcome stored shown (commands.Paste elements prefix spot) time nonce ≡ Ok given
        → (id : List ℕ) (old : ElementValue) → element_of stored id ≡ Some old
        → settled_key (settled_for elements shown) old ≡ old.index → Stays stored given id }
    ensures none_duplicated { (stored shown given : List ElementValue) (ids : List (List ℕ))
        (prefix : List ℕ) (spot : Spot) (time nonce : ℕ)
        → are_rising (ids_of stored) ≡ true → shown_among ids shown ≡ []
        → outcome stored shown (commands.Duplicate ids prefix spot) time nonce ≡ Ok given
        → (id : List ℕ) → Stays stored given id }
    ensures none_pasted { (stored shown given : List ElementValue) (prefix : List ℕ) (spot : Spot)
        (time nonce : ℕ)
        → are_rising (ids_of stored) ≡ true
        → outcome stored shown (commands.Paste [] prefix spot) time nonce ≡ Ok given
        → (id : List ℕ) → Stays stored given id }
{}

/// After a label the text names the container, no other live element does, and of texts the
/// container lists this one alone; what the text named before, if it is another element, doesn't
/// list it. All else stays.
pub fn label_joins_text_and_container()
    ensures names { (stored shown given : List ElementValue) (container text : List ℕ)
        (time nonce : ℕ)
        → are_rising (ids_of stored) ≡ true
        → outcome stored shown (commands.Label container text) time nonce ≡ Ok given
        → IsSomeAnd (stored_after stored given text) (λ e. e.container ≡ Some container) }
    ensures listed { (stored shown given : List ElementValue) (container text : List ℕ)
        (time nonce : ℕ)
        → are_rising (ids_of stored) ≡ true
        → outcome stored shown (commands.Label container text) time nonce ≡ Ok given
        → (other : List ℕ)
        → IsSomeAnd (stored_after stored given container)
        (λ e. lists e.bound (text_entry other) ≡ bytes_eq other text) }
    ensures only { (stored shown given : List ElementValue) (container text : List ℕ)
        (time nonce : ℕ)
        → are_rising (ids_of stored) ≡ true
        → outcome stored shown (commands.Label container text) time nonce ≡ Ok given
        → (id : List ℕ) (e : ElementValue) → stored_after stored given id ≡ Some e
        → is_live e ≡ true → e.container ≡ Some container → id ≡ text }
    ensures left { (stored shown given : List ElementValue) (container text : List ℕ)
        (time nonce : ℕ)
        → are_rising (ids_of stored) ≡ true
        → outcome stored shown (commands.Label container text) time nonce ≡ Ok given
        → (id : List ℕ) (e : ElementValue) → old_container stored text ≡ Some id → id ≢ container
        → stored_after stored given id ≡ Some e → is_live e ≡ true
        → lists e.bound (text_entry text) ≡ false }
    ensures rest { (stored shown given : List ElementValue) (container text : List ℕ)
        (time nonce : ℕ)
        → are_rising (ids_of stored) ≡ true
        → outcome stored shown (commands.Label container text) time nonce ≡ Ok given
        → (id : List ℕ) (old : ElementValue) → element_of stored id ≡ Some old → is_live old ≡ true
        → IsSomeAnd (stored_after stored given id) (λ e. LabelKeeps stored container text old e) }
    ensures kept { (stored shown given : List ElementValue) (container text : List ℕ)
        (time nonce : ℕ)
        → are_rising (ids_of stored) ≡ true
        → outcome stored shown (commands.Label container text) time nonce ≡ Ok given
        → (id : List ℕ) → id ≢ text → id ≢ container → old_container stored text ≢ Some id
        → old_container stored id ≢ Some container → Stays stored given id }
{}

/// After an unlabel the text names no container, and what it named doesn't list it. All else stays.
pub fn unlabel_parts_text_and_container()
    ensures freed { (stored shown given : List ElementValue) (text : List ℕ) (time nonce : ℕ)
        → are_rising (ids_of stored) ≡ true
        → outcome stored shown (commands.Unlabel text) time nonce ≡ Ok given
        → IsSomeAnd (stored_after stored given text) (λ e. e.container ≡ None) }
    ensures left { (stored shown given : List ElementValue) (text : List ℕ) (time nonce : ℕ)
        → are_rising (ids_of stored) ≡ true
        → outcome stored shown (commands.Unlabel text) time nonce ≡ Ok given
        → (id : List ℕ) (e : ElementValue) → old_container stored text ≡ Some id
        → stored_after stored given id ≡ Some e → is_live e ≡ true
        → lists e.bound (text_entry text) ≡ false }
    ensures rest { (stored shown given : List ElementValue) (text : List ℕ) (time nonce : ℕ)
        → are_rising (ids_of stored) ≡ true
        → outcome stored shown (commands.Unlabel text) time nonce ≡ Ok given
        → (id : List ℕ) (old : ElementValue) → element_of stored id ≡ Some old → is_live old ≡ true
        → IsSomeAnd (stored_after stored given id) (λ e. UnlabelKeeps stored text old e) }
    ensures kept { (stored shown given : List ElementValue) (text : List ℕ) (time nonce : ℕ)
        → are_rising (ids_of stored) ≡ true
        → outcome stored shown (commands.Unlabel text) time nonce ≡ Ok given
        → (id : List ℕ) → id ≢ text → old_container stored text ≢ Some id → Stays stored given id }
{}

/// A set changes one member of one element: it has the value, or the default for null; each other
/// member and each other element stays.
pub fn set_changes_one_member()
    ensures given { (stored shown given : List ElementValue) (id member value : List ℕ)
        (time nonce : ℕ)
        → are_rising (ids_of stored) ≡ true
        → outcome stored shown (commands.Set id member value) time nonce ≡ Ok given
        → IsSomeAnd (stored_after stored given id)
        (λ e. value_named member e.rest ≡ Some (given_value member value)) }
    ensures others { (stored shown given : List ElementValue) (id member value : List ℕ)
        (time nonce : ℕ)
        → are_rising (ids_of stored) ≡ true
        → outcome stored shown (commands.Set id member value) time nonce ≡ Ok given
        → (other : List ℕ) → other ≢ member
        → Becomes stored given id (λ old e. value_named other e.rest ≡ value_named other old.rest) }
    ensures headers { (stored shown given : List ElementValue) (id member value : List ℕ)
        (time nonce : ℕ)
        → are_rising (ids_of stored) ≡ true
        → outcome stored shown (commands.Set id member value) time nonce ≡ Ok given
        → Becomes stored given id (λ old e. unstamped e ≡ unstamped
        (record old { rest = e.rest })) }
    ensures kept { (stored shown given : List ElementValue) (id member value : List ℕ)
        (time nonce : ℕ)
        → are_rising (ids_of stored) ≡ true
        → outcome stored shown (commands.Set id member value) time nonce ≡ Ok given
        → (other : List ℕ) → other ≢ id → Stays stored given other }
{}

/// After a frame each named element is in that frame, and nothing else changes.
pub fn frame_puts_in_frame()
    ensures framed { (stored shown given : List ElementValue) (ids : List (List ℕ))
        (frame : List ℕ) (time nonce : ℕ)
        → are_rising (ids_of stored) ≡ true
        → outcome stored shown (commands.Frame ids frame) time nonce ≡ Ok given
        → (id : List ℕ) → is_among ids id ≡ true
        → Becomes stored given id (λ old e. unstamped e ≡ unstamped
        (record old { frame = Some frame })) }
    ensures kept { (stored shown given : List ElementValue) (ids : List (List ℕ)) (frame : List ℕ)
        (time nonce : ℕ)
        → are_rising (ids_of stored) ≡ true
        → outcome stored shown (commands.Frame ids frame) time nonce ≡ Ok given
        → (id : List ℕ) → is_among ids id ≡ false → Stays stored given id }
{}

/// After an unframe each named element is in no frame, and nothing else changes.
pub fn unframe_takes_out_of_frames()
    ensures freed { (stored shown given : List ElementValue) (ids : List (List ℕ)) (time nonce : ℕ)
        → are_rising (ids_of stored) ≡ true
        → outcome stored shown (commands.Unframe ids) time nonce ≡ Ok given
        → (id : List ℕ) → is_among ids id ≡ true
        → Becomes stored given id (λ old e. unstamped e ≡ unstamped (record old { frame = None })) }
    ensures kept { (stored shown given : List ElementValue) (ids : List (List ℕ)) (time nonce : ℕ)
        → are_rising (ids_of stored) ≡ true
        → outcome stored shown (commands.Unframe ids) time nonce ≡ Ok given
        → (id : List ℕ) → is_among ids id ≡ false → Stays stored given id }
{}

/// After a group each named element has the group, as the last one where it was missing, and
/// nothing else changes.
pub fn group_adds_one_group()
    ensures grouped { (stored shown given : List ElementValue) (ids : List (List ℕ))
        (group : List ℕ) (time nonce : ℕ)
        → are_rising (ids_of stored) ≡ true
        → outcome stored shown (commands.Group ids group) time nonce ≡ Ok given
        → (id : List ℕ) → is_among ids id ≡ true
        → IsSomeAnd (stored_after stored given id) (λ e. is_among e.groups group ≡ true) }
    ensures rest { (stored shown given : List ElementValue) (ids : List (List ℕ)) (group : List ℕ)
        (time nonce : ℕ)
        → are_rising (ids_of stored) ≡ true
        → outcome stored shown (commands.Group ids group) time nonce ≡ Ok given
        → (id : List ℕ) → is_among ids id ≡ true
        → Becomes stored given id (λ old e. unstamped e ≡ unstamped
        (record old { groups = with_group group old.groups })) }
    ensures kept { (stored shown given : List ElementValue) (ids : List (List ℕ)) (group : List ℕ)
        (time nonce : ℕ)
        → are_rising (ids_of stored) ≡ true
        → outcome stored shown (commands.Group ids group) time nonce ≡ Ok given
        → (id : List ℕ) → is_among ids id ≡ false → Stays stored given id }
{}

/// After an ungroup no named element has the group; its other groups stay in their order, and
/// nothing else changes.
pub fn ungroup_drops_one_group()
    ensures gone { (stored shown given : List ElementValue) (ids : List (List ℕ)) (group : List ℕ)
        (time nonce : ℕ)
        → are_rising (ids_of stored) ≡ true
        → outcome stored shown (commands.Ungroup ids group) time nonce ≡ Ok given
        → (id : List ℕ) → is_among ids id ≡ true
        → IsSomeAnd (stored_after stored given id) (λ e. is_among e.groups group ≡ false) }
    ensures rest { (stored shown given : List ElementValue) (ids : List (List ℕ)) (group : List ℕ)
        (time nonce : ℕ)
        → are_rising (ids_of stored) ≡ true
        → outcome stored shown (commands.Ungroup ids group) time nonce ≡ Ok given
        → (id : List ℕ) → is_among ids id ≡ true
        → Becomes stored given id (λ old e. unstamped e ≡ unstamped
        (record old { groups = without_group group old.groups })) }
    ensures kept { (stored shown given : List ElementValue) (ids : List (List ℕ)) (group : List ℕ)
        (time nonce : ℕ)
        → are_rising (ids_of stored) ≡ true
        → outcome stored shown (commands.Ungroup ids group) time nonce ≡ Ok given
        → (id : List ℕ) → is_among ids id ≡ false → Stays stored given id }
{}
