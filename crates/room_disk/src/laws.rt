//! Laws on journals and on what a room resumes with, for all of them. They do nothing when they
//! run.

ghost use Rattle.std.specs.Prelude.{◌≡◌, ◌≢◌, ◌⊎◌, ℕ, Bool, List, [], ◌++◌, flat_map, map, true, All, Contains, Some, None, Result, Ok};
ghost use Rattle.std.specs.List.{list_all};
ghost use Rattle.frac_keys.specs.Between.{keys_between};
ghost use Rattle.frac_keys.specs.Rising.{are_rising, is_key_or_none, rise_between};
ghost use Rattle.elem.specs.ElementValue.{ElementValue};
ghost use Rattle.elem.specs.Order.{beats};
ghost use Rattle.elem_read.specs.Reading.{IsWholeElement};
ghost use Rattle.elem_store.specs.Updates.{AreStored, ids_of};
ghost use Rattle.board_ends.specs.Ends.{LinksEnd, SinkEnd};
ghost use Rattle.board_ends.specs.declared.links.LinkEvent.{LinkEvent};
ghost use Rattle.room_core.specs.Closing.{TellAll};
ghost use Rattle.room_core.specs.Members.{AreSteps, member_updates};
ghost use Rattle.room_core.specs.Rooms.{RoomState, is_among};
ghost use Rattle.room_core.specs.Serving.{Serving, Round, at_start, serving_at, steps_of};
ghost use Rattle.room_core.specs.declared.limits.RoomLimits.{RoomLimits};
ghost use Rattle.index_repair.specs.Keyed.{HaveKeysOrNone, index_of, with_index};
ghost use Rattle.view.specs.Shown.{in_scene_order, live_elements};
ghost use Rattle.scene_file.specs.Heads.{Heading};
ghost use Rattle.scene_file.specs.Whole.{IsWholeHead, HaveKeys};
ghost use Rattle.room_disk.specs.Chains.{Run, AreChained, IsKeptIn, kept_in};
ghost use Rattle.room_disk.specs.Closing.{LeadToKeptClose};
ghost use Rattle.room_disk.specs.Keeping.{AreKeptRounds, IsKept, messages_of};
ghost use Rattle.room_disk.specs.Records.{records_of, bytes_of};
ghost use Rattle.room_disk.specs.Recovering.{Recovered, IsRecoveredAs};
ghost use Rattle.room_disk.specs.Resuming.{greatest_key, resumed, keyless_count, new_keys, AreFilled, IsAtMost};
ghost use Rattle.room_disk.specs.Scripts.{HasKeptTrace};
ghost use Rattle.room_disk.specs.Stops.{IsOpening, IsAnswerAfter};
ghost use Rattle.room_disk.specs.declared.fault.KeepFault.{KeepFault};
ghost use Rattle.room_disk.specs.declared.keep_end.KeepEnd.{KeepEnd};

/// What is recovered of bytes is one head and one store, where it is any.
pub fn recovered_is_unique()
    ensures { (bytes : List ℕ) (found : Recovered) (answer : Result Recovered KeepFault)
        → IsRecoveredAs bytes (Ok found) → IsRecoveredAs bytes answer → answer ≡ Ok found }
{}

/// What is recovered is whole.
pub fn recovered_is_whole()
    ensures head { (bytes : List ℕ) (found : Recovered) → IsRecoveredAs bytes (Ok found)
        → IsWholeHead found.head }
    ensures elements { (bytes : List ℕ) (found : Recovered)
        → IsRecoveredAs bytes (Ok found) → All IsWholeElement found.elements }
{
    room_msg::laws::read_messages_are_whole();
}

/// Whatever first part is left of the records of a run, it is recovered to the opening head and the
/// store of the opening elements and then of the first messages, of which there are at least as many
/// as records are whole behind the first one; or to nothing, where that one isn't whole.
pub fn first_records_are_recovered()
    ensures { (head : Heading) (stored : List ElementValue) (messages : List (List ElementValue))
        (left lost : List ℕ)
        (answer : Result Recovered KeepFault)
        → IsOpening head stored → All (All IsWholeElement) messages
        → bytes_of (records_of head stored messages) ≡ left ++ lost → IsRecoveredAs left answer
        → IsAnswerAfter head stored messages left answer }
{
    room_msg::laws::text_is_read_back();
    elem_store::laws::stores_join();
}

/// The rounds of a durable room are steps of it, as those of every room that is served. What is
/// told of the members of rooms by their steps holds of it.
pub fn kept_rounds_are_steps()
    ensures { (limits : RoomLimits) (now : Serving) (count : ℕ) (rounds : List Round)
        → AreKeptRounds limits now count rounds
        → AreSteps now.room (steps_of rounds) (serving_at now rounds).room }
{}

/// What the updates of a joined link store is what a durable room stores, from a room without links
/// on.
pub fn member_stores_the_kept_room()
    ensures { (limits : RoomLimits) (room : RoomState) (rounds : List Round) (link : ℕ)
        → room.joined ≡ [] → are_rising (ids_of room.elements) ≡ true
        → AreKeptRounds limits (at_start room) 0 rounds
        → is_among (serving_at (at_start room) rounds).room.joined link ≡ true
        → AreStored (member_updates link room [] (steps_of rounds))
        (serving_at (at_start room) rounds).room.elements }
{
    room_core::laws::member_stores_the_room();
    kept_rounds_are_steps();
}

/// What a durable room stores is what is stored of the updates that it began with and then of those
/// of its messages, whose records its journal took: so what is recovered of the whole journal is
/// what it stored at its end.
pub fn kept_room_stores_its_messages()
    ensures { (limits : RoomLimits) (now : Serving) (count : ℕ) (rounds : List Round)
        (updates : List ElementValue) → AreKeptRounds limits now count rounds
        → AreStored updates now.room.elements
        → AreStored (updates ++ flat_map (λ (es : List ElementValue). es) (messages_of rounds))
        (serving_at now rounds).room.elements }
{}

/// Where the links tell rounds of a durable room within the limits, after which a link was opened
/// and none is joined, that ends the room, unless memory is wanted, or the links or the journal
/// fail. What rooms store plays no part.
pub fn closing_ends_a_kept_room()
    ensures { (limits : RoomLimits) (head : Heading) (port : ℕ) (room other new : RoomState)
        (before after : LinksEnd) (journal journal_after : SinkEnd) (end : KeepEnd)
        → room.joined ≡ other.joined → LeadToKeptClose limits (at_start room) before after
        → IsKept limits head port other new before after journal journal_after end
        → (end ≡ KeepEnd.AllClosed) ⊎ ((end ≡ KeepEnd.Memory)
        ⊎ ((end ≡ KeepEnd.LinkFault) ⊎ (end ≡ KeepEnd.JournalFault))) }
{}

/// A durable room has one trace. If the links reveal everything and the stored ids rise, two accounts
/// of what they revealed are the same, with the same room at the end and the same end, if neither
/// ends because allocation fails. What their journals hold plays no part.
pub fn keeping_is_unique()
    ensures { (limits : RoomLimits) (head : Heading) (port : ℕ) (room new other : RoomState)
        (before after : LinksEnd) (journal journal_after second second_after : SinkEnd)
        (end last : KeepEnd)
        → are_rising (ids_of room.elements) ≡ true → TellAll before
        → end ≢ KeepEnd.Memory → last ≢ KeepEnd.Memory
        → (one : IsKept limits head port room new before after journal journal_after end)
        (two : IsKept limits head port room other before after second second_after last)
        → (one.account ≡ two.account) × (new ≡ other) × (end ≡ last) }
{}

/// Every script of events has a trace of a durable room whose stored ids rise, whichever texts find
/// their link gone. The room comes to an end by itself, with whole rounds before it.
pub fn every_script_has_a_kept_trace()
    ensures { (limits : RoomLimits) (room : RoomState) (script : List LinkEvent) (is_lost : ℕ
        → Bool)
        → are_rising (ids_of room.elements) ≡ true → HasKeptTrace limits room script is_lost }
{
    room_msg::laws::reading_exists();
}

/// Over any chain of runs, each resumed from what was recovered of what a stop left of the one
/// before, nothing is lost that was kept in any of them: each update that was told is stored at the
/// end, or one of its id that beats it. It with the key that a restart gave it beats it.
pub fn nothing_kept_is_lost()
    ensures { (first last : Recovered) (runs : List Run) (e : ElementValue)
        → All IsWholeElement first.elements → are_rising (ids_of first.elements) ≡ true
        → AreChained first runs last → Contains (kept_in first runs) e → IsKeptIn last.elements e }
{
    elem::laws::beats_is_an_order();
    elem::laws::text_tells_the_element();
    elem_read::laws::what_is_read_is_an_element();
}

/// A key in place of none makes an element beat what it was.
pub fn new_keys_beat_none()
    ensures { (e : ElementValue) (key : List ℕ) → e.index ≡ None
        → beats (with_index e key) e ≡ true }
{}

/// A room resumes with the same ids, each element with a key: those that had one stay, and the
/// others differ in their key alone. They are whole where they were.
pub fn resumed_elements_have_keys()
    ensures ids { (elements : List ElementValue) → ids_of (resumed elements) ≡ ids_of elements }
    ensures keys { (elements : List ElementValue) → HaveKeys (resumed elements) }
    ensures filled { (elements : List ElementValue) → AreFilled elements (resumed elements) }
    ensures whole { (elements : List ElementValue)
        → All IsWholeElement elements → All IsWholeElement (resumed elements) }
{}

/// The layers stay: the ids of what a room resumes with are in the same scene order as before, and
/// so are those of its live elements, which a view is made of.
pub fn layers_stay()
    ensures all { (elements : List ElementValue)
        → are_rising (ids_of elements) ≡ true → HaveKeysOrNone elements
        → ids_of (in_scene_order (resumed elements)) ≡ ids_of (in_scene_order elements) }
    ensures live { (elements : List ElementValue)
        → are_rising (ids_of elements) ≡ true → HaveKeysOrNone elements
        → ids_of (in_scene_order (live_elements (resumed elements)))
        ≡ ids_of (in_scene_order (live_elements elements)) }
{}

/// The new keys are those between the greatest key and none, in the order of the ids. They rise,
/// and every key that was there is at most the greatest one, above which they lie.
pub fn new_keys_lie_above()
    ensures new { (elements : List ElementValue) → new_keys elements (resumed elements)
        ≡ map Some (keys_between (greatest_key None elements) None (keyless_count elements)) }
    ensures rise { (elements : List ElementValue)
        → list_all is_key_or_none (map index_of elements) ≡ true
        → rise_between (greatest_key None elements) None
        (keys_between (greatest_key None elements) None (keyless_count elements)) ≡ true }
    ensures greatest { (elements : List ElementValue) (e : ElementValue) (key : List ℕ)
        → Contains elements e → e.index ≡ Some key → IsAtMost key (greatest_key None elements) }
{}
