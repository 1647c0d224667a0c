//! Laws on rooms, for all of them. They do nothing when they run.

ghost use Rattle.std.specs.Prelude.{◌≡◌, ◌≢◌, ◌⊎◌, ℕ, List, [], Bool, true};
ghost use Rattle.frac_keys.specs.Rising.{are_rising};
ghost use Rattle.elem.specs.ElementValue.{ElementValue};
ghost use Rattle.elem.specs.Said.{AreElements};
ghost use Rattle.elem_store.specs.Updates.{ids_of, AreStored, HaveSameUpdates};
ghost use Rattle.board_ends.specs.declared.links.LinkEvent.{LinkEvent};
ghost use Rattle.room_core.specs.Rooms.{RoomState, Happening, IsHeardAs, is_among};
ghost use Rattle.room_core.specs.Closing.{LeadToClose, TellAll};
ghost use Rattle.room_core.specs.Members.{Step, AreSteps, member_updates};
ghost use Rattle.room_core.specs.Serving.{Serving, Round, AreRounds, IsServed, at_start, serving_at, steps_of};
ghost use Rattle.room_core.specs.Scripts.{HasTrace};
ghost use Rattle.board_ends.specs.Ends.{LinksEnd};
ghost use Rattle.room_core.specs.declared.limits.RoomLimits.{RoomLimits};
ghost use Rattle.room_core.specs.declared.limits.ServeEnd.{ServeEnd};

/// An event is one thing to a room.
pub fn hearing_is_unique()
    ensures { (joined : List ℕ) (event : LinkEvent) (happening other : Happening)
        → IsHeardAs joined event happening → IsHeardAs joined event other → happening ≡ other }
{}

/// What the updates of a joined link store is what the room stores, after steps from a room without
/// links on.
pub fn member_stores_the_room()
    ensures { (link : ℕ) (room last : RoomState) (steps : List Step) → room.joined ≡ []
        → are_rising (ids_of room.elements) ≡ true → AreSteps room steps last
        → is_among last.joined link ≡ true
        → AreStored (member_updates link room [] steps) last.elements }
{}

/// Any list of the same updates stores what the room stores, whose first elements are elements, as
/// all that is read is.
pub fn members_agree()
    ensures { (link : ℕ) (room last : RoomState) (steps : List Step)
        (others news : List ElementValue) → room.joined ≡ []
        → are_rising (ids_of room.elements) ≡ true → AreElements room.elements
        → AreSteps room steps last → is_among last.joined link ≡ true
        → HaveSameUpdates (member_updates link room [] steps) others → AreStored others news
        → news ≡ last.elements }
{
    room_msg::laws::read_messages_are_whole();
    elem_read::laws::what_is_read_is_an_element();
}

/// The rounds of a room that is served are steps of it.
pub fn rounds_are_steps()
    ensures { (limits : RoomLimits) (now : Serving) (rounds : List Round)
        → AreRounds limits now rounds
        → AreSteps now.room (steps_of rounds) (serving_at now rounds).room }
{}

/// Where the links tell rounds within the limits after which a link was opened and none is joined,
/// that ends the room, unless memory is wanted or the links fail. What rooms store plays no part.
pub fn closing_ends_a_room()
    ensures { (limits : RoomLimits) (room other new : RoomState) (before after : LinksEnd)
        (end : ServeEnd)
        → room.joined ≡ other.joined → LeadToClose limits (at_start room) before after
        → IsServed limits (at_start other) new before after end
        → (end ≡ ServeEnd.AllClosed) ⊎ ((end ≡ ServeEnd.Memory) ⊎ (end ≡ ServeEnd.LinkFault)) }
{}

/// A room that is served has one trace: where the links tell all, two accounts of what was made of
/// what they told, neither of which ends for want of memory, have the same rounds, the same room at
/// the end, and the same end.
pub fn serving_is_unique()
    ensures { (limits : RoomLimits) (now : Serving) (new other : RoomState)
        (before after : LinksEnd) (end last : ServeEnd)
        → are_rising (ids_of now.room.elements) ≡ true → TellAll before
        → end ≢ ServeEnd.Memory → last ≢ ServeEnd.Memory
        → (one : IsServed limits now new before after end)
        (two : IsServed limits now other before after last)
        → (one.rounds ≡ two.rounds) × (new ≡ other) × (end ≡ last) }
{}

/// Every script of events has a trace, whichever texts find their link gone: the room comes to an
/// end by itself, with whole rounds before it.
pub fn every_script_has_a_trace()
    ensures { (limits : RoomLimits) (room : RoomState) (script : List LinkEvent) (is_lost : ℕ
        → Bool)
        → are_rising (ids_of room.elements) ≡ true → HasTrace limits room script is_lost }
{
    room_msg::laws::reading_exists();
}
