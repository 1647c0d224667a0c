//! What holds of all durable rooms, as the laws of the crates below come to. This call does nothing
//! when it runs.

ghost use Rattle.commands.specs.KeptRooms.{KeptMembersAgree, MembersStoreTheKeptRoom};
ghost use Rattle.commands.specs.KeptRuns.{NothingKeptIsLost};

/// What holds of the members of every durable room, and of runs that are resumed.
pub(crate) fn kept_rooms_hold()
    ensures members_store { MembersStoreTheKeptRoom }
    ensures members_agree { KeptMembersAgree }
    ensures nothing_is_lost { NothingKeptIsLost }
{
    elem_read::laws::what_is_read_is_an_element();
    room_core::laws::members_agree();
    room_disk::laws::kept_rounds_are_steps();
    room_disk::laws::member_stores_the_kept_room();
    room_disk::laws::recovered_is_unique();
    room_disk::laws::recovered_is_whole();
    room_disk::laws::resumed_elements_have_keys();
    room_disk::laws::nothing_kept_is_lost();
}
