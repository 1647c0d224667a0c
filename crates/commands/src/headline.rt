//! What holds of all inputs, sessions and drills, as the laws of the crates below come to. These
//! calls do nothing when they run.

ghost use Rattle.commands.specs.Again.{RestoresOnce, RestoresMerges, StatesStandFor};
ghost use Rattle.commands.specs.Answers.{Converges};
ghost use Rattle.commands.specs.Drills.{DrillsAgree};
ghost use Rattle.commands.specs.Libraries.{InsertsArePastes, LibrariesStandFor, LibraryIsItsOwn, SameItemsSameLibrary};
ghost use Rattle.commands.specs.Members.{MembersAgree, MembersStoreTheRoom};
ghost use Rattle.commands.specs.Replays.{ChangesAreCaptured, HasLaws, NothingIsPending, OfAll, OthersChangesStay, PrintedScenesAgree, RedoIsFound, RedoRepeats, ReplicasConverge, ReplicasStoreTheBest, ToldAllStoreTheSame, UndoBringsBack, UndoIsFound};

/// What holds of inputs that are scenes.
pub(crate) fn merges_hold()
    ensures converges { Converges }
    ensures restores_once { RestoresOnce }
    ensures restores_merges { RestoresMerges }
    ensures states_stand_for { StatesStandFor }
{}

/// What holds of inputs that are libraries, and of a scene with one behind it.
pub(crate) fn libraries_hold()
    ensures library_is_its_own { LibraryIsItsOwn }
    ensures libraries_stand_for { LibrariesStandFor }
    ensures same_items_same_library { SameItemsSameLibrary }
    ensures inserts_are_pastes { InsertsArePastes }
{}

/// What holds of the replicas of every session.
pub(crate) fn replicas_hold()
    ensures replicas_store_the_best { ReplicasStoreTheBest }
    ensures replicas_converge { ReplicasConverge }
    ensures told_all_store_the_same { ToldAllStoreTheSame }
    ensures printed_scenes_agree { PrintedScenesAgree }
    ensures undo_brings_back { UndoBringsBack }
    ensures undo_is_found { UndoIsFound }
    ensures nothing_is_pending { NothingIsPending }
    ensures changes_are_captured { ChangesAreCaptured }
    ensures redo_repeats { RedoRepeats }
    ensures redo_is_found { RedoIsFound }
    ensures others_changes_stay { OthersChangesStay }
    ensures laws { OfAll HasLaws }
{
    sessions_have_laws();
}

/// All laws hold of every session.
fn sessions_have_laws()
    ensures { OfAll HasLaws }
{
    session_text::laws::sessions_keep_limits();
    session::laws::all_events_lead_to_the_last_world();
    session::laws::replicas_store_what_they_took();
    session_laws::laws::replicas_converge();
    session_laws::origins::told_all_store_the_same();
    session_laws::laws::nothing_is_pending();
    session_laws::laws::undo_brings_back();
    session_laws::laws::redo_repeats();
    session_laws::laws::others_changes_stay();
}

/// What holds of every drill.
pub(crate) fn drills_hold()
    ensures { DrillsAgree }
{
    session_text::laws::sessions_keep_limits();
    session_text::laws::reading_is_unique();
    session::laws::all_events_lead_to_the_last_world();
    workload::laws::drill_is_read();
    session_laws::origins::sessions_without_updates_have_no_clash();
    replicas_hold();
}

/// What holds of the members of every room that is served.
pub(crate) fn members_hold()
    ensures members_store_the_room { MembersStoreTheRoom }
    ensures members_agree { MembersAgree }
{
    room_core::laws::rounds_are_steps();
    room_core::laws::member_stores_the_room();
    room_core::laws::members_agree();
}
