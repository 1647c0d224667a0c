//! Appending a record to a journal.

ghost use Rattle.std.specs.Prelude.{◌≡◌, ℕ, ◌≤◌, ◌∷◌, [], length, take, OnOk, OnErr};
ghost use Rattle.board_ends.specs.Counts.{Rose};
ghost use Rattle.board_ends.specs.Ends.{Took, KeepsSafe, IsSynced};
ghost use Rattle.room_disk.specs.Keeping.{HasGained};
ghost use Rattle.room_disk.specs.Records.{record_of};

use board_base::Bytes;
use board_ends::{Failed, Journal, write_all};

/// Appends the record of this text, and makes all bytes of the journal safe. `Failed` comes only
/// where the journal's count of faults rose; a first part of the record is out then. It takes no
/// memory.
pub(crate) fn append<J: Journal>(journal: &mut J, text: &Bytes) -> Result<(), Failed>
    ensures took { OnOk result (Took (J.seen journal.old) (J.seen journal.new)
        (record_of text.now)) }
    ensures synced { OnOk result (IsSynced (J.seen journal.new)) }
    ensures part { OnErr result
        (HasGained (record_of text.now ∷ []) (J.seen journal.old) (J.seen journal.new)) }
    ensures failed { OnErr result (Rose (J.seen journal.old).faults (J.seen journal.new).faults) }
    ensures safe { KeepsSafe (J.seen journal.old) (J.seen journal.new) }
    ensures counted { (J.seen journal.old).faults ≤ (J.seen journal.new).faults }
{
    write_all(journal, text.as_slice())?;
    write_all(journal, b"\n")?;
    journal.sync()
}
