//! Writing what was made.

ghost use Rattle.std.specs.Prelude.{◌≡◌, ℕ, take, IfErr, OnOk, OnErr};
ghost use Rattle.board_ends.specs.Counts.{Rose};
ghost use Rattle.board_ends.specs.Ends.{Took};
ghost use Rattle.commands.specs.declared.status.Fault.{Fault};

use crate::status::Fault;
use board_base::Bytes;
use board_ends::{Failed, Sink, write_all};

/// Writes the whole text. After a fault a first part of it is out.
pub(crate) fn written<K: Sink>(output: &mut K, text: &Bytes) -> Result<(), Fault>
    ensures took { OnOk result (Took (K.seen output.old) (K.seen output.new) text.now) }
    ensures only { IfErr result (λ fault. fault ≡ Fault.Write) }
    ensures part { OnErr result ((n : ℕ)
        × Took (K.seen output.old) (K.seen output.new) (take n text.now)) }
    ensures rose { OnErr result (Rose (K.seen output.old).faults (K.seen output.new).faults) }
{
    match write_all(output, text.as_slice()) {
        Ok(()) => Ok(()),
        Err(Failed) => Err(Fault::Write),
    }
}
