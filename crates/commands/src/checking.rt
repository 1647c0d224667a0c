//! What is told of an input that is checked.

ghost use Rattle.std.specs.Prelude.{◌≡◌, Err, IfOk};
ghost use Rattle.checks.specs.Checks.{IsChecked};
ghost use Rattle.commands.specs.Answers.{IsEmptyRefusal};
ghost use Rattle.commands.specs.declared.status.InputRefusal.{InputRefusal};

use crate::status::InputRefusal;
use board_base::{Bytes, Stop};
use checks::checked;
use scene_file::SceneFault;
use std::alloc::Global;

/// The lines that are told of the texts that the bytes are.
pub(crate) fn checked_text(alloc: Global, bytes: &[u8]) -> Result<Bytes, Stop<InputRefusal>>
    ensures checked { IfOk result (IsChecked bytes.now) }
    ensures refused { (why : InputRefusal) → result ≡ Err (Stop.Fault why)
        → IsEmptyRefusal bytes.now why }
{
    match checked(alloc, bytes) {
        Ok(text) => Ok(text),
        Err(Stop::Fault(fault)) => Err(Stop::Fault(InputRefusal::Text(1, SceneFault::Json(fault)))),
        Err(Stop::Memory) => Err(Stop::Memory),
    }
}
