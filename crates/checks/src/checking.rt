//! An input is checked.

ghost use Rattle.std.specs.Prelude.{◌≡◌, ℕ, List as Items, Err, true, IfOk};
ghost use Rattle.json_text.specs.Characters.{is_blank};
ghost use Rattle.json_reader.specs.Faults.{IsFirstFault};
ghost use Rattle.json_reader.specs.declared.fault.JsonFault.{JsonFault};
ghost use Rattle.checks.specs.Checks.{HasNoText, IsChecked, IsTold};

use crate::board::board_told;
use crate::faults::{are_scenes, fault_lines};
use crate::judged::Judged;
use crate::reading::texts_of;
use board_base::{Bytes, List, Stop};
use json_reader::{JsonFault, scan};
use std::alloc::{AllocError, Global};

/// The lines that tell all that is wrong with the texts of an input, and what restoring would
/// change if nothing is wrong. A fault comes exactly if there is no text.
pub fn checked(alloc: Global, bytes: &[u8]) -> Result<Bytes, Stop<JsonFault>>
    ensures checked { IfOk result (IsChecked bytes.now) }
    ensures none { (fault : JsonFault) → result ≡ Err (Stop.Fault fault)
        → HasNoText bytes.now fault }
{
    let texts = texts_of(alloc, bytes)?;
    if texts.as_slice().is_empty() {
        return Err(missing(alloc, bytes));
    }
    Ok(told(alloc, texts)?)
}

/// Why no text is read of white space.
fn missing(alloc: Global, bytes: &[u8]) -> Stop<JsonFault>
    requires { is_blank bytes.now ≡ true }
    ensures { (fault : JsonFault) → result ≡ Stop.Fault fault → IsFirstFault bytes.now 0 fault }
{
    match scan(alloc, bytes, 0) {
        Ok(_) => unreachable!(),
        Err(stop) => stop,
    }
}

/// The lines on these texts.
fn told(alloc: Global, texts: List<Judged>) -> Result<Bytes, AllocError>
    ensures { IfOk result (IsTold texts) }
{
    if are_scenes(&texts) {
        board_told(alloc, texts)
    } else {
        Ok(Bytes::from_vec(fault_lines(alloc, &texts)?))
    }
}
