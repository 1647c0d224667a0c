//! Reading one value of bytes that are all there.

ghost use Rattle.std.specs.Prelude.{◌≡◌, ℕ, ◌≤◌, List, Err, length, drop, IfOk};
ghost use Rattle.json_text.specs.Value.{Stands};
ghost use Rattle.json_reader.specs.Faults.{IsFirstFault};
ghost use Rattle.json_reader.specs.declared.fault.JsonFault.{JsonFault};

use crate::fault::JsonFault;
use crate::reader::{Taken, ValueReader};
use board_base::Stop;
use json_text::Raw;
use std::alloc::Global;

/// The one value that stands behind white space from `at` on, and the offset after it; or the first
/// fault there, with its place among all bytes. RFC 8259; that at most 128 brackets may be open and
/// the faults' places are this project's own.
pub fn scan(alloc: Global, bytes: &[u8], at: usize) -> Result<(Raw, usize), Stop<JsonFault>>
    requires { at ≤ length bytes.now }
    ensures within { IfOk result (λ found. (at ≤ found.1) × (found.1 ≤ length bytes.now)) }
    ensures found { IfOk result (λ found. Stands (drop at bytes.now) found.0
        (drop found.1 bytes.now)) }
    ensures only { IfOk result (λ found. (text rest : List ℕ) → Stands (drop at bytes.now) text rest
        → (text ≡ found.0) × (rest ≡ drop found.1 bytes.now)) }
    ensures fault { (fault : JsonFault) → result ≡ Err (Stop.Fault fault)
        → IsFirstFault bytes.now at fault }
{
    match ValueReader::new(alloc, at).read(bytes)? {
        Taken::Through(reader) => Ok((reader.finish(bytes, bytes.len())?, bytes.len())),
        Taken::Ended(value, end) => Ok((value, end)),
        Taken::Refused(machine, next) => {
            Err(Stop::Fault(machine.fault(Some(bytes[next]), next)))
        }
    }
}
