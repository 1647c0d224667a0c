//! Calls on scenes.

ghost use Rattle.std.specs.Prelude.{◌≤◌, length};

use board_base::{List, Stop};
use board_ends::{MemSink, write_pieces};
use case_text::{bytes_of, given, number_or, push_member_of, push_number, push_told};
use elem::push_elements;
use json_text::{Member, Raw, Text};
use scene_file::{SceneFault, read_scene};
use std::alloc::{AllocError, Global};

/// How many bytes the words of a fault have room for.
const ROOM: usize = 256;

/// Appends the elements of the scene that stands at an offset of some bytes, and the offset after
/// it, or the first fault there.
pub fn push_scene(
    alloc: Global,
    line: &mut Vec<u8>,
    case: &List<Member>,
    value: &Raw,
) -> Result<(), Stop<Text>> {
    let bytes = given(bytes_of(alloc, value)?, "member scene")?;
    match number_or(case, "at", 0) {
        Some(at) if at <= bytes.as_slice().len() as u64 => {
            push_read(alloc, line, bytes.as_slice(), at as usize)?;
            Ok(())
        }
        _ => Err(Stop::Fault(Text::fixed("member at"))),
    }
}

/// Appends what stands at this offset.
fn push_read(alloc: Global, line: &mut Vec<u8>, bytes: &[u8], at: usize) -> Result<(), AllocError>
    requires { at ≤ length bytes.now }
{
    match read_scene(alloc, bytes, at) {
        Ok((scene, after)) => {
            push_member_of(line, "elements")?;
            line.push(b'[')?;
            push_elements(line, scene.elements.as_slice())?;
            line.push(b']')?;
            push_number(line, "after", after as u64)
        }
        Err(Stop::Fault(fault)) => push_fault(alloc, line, fault),
        Err(Stop::Memory) => Err(AllocError),
    }
}

/// Appends the words of a fault.
fn push_fault(alloc: Global, line: &mut Vec<u8>, fault: SceneFault) -> Result<(), AllocError> {
    let mut words = MemSink::new(alloc, ROOM, ROOM, List::new(alloc))?;
    if write_pieces(&mut words, &fault.pieces()).is_err() {
        return Err(AllocError);
    }
    push_member_of(line, "fault")?;
    push_told(alloc, line, words.held(), b"")
}
