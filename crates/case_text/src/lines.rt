//! A line on each case.

use crate::forms::{given, name_of};
use board_base::{Bytes, List, Stop};
use board_ends::{Sink, Source, read_all, write_all};
use json_reader::scan;
use json_text::{Member, Raw, Text, push_quote, skip_space};
use scene_json::{members, push_whole, shaped};
use std::alloc::{AllocError, Global};

/// How many bytes the cases have at most.
const LIMIT: usize = 67108864;

/// What a program makes of its cases.
pub trait Answer {
    /// Appends to the line, behind the name, what the case gave; or gives its first fault.
    fn push_answer(
        &self,
        alloc: Global,
        line: &mut Vec<u8>,
        case: &List<Member>,
    ) -> Result<(), Stop<Text>>;
}

/// Reads all cases, and writes a line on each. It answers whether all were read and all lines
/// written; it does neither if allocation fails.
pub fn answer_cases<S: Source, K: Sink, A: Answer>(
    alloc: Global,
    source: &mut S,
    sink: &mut K,
    answer: &A,
) -> bool {
    let Ok(cases) = read_all(alloc, source, LIMIT) else {
        return false;
    };
    match lines(alloc, cases.as_slice(), answer) {
        Ok(lines) => write_all(sink, lines.as_slice()).is_ok(),
        Err(AllocError) => false,
    }
}

/// A line on each case. Behind a text that is no JSON nothing more is read.
fn lines<A: Answer>(alloc: Global, cases: &[u8], answer: &A) -> Result<Bytes, AllocError> {
    let mut lines = Vec::new(alloc);
    let mut rest = cases;
    for number in 1..u64::MAX {
        if skip_space(rest, 0) == rest.len() {
            break;
        }
        match scan(alloc, rest, 0) {
            Ok((value, after)) => {
                push_line(alloc, &mut lines, number, &value, answer)?;
                rest = &rest[after..];
            }
            Err(Stop::Fault(fault)) => {
                let words = Text::from_str(alloc, fault.words(alloc)?.as_str())?;
                push_fault(&mut lines, number, &words)?;
                break;
            }
            Err(Stop::Memory) => return Err(AllocError),
        }
    }
    Ok(Bytes::from_vec(lines))
}

/// Appends the line on a case, or the one on its first fault.
fn push_line<A: Answer>(
    alloc: Global,
    lines: &mut Vec<u8>,
    number: u64,
    case: &Raw,
    answer: &A,
) -> Result<(), AllocError> {
    let mut line = Vec::new(alloc);
    match push_case(alloc, &mut line, case, answer) {
        Ok(()) => {
            lines.append(&mut line)?;
            lines.push(b'\n')?;
            Ok(())
        }
        Err(Stop::Fault(fault)) => push_fault(lines, number, &fault),
        Err(Stop::Memory) => Err(AllocError),
    }
}

/// Appends the line on a text that is no case, by its number, counted from 1.
fn push_fault(lines: &mut Vec<u8>, number: u64, fault: &Text) -> Result<(), AllocError> {
    lines.extend_from_slice(b"{\"case\":")?;
    push_whole(lines, number)?;
    lines.extend_from_slice(b",\"fault\":")?;
    push_quote(lines, fault)?;
    lines.extend_from_slice(b"}\n")?;
    Ok(())
}

/// Appends the name of a case and what it gave.
fn push_case<A: Answer>(
    alloc: Global,
    line: &mut Vec<u8>,
    case: &Raw,
    answer: &A,
) -> Result<(), Stop<Text>> {
    let case = given(shaped(members(alloc, case))?, "not an object")?;
    let name = given(name_of(alloc, &case)?, "member name")?;
    line.extend_from_slice(b"{\"name\":")?;
    push_quote(line, &name)?;
    answer.push_answer(alloc, line, &case)?;
    line.push(b'}')?;
    Ok(())
}
