//! A run of the top call over an input and an output that never fail.

use crate::run::{chunk_of, notes_of};
use board_base::{List, Stop};
use board_ends::{SureSink, SureSource};
use case_text::{bytes_named, given, links_of, push_member_of, push_number, push_told, words_of};
use commands::board_surely;
use json_text::{Member, Text};
use std::alloc::Global;

/// Appends how the run of a case ended whose input and output never fail: its status and its notes.
pub fn push_sure_run(
    alloc: Global,
    line: &mut Vec<u8>,
    case: &List<Member>,
    chunk: u64,
) -> Result<(), Stop<Text>> {
    let words = given(words_of(alloc, case)?, "member words")?;
    let chunk = given(chunk_of(case, chunk), "member chunk")?;
    let bytes = given(bytes_named(alloc, case, "input")?, "member input")?;
    let mut input = SureSource::new(bytes, chunk.max(1));
    let mut output = SureSink::new(chunk.max(1));
    let mut notes = notes_of(alloc, case, chunk)?;
    let mut links = links_of(alloc, case)?;
    let words = words.as_slice();
    let status = board_surely(
        alloc,
        words,
        &mut input,
        &mut output,
        &mut notes,
        &mut links,
    );
    push_number(line, "status", u64::from(status.code()))?;
    push_member_of(line, "notes")?;
    Ok(push_told(alloc, line, notes.held(), b"\n")?)
}
