//! A run of the top call over memory.

use crate::stops::push_stops;
use board_base::{Bytes, List, Stop};
use board_ends::{MemJournal, MemSink, MemSource, ScriptLinks};
use case_text::{
    bytes_named, given, is_given, links_of, number_or, numbers_of, push_member_of, push_number,
    push_sent, push_told, words_of,
};
use commands::{Status, board};
use json_text::{Member, Text};
use std::alloc::{AllocError, Global};

/// How many bytes the output has room for, where the case doesn't say.
const ROOM: u64 = 1000000;

/// How many bytes the notes have room for.
const NOTES_ROOM: usize = 10000;

/// The greatest number that a case may give for either of them.
const GREATEST: u64 = 67108864;

/// What a run reads from and writes to.
pub(crate) struct Ends {
    pub(crate) input: MemSource,
    pub(crate) output: MemJournal,
    pub(crate) notes: MemSink,
    pub(crate) links: ScriptLinks,
}

// By hand, so that whoever drops the ends sees one call and not what they hold.
impl Drop for Ends {
    fn drop(self) {
        let Ends {
            input: _input,
            output: _output,
            notes: _notes,
            links: _links,
        } = self;
    }
}

/// Appends how the run of a case with its chunk ended: its status, output and notes, the port that
/// was listened on, and what was sent; and where the case asks for it, what is recovered of all
/// that a stop may leave of the output.
pub fn push_run(
    alloc: Global,
    line: &mut Vec<u8>,
    case: &List<Member>,
    chunk: u64,
) -> Result<(), Stop<Text>> {
    let words = given(words_of(alloc, case)?, "member words")?;
    let mut ends = ends_of(alloc, case, chunk)?;
    let status = run(alloc, words.as_slice(), &mut ends);
    push_ended(alloc, line, status, &ends)?;
    if is_given(case, "stops") {
        push_stops(alloc, line, &ends.output)?;
    }
    Ok(())
}

/// Runs the board over these ends.
pub(crate) fn run(alloc: Global, words: &[Bytes], ends: &mut Ends) -> Status {
    board(
        alloc,
        words,
        &mut ends.input,
        &mut ends.output,
        &mut ends.notes,
        &mut ends.links,
    )
}

/// Appends the status that a run ended with, and what its ends have then.
fn push_ended(
    alloc: Global,
    line: &mut Vec<u8>,
    status: Status,
    ends: &Ends,
) -> Result<(), AllocError> {
    push_number(line, "status", u64::from(status.code()))?;
    push_member_of(line, "output")?;
    push_told(alloc, line, ends.output.held(), b"\n")?;
    push_member_of(line, "notes")?;
    push_told(alloc, line, ends.notes.held(), b"\n")?;
    push_port(line, ends.links.port())?;
    push_sent(alloc, line, ends.links.sent())
}

/// The ends that the case tells.
fn ends_of(alloc: Global, case: &List<Member>, chunk: u64) -> Result<Ends, Stop<Text>> {
    let chunk = given(chunk_of(case, chunk), "member chunk")?;
    Ok(Ends {
        input: input_of(alloc, case, chunk)?,
        output: output_of(alloc, case, chunk)?,
        notes: notes_of(alloc, case, chunk)?,
        links: links_of(alloc, case)?,
    })
}

/// How many bytes are given and taken at once, so many where the case doesn't say.
pub fn chunk_of(case: &List<Member>, default: u64) -> Option<usize> {
    match number_or(case, "chunk", default) {
        Some(chunk) if 1 <= chunk && chunk <= GREATEST => Some(chunk as usize),
        _ => None,
    }
}

/// How many bytes the output has room for.
fn room_of(case: &List<Member>) -> Option<usize> {
    match number_or(case, "room", ROOM) {
        Some(room) if room <= GREATEST => Some(room as usize),
        _ => None,
    }
}

/// The input of the case, as a source that fails at the listed reads.
fn input_of(alloc: Global, case: &List<Member>, chunk: usize) -> Result<MemSource, Stop<Text>> {
    let bytes = given(bytes_named(alloc, case, "input")?, "member input")?;
    let reads = given(numbers_of(alloc, case, "reads")?, "member reads")?;
    Ok(MemSource::new(bytes, chunk.max(1), reads))
}

/// The output of the case, as a journal that fails at the listed writes and syncs.
fn output_of(alloc: Global, case: &List<Member>, chunk: usize) -> Result<MemJournal, Stop<Text>> {
    let room = given(room_of(case), "member room")?;
    let writes = given(numbers_of(alloc, case, "writes")?, "member writes")?;
    let syncs = given(numbers_of(alloc, case, "syncs")?, "member syncs")?;
    let sink = MemSink::new(alloc, chunk.max(1), room, writes)?;
    Ok(MemJournal::new(sink, syncs))
}

/// The notes of the case, as a sink that fails at the listed writes.
pub fn notes_of(alloc: Global, case: &List<Member>, chunk: usize) -> Result<MemSink, Stop<Text>> {
    let writes = given(numbers_of(alloc, case, "notes")?, "member notes")?;
    Ok(MemSink::new(alloc, chunk.max(1), NOTES_ROOM, writes)?)
}

/// Appends the port that was listened on, null where there was none.
fn push_port(line: &mut Vec<u8>, port: Option<u16>) -> Result<(), AllocError> {
    match port {
        Some(port) => push_number(line, "port", u64::from(port)),
        None => line.extend_from_slice(b",\"port\":null"),
    }
}
