//! What is recovered of a journal, wherever it was stopped.

use crate::run::{Ends, run};
use board_base::{Bytes, List};
use board_ends::{MemJournal, MemSink, MemSource, ScriptLinks};
use case_text::{push_member_of, push_told};
use scene_json::push_whole;
use std::alloc::{AllocError, Global};

/// How many bytes are given and taken at once.
const CHUNK: usize = 65536;

/// How many bytes an output has room for.
const ROOM: usize = 1000000;

/// Appends for each first part of a journal's bytes that has all safe ones what `recover` writes of
/// it, or its notes: each answer once, with the least number of bytes from which on it is given.
pub fn push_stops(
    alloc: Global,
    line: &mut Vec<u8>,
    journal: &MemJournal,
) -> Result<(), AllocError> {
    push_member_of(line, "stops")?;
    line.push(b'[')?;
    let held = journal.held();
    let mut last = recovered(alloc, &held[..journal.safe()])?;
    push_stop(alloc, line, journal.safe(), &last)?;
    for count in journal.safe()..held.len() {
        let next = recovered(alloc, &held[..count + 1])?;
        if next.as_slice() != last.as_slice() {
            line.push(b',')?;
            push_stop(alloc, line, count + 1, &next)?;
            last = next;
        }
    }
    line.push(b']')?;
    Ok(())
}

/// Appends a number of bytes and what is recovered of so many.
fn push_stop(
    alloc: Global,
    line: &mut Vec<u8>,
    count: usize,
    answer: &Bytes,
) -> Result<(), AllocError> {
    line.push(b'[')?;
    push_whole(line, count as u64)?;
    line.push(b',')?;
    push_told(alloc, line, answer.as_slice(), b"\n")?;
    line.push(b']')?;
    Ok(())
}

/// What `recover` writes of these bytes, and its notes behind that.
fn recovered(alloc: Global, bytes: &[u8]) -> Result<Bytes, AllocError> {
    let words = [Bytes::from_slice(alloc, b"recover")?];
    let mut ends = ends_over(alloc, bytes)?;
    let _status = run(alloc, &words, &mut ends);
    let mut answer = Vec::from_slice(alloc, ends.output.held())?;
    answer.extend_from_slice(ends.notes.held())?;
    Ok(Bytes::from_vec(answer))
}

/// Ends of a run over an input of these bytes.
fn ends_over(alloc: Global, bytes: &[u8]) -> Result<Ends, AllocError> {
    let given = Bytes::from_slice(alloc, bytes)?;
    let none = List::new(alloc);
    Ok(Ends {
        input: MemSource::new(given, CHUNK, List::new(alloc)),
        output: MemJournal::new(empty_sink(alloc)?, List::new(alloc)),
        notes: empty_sink(alloc)?,
        links: ScriptLinks::new(alloc, none, List::new(alloc), List::new(alloc)),
    })
}

/// A sink that never fails.
fn empty_sink(alloc: Global) -> Result<MemSink, AllocError> {
    MemSink::new(alloc, CHUNK, ROOM, List::new(alloc))
}
