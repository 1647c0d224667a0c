//! A stream that is fed in pieces.

use board_base::Stop;
use case_text::{bytes_of, given, listed, push_member_of, push_string, push_truth, push_value};
use json_reader::{Fed, Feed, JsonFault, scan};
use json_text::{Raw, Text, push_quoted, skip_space};
use scene_json::{push_comma, push_whole};
use std::alloc::{AllocError, Global};

/// Appends what each call gives that feeds a piece of a list, and what the end gives behind them.
pub fn push_fed(alloc: Global, line: &mut Vec<u8>, value: &Raw) -> Result<(), Stop<Text>> {
    let mut feed = Feed::new(alloc);
    push_member_of(line, "fed")?;
    line.push(b'[')?;
    for (i, item) in listed(alloc, value)?.as_slice().iter().enumerate() {
        let piece = given(bytes_of(alloc, item)?, "member fed")?;
        push_comma(line, i)?;
        given(
            push_piece(alloc, line, &mut feed, piece.as_slice())?,
            "member fed",
        )?;
    }
    line.push(b']')?;
    push_end(alloc, line, &mut feed)?;
    Ok(())
}

/// Appends what feeding a piece gives, if a stream can be so long.
fn push_piece(
    alloc: Global,
    line: &mut Vec<u8>,
    feed: &mut Feed,
    piece: &[u8],
) -> Result<Option<()>, AllocError> {
    if piece.len() as u64 > u64::MAX - feed.used() {
        return Ok(None);
    }
    match feed.feed(piece) {
        Ok(fed) => push_used(line, &fed)?,
        Err(Stop::Fault(fault)) => push_fault(alloc, line, fault)?,
        Err(Stop::Memory) => return Err(AllocError),
    }
    Ok(Some(()))
}

/// Appends how many bytes were used, and the value that ended with them.
fn push_used(line: &mut Vec<u8>, fed: &Fed) -> Result<(), AllocError> {
    line.extend_from_slice(b"{\"used\":")?;
    push_whole(line, fed.used as u64)?;
    if let Some(value) = &fed.value {
        push_value(line, "value", value.as_bytes())?;
    }
    line.push(b'}')?;
    Ok(())
}

/// Appends a fault as an object.
fn push_fault(alloc: Global, line: &mut Vec<u8>, fault: JsonFault) -> Result<(), AllocError> {
    line.extend_from_slice(b"{\"fault\":")?;
    push_quoted(line, fault.words(alloc)?.as_str())?;
    line.push(b'}')?;
    Ok(())
}

/// Appends what the end of the stream gives.
fn push_end(alloc: Global, line: &mut Vec<u8>, feed: &mut Feed) -> Result<(), AllocError> {
    match feed.end() {
        Ok(Some(value)) => push_value(line, "value", value.as_bytes()),
        Ok(None) => Ok(()),
        Err(Stop::Fault(fault)) => push_string(line, "fault", fault.words(alloc)?.as_str()),
        Err(Stop::Memory) => Err(AllocError),
    }
}

/// Appends whether a stream in two pieces, wherever it is cut, gives the same values and fault as
/// scans over all bytes.
pub fn push_cut(alloc: Global, line: &mut Vec<u8>, value: &Raw) -> Result<(), Stop<Text>> {
    let bytes = given(bytes_of(alloc, value)?, "member cut")?;
    push_truth(line, "equal", is_cut_anywhere(alloc, bytes.as_slice())?)?;
    Ok(())
}

/// Whether the bytes give the same in two pieces, wherever they are cut, as in one.
fn is_cut_anywhere(alloc: Global, bytes: &[u8]) -> Result<bool, AllocError> {
    let whole = scanned(alloc, bytes)?;
    for place in 0..bytes.len() {
        let fed = fed(alloc, [&bytes[..place], &bytes[place..]])?;
        if fed.as_slice() != whole.as_slice() {
            return Ok(false);
        }
    }
    Ok(true)
}

/// The values that scans over all bytes give, and the first fault, a line each.
fn scanned(alloc: Global, bytes: &[u8]) -> Result<Vec<u8>, AllocError> {
    let mut told = Vec::new(alloc);
    let mut at = 0;
    for _ in 0..u64::MAX {
        if at >= bytes.len() || skip_space(bytes, at) == bytes.len() {
            break;
        }
        match scan(alloc, bytes, at) {
            Ok((value, after)) => {
                tell(&mut told, value.as_bytes())?;
                at = after;
            }
            Err(Stop::Fault(fault)) => {
                tell(&mut told, fault.words(alloc)?.as_bytes())?;
                return Ok(told);
            }
            Err(Stop::Memory) => return Err(AllocError),
        }
    }
    Ok(told)
}

/// The same of the values that two pieces give.
fn fed(alloc: Global, pieces: [&[u8]; 2]) -> Result<Vec<u8>, AllocError> {
    let mut told = Vec::new(alloc);
    let mut feed = Feed::new(alloc);
    for piece in pieces {
        if feed_all(alloc, &mut told, &mut feed, piece)? {
            return Ok(told);
        }
    }
    match feed.end() {
        Ok(Some(value)) => tell(&mut told, value.as_bytes())?,
        Ok(None) => {}
        Err(Stop::Fault(fault)) => tell(&mut told, fault.words(alloc)?.as_bytes())?,
        Err(Stop::Memory) => return Err(AllocError),
    }
    Ok(told)
}

/// Feeds all of a piece, or up to a fault, and tells whether one came.
fn feed_all(
    alloc: Global,
    told: &mut Vec<u8>,
    feed: &mut Feed,
    piece: &[u8],
) -> Result<bool, AllocError> {
    let mut rest = piece;
    for _ in 0..u64::MAX {
        if rest.is_empty() || rest.len() as u64 > u64::MAX - feed.used() {
            break;
        }
        match feed.feed(rest) {
            Ok(Fed { used, value }) => {
                if let Some(value) = value {
                    tell(told, value.as_bytes())?;
                }
                rest = &rest[used..];
            }
            Err(Stop::Fault(fault)) => {
                tell(told, fault.words(alloc)?.as_bytes())?;
                return Ok(true);
            }
            Err(Stop::Memory) => return Err(AllocError),
        }
    }
    Ok(false)
}

/// Appends a line.
fn tell(told: &mut Vec<u8>, text: &[u8]) -> Result<(), AllocError> {
    told.extend_from_slice(text)?;
    told.push(b'\n')?;
    Ok(())
}
