//! The lines on faults.

ghost use Rattle.std.specs.Prelude.{◌≡◌, ◌++◌, IfOk, OnOk, flat_map, option_copied};
ghost use Rattle.board_base.specs.Pieces.{line_text};
ghost use Rattle.checks.specs.Lines as lines;
ghost use Rattle.checks.specs.Lines.{element_line, id_text, text_line, newline, verdict_line};

use crate::judged::{Judged, Verdict};
use board_base::{List, Piece};
use json_text::{Text, push_quote};
use scene_file::SceneFault;
use scene_json::push_whole;
use std::alloc::{AllocError, Global};

/// The lines on the faults of texts.
pub(crate) fn fault_lines(alloc: Global, texts: &List<Judged>) -> Result<Vec<u8>, AllocError>
    ensures { IfOk result (λ out. out.items ≡ lines.fault_lines texts.now) }
{
    let mut out = Vec::new(alloc);
    for text in texts.as_slice() {
        push_judged(&mut out, text)?;
    }
    Ok(out)
}

/// Whether each text is a scene.
pub(crate) fn are_scenes(texts: &List<Judged>) -> bool
    ensures { result ≡ lines.are_scenes texts.now }
{
    texts.as_slice().iter().all(is_whole)
}

/// Whether a text is a scene.
fn is_whole(text: &Judged) -> bool
    ensures { result ≡ lines.is_whole text.now }
{
    matches!(text, Judged::Whole(_, _, _))
}

/// Appends the lines on a text.
fn push_judged(out: &mut Vec<u8>, text: &Judged) -> Result<(), AllocError>
    ensures { OnOk result (out.new.items ≡ out.old.items ++ lines.judged_lines text.now) }
{
    match text {
        Judged::Whole(_, _, _) => Ok(()),
        Judged::Flawed(number, verdicts) => push_verdicts(out, *number, verdicts),
        Judged::Broken(number, fault) => push_broken(out, *number, *fault),
    }
}

/// Appends a line on each faulty value of the text with this number.
fn push_verdicts(out: &mut Vec<u8>, number: u64, verdicts: &List<Verdict>) -> Result<(), AllocError>
    ensures { OnOk result
        (out.new.items ≡ out.old.items ++ flat_map (verdict_line number) verdicts.now) }
{
    for verdict in verdicts.as_slice() {
        push_verdict(out, number, verdict)?;
    }
    Ok(())
}

/// Appends the line on a value of the text with this number, if it is faulty.
fn push_verdict(out: &mut Vec<u8>, number: u64, verdict: &Verdict) -> Result<(), AllocError>
    ensures { OnOk result (out.new.items ≡ out.old.items ++ verdict_line number verdict.now) }
{
    match verdict {
        Verdict::Faulty(place, fault, id) => push_element(
            out,
            number,
            *place,
            id.as_ref(),
            fault.word(),
        ),
        _ => Ok(()),
    }
}

/// Appends the line of these words on the element at a place of the text with this number.
pub(crate) fn push_element(
    out: &mut Vec<u8>,
    number: u64,
    place: u64,
    id: Option<&Text>,
    words: &str,
) -> Result<(), AllocError>
    ensures { OnOk result
        (out.new.items ≡ out.old.items ++ element_line number place (option_copied id.entry) words.now) }
{
    out.extend_from_slice(b"text ")?;
    push_whole(out, number)?;
    out.extend_from_slice(b": element ")?;
    push_whole(out, place)?;
    push_id(out, id)?;
    out.extend_from_slice(b": ")?;
    out.extend_from_slice(words.as_bytes())?;
    out.push(b'\n')?;
    Ok(())
}

/// Appends a space and the string of the id, if there is one.
fn push_id(out: &mut Vec<u8>, id: Option<&Text>) -> Result<(), AllocError>
    ensures { OnOk result (out.new.items ≡ out.old.items ++ id_text (option_copied id.entry)) }
{
    if let Some(id) = id {
        out.push(b' ')?;
        push_quote(out, id)?;
    }
    Ok(())
}

/// Appends the line on the fault of the text with this number.
fn push_broken(out: &mut Vec<u8>, number: u64, fault: SceneFault) -> Result<(), AllocError>
    ensures { OnOk result (out.new.items
        ≡ out.old.items ++ lines.judged_lines (Judged.Broken number fault)) }
{
    out.extend_from_slice(b"text ")?;
    push_whole(out, number)?;
    out.extend_from_slice(b": ")?;
    push_pieces(out, &fault.pieces())?;
    out.push(b'\n')?;
    Ok(())
}

/// Appends the text of these pieces.
fn push_pieces(out: &mut Vec<u8>, pieces: &[Piece]) -> Result<(), AllocError>
    ensures { OnOk result (out.new.items ≡ out.old.items ++ line_text pieces.now) }
{
    for piece in pieces {
        match piece {
            Piece::Words(words) => out.extend_from_slice(words.as_bytes())?,
            Piece::Number(number) => push_whole(out, *number)?,
        }
    }
    Ok(())
}
