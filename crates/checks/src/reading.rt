//! The texts of an input, each read as what it is.

ghost use Rattle.std.specs.Prelude.{◌≡◌, ◌≤◌, ◌<◌, ◌∷◌, List as Items, IfOk, IfSome, false, not, drop, length};
ghost use Rattle.json_text.specs.Characters.{is_blank};
ghost use Rattle.json_reader.specs.declared.fault.JsonFault.{JsonFault as Fault};
ghost use Rattle.checks.specs.Reading as words;
ghost use Rattle.checks.specs.Reading.{AreTexts};
ghost use Rattle.checks.specs.inner.Behind.{AreBehind};
ghost use Rattle.checks.specs.declared.judged.Judged.{Judged};

use crate::judged::Judged;
use crate::judging::judged_of;
use board_base::{List, Stop};
use json_reader::{JsonFault, scan};
use json_text::skip_space;
use scene_file::SceneFault;
use std::alloc::{AllocError, Global};

/// What the texts of an input are read as, up to its end or to the first that is broken.
pub(crate) fn texts_of(alloc: Global, bytes: &[u8]) -> Result<List<Judged>, AllocError>
    ensures { IfOk result (AreTexts bytes.now 1 0) }
{
    let mut texts = Vec::new(alloc);
    let mut at = 0;
    'texts: while has_more(bytes, at) {
        let (text, end) = next_text(alloc, bytes, at, texts.len() as u64 + 1)?;
        texts.push(text)?;
        let Some(end) = end else {
            return Ok(List::from_vec(texts));
        };
        at = end;
    }
    Ok(List::from_vec(texts))
}

/// Whether more than white space stands behind the offset.
fn has_more(bytes: &[u8], at: usize) -> bool
    requires { at ≤ length bytes.now }
    ensures { result ≡ not (is_blank (drop at bytes.now)) }
{
    skip_space(bytes, at) < bytes.len()
}

/// What the text behind the offset is read as, and where it ends, if a further text is to be read.
fn next_text(
    alloc: Global,
    bytes: &[u8],
    at: usize,
    number: u64,
) -> Result<(Judged, Option<usize>), AllocError>
    requires within { at ≤ length bytes.now }
    requires more { is_blank (drop at bytes.now) ≡ false }
    ensures end { IfOk result
        (λ next. IfSome next.1 (λ end. (at < end) × (end ≤ length bytes.now))) }
    ensures text { IfOk result (λ next. (more : Items Judged)
        → AreBehind bytes.now number next.1 more → AreTexts bytes.now number at (next.0 ∷ more)) }
{
    match scan(alloc, bytes, at) {
        Ok((value, end)) => {
            let text = judged_of(alloc, &value, number)?;
            let end = if is_broken(&text) { None } else { Some(end) };
            Ok((text, end))
        }
        Err(stop) => Ok((no_value(number, stop)?, None)),
    }
}

/// What the text with this number is read as, where no value stands.
fn no_value(number: u64, stop: Stop<JsonFault>) -> Result<Judged, AllocError>
    ensures { IfOk result (λ text. (fault : Fault) × (stop ≡ Stop.Fault fault)
        × (text ≡ Judged.Broken number (SceneFault.Json fault))) }
{
    match stop {
        Stop::Fault(fault) => Ok(Judged::Broken(number, SceneFault::Json(fault))),
        Stop::Memory => Err(AllocError),
    }
}

/// Whether no further text is read.
fn is_broken(text: &Judged) -> bool
    ensures { result ≡ words.is_broken text.now }
{
    matches!(text, Judged::Broken(_, _))
}
