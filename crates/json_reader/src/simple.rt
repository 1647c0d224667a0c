//! Values that are taken whole.

ghost use Rattle.std.specs.Prelude.{◌≡◌, ◌<◌, ◌≤◌, [], ◌∷◌, length, IfSome, IsTrue};
ghost use Rattle.json_reader.specs.inner.Writing.{stretch, IsBareString, IsSimple, StandsAt};

use crate::machine::Mode;
use crate::number::whole_number_end;
use crate::word::word_end;
use json_text::bare_end;

/// Whether this byte stands at an offset.
#[inline(always)]
pub(crate) fn stands_at(bytes: &[u8], at: usize, byte: u8) -> bool
    ensures { IsTrue result → StandsAt bytes.now at byte }
{
    at < bytes.len() && bytes[at] == byte
}

/// The offset after the string that begins at an offset, if it is whole and all its characters are
/// ASCII and stand for themselves.
#[inline(always)]
pub(crate) fn bare_string_end(bytes: &[u8], at: usize) -> Option<usize>
    requires { StandsAt bytes.now at 34 }
    ensures { IfSome result (λ end. (at < end) × (end ≤ length bytes.now)
        × IsBareString (stretch bytes.now at end)) }
{
    let end = bare_end(bytes, at + 1);
    if stands_at(bytes, end, b'"') {
        Some(end + 1)
    } else {
        None
    }
}

/// The offset after the simple value that stands whole at an offset, if there is one, with the mode
/// behind it: a word, a number, an array of nothing, or a string all of whose characters are ASCII
/// and stand for themselves.
#[inline(always)]
pub(crate) fn simple_end(bytes: &[u8], at: usize) -> Option<(Mode, usize)>
    requires { at ≤ length bytes.now }
    ensures { IfSome result (λ found. (at ≤ found.1) × (found.1 ≤ length bytes.now)
        × IsSimple found.0 (stretch bytes.now at found.1)) }
{
    match bytes.get(at)? {
        b'"' => Some((Mode::After, bare_string_end(bytes, at)?)),
        b'-'..=b'9' => {
            let (last, end) = whole_number_end(bytes, at)?;
            Some((Mode::Number(last), end))
        }
        b'[' => Some((Mode::After, empty_end(bytes, at)?)),
        _ => Some((Mode::After, word_end(bytes, at)?)),
    }
}

/// The offset after the array of nothing that stands at an offset, if one does.
#[inline(always)]
fn empty_end(bytes: &[u8], at: usize) -> Option<usize>
    requires { at ≤ length bytes.now }
    ensures { IfSome result (λ end. (at ≤ end) × (end ≤ length bytes.now)
        × (stretch bytes.now at end ≡ 91 ∷ 93 ∷ [])) }
{
    match &bytes[at..] {
        [b'[', b']', ..] => Some(at + 2),
        _ => None,
    }
}
