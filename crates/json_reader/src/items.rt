//! Numbers in arrays, many at a time.
//!
//! An item is a number with the comma behind it, or with `],[`: its array ends then and another one
//! is opened.

ghost use Rattle.std.specs.Prelude.{◌≡◌, ◌<◌, ◌≤◌, length, IfSome};
ghost use Rattle.json_reader.specs.inner.Items.{behind, AreItems, IsItem};
ghost use Rattle.json_reader.specs.inner.Writing.{stretch};

use crate::number::whole_number_end;

/// The offset after the items that stand whole from an offset on, and whether an array was opened
/// with the last one, or, where there is none, before.
#[inline(always)]
pub(crate) fn items_end(bytes: &[u8], at: usize, mut opened: bool) -> (usize, bool)
    requires { at ≤ length bytes.now }
    ensures within { (at ≤ result.0) × (result.0 ≤ length bytes.now) }
    ensures items { AreItems opened (stretch bytes.now at result.0) result.1 }
{
    let mut next = at;
    while let Some((end, opens)) = item_end(bytes, next) {
        next = end;
        opened = opens;
    }
    (next, opened)
}

/// The offset after the item that stands whole at an offset, if one does, and whether an array is
/// opened with it.
#[inline(always)]
fn item_end(bytes: &[u8], at: usize) -> Option<(usize, bool)>
    requires { at ≤ length bytes.now }
    ensures { IfSome result (λ found. (at < found.0) × (found.0 ≤ length bytes.now)
        × IsItem (stretch bytes.now at found.0) found.1) }
{
    let (_last, number) = whole_number_end(bytes, at)?;
    let (end, opens) = behind_end(bytes, number)?;
    Some((end, opens))
}

/// The offset after what stands behind a number at an offset, if that makes it an item, and whether
/// an array is opened with it.
#[inline(always)]
fn behind_end(bytes: &[u8], at: usize) -> Option<(usize, bool)>
    requires { at ≤ length bytes.now }
    ensures { IfSome result (λ found. (at < found.0) × (found.0 ≤ length bytes.now)
        × (stretch bytes.now at found.0 ≡ behind found.1)) }
{
    match &bytes[at..] {
        [b',', ..] => Some((at + 1, false)),
        [b']', b',', b'[', ..] => Some((at + 3, true)),
        _ => None,
    }
}
