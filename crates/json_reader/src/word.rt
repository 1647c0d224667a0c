//! The words that are values.

ghost use Rattle.std.specs.Prelude.{◌≤◌, length, IfSome};
ghost use Rattle.json_text.specs.Tree.{IsWord};
ghost use Rattle.json_reader.specs.inner.Writing.{stretch};

/// The offset after the word that stands whole at an offset, if one does.
#[inline(always)]
pub(crate) fn word_end(bytes: &[u8], at: usize) -> Option<usize>
    requires { at ≤ length bytes.now }
    ensures { IfSome result (λ end. (at ≤ end) × (end ≤ length bytes.now)
        × IsWord (stretch bytes.now at end)) }
{
    match &bytes[at..] {
        [b'n', b'u', b'l', b'l', ..] | [b't', b'r', b'u', b'e', ..] => Some(at + 4),
        [b'f', b'a', b'l', b's', b'e', ..] => Some(at + 5),
        _ => None,
    }
}
