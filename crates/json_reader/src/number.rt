//! The literal of a number, byte by byte.

ghost use Rattle.std.specs.Prelude.{◌≡◌, ◌+◌, ◌<◌, ◌≤◌, Some, true, length, slice_index, IfSome, IsTrue};
ghost use Rattle.json_text.specs.Characters.{is_digit};
ghost use Rattle.json_text.specs.Value.{extends_number};
ghost use Rattle.json_reader.specs.inner.Machine.{part_begun, part_after, parts_after, after_whole, after_fraction, is_complete, IsWholeNumber};
ghost use Rattle.json_reader.specs.inner.Writing.{stretch};

use json_text::digits_end;

/// The part of a number that came last.
#[derive(Clone, Copy)]
pub(crate) enum Part {
    Minus,
    Zero,
    Whole,
    Dot,
    Fraction,
    Letter,
    Sign,
    Exponent,
}

impl Part {
    /// The part that this byte begins a number with.
    #[inline(always)]
    pub(crate) fn begun(byte: u8) -> Option<Part>
        ensures { result ≡ part_begun byte }
    {
        match byte {
            b'-' => Some(Part::Minus),
            _ => Part::whole_begun(byte),
        }
    }

    /// The part that the number has come to after one more byte.
    #[inline(always)]
    pub(crate) fn after(self, byte: u8) -> Option<Part>
        ensures { result ≡ part_after self byte }
    {
        match self {
            Part::Minus => Part::whole_begun(byte),
            Part::Zero => Part::after_whole(byte),
            Part::Whole => match byte {
                b'0'..=b'9' => Some(Part::Whole),
                _ => Part::after_whole(byte),
            },
            Part::Dot => match byte {
                b'0'..=b'9' => Some(Part::Fraction),
                _ => None,
            },
            Part::Fraction => match byte {
                b'0'..=b'9' => Some(Part::Fraction),
                _ => Part::after_fraction(byte),
            },
            Part::Letter => match byte {
                b'+' | b'-' => Some(Part::Sign),
                b'0'..=b'9' => Some(Part::Exponent),
                _ => None,
            },
            Part::Sign | Part::Exponent => match byte {
                b'0'..=b'9' => Some(Part::Exponent),
                _ => None,
            },
        }
    }

    /// A number may end after this part.
    pub(crate) fn is_complete(self) -> bool
        ensures { result ≡ is_complete self }
    {
        match self {
            Part::Zero | Part::Whole | Part::Fraction | Part::Exponent => true,
            Part::Minus | Part::Dot | Part::Letter | Part::Sign => false,
        }
    }

    /// The part that this byte begins the whole number with.
    #[inline(always)]
    fn whole_begun(byte: u8) -> Option<Part>
        ensures { result ≡ part_after Part.Minus byte }
    {
        match byte {
            b'0' => Some(Part::Zero),
            b'1'..=b'9' => Some(Part::Whole),
            _ => None,
        }
    }

    fn after_whole(byte: u8) -> Option<Part>
        ensures { result ≡ after_whole byte }
    {
        match byte {
            b'.' => Some(Part::Dot),
            _ => Part::after_fraction(byte),
        }
    }

    fn after_fraction(byte: u8) -> Option<Part>
        ensures { result ≡ after_fraction byte }
    {
        match byte {
            b'e' | b'E' => Some(Part::Letter),
            _ => None,
        }
    }
}

/// A number is never followed directly by such a byte.
pub(crate) fn extends_number(byte: u8) -> bool
    ensures { result ≡ extends_number byte }
{
    matches!(byte, b'0'..=b'9' | b'.' | b'e' | b'E' | b'+' | b'-')
}

/// The part that a number has come to which goes on from an offset, and the offset after that. It
/// goes on to the end of its fraction, if it has one, or of its digits.
#[inline(always)]
pub(crate) fn number_end(part: Part, bytes: &[u8], at: usize) -> (Part, usize)
    requires { at ≤ length bytes.now }
    ensures within { (at ≤ result.1) × (result.1 ≤ length bytes.now) }
    ensures part { parts_after part (stretch bytes.now at result.1) ≡ Some result.0 }
{
    let (whole, end) = part_end(part, bytes, at);
    let (last, after) = fraction_end(whole, bytes, end);
    (last, after)
}

/// The same, to the end of the digits.
#[inline(always)]
fn part_end(part: Part, bytes: &[u8], at: usize) -> (Part, usize)
    requires { at ≤ length bytes.now }
    ensures within { (at ≤ result.1) × (result.1 ≤ length bytes.now) }
    ensures part { parts_after part (stretch bytes.now at result.1) ≡ Some result.0 }
{
    match part {
        Part::Whole | Part::Fraction | Part::Exponent => (part, digits_end(bytes, at)),
        Part::Minus if begins_whole(bytes, at) => (Part::Whole, digits_end(bytes, at + 1)),
        _ => (part, at),
    }
}

/// Whether a digit stands at an offset that isn't 0.
#[inline(always)]
fn begins_whole(bytes: &[u8], at: usize) -> bool
    ensures { IsTrue result → (at < length bytes.now)
        × (part_after Part.Minus (slice_index bytes.now at) ≡ Some Part.Whole) }
{
    at < bytes.len() && bytes[at] != b'0' && bytes[at].is_ascii_digit()
}

/// The same, to the end of the fraction behind a whole number.
#[inline(always)]
fn fraction_end(part: Part, bytes: &[u8], at: usize) -> (Part, usize)
    requires { at ≤ length bytes.now }
    ensures within { (at ≤ result.1) × (result.1 ≤ length bytes.now) }
    ensures part { parts_after part (stretch bytes.now at result.1) ≡ Some result.0 }
{
    match part {
        Part::Zero | Part::Whole if begins_fraction(bytes, at) => {
            (Part::Fraction, digits_end(bytes, at + 2))
        }
        _ => (part, at),
    }
}

/// Whether a point and a digit stand at an offset.
#[inline(always)]
fn begins_fraction(bytes: &[u8], at: usize) -> bool
    requires { at ≤ length bytes.now }
    ensures { IsTrue result → (at + 2 ≤ length bytes.now) × (slice_index bytes.now at ≡ 46)
        × (is_digit (slice_index bytes.now (at + 1)) ≡ true) }
{
    bytes.len() - at >= 2 && bytes[at] == b'.' && bytes[at + 1].is_ascii_digit()
}

/// The last part of the number that stands whole at an offset, and the offset after it, if there is
/// one.
#[inline(always)]
pub(crate) fn whole_number_end(bytes: &[u8], at: usize) -> Option<(Part, usize)>
    requires { at ≤ length bytes.now }
    ensures { IfSome result (λ found. (at < found.1) × (found.1 ≤ length bytes.now)
        × IsWholeNumber found.0 (stretch bytes.now at found.1)) }
{
    if at == bytes.len() {
        return None;
    }
    let begun = Part::begun(bytes[at])?;
    let (last, end) = number_end(begun, bytes, at + 1);
    if last.is_complete() {
        Some((last, end))
    } else {
        None
    }
}
