//! The bytes of one character in UTF-8 (Unicode, table 3-7).

ghost use Rattle.std.specs.Prelude.{◌≡◌, ◌+◌};
ghost use Rattle.json_reader.specs.inner.Machine.{tail_led, tail_fits, tail_after, tail_length};

/// What must still come of a sequence.
#[derive(Clone, Copy)]
pub(crate) enum Tail {
    One,
    Two,
    Three,
    /// Two bytes, of which the first isn't below A0.
    Long3,
    /// Two bytes, of which the first isn't above 9F.
    Low3,
    /// Three bytes, of which the first isn't below 90.
    Long4,
    /// Three bytes, of which the first isn't above 8F.
    Low4,
}

impl Tail {
    /// What must come after a byte that begins a sequence of more than one.
    pub(crate) fn led(byte: u8) -> Option<Tail>
        ensures { result ≡ tail_led byte }
    {
        match byte {
            0xC2..=0xDF => Some(Tail::One),
            0xE0 => Some(Tail::Long3),
            0xED => Some(Tail::Low3),
            0xE1..=0xEF => Some(Tail::Two),
            0xF0 => Some(Tail::Long4),
            0xF1..=0xF3 => Some(Tail::Three),
            0xF4 => Some(Tail::Low4),
            _ => None,
        }
    }

    /// This byte may be the next.
    pub(crate) fn fits(self, byte: u8) -> bool
        ensures { result ≡ tail_fits self byte }
    {
        match self {
            Tail::One | Tail::Two | Tail::Three => matches!(byte, 0x80..=0xBF),
            Tail::Long3 => matches!(byte, 0xA0..=0xBF),
            Tail::Low3 => matches!(byte, 0x80..=0x9F),
            Tail::Long4 => matches!(byte, 0x90..=0xBF),
            Tail::Low4 => matches!(byte, 0x80..=0x8F),
        }
    }

    /// What must come after one byte more, if anything must.
    pub(crate) fn after(self) -> Option<Tail>
        ensures { result ≡ tail_after self }
    {
        match self {
            Tail::One => None,
            Tail::Two | Tail::Long3 | Tail::Low3 => Some(Tail::One),
            Tail::Three | Tail::Long4 | Tail::Low4 => Some(Tail::Two),
        }
    }

    /// How many bytes must still come.
    pub(crate) fn len(self) -> u8
        ensures { result ≡ tail_length self }
    {
        match self {
            Tail::One => 1,
            Tail::Two | Tail::Long3 | Tail::Low3 => 2,
            Tail::Three | Tail::Long4 | Tail::Low4 => 3,
        }
    }

    /// How many bytes a sequence has after whose first byte this must come.
    pub(crate) fn size(self) -> u8
        ensures { result ≡ tail_length self + 1 }
    {
        match self {
            Tail::One => 2,
            Tail::Two | Tail::Long3 | Tail::Low3 => 3,
            Tail::Three | Tail::Long4 | Tail::Low4 => 4,
        }
    }
}
