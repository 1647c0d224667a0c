//! White space.

ghost use Rattle.std.specs.Prelude.{◌≡◌};
ghost use Rattle.json_text.specs.Characters.{is_space};

/// White space of JSON (RFC 8259, section 2).
pub fn is_space(byte: u8) -> bool
    ensures { result ≡ is_space byte }
{
    byte <= b' ' && matches!(byte, b' ' | b'\t' | b'\n' | b'\r')
}
