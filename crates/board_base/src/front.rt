//! The first of some bytes, by which they are told apart.

ghost use Rattle.std.specs.Prelude.{◌≡◌, slice_index_or};
ghost use Rattle.board_base.specs.Fronts.{front_of};

/// The first eight bytes, and zeros where there are fewer. Most ids differ there.
pub type Front = [u8; 8];

/// The front of some bytes.
pub fn front_of(bytes: &[u8]) -> Front
    ensures { result ≡ front_of bytes.now }
{
    [
        byte_at(bytes, 0),
        byte_at(bytes, 1),
        byte_at(bytes, 2),
        byte_at(bytes, 3),
        byte_at(bytes, 4),
        byte_at(bytes, 5),
        byte_at(bytes, 6),
        byte_at(bytes, 7),
    ]
}

/// The byte at an offset, or 0 behind the end.
fn byte_at(bytes: &[u8], at: usize) -> u8
    ensures { result ≡ slice_index_or bytes.now at 0 }
{
    match bytes.get(at) {
        Some(byte) => *byte,
        None => 0,
    }
}
