//! What is wrong with a text.

use board_base::Piece;
use std::alloc::{AllocError, Global};

/// The first fault of a JSON text, with the offset of its byte.
#[derive(Clone, Copy, Debug, PartialEq, Eq, Drop)]
pub enum JsonFault {
    /// The first byte that can't go on with any value, or the length where the text ends too early.
    Syntax(usize),
    /// The bracket that would be the 129th open one.
    Depth(usize),
    /// The first byte of a sequence in a string that isn't UTF-8 or is cut off.
    Utf8(usize),
}

impl JsonFault {
    ghost use Rattle.std.specs.Prelude.{◌≡◌, IfOk, string_bytes};
    ghost use Rattle.board_base.specs.Pieces.{line_text};
    ghost use Rattle.json_reader.specs.Faults.{json_words};

    /// What is told of this fault.
    pub fn words(self, alloc: Global) -> Result<String, AllocError>
        ensures { IfOk result (λ words. string_bytes words ≡ json_words self) }
    {
        match self {
            JsonFault::Syntax(place) => format!(in alloc; "syntax at byte {place}"),
            JsonFault::Depth(place) => format!(in alloc; "depth at byte {place}"),
            JsonFault::Utf8(place) => format!(in alloc; "utf8 at byte {place}"),
        }
    }

    /// The same, in pieces.
    pub fn pieces(self) -> [Piece; 2]
        ensures { line_text result ≡ json_words self }
    {
        match self {
            JsonFault::Syntax(place) => [
                Piece::Words("syntax at byte "),
                Piece::Number(place as u64),
            ],
            JsonFault::Depth(place) => [
                Piece::Words("depth at byte "),
                Piece::Number(place as u64),
            ],
            JsonFault::Utf8(place) => [Piece::Words("utf8 at byte "), Piece::Number(place as u64)],
        }
    }
}
