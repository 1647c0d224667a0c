//! Why a text is no clip.

ghost use Rattle.std.specs.Prelude.{◌≡◌};
ghost use Rattle.board_base.specs.Pieces.{line_text};
ghost use Rattle.clips.specs.Faults.{clip_fault_words, words_of_element};

use board_base::Piece;
use elem_read::ElemFault;

/// Why a value is no clip. Of several faults the first in this order counts.
#[derive(Clone, Copy, Debug, PartialEq, Eq, Drop)]
pub enum ClipFault {
    /// It isn't an object.
    NotObject,
    /// Its `type` isn't the text `excalidraw/clipboard`.
    NotClip,
    /// `elements` is neither null nor an array.
    Elements,
    /// `files` is neither null nor an object.
    Files,
    /// The element at this place of the array, counted from 0, is the first with a fault, and has
    /// this one.
    Element(u64, ElemFault),
    /// The live element at this place of the array is the first that has the id of an earlier live
    /// one.
    Repeated(u64),
}

impl ClipFault {
    /// What is told of this fault, in pieces.
    pub fn pieces(self) -> [Piece; 4]
        ensures { line_text result ≡ clip_fault_words self }
    {
        match self {
            ClipFault::NotObject => told("not an object"),
            ClipFault::NotClip => told("type"),
            ClipFault::Elements => told("elements"),
            ClipFault::Files => told("files"),
            ClipFault::Element(place, fault) => told_of(place, fault.word()),
            ClipFault::Repeated(place) => told_of(place, "repeated"),
        }
    }
}

/// These words alone.
fn told(words: &'static str) -> [Piece; 4]
    ensures { line_text result ≡ words.now }
{
    [
        Piece::Words(words),
        Piece::Words(""),
        Piece::Words(""),
        Piece::Words(""),
    ]
}

/// These words of the element at a place.
fn told_of(place: u64, words: &'static str) -> [Piece; 4]
    ensures { line_text result ≡ words_of_element place words.now }
{
    [
        Piece::Words("element "),
        Piece::Number(place),
        Piece::Words(": "),
        Piece::Words(words),
    ]
}
