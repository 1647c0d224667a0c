//! Why a text is no scene.

ghost use Rattle.std.specs.Prelude.{◌≡◌};
ghost use Rattle.board_base.specs.Pieces.{line_text};
ghost use Rattle.scene_file.specs.Faults.{scene_fault_words};

use board_base::Piece;
use elem_read::ElemFault;
use json_reader::JsonFault;

/// Why a text is no scene. Of several faults the first in this order counts.
#[derive(Clone, Copy, Debug, PartialEq, Eq, Drop)]
pub enum SceneFault {
    /// Its JSON form has this fault.
    Json(JsonFault),
    /// It isn't an object.
    NotObject,
    /// Its `type` isn't the text `excalidraw`.
    NotScene,
    /// `elements` is neither null nor an array.
    Elements,
    /// `appState` is neither null nor an object.
    AppState,
    /// `files` is neither null nor an object.
    Files,
    /// The element at this place of the array, counted from 0, is the first with a fault, and has
    /// this one.
    Element(u64, ElemFault),
}

impl SceneFault {
    /// What is told of this fault, in pieces.
    pub fn pieces(self) -> [Piece; 4]
        ensures { line_text result ≡ scene_fault_words self }
    {
        match self {
            SceneFault::Json(fault) => {
                let [words, number] = fault.pieces();
                [words, number, Piece::Words(""), Piece::Words("")]
            }
            SceneFault::NotObject => told("not an object"),
            SceneFault::NotScene => told("type"),
            SceneFault::Elements => told("elements"),
            SceneFault::AppState => told("appState"),
            SceneFault::Files => told("files"),
            SceneFault::Element(place, fault) => [
                Piece::Words("element "),
                Piece::Number(place),
                Piece::Words(": "),
                Piece::Words(fault.word()),
            ],
        }
    }
}

/// These words alone.
fn told(words: &'static str) -> [Piece; 4]
    ensures { line_text result ≡ words.now }
{
    [
        Piece::Words(words),
        Piece::Words(""),
        Piece::Words(""),
        Piece::Words(""),
    ]
}
