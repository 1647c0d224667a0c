//! Why a journal isn't read.

ghost use Rattle.std.specs.Prelude.{◌≡◌};
ghost use Rattle.board_base.specs.Pieces.{line_text};
ghost use Rattle.room_disk.specs.Faults.{line_fault_words};
ghost use Rattle.room_msg.specs.Faults.{message_fault_words};

use board_base::Piece;
use room_msg::MsgFault;
use scene_file::SceneFault;

/// Why a line of a journal isn't read.
#[derive(Clone, Copy, Debug, PartialEq, Eq, Drop)]
pub enum LineFault {
    /// The first line isn't one scene, for this fault. A byte behind its value that isn't white
    /// space is bad syntax.
    Scene(SceneFault),
    /// A further line is no message, for this fault.
    Message(MsgFault),
    /// A further line is a message, and no update.
    Other,
}

impl LineFault {
    /// What is told of this fault, in pieces.
    pub fn pieces(self) -> [Piece; 4]
        ensures { line_text result ≡ line_fault_words self }
    {
        match self {
            LineFault::Scene(fault) => fault.pieces(),
            LineFault::Message(fault) => message_pieces(fault),
            LineFault::Other => told("type"),
        }
    }
}

/// What is told of a message's fault, in pieces.
fn message_pieces(fault: MsgFault) -> [Piece; 4]
    ensures { line_text result ≡ message_fault_words fault }
{
    match fault {
        MsgFault::Json(fault) => {
            let [words, number] = fault.pieces();
            [words, number, Piece::Words(""), Piece::Words("")]
        }
        MsgFault::NotObject => told("not an object"),
        MsgFault::Tag => told("type"),
        MsgFault::Payload => told("payload"),
        MsgFault::Element(place, fault) => [
            Piece::Words("element "),
            Piece::Number(place),
            Piece::Words(": "),
            Piece::Words(fault.word()),
        ],
    }
}

/// These words alone.
fn told(words: &'static str) -> [Piece; 4]
    ensures { line_text result ≡ words.now }
{
    [
        Piece::Words(words),
        Piece::Words(""),
        Piece::Words(""),
        Piece::Words(""),
    ]
}

/// Why a journal isn't read.
#[derive(Clone, Copy, Debug, PartialEq, Eq, Drop)]
pub enum KeepFault {
    /// The line with this number, counted from 1, is the first with a fault, and has this one.
    /// Bytes count from the line's start.
    Line(u64, LineFault),
}

/// Why nothing is recovered.
#[derive(Clone, Copy, Debug, PartialEq, Eq, Drop)]
pub enum RecoverFault {
    /// The source failed; its count of faults tells so.
    Failed,
    /// The bytes that it gave are no journal.
    Faulty(KeepFault),
}
