//! How a run ends, and the line that says why it didn't do what it was asked for.

ghost use Rattle.std.specs.Prelude.{◌≡◌, ◌++◌, codes, decimal};
ghost use Rattle.board_base.specs.Pieces.{line_text, piece_text};
ghost use Rattle.commands.specs.Faults.{code_of, newline, status_of, line_of, text_line, Noted};
ghost use Rattle.library.specs.Faults.{item_fault_words};
ghost use Rattle.commands.specs.declared.status.Fault.{Fault};
ghost use Rattle.commands.specs.declared.status.InputRefusal.{InputRefusal};

use board_base::{Piece, Stop};
use board_ends::{Sink, write_pieces};
use clips::ClipFault;
use library::{ItemFault, LibFault};
use room_disk::LineFault;
use scene_file::SceneFault;
use session_text::TextFault;
use std::alloc::AllocError;

/// A piece that says nothing.
const NONE: Piece = Piece::Words("");

/// How a run ends.
#[derive(Clone, Copy, Debug, PartialEq, Eq)]
pub enum Status {
    /// All was done.
    Done,
    /// Want of memory.
    Memory,
    /// The words are not those of a command.
    Usage,
    /// The input is refused.
    Refused,
    /// The input could not be read.
    ReadFault,
    /// The output could not be written.
    WriteFault,
    /// The links failed.
    LinkFault,
    /// Nothing happened on the links for too long.
    Idle,
}

impl Status {
    /// The exit status: 0 to 7.
    pub fn code(self) -> u8
        ensures { result ≡ code_of self }
    {
        match self {
            Status::Done => 0,
            Status::Memory => 1,
            Status::Usage => 2,
            Status::Refused => 3,
            Status::ReadFault => 4,
            Status::WriteFault => 5,
            Status::LinkFault => 6,
            Status::Idle => 7,
        }
    }
}

/// Why an input is refused that was read to its end.
#[derive(Clone, Copy, Debug, PartialEq, Eq)]
pub enum InputRefusal {
    /// The text with this number, counted from 1, has this fault.
    Text(usize, SceneFault),
    /// One scene was asked for, and behind it a further text begins at this byte.
    Extra(usize),
    /// The text with this number of a session, counted from 1, has this fault.
    Event(u64, TextFault),
    /// A session has more events than it may have.
    TooMany,
    /// The line with this number of a journal, counted from 1, has this fault.
    Line(u64, LineFault),
    /// A journal to resume from isn't empty, and no line of it ends.
    NoRecord,
    /// The second text is to be a clip, and has this fault.
    Clip(ClipFault),
    /// The text with this number, counted from 1, is to be a library, and has this fault.
    Library(usize, LibFault),
    /// The library has no item of the id that is to be inserted.
    NoItem,
    /// The id is stored that the copy of the element at this place of the second text's array would
    /// have, or of the item's elements in it.
    Exists(u64),
}

/// Why a run didn't do what it was asked for.
#[derive(Clone, Copy, Debug, PartialEq, Eq)]
pub enum Fault {
    /// Want of memory.
    Memory,
    /// The words are not those of a command.
    Usage,
    /// The input could not be read.
    Read,
    /// The input has more bytes than the limit.
    TooLong,
    /// The input was read and is refused.
    Refused(InputRefusal),
    /// The output could not be written.
    Write,
}

impl From<AllocError> for Fault {
    ghost use Rattle.std.specs.Prelude.{◌≡◌};
    ghost use Rattle.commands.specs.declared.status.Fault.TheVariants.{Memory};

    ghost from_gives = { λ _ fault. fault ≡ Memory };

    fn from(_error: AllocError) -> Fault {
        Fault::Memory
    }
}

impl From<Stop<InputRefusal>> for Fault {
    ghost use Rattle.std.specs.Prelude.{◌≡◌};
    ghost use Rattle.commands.specs.inner.Faults.{stopped};

    ghost from_gives = { λ stop fault. fault ≡ stopped stop };

    fn from(stop: Stop<InputRefusal>) -> Fault {
        match stop {
            Stop::Fault(why) => Fault::Refused(why),
            Stop::Memory => Fault::Memory,
        }
    }
}

impl Fault {
    /// The status that this fault ends with.
    pub fn status(self) -> Status
        ensures { result ≡ status_of self }
    {
        match self {
            Fault::Memory => Status::Memory,
            Fault::Usage => Status::Usage,
            Fault::Read => Status::ReadFault,
            Fault::TooLong | Fault::Refused(_) => Status::Refused,
            Fault::Write => Status::WriteFault,
        }
    }

    /// Notes the line of this fault, and gives its status. A fault of the notes changes nothing
    /// else.
    pub fn noted<N: Sink>(self, notes: &mut N) -> Status
        ensures status { result ≡ status_of self }
        ensures noted { Noted self (N.seen notes.old) (N.seen notes.new) }
    {
        let _ = write_pieces(notes, &self.pieces());
        self.status()
    }

    /// The pieces of the line that tells this fault.
    fn pieces(self) -> [Piece; 11]
        ensures { line_text result ≡ line_of self }
    {
        match self {
            Fault::Memory => line("board: out of memory\n"),
            Fault::Usage => line(
                "board: usage: restore, merge, state, replay, pictures, drill SEED EVENTS, serve PORT LINKS IDLE, recover, paste PREFIX, library, insert ITEM PREFIX, check\n",
            ),
            Fault::Read => line("board: read fault\n"),
            Fault::TooLong => line("board: input is longer than 67108864 bytes\n"),
            Fault::Refused(InputRefusal::Text(number, found)) => {
                let [first, second, third, fourth] = found.pieces();
                [
                    Piece::Words("board: text "),
                    Piece::Number(number as u64),
                    Piece::Words(": "),
                    first,
                    second,
                    third,
                    fourth,
                    Piece::Words("\n"),
                    NONE,
                    NONE,
                    NONE,
                ]
            }
            Fault::Refused(InputRefusal::Event(number, found)) => event_line(number, found),
            Fault::Refused(InputRefusal::TooMany) => line("board: more than 250000 events\n"),
            Fault::Refused(InputRefusal::Line(number, found)) => {
                let [first, second, third, fourth] = found.pieces();
                text_line(number, ": ", first, second, third, fourth)
            }
            Fault::Refused(InputRefusal::NoRecord) => text_line(
                1,
                ": no record",
                NONE,
                NONE,
                NONE,
                NONE,
            ),
            Fault::Refused(InputRefusal::Clip(found)) => {
                let [first, second, third, fourth] = found.pieces();
                text_line(2, ": ", first, second, third, fourth)
            }
            Fault::Refused(InputRefusal::Library(number, found)) => library_line(number, found),
            Fault::Refused(InputRefusal::NoItem) => text_line(
                2,
                ": no item",
                NONE,
                NONE,
                NONE,
                NONE,
            ),
            Fault::Refused(InputRefusal::Exists(place)) => exists_line(place),
            Fault::Refused(InputRefusal::Extra(at)) => [
                Piece::Words("board: extra text at byte "),
                Piece::Number(at as u64),
                Piece::Words("\n"),
                NONE,
                NONE,
                NONE,
                NONE,
                NONE,
                NONE,
                NONE,
                NONE,
            ],
            Fault::Write => line("board: write fault\n"),
        }
    }
}

/// The line of a fault of a session's text.
fn event_line(number: u64, found: TextFault) -> [Piece; 11]
    ensures { line_text result ≡ line_of (Fault.Refused (InputRefusal.Event number found)) }
{
    match found {
        TextFault::Json(fault) => {
            let [words, place] = fault.pieces();
            text_line(number, ": ", words, place, NONE, NONE)
        }
        TextFault::NotObject => { text_line(number, ": not an object", NONE, NONE, NONE, NONE) }
        TextFault::Member(name) => {
            text_line(
                number,
                ": member ",
                Piece::Words(name.word()),
                NONE,
                NONE,
                NONE,
            )
        }
        TextFault::Scene(fault) => {
            let [first, second, third, fourth] = fault.pieces();
            text_line(number, ": scene: ", first, second, third, fourth)
        }
        TextFault::Element(place, fault) => text_line(
            number,
            ": element ",
            Piece::Number(place),
            Piece::Words(": "),
            Piece::Words(fault.word()),
            NONE,
        ),
        TextFault::Clip(fault) => {
            let [first, second, third, fourth] = fault.pieces();
            text_line(number, ": clip: ", first, second, third, fourth)
        }
    }
}

/// The line on the element at this place of the second text, whose copy's id is stored.
fn exists_line(place: u64) -> [Piece; 11]
    ensures { line_text result ≡ line_of (Fault.Refused (InputRefusal.Exists place)) }
{
    let place = Piece::Number(place);
    text_line(2, ": element ", place, Piece::Words(": exists"), NONE, NONE)
}

/// The line on the library text with this number.
fn library_line(number: usize, found: LibFault) -> [Piece; 11]
    ensures { line_text result ≡ line_of (Fault.Refused (InputRefusal.Library number found)) }
{
    let number = number as u64;
    match found {
        LibFault::NotObject => text_line(number, ": not an object", NONE, NONE, NONE, NONE),
        LibFault::NotLibrary => text_line(number, ": type", NONE, NONE, NONE, NONE),
        LibFault::Items => text_line(number, ": libraryItems", NONE, NONE, NONE, NONE),
        LibFault::Item(place, fault) => item_line(number, place, fault),
    }
}

/// The line on the item at this place of the library text with this number.
fn item_line(number: u64, place: u64, fault: ItemFault) -> [Piece; 11]
    ensures { line_text result
        ≡ text_line number (codes "item "
        ++ (decimal place ++ (codes ": " ++ item_fault_words fault))) }
{
    let [first, second, third, fourth] = fault.pieces();
    [
        Piece::Words("board: text "),
        Piece::Number(number),
        Piece::Words(": item "),
        Piece::Number(place),
        Piece::Words(": "),
        first,
        second,
        third,
        fourth,
        Piece::Words("\n"),
        NONE,
    ]
}

/// The line on the text with this number, of these words and pieces.
fn text_line(
    number: u64,
    words: &'static str,
    first: Piece,
    second: Piece,
    third: Piece,
    fourth: Piece,
) -> [Piece; 11]
    ensures { line_text result ≡ codes "board: text " ++ (decimal number ++ (words.now
        ++ (piece_text first ++ (piece_text second
        ++ (piece_text third ++ (piece_text fourth ++ newline)))))) }
{
    [
        Piece::Words("board: text "),
        Piece::Number(number),
        Piece::Words(words),
        first,
        second,
        third,
        fourth,
        Piece::Words("\n"),
        NONE,
        NONE,
        NONE,
    ]
}

/// The line of these words alone.
fn line(words: &'static str) -> [Piece; 11]
    ensures { line_text result ≡ words.now }
{
    [
        Piece::Words(words),
        NONE,
        NONE,
        NONE,
        NONE,
        NONE,
        NONE,
        NONE,
        NONE,
        NONE,
        NONE,
    ]
}
