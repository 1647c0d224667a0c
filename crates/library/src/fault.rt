//! Why a text is no library, and why an item isn't inserted.

ghost use Rattle.std.specs.Prelude.{◌≡◌};
ghost use Rattle.board_base.specs.Pieces.{line_text};
ghost use Rattle.clips.specs.Faults.{words_of_element};
ghost use Rattle.library.specs.Faults.{insert_fault_words, item_fault_words, lib_fault_words};

use board_base::Piece;
use elem_read::ElemFault;

/// Why a value is no item. Of several faults the first in this order counts.
#[derive(Clone, Copy, Debug, PartialEq, Eq, Drop)]
pub enum ItemFault {
    /// It isn't an object.
    NotObject,
    /// `id` is missing, not a text, or empty.
    Id,
    /// `status` is neither null nor `published` nor `unpublished`.
    Status,
    /// `created` is neither null nor a whole number within the limit.
    Created,
    /// `name` is neither null nor a text.
    Name,
    /// `elements` isn't an array.
    Elements,
    /// The element at this place of the array, counted from 0, is the first with a fault, and has
    /// this one.
    Element(u64, ElemFault),
    /// The element at this place of the array is the first that has the id of an earlier one.
    Repeated(u64),
}

/// Why a value is no library. Of several faults the first in this order counts.
#[derive(Clone, Copy, Debug, PartialEq, Eq, Drop)]
pub enum LibFault {
    /// It isn't an object.
    NotObject,
    /// Its `type` isn't the text `excalidrawlib`.
    NotLibrary,
    /// `libraryItems` isn't an array, as in files of version 1, which have none.
    Items,
    /// The item at this place of the array, counted from 0, is the first with a fault, and has this
    /// one.
    Item(u64, ItemFault),
}

/// Why an item isn't inserted.
#[derive(Clone, Copy, Debug, PartialEq, Eq, Drop)]
pub enum InsertFault {
    /// The library has no item of this id.
    NoItem,
    /// The id that the copy of the element at this place of the item's elements, counted from 0,
    /// would have is stored. Deleted elements count, and what was dropped when the item was read
    /// doesn't.
    Exists(u64),
}

impl ItemFault {
    /// What is told of this fault, in pieces.
    pub fn pieces(self) -> [Piece; 4]
        ensures { line_text result ≡ item_fault_words self }
    {
        match self {
            ItemFault::NotObject => told("not an object"),
            ItemFault::Id => told("id"),
            ItemFault::Status => told("status"),
            ItemFault::Created => told("created"),
            ItemFault::Name => told("name"),
            ItemFault::Elements => told("elements"),
            ItemFault::Element(place, fault) => told_of(place, fault.word()),
            ItemFault::Repeated(place) => told_of(place, "repeated"),
        }
    }
}

impl LibFault {
    /// What is told of this fault, in pieces.
    pub fn pieces(self) -> [Piece; 7]
        ensures { line_text result ≡ lib_fault_words self }
    {
        match self {
            LibFault::NotObject => told_alone("not an object"),
            LibFault::NotLibrary => told_alone("type"),
            LibFault::Items => told_alone("libraryItems"),
            LibFault::Item(place, fault) => {
                let [first, second, third, fourth] = fault.pieces();
                [
                    Piece::Words("item "),
                    Piece::Number(place),
                    Piece::Words(": "),
                    first,
                    second,
                    third,
                    fourth,
                ]
            }
        }
    }
}

impl InsertFault {
    /// What is told of this fault, in pieces.
    pub fn pieces(self) -> [Piece; 4]
        ensures { line_text result ≡ insert_fault_words self }
    {
        match self {
            InsertFault::NoItem => told("no item"),
            InsertFault::Exists(place) => told_of(place, "exists"),
        }
    }
}

/// These words alone.
fn told(words: &'static str) -> [Piece; 4]
    ensures { line_text result ≡ words.now }
{
    [
        Piece::Words(words),
        Piece::Words(""),
        Piece::Words(""),
        Piece::Words(""),
    ]
}

/// These words alone, where more could stand.
fn told_alone(words: &'static str) -> [Piece; 7]
    ensures { line_text result ≡ words.now }
{
    [
        Piece::Words(words),
        Piece::Words(""),
        Piece::Words(""),
        Piece::Words(""),
        Piece::Words(""),
        Piece::Words(""),
        Piece::Words(""),
    ]
}

/// These words of the element at a place.
fn told_of(place: u64, words: &'static str) -> [Piece; 4]
    ensures { line_text result ≡ words_of_element place words.now }
{
    [
        Piece::Words("element "),
        Piece::Number(place),
        Piece::Words(": "),
        Piece::Words(words),
    ]
}
