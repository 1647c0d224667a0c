//! The pieces of a line that is told without taking memory.

/// A piece of a line.
#[derive(Clone, Copy, Debug, PartialEq, Eq)]
pub enum Piece {
    /// These words.
    Words(&'static str),
    /// A number, in digits.
    Number(u64),
}
