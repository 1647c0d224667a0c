//! What is told of faults.

ghost use Rattle.std.specs.Prelude.{◌≡◌, ◌++◌, IfOk, OnOk, string_bytes};
ghost use Rattle.board_base.specs.Pieces.{line_text, piece_text};
ghost use Rattle.room_msg.specs.Faults.{message_fault_words};
ghost use Rattle.session_text.specs.Faults.{session_fault_words};
ghost use Rattle.line_replica.specs.Living as living;
ghost use Rattle.line_replica.specs.Talks.{faulty_text};

use crate::texts::fault_text;
use board_base::{Bytes, Piece};
use itoa::Buffer;
use room_msg::MsgFault;
use session_text::TextFault;
use std::alloc::{AllocError, Global};

/// What the fault of a line is answered with.
pub(crate) fn faulty(alloc: Global, fault: TextFault) -> Result<Bytes, AllocError>
    ensures { IfOk result (λ text. text ≡ faulty_text fault) }
{
    let words = fault_words(alloc, fault)?;
    let text = fault_text(alloc, words.as_str())?;
    Ok(text)
}

/// What the fault of a message is answered with.
pub(crate) fn message_faulty(alloc: Global, fault: MsgFault) -> Result<Bytes, AllocError>
    ensures { IfOk result (λ text. text ≡ living.fault_text (message_fault_words fault)) }
{
    let words = fault.words(alloc)?;
    let text = fault_text(alloc, words.as_str())?;
    Ok(text)
}

/// What is told of the fault of a line.
fn fault_words(alloc: Global, fault: TextFault) -> Result<String, AllocError>
    ensures { IfOk result (λ words. string_bytes words ≡ session_fault_words fault) }
{
    match fault {
        TextFault::Json(fault) => fault.words(alloc),
        TextFault::NotObject => String::from_str(alloc, "not an object"),
        TextFault::Member(name) => {
            let word = name.word();
            format!(in alloc; "member {word}")
        }
        TextFault::Scene(fault) => joined(alloc, "scene: ", &fault.pieces()),
        TextFault::Element(place, fault) => {
            let word = fault.word();
            format!(in alloc; "element {place}: {word}")
        }
        TextFault::Clip(fault) => joined(alloc, "clip: ", &fault.pieces()),
    }
}

/// These words, and the texts of these pieces behind them.
fn joined(alloc: Global, words: &str, pieces: &[Piece]) -> Result<String, AllocError>
    ensures { IfOk result (λ joined. string_bytes joined ≡ words.now ++ line_text pieces.now) }
{
    let mut out = String::from_str(alloc, words)?;
    for piece in pieces {
        push_piece(&mut out, *piece)?;
    }
    Ok(out)
}

/// Appends the text of a piece.
fn push_piece(out: &mut String, piece: Piece) -> Result<(), AllocError>
    ensures { OnOk result (string_bytes out.new ≡ string_bytes out.old ++ piece_text piece) }
{
    match piece {
        Piece::Words(words) => out.push_str(words),
        Piece::Number(number) => {
            let mut buffer = Buffer::new();
            out.push_str(buffer.format(number))
        }
    }
}
