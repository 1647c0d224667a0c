//! Writing a line piece by piece, which takes no memory.

ghost use Rattle.std.specs.Prelude.{◌≡◌, ℕ, ◌≤◌, length, take, decimal, OnOk, OnErr};
ghost use Rattle.board_ends.specs.Counts.{Rose};
ghost use Rattle.board_ends.specs.Ends.{Took, KeepsSafe, IsSafeHeld};
ghost use Rattle.board_base.specs.Pieces.{piece_text, line_text};

use crate::ends::{Failed, Sink};
use crate::whole::write_all;
use board_base::Piece;
use itoa::Buffer;

/// Writes the pieces one after the other. `Failed` comes only where the sink's count of faults
/// rose; a first part of the line is out then. It takes no memory.
pub fn write_pieces<K: Sink>(sink: &mut K, pieces: &[Piece]) -> Result<(), Failed>
    ensures ok { OnOk result (Took (K.seen sink.old) (K.seen sink.new) (line_text pieces.now)) }
    ensures failed { OnErr result (Rose (K.seen sink.old).faults (K.seen sink.new).faults) }
    ensures part { OnErr result ((n : ℕ) × (n ≤ length (line_text pieces.now))
        × Took (K.seen sink.old) (K.seen sink.new) (take n (line_text pieces.now))) }
    ensures safe { KeepsSafe (K.seen sink.old) (K.seen sink.new) }
    ensures safe_held { IsSafeHeld (K.seen sink.old) → IsSafeHeld (K.seen sink.new) }
    ensures counted { (K.seen sink.old).faults ≤ (K.seen sink.new).faults }
{
    for piece in pieces {
        write_piece(sink, *piece)?;
    }
    Ok(())
}

/// Writes one piece.
fn write_piece<K: Sink>(sink: &mut K, piece: Piece) -> Result<(), Failed>
    ensures ok { OnOk result (Took (K.seen sink.old) (K.seen sink.new) (piece_text piece)) }
    ensures failed { OnErr result (Rose (K.seen sink.old).faults (K.seen sink.new).faults) }
    ensures part { OnErr result ((n : ℕ) × (n ≤ length (piece_text piece))
        × Took (K.seen sink.old) (K.seen sink.new) (take n (piece_text piece))) }
    ensures safe { KeepsSafe (K.seen sink.old) (K.seen sink.new) }
    ensures safe_held { IsSafeHeld (K.seen sink.old) → IsSafeHeld (K.seen sink.new) }
    ensures counted { (K.seen sink.old).faults ≤ (K.seen sink.new).faults }
{
    match piece {
        Piece::Words(words) => write_all(sink, words.as_bytes()),
        Piece::Number(number) => {
            let mut buffer = Buffer::new();
            write_all(sink, buffer.format(number).as_bytes())
        }
    }
}
