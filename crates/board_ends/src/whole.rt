//! Reading all that a source gives, and writing all of a text.

ghost use Rattle.std.specs.Prelude.{◌≡◌, ◌≢◌, ℕ, ◌+◌, ◌<◌, ◌≤◌, ◌++◌, List, length, take, IfOk, OnOk, OnErr, vec_len};
ghost use Rattle.board_ends.specs.Counts.{Rose};
ghost use Rattle.board_ends.specs.Ends.{Gave, Took, KeepsSafe, IsSafeHeld, IsAtEnd};
ghost use Rattle.board_ends.specs.Reads.{IsReadWithin};

use crate::ends::{Failed, Sink, Source};
use board_base::{Bytes, Stop};
use std::alloc::{AllocError, Global};
use thiserror::Error;

/// How many bytes are asked of a source at once.
pub const PIECE: usize = 65536;

/// Why not all was read.
#[derive(Clone, Copy, Debug, PartialEq, Eq, Drop, Error)]
pub enum ReadError {
    /// The source failed; its count of faults tells so.
    #[error("the source failed")]
    Failed,
    /// The source gave more bytes than the limit.
    #[error("too long")]
    TooLong,
}

/// All bytes that the source gives, up to its end. It stops at a failure, and at the byte after
/// `limit` bytes. `Failed` comes only where the source's count of faults rose, `TooLong` exactly
/// where `limit + 1` bytes were given.
pub fn read_all<S: Source>(
    alloc: Global,
    source: &mut S,
    limit: usize,
) -> Result<Bytes, Stop<ReadError>>
    requires { limit < 4294967295 }
    ensures given { IfOk result (λ all. Gave (S.seen source.old) (S.seen source.new) all) }
    ensures within { IfOk result (λ all. length all ≤ limit) }
    ensures ends { IsReadWithin limit (S.seen source.old) (S.seen source.new) result }
{
    let mut all = Vec::new(alloc);
    let mut piece = empty_piece(alloc)?;
    while all.len() <= limit {
        let wanted = PIECE.min(limit + 1 - all.len());
        if append_next(source, &mut piece[..wanted], &mut all)? == 0 {
            return Ok(Bytes::from_vec(all));
        }
    }
    Err(Stop::Fault(ReadError::TooLong))
}

/// Reads the next bytes into the piece and appends them to all, and says how many came.
fn append_next<S: Source>(
    source: &mut S,
    piece: &mut [u8],
    all: &mut Vec<u8>,
) -> Result<usize, Stop<ReadError>>
    ensures bound { IfOk result (λ n. n ≤ length piece.new) }
    ensures appended { IfOk result (λ n. all.new.items ≡ all.old.items ++ take n piece.new) }
    ensures given { IfOk result (λ n. Gave (S.seen source.old) (S.seen source.new)
        (take n piece.new)) }
    ensures end { IfOk result (λ n. n ≡ 0 → 0 < length piece.old → IsAtEnd (S.seen source.new)) }
    ensures failed { result ≡ Err (Stop.Fault ReadError.Failed)
        → Rose (S.seen source.old).faults (S.seen source.new).faults }
    ensures unmoved { result ≡ Err (Stop.Fault ReadError.Failed)
        → (S.seen source.new).left ≡ (S.seen source.old).left }
    ensures other { result ≢ Err (Stop.Fault ReadError.TooLong) }
    ensures stopped { OnErr result ((n : ℕ) × (n ≤ length piece.old)
        × Gave (S.seen source.old) (S.seen source.new) (take n piece.new)) }
    ensures counted { (S.seen source.old).faults ≤ (S.seen source.new).faults }
{
    match source.read(piece) {
        Ok(n) => {
            all.extend_from_slice(&piece[..n])?;
            Ok(n)
        }
        Err(Failed) => Err(Stop::Fault(ReadError::Failed)),
    }
}

/// A buffer for the bytes that are asked of a source at once.
pub fn empty_piece(alloc: Global) -> Result<Vec<u8>, AllocError>
    ensures { IfOk result (λ piece. vec_len piece ≡ PIECE) }
{
    vec![in alloc; 0; PIECE]
}

/// Writes all bytes. `Failed` comes only where the sink's count of faults rose; a first part of
/// the bytes is out then. It takes no memory.
pub fn write_all<K: Sink>(sink: &mut K, bytes: &[u8]) -> Result<(), Failed>
    ensures ok { OnOk result (Took (K.seen sink.old) (K.seen sink.new) bytes.now) }
    ensures failed { OnErr result (Rose (K.seen sink.old).faults (K.seen sink.new).faults) }
    ensures part { OnErr result ((n : ℕ) × (n ≤ length bytes.now)
        × Took (K.seen sink.old) (K.seen sink.new) (take n bytes.now)) }
    ensures safe { KeepsSafe (K.seen sink.old) (K.seen sink.new) }
    ensures safe_held { IsSafeHeld (K.seen sink.old) → IsSafeHeld (K.seen sink.new) }
    ensures counted { (K.seen sink.old).faults ≤ (K.seen sink.new).faults }
{
    let mut out = 0;
    while out < bytes.len() {
        out += sink.write(&bytes[out..])?;
    }
    Ok(())
}
