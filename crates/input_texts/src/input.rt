//! The texts of a whole input.

ghost use Rattle.std.specs.Prelude.{◌≡◌, ◌≢◌, ℕ, ◌+◌, ◌^◌, ◌<◌, ◌≤◌, List, [], ◌++◌, length, take, IfOk, OnOk, OnErr};
ghost use Rattle.board_ends.specs.Counts.{Rose};
ghost use Rattle.board_ends.specs.Ends.{Gave, IsAtEnd};
ghost use Rattle.board_ends.specs.Reads.{IsReadWithin};
ghost use Rattle.input_texts.specs.Texts.{AreRead};
ghost use Rattle.input_texts.specs.inner.Texts.{StandsIn};

use crate::reading::{Reader, Stopped, finish, take_piece};
use board_base::Stop;
use board_ends::{Failed, PIECE, ReadError, Source, empty_piece};
use json_reader::Feed;
use std::alloc::Global;

/// Hands the texts that the source gives on, each when it ends. What stops that first is the
/// answer, and the source is read on to its end all the same. It stops at a failure, and at the
/// byte after `limit` bytes. `Failed` comes only where the source's count of faults rose, `TooLong`
/// exactly where `limit + 1` bytes were given.
pub fn read_texts<S: Source, R: Reader>(
    alloc: Global,
    source: &mut S,
    limit: usize,
    reader: &mut R,
) -> Result<Option<Stopped<R::Fault>>, Stop<ReadError>>
    requires within { limit < 4294967295 }
    requires unread { (R.seen reader.old).has_read [] }
    ensures read { IfOk result (λ stop. (bytes : List ℕ) × (length bytes ≤ limit)
        × Gave (S.seen source.old) (S.seen source.new) bytes
        × AreRead bytes (R.seen reader.new) stop) }
    ensures ends { IsReadWithin limit (S.seen source.old) (S.seen source.new) result }
{
    let mut feed = Feed::new(alloc);
    let mut stop = None;
    let mut piece = empty_piece(alloc)?;
    let mut used = 0;
    'pieces: while used <= limit {
        let wanted = PIECE.min(limit + 1 - used);
        let count = next_piece(
            alloc,
            source,
            &mut feed,
            reader,
            &mut stop,
            &mut piece[..wanted],
        )?;
        if count == 0 {
            return Ok(finish(alloc, &mut feed, reader, stop)?);
        }
        used += count;
    }
    Err(Stop::Fault(ReadError::TooLong))
}

/// Reads the next bytes into the piece and takes them, and says how many came.
fn next_piece<S: Source, R: Reader>(
    alloc: Global,
    source: &mut S,
    feed: &mut Feed,
    reader: &mut R,
    stop: &mut Option<Stopped<R::Fault>>,
    piece: &mut [u8],
) -> Result<usize, Stop<ReadError>>
    requires { (stream : List ℕ) × StandsIn stream [] feed.old (R.seen reader.old) stop.old
        × (length stream + length piece.old < 2 ^ 64) }
    ensures bound { IfOk result (λ n. n ≤ length piece.new) }
    ensures given { IfOk result
        (λ n. Gave (S.seen source.old) (S.seen source.new) (take n piece.new)) }
    ensures taken { IfOk result (λ n. (stream : List ℕ)
        → StandsIn stream [] feed.old (R.seen reader.old) stop.old
        → StandsIn (stream ++ take n piece.new) [] feed.new (R.seen reader.new) stop.new) }
    ensures end { IfOk result (λ n. n ≡ 0 → 0 < length piece.old → IsAtEnd (S.seen source.new)) }
    ensures failed { result ≡ Err (Stop.Fault ReadError.Failed)
        → Rose (S.seen source.old).faults (S.seen source.new).faults }
    ensures unmoved { result ≡ Err (Stop.Fault ReadError.Failed)
        → (S.seen source.new).left ≡ (S.seen source.old).left }
    ensures other { result ≢ Err (Stop.Fault ReadError.TooLong) }
    ensures stopped { OnErr result ((n : ℕ) × (n ≤ length piece.old)
        × Gave (S.seen source.old) (S.seen source.new) (take n piece.new)) }
    ensures counted { (S.seen source.old).faults ≤ (S.seen source.new).faults }
{
    match source.read(piece) {
        Ok(n) => {
            take_piece(alloc, feed, reader, stop, &piece[..n])?;
            Ok(n)
        }
        Err(Failed) => Err(Stop::Fault(ReadError::Failed)),
    }
}
