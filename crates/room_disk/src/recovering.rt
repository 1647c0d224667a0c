//! What a source gives is read as a journal.

ghost use Rattle.std.specs.Prelude.{◌≡◌, ◌≢◌, ℕ, ◌<◌, ◌≤◌, List as Items, ◌++◌, length, take, true, false, None, Ok, Err, IfOk, IfSome, OnOk, OnErr};
ghost use Rattle.board_ends.specs.Counts.{Rose};
ghost use Rattle.board_ends.specs.Ends.{Gave, IsAtEnd};
ghost use Rattle.room_disk.specs.Recovering.{HasNoRecord, Recovered, IsRecoveredAs};
ghost use Rattle.room_disk.specs.inner.UnderWay.{StandsIn};
ghost use Rattle.room_disk.specs.declared.fault.KeepFault.{KeepFault};
ghost use Rattle.room_disk.specs.declared.fault.RecoverFault.{RecoverFault};

use crate::fault::RecoverFault;
use crate::recovery::Recovery;
use board_base::Stop;
use board_ends::{Failed, Source, empty_piece};
use elem_store::Store;
use input_texts::line_end;
use scene_file::Head;
use std::alloc::{AllocError, Global};

/// The head and the store of the journal that the source gives, up to its end. It holds one line at
/// a time. A faulty line is the answer once the source is read to its end. `Failed` comes only
/// where the source's count of faults rose. Want of memory is also told of more pieces or lines
/// than a 64-bit number counts.
pub fn recover<S: Source>(
    alloc: Global,
    source: &mut S,
) -> Result<(Head, Store), Stop<RecoverFault>>
    ensures recovered { IfOk result (λ found. (bytes : Items ℕ)
        × Gave (S.seen source.old) (S.seen source.new) bytes
        × IsRecoveredAs bytes (Ok (record { head = found.0; elements = found.1.elements }))) }
    ensures end { OnOk result (IsAtEnd (S.seen source.new)) }
    ensures faulty { (fault : KeepFault) → result ≡ Err (Stop.Fault (RecoverFault.Faulty fault))
        → (bytes : Items ℕ) × Gave (S.seen source.old) (S.seen source.new) bytes
        × IsAtEnd (S.seen source.new) × IsRecoveredAs bytes (Err fault) }
    ensures failed { result ≡ Err (Stop.Fault RecoverFault.Failed)
        → Rose (S.seen source.old).faults (S.seen source.new).faults }
    ensures counted { (S.seen source.old).faults ≤ (S.seen source.new).faults }
{
    let (recovery, _begun) = read_lines(alloc, source)?;
    recovery.finish()
}

/// What `recover` gives, but `None` of a journal that has bytes and in which no line ends: it was
/// begun and has no record, so no room is to go on from it.
pub fn recover_records<S: Source>(
    alloc: Global,
    source: &mut S,
) -> Result<Option<(Head, Store)>, Stop<RecoverFault>>
    ensures recovered { IfOk result (λ records. IfSome records (λ found. (bytes : Items ℕ)
        × Gave (S.seen source.old) (S.seen source.new) bytes × (¬ HasNoRecord bytes)
        × IsRecoveredAs bytes (Ok (record { head = found.0; elements = found.1.elements })))) }
    ensures none { result ≡ Ok None → (bytes : Items ℕ)
        × Gave (S.seen source.old) (S.seen source.new) bytes × HasNoRecord bytes }
    ensures end { OnOk result (IsAtEnd (S.seen source.new)) }
    ensures faulty { (fault : KeepFault) → result ≡ Err (Stop.Fault (RecoverFault.Faulty fault))
        → (bytes : Items ℕ) × Gave (S.seen source.old) (S.seen source.new) bytes
        × IsAtEnd (S.seen source.new) × IsRecoveredAs bytes (Err fault) }
    ensures failed { result ≡ Err (Stop.Fault RecoverFault.Failed)
        → Rose (S.seen source.old).faults (S.seen source.new).faults }
    ensures counted { (S.seen source.old).faults ≤ (S.seen source.new).faults }
{
    let (recovery, begun) = read_lines(alloc, source)?;
    if has_no_record(&recovery, &begun) {
        return Ok(None);
    }
    Ok(Some(recovery.finish()?))
}

/// Reads the lines of the journal, up to the source's end; and the bytes that stand behind the
/// last one.
fn read_lines<S: Source>(
    alloc: Global,
    source: &mut S,
) -> Result<(Recovery, Vec<u8>), Stop<RecoverFault>>
    ensures read { IfOk result (λ read. (bytes : Items ℕ)
        × Gave (S.seen source.old) (S.seen source.new) bytes
        × StandsIn bytes read.1.items read.0) }
    ensures end { OnOk result (IsAtEnd (S.seen source.new)) }
    ensures failed { result ≡ Err (Stop.Fault RecoverFault.Failed)
        → Rose (S.seen source.old).faults (S.seen source.new).faults }
    ensures other { (fault : KeepFault) → result ≢ Err (Stop.Fault (RecoverFault.Faulty fault)) }
    ensures counted { (S.seen source.old).faults ≤ (S.seen source.new).faults }
{
    let mut recovery = Recovery::new(alloc);
    let mut begun = Vec::new(alloc);
    let mut piece = empty_piece(alloc)?;
    'pieces: for _ in 0..u64::MAX {
        let count = next_piece(alloc, source, &mut recovery, &mut begun, &mut piece)?;
        if count == 0 {
            return Ok((recovery, begun));
        }
    }
    Err(Stop::Memory)
}

/// Whether bytes were read, and no line of them ended.
fn has_no_record(recovery: &Recovery, begun: &Vec<u8>) -> bool
    ensures none { result ≡ true → (bytes : Items ℕ)
        → StandsIn bytes begun.now.items recovery.now → HasNoRecord bytes }
    ensures some { result ≡ false → (bytes : Items ℕ)
        → StandsIn bytes begun.now.items recovery.now → ¬ HasNoRecord bytes }
{
    input_texts::laws::bytes_are_lines();
    if begun.is_empty() {
        return false;
    }
    recovery.is_new()
}

/// Reads the next bytes into the piece and takes them, and says how many came.
fn next_piece<S: Source>(
    alloc: Global,
    source: &mut S,
    recovery: &mut Recovery,
    begun: &mut Vec<u8>,
    piece: &mut [u8],
) -> Result<usize, Stop<RecoverFault>>
    ensures given { IfOk result
        (λ n. Gave (S.seen source.old) (S.seen source.new) (take n piece.new)) }
    ensures taken { IfOk result (λ n. (stream : Items ℕ)
        → StandsIn stream begun.old.items recovery.old
        → StandsIn (stream ++ take n piece.new) begun.new.items recovery.new) }
    ensures end { IfOk result (λ n. n ≡ 0 → 0 < length piece.old → IsAtEnd (S.seen source.new)) }
    ensures failed { result ≡ Err (Stop.Fault RecoverFault.Failed)
        → Rose (S.seen source.old).faults (S.seen source.new).faults }
    ensures other { (fault : KeepFault) → result ≢ Err (Stop.Fault (RecoverFault.Faulty fault)) }
    ensures counted { (S.seen source.old).faults ≤ (S.seen source.new).faults }
{
    match source.read(piece) {
        Ok(n) => {
            take_piece(alloc, recovery, begun, &piece[..n])?;
            Ok(n)
        }
        Err(Failed) => Err(Stop::Fault(RecoverFault::Failed)),
    }
}

/// Takes the next bytes of the journal.
fn take_piece(
    alloc: Global,
    recovery: &mut Recovery,
    begun: &mut Vec<u8>,
    piece: &[u8],
) -> Result<(), AllocError>
    ensures { OnOk result ((stream : Items ℕ) → StandsIn stream begun.old.items recovery.old
        → StandsIn (stream ++ piece.now) begun.new.items recovery.new) }
{
    let mut at = 0;
    'stretches: while at < piece.len() {
        at += take_stretch(alloc, recovery, begun, &piece[at..])?;
    }
    Ok(())
}

/// Takes the bytes up to the end of a line or of the piece, and says how many these are.
fn take_stretch(
    alloc: Global,
    recovery: &mut Recovery,
    begun: &mut Vec<u8>,
    piece: &[u8],
) -> Result<usize, AllocError>
    requires some { 0 < length piece.now }
    ensures more { IfOk result (λ n. 0 < n) }
    ensures within { IfOk result (λ n. n ≤ length piece.now) }
    ensures taken { IfOk result (λ n. (stream : Items ℕ)
        → StandsIn stream begun.old.items recovery.old
        → StandsIn (stream ++ take n piece.now) begun.new.items recovery.new) }
{
    let front = line_end(piece);
    begun.extend_from_slice(&piece[..front])?;
    if front == piece.len() {
        return Ok(front);
    }
    begun.push(b'\n')?;
    recovery.take_line(alloc, begun.as_slice())?;
    begun.clear();
    Ok(front + 1)
}
