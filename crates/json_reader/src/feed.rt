//! Reading values from pieces of a stream.

ghost use Rattle.std.specs.Prelude.{◌≡◌, ℕ, ◌+◌, ◌^◌, ◌<◌, ◌≤◌, List, [], ◌++◌, Some, None, Err, true, false, length, drop, IfOk, OnErr};
ghost use Rattle.json_text.specs.Characters.{is_blank};
ghost use Rattle.json_text.specs.Value.{Stands};
ghost use Rattle.json_reader.specs.Faults.{IsFirstFault};
ghost use Rattle.json_reader.specs.Feeding.{behind_space, IsAt, IsUnderWay};
ghost use Rattle.json_reader.specs.inner.Runs.{IsKept};
ghost use Rattle.json_reader.specs.inner.Writing.{Came, HasFed, IsBroken, IsRead, IsRefusedIn};
ghost use Rattle.json_reader.specs.declared.fault.JsonFault.{JsonFault};

use crate::fault::JsonFault;
use crate::reader::{Taken, ValueReader};
use board_base::Stop;
use json_text::{Raw, skip_space};
use std::alloc::{AllocError, Global};
use std::marker::Model;
use std::mem::replace;

/// What came of a piece of a stream.
#[derive(Drop)]
pub struct Fed {
    /// How many bytes of the piece were used.
    pub used: usize,
    /// The value that has ended with them. A number ends before the first byte that isn't part of
    /// it.
    pub value: Option<Raw>,
}

/// A reader of values from pieces of a stream. It keeps no earlier bytes than those of the value
/// under way, and no room for them once it has ended.
pub struct Feed {
    /// It has read a first part of the rest.
    reader: ValueReader,
    rest: Vec<u8>,
    used: usize,
    fault: Option<JsonFault>,
}

// By hand, so that whoever drops a feed sees one call and not what its reader holds.
impl Drop for Feed {
    fn drop(self) {
        let Feed {
            reader: _reader,
            rest: _rest,
            used: _used,
            fault: _fault,
        } = self;
    }
}

impl Model for Feed {
    ghost use Rattle.json_reader.specs.Feeding.{Feeding};
    ghost use Rattle.json_reader.specs.inner.Runs.{IsKept};
    ghost use Rattle.json_reader.specs.inner.Writing.{IsRead};

    ghost Value = { Feeding };

    ghost view = { λ f. record { rest = f.rest.items; used = f.used; fault = f.fault } };

    ghost invariant = { λ f. IsRead f.rest.items 0 f.reader × IsKept f.rest.items };
}

impl Feed {
    /// A feed that has used nothing.
    #[tactic(auto, using(crate::proofs::Feeds::kept_none))]
    pub fn new(alloc: Global) -> Feed
        ensures { result ≡ record { rest = []; used = 0; fault = None } }
    {
        Feed {
            reader: ValueReader::new(alloc, 0),
            rest: Vec::new(alloc),
            used: 0,
            fault: None,
        }
    }

    /// How many bytes were used in all. It takes no memory.
    pub fn used(&self) -> u64
        ensures { result ≡ self.now.used }
    {
        self.used as u64
    }

    /// Uses the piece up to the end of the first value that ends in it, or all of it. A fault is
    /// the first one of the stream, with its place there, as soon as no continuation makes a value;
    /// it is kept.
    #[tactic(auto, using(crate::proofs::Feeds::going_on))]
    pub fn feed(&mut self, piece: &[u8]) -> Result<Fed, Stop<JsonFault>>
        requires { self.old.used + length piece.now < 2 ^ 64 }
        ensures used { IfOk result (λ fed. fed.used ≤ length piece.now) }
        ensures all_used { IfOk result (λ fed. fed.value ≡ None → fed.used ≡ length piece.now) }
        ensures kept { IfOk result (λ fed. fed.value ≡ None → self.new ≡ record {
          rest = behind_space (self.old.rest ++ piece.now);
          used = self.old.used + length piece.now;
          fault = None;
        }) }
        ensures under_way { IfOk result (λ fed. fed.value ≡ None → IsUnderWay self.new.rest) }
        ensures emptied { IfOk result (λ fed. (text : List ℕ) → fed.value ≡ Some text
            → self.new ≡ record { rest = []; used = self.old.used + fed.used; fault = None }) }
        ensures some { IfOk result (λ fed. (text : List ℕ) → fed.value ≡ Some text
            → 0 < length self.old.rest + fed.used) }
        ensures faulty { (fault : JsonFault) → result ≡ Err (Stop.Fault fault)
            → self.new ≡ record self.old { fault = Some fault } }
        ensures again { (fault : JsonFault) → self.old.fault ≡ Some fault
            → result ≡ Err (Stop.Fault fault) }
        ensures memory { result ≡ Err Stop.Memory → self.new ≡ self.old }

        // Wherever the feed stands in a stream: it goes on there; the value stands there, however
        // the stream goes on; and so does the first fault.
        ensures going { IfOk result (λ fed. fed.value ≡ None → (stream : List ℕ) (start : ℕ)
            → IsAt stream start piece.now self.old → IsAt stream start [] self.new) }
        ensures value { IfOk result (λ fed. (text : List ℕ) → fed.value ≡ Some text
            → (stream : List ℕ) (start : ℕ)
            → IsAt stream start piece.now self.old → (after : ℕ)
            × IsAt stream after (drop fed.used piece.now) self.new
            × ((more : List ℕ) → Stands (drop start stream ++ more) text (drop after stream
            ++ more))) }
        ensures first { (fault : JsonFault) → result ≡ Err (Stop.Fault fault)
            → (stream : List ℕ) (start : ℕ)
            → IsAt stream start piece.now self.old → (is_blank (drop start stream) ≡ false)
            × ((more : List ℕ) → IsFirstFault (stream ++ more) start fault) }
    {
        if let Some(fault) = self.fault {
            return Err(Stop::Fault(fault));
        }
        match read_piece(&mut self.reader, &mut self.rest, piece, self.used) {
            Ok(fed) => {
                self.used += fed.used;
                Ok(fed)
            }
            Err(Stop::Fault(fault)) => {
                self.fault = Some(fault);
                Err(Stop::Fault(fault))
            }
            Err(Stop::Memory) => Err(Stop::Memory),
        }
    }

    /// Ends the stream, and gives a number that only the end has ended. `None` comes exactly where
    /// nothing or white space alone stands behind the last value, so that a further value is
    /// missing at the stream's end; a fault, where a value has begun and isn't whole, and it is
    /// kept.
    pub fn end(&mut self) -> Result<Option<Raw>, Stop<JsonFault>>
        ensures none { IfOk result (λ found. found ≡ None → (self.old.rest ≡ [])
            × (self.new ≡ self.old)) }
        ensures emptied { IfOk result (λ found. (text : List ℕ) → found ≡ Some text
            → self.new ≡ record { rest = []; used = self.old.used; fault = None }) }
        ensures faulty { (fault : JsonFault) → result ≡ Err (Stop.Fault fault)
            → self.new ≡ record self.old { fault = Some fault } }
        ensures again { (fault : JsonFault) → self.old.fault ≡ Some fault
            → result ≡ Err (Stop.Fault fault) }
        ensures memory { result ≡ Err Stop.Memory → self.new ≡ self.old }

        // Wherever the feed stands in a stream, at its end: white space alone is left; or the value
        // stands there, and nothing behind it; or the first fault.
        ensures blank { IfOk result (λ found. found ≡ None → (stream : List ℕ) (start : ℕ)
            → IsAt stream start [] self.old → (is_blank (drop start stream) ≡ true)
            × IsFirstFault stream start (JsonFault.Syntax self.old.used)) }
        ensures value { IfOk result (λ found. (text : List ℕ) → found ≡ Some text
            → (stream : List ℕ) (start : ℕ)
            → IsAt stream start [] self.old → Stands (drop start stream) text []) }
        ensures first { (fault : JsonFault) → result ≡ Err (Stop.Fault fault)
            → (stream : List ℕ) (start : ℕ)
            → IsAt stream start [] self.old → (is_blank (drop start stream) ≡ false)
            × IsFirstFault stream start fault }
    {
        if let Some(fault) = self.fault {
            return Err(Stop::Fault(fault));
        }
        if self.rest.is_empty() {
            return Ok(None);
        }
        let alloc = *self.rest.allocator();
        match read_end(alloc, &mut self.reader, &self.rest, self.used) {
            Ok(value) => {
                self.rest = Vec::new(alloc);
                Ok(Some(value))
            }
            Err(Stop::Fault(cut_off)) => {
                self.fault = Some(cut_off);
                Err(Stop::Fault(cut_off))
            }
            Err(Stop::Memory) => Err(Stop::Memory),
        }
    }
}

/// Reads a piece behind the rest of the earlier ones, before which so many bytes were used. Where
/// memory is wanting, the next reading begins with the rest anew.
#[tactic(auto, using(crate::proofs::Feeds::behind_on, crate::proofs::Feeds::late_ended, crate::proofs::Feeds::late_refused, crate::proofs::Feeds::fed_steps))]
fn read_piece(
    reader: &mut ValueReader,
    rest: &mut Vec<u8>,
    piece: &[u8],
    used: usize,
) -> Result<Fed, Stop<JsonFault>>
    requires room { used + length piece.now < 2 ^ 64 }
    requires read { IsRead rest.old.items 0 reader.old }
    requires kept { IsKept rest.old.items }
    ensures fed { IfOk result (λ fed. HasFed (behind_space (rest.old.items ++ piece.now)) piece.now
        rest.new.items fed.used fed.value) }
    ensures fault { (fault : JsonFault) → result ≡ Err (Stop.Fault fault)
        → IsRefusedIn (behind_space (rest.old.items ++ piece.now)) (used + length piece.now) fault }
    ensures read { IsRead rest.new.items 0 reader.new }
    ensures unchanged { OnErr result (rest.new.items ≡ rest.old.items) }
{
    if rest.is_empty() {
        return read_first(reader, rest, piece, used);
    }
    let alloc = *rest.allocator();
    let before = rest.len();
    rest.extend_from_slice(piece)?;
    let bytes = rest.as_slice();
    match read_on(alloc, reader, bytes) {
        Ok(Taken::Through(read)) => {
            *reader = read;
            let used = piece.len();
            Ok(Fed { used, value: None })
        }
        Ok(Taken::Ended(value, end)) => {
            *rest = Vec::new(alloc);
            Ok(Fed {
                used: end - before,
                value: Some(value),
            })
        }
        Ok(Taken::Refused(machine, at)) => {
            let place = used + (at - before);
            let fault = machine.fault(Some(bytes[at]), place);
            rest.truncate(before);
            Err(Stop::Fault(fault))
        }
        Err(_) => {
            rest.truncate(before);
            Err(Stop::Memory)
        }
    }
}

/// Reads the first piece of a value where it stands, behind white space, and keeps it only where
/// the value goes on.
#[tactic(auto, using(crate::proofs::Feeds::space_within, crate::proofs::Feeds::first_bytes, crate::proofs::Feeds::fed_steps))]
fn read_first(
    reader: &mut ValueReader,
    rest: &mut Vec<u8>,
    piece: &[u8],
    used: usize,
) -> Result<Fed, Stop<JsonFault>>
    requires room { used + length piece.now < 2 ^ 64 }
    requires none { rest.old.items ≡ [] }
    requires read { IsRead rest.old.items 0 reader.old }
    ensures fed { IfOk result (λ fed. HasFed (behind_space (rest.old.items ++ piece.now)) piece.now
        rest.new.items fed.used fed.value) }
    ensures fault { (fault : JsonFault) → result ≡ Err (Stop.Fault fault)
        → IsRefusedIn (behind_space (rest.old.items ++ piece.now)) (used + length piece.now) fault }
    ensures read { IsRead rest.new.items 0 reader.new }
    ensures unchanged { OnErr result (rest.new.items ≡ rest.old.items) }
{
    let alloc = *rest.allocator();
    let start = skip_space(piece, 0);
    let bytes = &piece[start..];
    match read_on(alloc, reader, bytes)? {
        Taken::Through(read) => {
            rest.extend_from_slice(bytes)?;
            *reader = read;
            let used = piece.len();
            Ok(Fed { used, value: None })
        }
        Taken::Ended(value, end) => Ok(Fed {
            used: start + end,
            value: Some(value),
        }),
        Taken::Refused(machine, at) => {
            let place = used + start + at;
            Err(Stop::Fault(machine.fault(Some(bytes[at]), place)))
        }
    }
}

/// The value that only the stream's end has ended, of which the rest is all; or the fault there,
/// with this place.
#[tactic(auto, using(crate::proofs::Feeds::end_steps))]
fn read_end(
    alloc: Global,
    reader: &mut ValueReader,
    rest: &[u8],
    place: usize,
) -> Result<Raw, Stop<JsonFault>>
    requires read { IsRead rest.now 0 reader.old }
    requires kept { IsKept rest.now }
    ensures value { IfOk result (λ value. Stands rest.now value []) }
    ensures fault { (fault : JsonFault) → result ≡ Err (Stop.Fault fault)
        → IsBroken rest.now [] place fault }
    ensures read { (bytes : List ℕ) → IsRead bytes 0 reader.new }
{
    match read_on(alloc, reader, rest)? {
        Taken::Through(read) => read.finish(rest, place),
        Taken::Ended(value, _) => Ok(value),
        // It would have come with the earlier pieces.
        Taken::Refused(_, _) => unreachable!(),
    }
}

/// Reads these bytes, the first ones of which were read before, and leaves a reader that begins
/// anew.
fn read_on(alloc: Global, reader: &mut ValueReader, bytes: &[u8]) -> Result<Taken, AllocError>
    requires { IsRead bytes.now 0 reader.old }
    ensures came { IfOk result (λ taken. Came bytes.now 0 taken) }
    ensures anew { (any : List ℕ) → IsRead any 0 reader.new }
{
    replace(reader, ValueReader::new(alloc, 0)).read(bytes)
}
