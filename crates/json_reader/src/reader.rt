//! Reading one value from bytes that may come in pieces.
//!
//! The machine says of each byte whether a value goes on with it, and the writer takes it in the
//! same pass.

ghost use Rattle.std.specs.Prelude.{◌≡◌, ℕ, ◌+◌, ◌<◌, ◌≤◌, List, [], Err, Some, length, drop, slice_index, IfOk, MatchOption, OnOk};
ghost use Rattle.json_text.specs.Value.{Stands};
ghost use Rattle.json_reader.specs.inner.Machine.{top, AwaitsName, Curly, GoesOn, Mode};
ghost use Rattle.json_reader.specs.inner.Runs.{RunsOn};
ghost use Rattle.json_reader.specs.inner.Writing.{ground_of, stretch, AreAlike, Came, Ends, Fits, HasRead, IsBroken, IsRead, IsReadTo, ReadsOn};
ghost use Rattle.json_reader.specs.declared.fault.JsonFault.{JsonFault};
ghost use Rattle.json_reader.specs.declared.machine.Machine.{Machine};

use crate::fault::JsonFault;
use crate::machine::{Machine, Progress};
use crate::writing::Writer;
use board_base::Stop;
use json_text::Raw;
use std::alloc::{AllocError, Global};

/// What came of reading on.
#[derive(Drop)]
pub(crate) enum Taken {
    /// All bytes are read, and the value isn't over.
    Through(ValueReader),
    /// The value has ended before this offset.
    Ended(Raw, usize),
    /// No value goes on with the byte at this offset.
    Refused(Machine, usize),
}

/// The reader of one value. It has read the bytes before an offset, and what they make is written.
#[derive(Drop)]
pub(crate) struct ValueReader {
    reading: Reading,
    next: usize,
}

/// The machine, and the writer of what the machine has taken.
#[derive(Drop)]
struct Reading {
    machine: Machine,
    writer: Writer,
}

impl ValueReader {
    /// It reads from an offset on.
    #[tactic(auto, using(crate::proofs::Written::written_starts, crate::proofs::Copying::stretch_none))]
    pub(crate) fn new(alloc: Global, at: usize) -> ValueReader
        ensures { (bytes : List ℕ) → at ≤ length bytes → IsRead bytes at result }
    {
        ValueReader {
            reading: Reading {
                machine: Machine::new(),
                writer: Writer::new(alloc, at),
            },
            next: at,
        }
    }

    /// Reads on to the value's end, to a byte that is refused, or to the end of these bytes, which
    /// begin with those that were read before.
    pub(crate) fn read(self, bytes: &[u8]) -> Result<Taken, AllocError>
        requires { (at : ℕ) × IsRead bytes.now at self }
        ensures { IfOk result (λ taken. (at : ℕ) → IsRead bytes.now at self
            → Came bytes.now at taken) }
    {
        let ValueReader {
            mut reading,
            mut next,
        } = self;
        while next < bytes.len() {
            match reading.machine.step(bytes[next]) {
                Progress::On => {
                    let after = reading.put(bytes, next, bytes[next])?;
                    next = reading.follow(bytes, after)?;
                }
                Progress::Ended => return Ok(Taken::Ended(reading.into_value(bytes, next)?, next)),
                Progress::Refused => return Ok(Taken::Refused(reading.machine, next)),
            }
        }
        // The next byte, which would end it too, may be long in coming.
        if reading.machine.is_over() {
            return Ok(Taken::Ended(reading.into_value(bytes, next)?, next));
        }
        Ok(Taken::Through(ValueReader { reading, next }))
    }

    /// The value that ends with these bytes, all of which were read; or the fault where they break
    /// off, with this place.
    pub(crate) fn finish(self, bytes: &[u8], place: usize) -> Result<Raw, Stop<JsonFault>>
        requires { (at : ℕ) × IsRead bytes.now at self × (self.next ≡ length bytes.now) }
        ensures value { IfOk result (λ value. (at : ℕ) → IsRead bytes.now at self
            → Stands (drop at bytes.now) value (drop self.next bytes.now)) }
        ensures fault { (fault : JsonFault) → result ≡ Err (Stop.Fault fault) → (at : ℕ)
            → IsRead bytes.now at self → IsBroken (drop at bytes.now) [] place fault }
    {
        let ValueReader { reading, next } = self;
        if reading.machine.is_done() {
            Ok(reading.into_value(bytes, next)?)
        } else {
            Err(Stop::Fault(reading.machine.fault(None, place)))
        }
    }
}

impl Reading {
    /// The value that stands before an offset.
    fn into_value(self, bytes: &[u8], end: usize) -> Result<Raw, AllocError>
        requires { (at : ℕ) × HasRead bytes.now at end self.machine self.writer
            × Ends self.machine.mode self.machine.brackets (drop end bytes.now) }
        ensures { IfOk result (λ value. (at : ℕ)
            → HasRead bytes.now at end self.machine self.writer
            → Ends self.machine.mode self.machine.brackets (drop end bytes.now)
            → Stands (drop at bytes.now) value (drop end bytes.now)) }
    {
        let Reading {
            machine: _machine,
            writer,
        } = self;
        Ok(Raw::from_compact(writer.into_text(bytes, end)?)?)
    }

    /// Takes the stretch at an offset that leaves the machine as it is, and what most often follows
    /// there, up to a character of a string that is escaped or isn't ASCII. It gives the offset
    /// after that.
    #[inline(always)]
    fn follow(&mut self, bytes: &[u8], at: usize) -> Result<usize, AllocError>
        requires { IsReadTo bytes.now at self.old }
        ensures { IfOk result (λ end. ReadsOn bytes.now at self.old end self.new) }
    {
        let end = self.machine.stay_end(self.writer.ground(), bytes, at);
        let mut next = self.put_all(bytes, at, end)?;
        while next < bytes.len() {
            let end = self.take_next(bytes, next)?;
            if end == next {
                return Ok(next);
            }
            next = end;
        }
        Ok(next)
    }

    /// Takes what most often stands at an offset, and gives the offset after that. What is most
    /// frequent has an arm of its own, in which it is known what its byte does.
    #[inline(always)]
    fn take_next(&mut self, bytes: &[u8], at: usize) -> Result<usize, AllocError>
        requires within { at < length bytes.now }
        requires read { IsReadTo bytes.now at self.old }
        ensures { IfOk result (λ end. ReadsOn bytes.now at self.old end self.new) }
    {
        match bytes[at] {
            b'"' if self.machine.awaits_name() => self.take_members(bytes, at),
            b'"' => self.take_string(bytes, at),
            b',' => self.take_byte(bytes, at, b','),
            b'-'..=b'9' => self.take_number(bytes, at),
            b'f' | b'n' | b't' => self.take_word(bytes, at),
            b' ' | b'\n' | b'\r' | b'\t' => self.take_space(bytes, at),
            byte => self.take_byte(bytes, at, byte),
        }
    }

    /// Takes members with simple values, each with the comma behind it, and the name and the colon
    /// of one more, with the white space behind these; a name with other characters than ASCII that
    /// stand for themselves it leaves. It gives the offset after that.
    #[inline(always)]
    fn take_members(&mut self, bytes: &[u8], at: usize) -> Result<usize, AllocError>
        requires within { at < length bytes.now }
        requires awaited { AwaitsName self.old.machine }
        requires read { IsReadTo bytes.now at self.old }
        ensures { IfOk result (λ end. ReadsOn bytes.now at self.old end self.new) }
    {
        let mut next = at;
        while let Some(colon) = self.take_name(bytes, next)? {
            let value = self.take_space(bytes, colon)?;
            let Some(comma) = self.take_simple(bytes, value)? else {
                return Ok(value);
            };
            next = self.take_space(bytes, comma)?;
        }
        Ok(next)
    }

    /// Takes the white space at an offset, where some may stand, and gives the offset after it.
    #[inline(always)]
    fn take_space(&mut self, bytes: &[u8], at: usize) -> Result<usize, AllocError>
        requires within { at ≤ length bytes.now }
        requires read { IsReadTo bytes.now at self.old }
        ensures machine { OnOk result (self.new.machine ≡ self.old.machine) }
        ensures read { IfOk result (λ end. ReadsOn bytes.now at self.old end self.new) }
    {
        if at == bytes.len() || bytes[at] > b' ' {
            return Ok(at);
        }
        let end = self.machine.stay_end(self.writer.ground(), bytes, at);
        self.put_all(bytes, at, end)
    }

    /// Takes a name and the colon behind it, if all its characters are ASCII and stand for
    /// themselves, and gives the offset after that.
    #[inline(always)]
    fn take_name(&mut self, bytes: &[u8], at: usize) -> Result<Option<usize>, AllocError>
        requires within { at ≤ length bytes.now }
        requires awaited { AwaitsName self.old.machine }
        requires read { IsReadTo bytes.now at self.old }
        ensures { IfOk result (λ found. MatchOption found (self.new ≡ self.old)
            (λ end. ReadsOn bytes.now at self.old end self.new
            × (self.new.machine ≡ record self.old.machine { mode = Mode.Value }))) }
    {
        let ground = self.writer.ground();
        let Some(colon) = self.machine.pass_name(ground, bytes, at) else {
            return Ok(None);
        };
        let next = self.put_all(bytes, at, colon)?;
        self.machine.pass_colon();
        Ok(Some(self.put(bytes, next, b':')?))
    }

    /// Takes the value of a member and the comma behind it, if it is a simple one that stands whole,
    /// and gives the offset after that.
    #[inline(always)]
    fn take_simple(&mut self, bytes: &[u8], at: usize) -> Result<Option<usize>, AllocError>
        requires within { at ≤ length bytes.now }
        requires awaited { (self.old.machine.mode ≡ Mode.Value)
            × (length self.old.machine.brackets < 128)
            × (top self.old.machine.brackets ≡ Some Curly) }
        requires read { IsReadTo bytes.now at self.old }
        ensures { IfOk result (λ found. MatchOption found (self.new ≡ self.old)
            (λ end. ReadsOn bytes.now at self.old end self.new × AwaitsName self.new.machine)) }
    {
        let ground = self.writer.ground();
        let Some(comma) = self.machine.pass_simple(ground, bytes, at) else {
            return Ok(None);
        };
        let next = self.put_all(bytes, at, comma)?;
        self.machine.pass_comma();
        Ok(Some(self.put(bytes, next, b',')?))
    }

    /// Takes a whole string in which no character is escaped and all are ASCII, and the colon
    /// behind a name; another string it leaves. It gives the offset after that.
    #[inline(always)]
    fn take_string(&mut self, bytes: &[u8], at: usize) -> Result<usize, AllocError>
        requires within { at < length bytes.now }
        requires quote { slice_index bytes.now at ≡ 34 }
        requires read { IsReadTo bytes.now at self.old }
        ensures { IfOk result (λ end. ReadsOn bytes.now at self.old end self.new) }
    {
        let end = self.machine.pass_string(self.writer.ground(), bytes, at);
        let next = self.put_all(bytes, at, end)?;
        if next == bytes.len() || bytes[next] != b':' {
            return Ok(next);
        }
        self.take_byte(bytes, next, b':')
    }

    /// Takes the items that stand whole at an offset, where some may come, or a number, or what is
    /// left of it, and gives the offset after that.
    #[inline(always)]
    fn take_number(&mut self, bytes: &[u8], at: usize) -> Result<usize, AllocError>
        requires within { at < length bytes.now }
        requires read { IsReadTo bytes.now at self.old }
        ensures { IfOk result (λ end. ReadsOn bytes.now at self.old end self.new) }
    {
        let next = self.take_items(bytes, at);
        if next > at {
            return Ok(next);
        }
        let end = self.machine.pass_number(self.writer.ground(), bytes, at);
        self.put_all(bytes, at, end)
    }

    /// Takes the items that stand whole at an offset, where an array is open in an array, and gives
    /// the offset after them. All of them is copied later.
    #[inline(always)]
    fn take_items(&mut self, bytes: &[u8], at: usize) -> usize
        requires { IsReadTo bytes.now at self.old }
        ensures { ReadsOn bytes.now at self.old result self.new }
    {
        if self.writer.is_in_arrays() {
            self.machine.pass_items(bytes, at)
        } else {
            at
        }
    }

    /// Takes a whole word, or of one that is cut off the first letter, and gives the offset after
    /// that.
    #[inline(always)]
    fn take_word(&mut self, bytes: &[u8], at: usize) -> Result<usize, AllocError>
        requires within { at < length bytes.now }
        requires read { IsReadTo bytes.now at self.old }
        ensures { IfOk result (λ end. ReadsOn bytes.now at self.old end self.new) }
    {
        let end = self.machine.pass_word(self.writer.ground(), bytes, at);
        let next = self.put_all(bytes, at, end)?;
        if next > at {
            return Ok(next);
        }
        self.take_byte(bytes, next, bytes[next])
    }

    /// Takes a byte that the machine follows, and gives the offset after it; other bytes it leaves.
    #[inline(always)]
    fn take_byte(&mut self, bytes: &[u8], at: usize, byte: u8) -> Result<usize, AllocError>
        requires within { at < length bytes.now }
        requires byte { slice_index bytes.now at ≡ byte }
        requires read { IsReadTo bytes.now at self.old }
        ensures { IfOk result (λ end. ReadsOn bytes.now at self.old end self.new) }
    {
        if self.machine.follow(byte) {
            self.put(bytes, at, byte)
        } else {
            Ok(at)
        }
    }

    /// Writes the byte at an offset, which the machine has taken, and gives the offset after it.
    #[inline(always)]
    fn put(&mut self, bytes: &[u8], at: usize, byte: u8) -> Result<usize, AllocError>
        requires within { at < length bytes.now }
        requires byte { slice_index bytes.now at ≡ byte }
        requires read { (before : Machine) × IsReadTo bytes.now at
            (record self.old { machine = before }) × GoesOn before byte self.old.machine }
        ensures end { IfOk result (λ end. end ≡ at + 1) }
        ensures machine { OnOk result (self.new.machine ≡ self.old.machine) }
        ensures read { IfOk result (λ end. (before : Machine) → GoesOn before byte self.old.machine
            → ReadsOn bytes.now at (record self.old { machine = before }) end self.new) }
    {
        self.writer.put(bytes, at, byte)?;
        Ok(at + 1)
    }

    /// Writes the stretch between two offsets, over which the machine has gone, and gives its end.
    #[inline(always)]
    fn put_all(&mut self, bytes: &[u8], at: usize, end: usize) -> Result<usize, AllocError>
        requires within { (at ≤ end) × (end ≤ length bytes.now) }
        requires fits { Fits at self.old.writer }
        requires alike { AreAlike (ground_of self.old.writer) (stretch bytes.now at end) }
        ensures last { IfOk result (λ last. last ≡ end) }
        ensures machine { OnOk result (self.new.machine ≡ self.old.machine) }
        ensures read { IfOk result (λ last. (before : Machine)
            → RunsOn before (stretch bytes.now at end) self.old.machine
            → ReadsOn bytes.now at (record self.old { machine = before }) last self.new) }
    {
        self.writer.put_all(bytes, at, end)?;
        Ok(end)
    }
}
