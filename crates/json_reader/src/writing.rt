//! The compact text of a value, written while its bytes come.
//!
//! The writer looks at no more than a byte at a time, and takes what the machine has taken:
//! white space outside strings is dropped, strings are quoted anew where they have escapes, and
//! of equal names in an object the last value is kept.

ghost use Rattle.std.specs.Prelude.{◌≡◌, ℕ, ◌+◌, ◌<◌, ◌≤◌, List, [], ◌++◌, true, false, length, slice_index, IfOk, OnOk};
ghost use Rattle.json_text.specs.Walk.{outside};
ghost use Rattle.json_reader.specs.inner.Drafts.{fresh, grown};
ghost use Rattle.json_reader.specs.inner.Writing.{between, deed, stretch, copied, ground_of, is_in_arrays, writing_at, AreAlike, Can, CanPut, Fits, HasPut, IsBetween, IsPut, Ready};
ghost use Rattle.json_reader.specs.declared.writing.Deed.TheVariants.{Skip, Begin, Finish, Open, Shut, Name, Part, Deepen, Rise, Push};

use crate::draft::Draft;
use crate::staying::Ground;
use json_text::{content_of, is_space};
use std::alloc::{AllocError, Global};
use std::mem::replace;

/// What is done with a byte.
#[derive(Clone, Copy)]
pub(crate) enum Deed {
    /// It is dropped.
    Skip,
    /// It begins a string.
    Begin,
    /// It stands in a string.
    Keep,
    /// It stands in a string, and an escape begins with it.
    Slash,
    /// It ends a string.
    Finish,
    /// It opens an object.
    Open,
    /// It closes an object.
    Shut,
    /// It ends the name of a member.
    Name,
    /// It ends a member.
    Part,
    /// It opens an array.
    Deepen,
    /// It closes an array.
    Rise,
    /// It is appended.
    Push,
}

/// The writer of one value's compact text. What is to be written as it stands is copied from the
/// bytes that are read, as late as can be.
pub(crate) struct Writer {
    /// A string is open.
    quoted: bool,
    /// In that string, the next byte stands behind a `\` that escapes it.
    escaped: bool,
    /// An escape came in that string.
    escapes: bool,
    /// Where that string begins.
    start: usize,
    /// From where on nothing is copied yet.
    from: usize,
    /// The innermost object that is open.
    here: Draft,
    /// The objects around it, the outermost first.
    around: Vec<Draft>,
    /// Of small objects that were closed. Their room is used again.
    spare: Vec<Draft>,
}

// By hand, so that whoever drops a writer sees one call and not what it holds.
impl Drop for Writer {
    fn drop(self) {
        let Writer {
            quoted: _,
            escaped: _,
            escapes: _,
            start: _,
            from: _,
            here: _here,
            around: _around,
            spare: _spare,
        } = self;
    }
}

impl Writer {
    /// Nothing is written. The bytes from an offset on are to be taken.
    pub(crate) fn new(alloc: Global, at: usize) -> Writer
        ensures written { (bytes : List ℕ) → writing_at bytes at result ≡ between fresh [] }
        ensures fits { Fits at result }
    {
        Writer {
            quoted: false,
            escaped: false,
            escapes: false,
            start: at,
            from: at,
            here: Draft::new(alloc),
            around: Vec::new(alloc),
            spare: Vec::new(alloc),
        }
    }

    /// Takes the byte at an offset.
    #[inline(always)]
    pub(crate) fn put(&mut self, bytes: &[u8], next: usize, byte: u8) -> Result<(), AllocError>
        requires within { next < length bytes.now }
        requires byte { slice_index bytes.now next ≡ byte }
        requires fits { Fits next self.old }
        requires can { CanPut bytes.now next self.old }
        ensures { OnOk result (IsPut bytes.now next self.old self.new) }
    {
        if self.quoted {
            self.put_quoted(bytes, next, byte)
        } else {
            self.put_between(bytes, next, byte)
        }
    }

    /// The ground on which it stands.
    pub(crate) fn ground(&self) -> Ground
        ensures { result ≡ ground_of self.now }
    {
        if self.quoted {
            Ground::Quoted
        } else {
            Ground::Between
        }
    }

    /// An array is open in an array, and no string.
    #[inline(always)]
    pub(crate) fn is_in_arrays(&self) -> bool
        ensures { result ≡ is_in_arrays self.now }
    {
        self.here.level() >= 2 && !self.quoted
    }

    /// Takes the stretch between two offsets: bytes of a string that are no `"` and no `\`, or
    /// bytes outside strings that are appended as they are or are all white space.
    #[tactic(auto, using(crate::proofs::Copying::stretch_in, crate::proofs::Copying::stretch_on, crate::proofs::Copying::stretch_skipped))]
    pub(crate) fn put_all(&mut self, bytes: &[u8], at: usize, end: usize) -> Result<(), AllocError>
        requires within { (at ≤ end) × (end ≤ length bytes.now) }
        requires fits { Fits at self.old }
        requires alike { AreAlike (ground_of self.old) (stretch bytes.now at end) }
        ensures ready { OnOk result ((text more : List ℕ)
            → Ready text (writing_at bytes.now at self.old) (stretch bytes.now at end ++ more)
            → Ready text (writing_at bytes.now end self.new) more) }
        ensures fits { OnOk result (Fits end self.new) }
    {
        if at == end {
            return Ok(());
        }
        if self.quoted {
            self.escaped = false;
        } else if is_space(bytes[at]) {
            self.copy(bytes, at)?;
            self.from = end;
        }
        Ok(())
    }

    /// The text, where the value is whole that ends before an offset.
    pub(crate) fn into_text(self, bytes: &[u8], end: usize) -> Result<Vec<u8>, AllocError>
        requires within { end ≤ length bytes.now }
        requires fits { Fits end self }
        requires whole { (text : List ℕ)
            × (writing_at bytes.now end self ≡ between (grown fresh text) []) }
        ensures { IfOk result (λ written. (text : List ℕ) → writing_at bytes.now end self
            ≡ between (grown fresh text) [] → written.items ≡ text) }
    {
        let Writer {
            quoted: _quoted,
            escaped: _escaped,
            escapes: _escapes,
            start: _start,
            from,
            mut here,
            around: _around,
            spare: _spare,
        } = self;
        here.extend(&bytes[from..end])?;
        Ok(here.into_text())
    }

    /// Takes a byte in a string.
    #[tactic(auto, using(crate::proofs::Copying::string_steps))]
    #[inline(always)]
    fn put_quoted(&mut self, bytes: &[u8], next: usize, byte: u8) -> Result<(), AllocError>
        requires quoted { self.old.quoted ≡ true }
        requires within { next < length bytes.now }
        requires byte { slice_index bytes.now next ≡ byte }
        requires fits { Fits next self.old }
        requires can { CanPut bytes.now next self.old }
        ensures { OnOk result (IsPut bytes.now next self.old self.new) }
    {
        if self.escaped {
            self.escaped = false;
            return Ok(());
        }
        match byte {
            b'"' if self.escapes => self.quote(bytes, next)?,
            b'"' => self.quoted = false,
            b'\\' => {
                self.escaped = true;
                self.escapes = true;
            }
            _ => {}
        }
        Ok(())
    }

    /// Takes a byte outside strings.
    #[inline(always)]
    fn put_between(&mut self, bytes: &[u8], next: usize, byte: u8) -> Result<(), AllocError>
        requires between { IsBetween bytes.now next self.old }
        requires byte { slice_index bytes.now next ≡ byte }
        requires can { CanPut bytes.now next self.old }
        ensures { OnOk result (IsPut bytes.now next self.old self.new) }
    {
        match deed_between(self.here.level(), byte) {
            Deed::Begin => {
                self.begin(next);
                Ok(())
            }
            Deed::Open => self.open(bytes, next),
            Deed::Shut => self.shut(bytes, next),
            Deed::Name => {
                self.end_name(bytes, next);
                Ok(())
            }
            Deed::Part => self.end_member(bytes, next),
            Deed::Deepen => self.deepen(),
            Deed::Rise => {
                self.rise();
                Ok(())
            }
            Deed::Push => {
                self.push();
                Ok(())
            }
            _ => self.skip(bytes, next),
        }
    }

    /// White space is dropped.
    #[inline(never)]
    fn skip(&mut self, bytes: &[u8], next: usize) -> Result<(), AllocError>
        requires { IsBetween bytes.now next self.old }
        ensures { OnOk result (HasPut Skip bytes.now next self.old self.new) }
    {
        self.copy(bytes, next)?;
        self.from = next + 1;
        Ok(())
    }

    /// A string begins.
    fn begin(&mut self, next: usize)
        ensures { (bytes : List ℕ) → IsBetween bytes next self.old
            → HasPut Begin bytes next self.old self.new }
    {
        self.quoted = true;
        self.escaped = false;
        self.escapes = false;
        self.start = next;
    }

    /// A string ends that has an escape. It is quoted anew.
    #[inline(never)]
    fn quote(&mut self, bytes: &[u8], next: usize) -> Result<(), AllocError>
        requires quoted { self.old.quoted ≡ true }
        requires within { next < length bytes.now }
        requires fits { Fits next self.old }
        requires can { Can Finish (writing_at bytes.now next self.old)
            (slice_index bytes.now next) }
        ensures { OnOk result (HasPut Finish bytes.now next self.old self.new) }
    {
        self.copy(bytes, self.start)?;
        let (text, _end) = content_of(*self.around.allocator(), bytes, self.start)?;
        self.here.push_quote(&text)?;
        self.from = next + 1;
        self.quoted = false;
        self.escapes = false;
        Ok(())
    }

    /// An object is opened.
    #[tactic(auto, using(crate::proofs::Copying::later_steps))]
    #[inline(never)]
    fn open(&mut self, bytes: &[u8], next: usize) -> Result<(), AllocError>
        requires { IsBetween bytes.now next self.old }
        ensures { OnOk result (HasPut Open bytes.now next self.old self.new) }
    {
        self.copy(bytes, next + 1)?;
        let inner = unused(&mut self.spare)?;
        let outer = replace(&mut self.here, inner);
        self.around.push(outer)?;
        Ok(())
    }

    /// An object is closed.
    #[tactic(auto, using(crate::proofs::Copying::shut_steps))]
    #[inline(never)]
    fn shut(&mut self, bytes: &[u8], next: usize) -> Result<(), AllocError>
        requires between { IsBetween bytes.now next self.old }
        requires can { Can Shut (writing_at bytes.now next self.old) (slice_index bytes.now next) }
        ensures { OnOk result (HasPut Shut bytes.now next self.old self.new) }
    {
        self.copy(bytes, next)?;
        let Some(outer) = self.around.pop() else {
            unreachable!()
        };
        let mut inner = replace(&mut self.here, outer);
        inner.close()?;
        self.here.append(&mut inner)?;
        if inner.is_small() {
            self.spare.push(inner)?;
        }
        Ok(())
    }

    /// The name of a member ends.
    #[tactic(auto, using(crate::proofs::Copying::later_steps))]
    fn end_name(&mut self, bytes: &[u8], next: usize)
        requires { IsBetween bytes.now next self.old }
        ensures { HasPut Name bytes.now next self.old self.new }
    {
        self.here.end_name(&bytes[self.from..next]);
    }

    /// A member ends.
    #[tactic(auto, using(crate::proofs::Copying::later_steps))]
    fn end_member(&mut self, bytes: &[u8], next: usize) -> Result<(), AllocError>
        requires { IsBetween bytes.now next self.old }
        ensures { OnOk result (HasPut Part bytes.now next self.old self.new) }
    {
        self.here.end_member(&bytes[self.from..next])?;
        Ok(())
    }

    /// An array is opened.
    #[tactic(auto, using(crate::proofs::Copying::later_steps))]
    fn deepen(&mut self) -> Result<(), AllocError>
        ensures { OnOk result ((bytes : List ℕ) (next : ℕ) → IsBetween bytes next self.old
            → HasPut Deepen bytes next self.old self.new) }
    {
        self.here.deepen()?;
        Ok(())
    }

    /// An array is closed.
    #[tactic(auto, using(crate::proofs::Copying::later_steps))]
    fn rise(&mut self)
        ensures { (bytes : List ℕ) (next : ℕ) → IsBetween bytes next self.old
            → HasPut Rise bytes next self.old self.new }
    {
        self.here.rise();
    }

    /// A byte is to be appended as it stands.
    #[tactic(auto, using(crate::proofs::Copying::later_steps))]
    fn push(&mut self)
        ensures { (bytes : List ℕ) (next : ℕ) → IsBetween bytes next self.old
            → HasPut Push bytes next self.old self.new }
    {}

    /// Copies the bytes before an offset that aren't copied yet.
    fn copy(&mut self, bytes: &[u8], to: usize) -> Result<(), AllocError>
        requires { (self.old.from ≤ to) × (to ≤ length bytes.now) }
        ensures { OnOk result (self.new ≡ copied bytes.now to self.old) }
    {
        self.here.extend(&bytes[self.from..to])?;
        self.from = to;
        Ok(())
    }
}

/// A draft of which nothing is written, with the room of a spare one if there is one.
fn unused(spare: &mut Vec<Draft>) -> Result<Draft, AllocError>
    ensures { IfOk result (λ draft. draft ≡ fresh) }
{
    match spare.pop() {
        Some(mut draft) => {
            draft.clear();
            Ok(draft)
        }
        None => Draft::of_object(*spare.allocator()),
    }
}

/// What is done with a byte outside strings, where so many arrays are open in the innermost
/// object.
#[inline(always)]
fn deed_between(level: u64, byte: u8) -> Deed
    ensures { result ≡ deed outside level byte }
{
    match byte {
        b' ' | b'\t' | b'\n' | b'\r' => Deed::Skip,
        b'"' => Deed::Begin,
        b',' if level == 0 => Deed::Part,
        b':' => Deed::Name,
        b'[' => Deed::Deepen,
        b']' => Deed::Rise,
        b'{' => Deed::Open,
        b'}' => Deed::Shut,
        _ => Deed::Push,
    }
}
