//! Stretches of bytes that are shared or fixed.

ghost use Rattle.std.specs.Prelude.{◌≡◌, ◌+◌, ◌≤◌, length, IfOk, IfSome};
ghost use Rattle.json_text.specs.Characters.{quote};
ghost use Rattle.json_text.specs.inner.Spans.{between, bytes_at, StandsQuoted};

use std::alloc::AllocError;
use std::marker::Model;
use std::rc::Rc;

/// A list of bytes that never changes, so that its copies and its parts share one place in memory.
/// It is as small as can be, since an element has some forty of them.
pub(crate) struct Stretch {
    held: Backing,
}

// By hand, so that whoever drops a text sees one call and not the ways in which its bytes are held.
impl Drop for Stretch {
    fn drop(self) {
        let Stretch { held: _held } = self;
    }
}

impl Model for Stretch {
    ghost use Rattle.std.specs.Prelude.{List, ℕ};
    ghost use Rattle.json_text.specs.inner.Stretches.{bytes_of, IsHeld};

    ghost Value = { List ℕ };

    ghost view = { λ s. bytes_of s.held };

    ghost invariant = { λ s. IsHeld s.held };
}

/// Where the bytes are.
#[derive(Drop)]
enum Backing {
    /// They are a part of bytes that others have parts of.
    Shared(Part),
    /// They are such a part, with their quote around them.
    Quoted(Part),
    /// They are bytes of the program itself.
    Fixed(&'static [u8]),
}

/// A part of bytes that are counted, by the offsets of its first byte and of the byte after it.
#[derive(Drop)]
struct Part {
    source: Rc<Vec<u8>>,
    start: u32,
    end: u32,
}

impl Model for Part {
    ghost use Rattle.std.specs.Prelude.{◌≤◌, length};
    ghost use Rattle.json_text.specs.inner.Spans.{Span};

    ghost Value = { Span };

    ghost view = { λ p. record { source = p.source.value.items; start = p.start; end = p.end } };

    ghost invariant = { λ p. (p.start ≤ p.end) × (p.end ≤ length p.source.value.items) };
}

impl Stretch {
    /// All these bytes. Where they are 4 GiB or more it fails as for want of memory.
    pub(crate) fn from_vec(bytes: Vec<u8>) -> Result<Stretch, AllocError>
        ensures { IfOk result (λ stretch. stretch ≡ bytes.items) }
    {
        let alloc = *bytes.allocator();
        let Ok(end) = u32::try_from(bytes.len()) else {
            return Err(AllocError);
        };
        let source = Rc::new(alloc, bytes)?;
        let part = Part {
            source,
            start: 0,
            end,
        };
        Ok(Stretch {
            held: Backing::Shared(part),
        })
    }

    /// These bytes of the program. It takes no memory.
    pub(crate) fn fixed(bytes: &'static [u8]) -> Stretch
        ensures { result ≡ bytes.now }
    {
        Stretch {
            held: Backing::Fixed(bytes),
        }
    }

    /// How many bytes there are, without a look at them.
    #[inline(always)]
    pub(crate) fn len(&self) -> usize
        ensures { result ≡ length self.now }
    {
        match &self.held {
            Backing::Shared(part) | Backing::Quoted(part) => part.len(),
            Backing::Fixed(bytes) => bytes.len(),
        }
    }

    /// The bytes.
    #[inline(always)]
    pub(crate) fn as_slice(&self) -> &[u8]
        ensures { result.now ≡ self.now }
    {
        match &self.held {
            Backing::Shared(part) | Backing::Quoted(part) => part.as_slice(),
            Backing::Fixed(bytes) => bytes,
        }
    }

    /// The same bytes. It takes no memory; it fails only where so many others have a part of them
    /// that they can't be counted.
    pub(crate) fn try_clone(&self) -> Result<Stretch, AllocError>
        ensures { IfOk result (λ copy. copy ≡ self.now) }
    {
        let held = match &self.held {
            Backing::Shared(part) => Backing::Shared(part.try_clone()?),
            Backing::Quoted(part) => Backing::Quoted(part.try_clone()?),
            Backing::Fixed(bytes) => Backing::Fixed(bytes),
        };
        Ok(Stretch { held })
    }

    /// The bytes between two offsets. It takes no memory, and fails only as `try_clone` does.
    #[tactic(auto, using(crate::proofs::Spans::between_between, crate::proofs::Spans::quoted_between))]
    pub(crate) fn cut(&self, start: usize, end: usize) -> Result<Stretch, AllocError>
        requires { (start ≤ end) × (end ≤ length self.now) }
        ensures { IfOk result (λ stretch. stretch ≡ between self.now start end) }
    {
        let held = match &self.held {
            Backing::Shared(part) | Backing::Quoted(part) => Backing::Shared(part.cut(start, end)?),
            Backing::Fixed(bytes) => Backing::Fixed(&bytes[start..end]),
        };
        Ok(Stretch { held })
    }

    /// The bytes between two offsets, with their quote around them. It takes no memory, and fails
    /// only as `try_clone` does.
    #[tactic(auto, using(crate::proofs::Spans::between_between, crate::proofs::Spans::quoted_between))]
    pub(crate) fn cut_quoted(&self, start: usize, end: usize) -> Result<Stretch, AllocError>
        requires { StandsQuoted self.now start end }
        ensures { IfOk result (λ stretch. stretch ≡ between self.now start end) }
    {
        let held = match &self.held {
            Backing::Shared(part) | Backing::Quoted(part) => Backing::Quoted(part.cut(start, end)?),
            Backing::Fixed(bytes) => Backing::Fixed(&bytes[start..end]),
        };
        Ok(Stretch { held })
    }

    /// The quote of the bytes, where it stands around them.
    pub(crate) fn as_quote(&self) -> Option<&[u8]>
        ensures { IfSome result (λ bytes. bytes.now ≡ quote self.now) }
    {
        match &self.held {
            Backing::Quoted(part) => Some(part.around()),
            Backing::Shared(_) | Backing::Fixed(_) => None,
        }
    }
}

impl Part {
    /// How many bytes there are.
    fn len(&self) -> usize
        ensures { result ≡ length (bytes_at self.now) }
    {
        (self.end - self.start) as usize
    }

    /// The bytes.
    fn as_slice(&self) -> &[u8]
        ensures { result.now ≡ bytes_at self.now }
    {
        &self.source.as_slice()[self.start as usize..self.end as usize]
    }

    /// The bytes, with the byte before them and the byte after them.
    fn around(&self) -> &[u8]
        requires { StandsQuoted self.now.source self.now.start self.now.end }
        ensures { result.now ≡ quote (bytes_at self.now) }
    {
        &self.source.as_slice()[self.start as usize - 1..self.end as usize + 1]
    }

    /// The same part.
    fn try_clone(&self) -> Result<Part, AllocError>
        ensures { IfOk result (λ copy. copy ≡ self.now) }
    {
        Ok(Part {
            source: self.source.clone()?,
            start: self.start,
            end: self.end,
        })
    }

    /// The part between two offsets of this one.
    fn cut(&self, start: usize, end: usize) -> Result<Part, AllocError>
        requires { (start ≤ end) × (end ≤ length (bytes_at self.now)) }
        ensures { IfOk result (λ part. part
            ≡ record {
              source = self.now.source;
              start = self.now.start + start;
              end = self.now.start + end;
            }) }
    {
        Ok(Part {
            source: self.source.clone()?,
            start: offset(self.start, self.end, start),
            end: offset(self.start, self.end, end),
        })
    }
}

/// The offset in the source of an offset in the part between two others.
fn offset(start: u32, end: u32, at: usize) -> u32
    requires { start + at ≤ end }
    ensures { result ≡ start + at }
{
    start + at as u32
}
