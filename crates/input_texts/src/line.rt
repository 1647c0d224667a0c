//! Where a line ends, and the line whose end hasn't come yet.

ghost use Rattle.std.specs.Prelude.{◌≡◌, false, ℕ, List, [], ◌++◌, ◌≤◌, length};
ghost use Rattle.std.specs.List.{prefix_len};
ghost use Rattle.input_texts.specs.Lines.{is_within_line};
ghost use Rattle.input_texts.specs.inner.Begun.{IsBegun};

use std::alloc::Global;

/// The offset of the first line feed, or the length where there is none.
pub fn line_end(piece: &[u8]) -> usize
    ensures end { result ≡ prefix_len is_within_line piece.now }
    ensures within { result ≤ length piece.now }
{
    for i in 0..piece.len() {
        if piece[i] == b'\n' {
            return i;
        }
    }
    piece.len()
}

/// The bytes of a line whose end hasn't come yet. They are lost where memory was wanting for them.
#[derive(Drop)]
pub(crate) struct Begun {
    pub(crate) bytes: Vec<u8>,
    pub(crate) is_lost: bool,
}

impl Begun {
    /// Nothing of a line.
    pub(crate) fn new(alloc: Global) -> Begun
        ensures held { result.is_lost ≡ false }
        ensures none { result.bytes.items ≡ [] }
    {
        Begun {
            bytes: Vec::new(alloc),
            is_lost: false,
        }
    }

    /// The next bytes of the line come. Where memory is wanting for them the line is lost, and what
    /// it held is given back.
    pub(crate) fn extend(&mut self, alloc: Global, more: &[u8])
        ensures { (bytes : List ℕ) → IsBegun self.old bytes → IsBegun self.new (bytes ++ more.now) }
    {
        if !self.is_lost && self.bytes.extend_from_slice(more).is_err() {
            self.bytes = Vec::new(alloc);
            self.is_lost = true;
        }
    }

    /// The line is done with. What memory it held serves the next one.
    pub(crate) fn clear(&mut self)
        ensures held { self.new.is_lost ≡ false }
        ensures none { self.new.bytes.items ≡ [] }
    {
        self.bytes.clear();
        self.is_lost = false;
    }
}
