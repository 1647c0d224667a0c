//! Bytes that come in at one end and leave at the other.

ghost use Rattle.std.specs.Prelude.{◌≡◌, ◌==◌, ◌++◌, [], length, drop, OnOk, OnErr};

use std::alloc::{AllocError, Global};
use std::marker::Model;

/// More room than this is given back where most of it isn't used. The system takes larger pieces
/// back at once and whole; smaller ones it keeps for what is asked next.
const ROOM: usize = 32 << 20;

/// Bytes in the order in which they came, of which the first ones have left.
#[derive(Drop)]
pub(crate) struct Buffer {
    bytes: Vec<u8>,
    left: usize,
}

impl Model for Buffer {
    ghost use Rattle.std.specs.Prelude.{◌≤◌, drop, vec_len, vec_capacity};
    ghost use Rattle.ws_links.specs.inner.Leaving.{Kept};

    ghost Value = { Kept };

    ghost view = { λ b. record { bytes = drop b.left b.bytes.items; room = vec_capacity b.bytes } };

    ghost invariant = { λ b. b.left ≤ vec_len b.bytes };
}

impl Buffer {
    pub(crate) fn new(alloc: Global) -> Buffer
        ensures { result.bytes ≡ [] }
    {
        Buffer {
            bytes: Vec::new(alloc),
            left: 0,
        }
    }

    /// The bytes that have not left.
    pub(crate) fn as_slice(&self) -> &[u8]
        ensures { result.now ≡ self.now.bytes }
    {
        &self.bytes[self.left..]
    }

    pub(crate) fn is_empty(&self) -> bool
        ensures { result ≡ (length self.now.bytes == 0) }
    {
        self.left == self.bytes.len()
    }

    /// How many bytes of memory it holds.
    pub(crate) fn held(&self) -> usize
        ensures { result ≡ self.now.room }
    {
        self.bytes.capacity()
    }

    /// Room for so many bytes more.
    pub(crate) fn reserve(&mut self, count: usize) -> Result<(), AllocError>
        ensures { self.new.bytes ≡ self.old.bytes }
    {
        self.bytes.reserve(count)
    }

    /// Adds the bytes at the end. For want of memory nothing is added.
    pub(crate) fn extend(&mut self, bytes: &[u8]) -> Result<(), AllocError>
        ensures ok { OnOk result (self.new.bytes ≡ self.old.bytes ++ bytes.now) }
        ensures err { OnErr result (self.new.bytes ≡ self.old.bytes) }
    {
        self.bytes.extend_from_slice(bytes)
    }

    /// The first bytes leave. Their memory is given back once nothing is left, and their room used
    /// anew or given back once they are more than half.
    pub(crate) fn leave(&mut self, count: usize)
        ensures { self.new.bytes ≡ drop count self.old.bytes }
    {
        let alloc = *self.bytes.allocator();
        let left = self.left.saturating_add(count).min(self.bytes.len());
        if left == self.bytes.len() {
            *self = Buffer::new(alloc);
        } else if left > self.bytes.len() / 2 {
            self.left = 0;
            self.bytes.drain(..left);
            if self.bytes.len() < self.bytes.capacity() / 4 && self.bytes.capacity() > ROOM {
                self.bytes.shrink_to(0);
            }
        } else {
            self.left = left;
        }
    }
}
