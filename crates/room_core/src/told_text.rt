//! Texts that are told.

ghost use Rattle.std.specs.Prelude.{◌≡◌, IfOk};

use board_base::Bytes;
use std::alloc::{AllocError, Global};
use std::marker::Model;
use std::rc::Rc;

/// A text that is told. It shares its bytes with the room if the room keeps them. Contracts see the
/// bytes.
#[derive(Drop)]
pub struct ToldText {
    held: Held,
}

impl Model for ToldText {
    ghost use Rattle.std.specs.Prelude.{List, ℕ};
    ghost use Rattle.room_core.specs.inner.Kept.{bytes_of};

    ghost Value = { List ℕ };

    ghost view = { λ t. bytes_of t.held };
}

/// Where the bytes are.
#[derive(Drop)]
enum Held {
    /// The text has them to itself.
    Alone(Bytes),
    /// The room keeps them.
    Shared(KeptText),
}

impl ToldText {
    /// A text with these bytes to itself. Does not allocate.
    pub fn new(bytes: Bytes) -> ToldText
        ensures { result ≡ bytes }
    {
        ToldText {
            held: Held::Alone(bytes),
        }
    }

    /// A text that the room keeps. Does not allocate.
    pub(crate) fn kept(text: KeptText) -> ToldText
        ensures { result ≡ text }
    {
        ToldText {
            held: Held::Shared(text),
        }
    }

    /// The bytes. Does not allocate.
    pub fn as_bytes(&self) -> &Bytes
        ensures { result.now ≡ self.now }
    {
        match &self.held {
            Held::Alone(bytes) => bytes,
            Held::Shared(text) => text.as_bytes(),
        }
    }
}

/// A text that a room keeps. Its copies share one place in memory. Contracts see the bytes.
#[derive(Drop)]
pub(crate) struct KeptText {
    bytes: Rc<Bytes>,
}

impl Model for KeptText {
    ghost use Rattle.std.specs.Prelude.{List, ℕ};

    ghost Value = { List ℕ };

    ghost view = { λ t. t.bytes.value };
}

impl KeptText {
    /// A text with these bytes, to be shared.
    pub(crate) fn new(alloc: Global, bytes: Bytes) -> Result<KeptText, AllocError>
        ensures { IfOk result (λ text. text ≡ bytes) }
    {
        let bytes = Rc::new(alloc, bytes)?;
        Ok(KeptText { bytes })
    }

    /// The same text once more. Does not allocate. Fails only if too many share it to be counted.
    pub(crate) fn try_clone(&self) -> Result<KeptText, AllocError>
        ensures { IfOk result (λ copy. copy ≡ self.now) }
    {
        Ok(KeptText {
            bytes: self.bytes.clone()?,
        })
    }

    /// The bytes. Does not allocate.
    pub(crate) fn as_bytes(&self) -> &Bytes
        ensures { result.now ≡ self.now }
    {
        &self.bytes
    }
}
