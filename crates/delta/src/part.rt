//! Parts and entries.

ghost use Rattle.std.specs.Prelude.{◌≡◌, IfOk};

use crate::change::Change;
use board_base::List;
use elem::Kind;
use json_text::Text;
use std::alloc::AllocError;
use std::marker::Model;

/// The members outside the stamp in which two elements of one id and kind differ.
#[derive(Drop)]
pub struct Part {
    pub id: Text,
    pub kind: Kind,
    pub changes: List<Change>,
}

impl Model for Part {
    ghost use Rattle.delta.specs.Delta.{Delta};
    ghost use Rattle.delta.specs.Facts.{IsPart};

    ghost Value = { Delta };

    ghost view = { λ p. record { id = p.id; kind = p.kind; changes = p.changes } };

    ghost invariant = { λ p. IsPart (record { id = p.id; kind = p.kind; changes = p.changes }) };
}

impl Part {
    /// An equal part.
    pub fn try_clone(&self) -> Result<Part, AllocError>
        ensures { IfOk result (λ copy. copy ≡ self.now) }
    {
        Ok(Part {
            id: self.id.try_clone()?,
            kind: self.kind.try_clone()?,
            changes: self.changes.try_clone_with(Change::try_clone)?,
        })
    }
}

/// What one step changed: a part for each element that it changed, in the order of their ids.
#[derive(Drop)]
pub struct Entry {
    pub parts: List<Part>,
}

impl Model for Entry {
    ghost use Rattle.std.specs.Prelude.{List};
    ghost use Rattle.delta.specs.Delta.{Delta};
    ghost use Rattle.delta.specs.Facts.{AreParts};

    ghost Value = { List Delta };

    ghost view = { λ e. e.parts };

    ghost invariant = { λ e. AreParts e.parts };
}
