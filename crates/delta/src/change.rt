//! A change of a member.

ghost use Rattle.std.specs.Prelude.{◌≡◌, IfOk};

use board_base::List;
use elem::BoundRef;
use json_text::{Raw, Text};
use std::alloc::AllocError;

/// A change of one member of an element, from what it was before to what it is after.
#[derive(Drop)]
pub enum Change {
    /// A member that changes as a whole, by its compact texts; there is none where the element has
    /// no such member.
    Scalar {
        name: Text,
        before: Option<Raw>,
        after: Option<Raw>,
    },
    /// The groups, which change item by item.
    Groups {
        before: List<Text>,
        after: List<Text>,
    },
    /// The listing, which changes item by item.
    Bound {
        before: List<BoundRef>,
        after: List<BoundRef>,
    },
}

impl Change {
    /// An equal change.
    pub fn try_clone(&self) -> Result<Change, AllocError>
        ensures { IfOk result (λ copy. copy ≡ self.now) }
    {
        Ok(match self {
            Change::Scalar {
                name,
                before,
                after,
            } => Change::Scalar {
                name: name.try_clone()?,
                before: before.as_ref().map(Raw::try_clone).transpose()?,
                after: after.as_ref().map(Raw::try_clone).transpose()?,
            },
            Change::Groups { before, after } => Change::Groups {
                before: before.try_clone_with(Text::try_clone)?,
                after: after.try_clone_with(Text::try_clone)?,
            },
            Change::Bound { before, after } => Change::Bound {
                before: before.try_clone_with(BoundRef::try_clone)?,
                after: after.try_clone_with(BoundRef::try_clone)?,
            },
        })
    }
}
