//! Parts of an element that name another one.

ghost use Rattle.std.specs.Prelude.{◌≡◌, IfOk};

use crate::kind::Role;
use crate::shared_members::SharedMembers;
use json_text::Text;
use std::alloc::AllocError;

/// An entry of an element's listing: the id of an arrow or a text that goes with the element.
#[derive(Drop)]
pub struct BoundRef {
    pub id: Text,
    pub role: Role,
}

/// What an end of an arrow is bound to, and the further members of the binding.
pub struct Binding {
    pub target: Text,
    pub rest: SharedMembers,
}

// By hand, so that whoever drops a binding sees one call and not what it holds.
impl Drop for Binding {
    fn drop(self) {
        let Binding {
            target: _target,
            rest: _rest,
        } = self;
    }
}

impl BoundRef {
    /// An equal entry.
    pub fn try_clone(&self) -> Result<BoundRef, AllocError>
        ensures { IfOk result (λ copy. copy ≡ self.now) }
    {
        Ok(BoundRef {
            id: self.id.try_clone()?,
            role: self.role,
        })
    }
}

impl Binding {
    /// An equal binding.
    pub fn try_clone(&self) -> Result<Binding, AllocError>
        ensures { IfOk result (λ copy. copy ≡ self.now) }
    {
        Ok(Binding {
            target: self.target.try_clone()?,
            rest: self.rest.try_clone()?,
        })
    }
}
