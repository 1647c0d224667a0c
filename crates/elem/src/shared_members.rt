//! Members that are shared.

ghost use Rattle.std.specs.Prelude.{◌≡◌, IfOk};

use board_base::List;
use json_text::Member;
use members::Members;
use std::alloc::{AllocError, Global};
use std::marker::Model;
use std::rc::Rc;

/// Members that never change, so that their copies share one place in memory: most of what an
/// element needs are its further members, and a replica has an element several times. Contracts
/// see the list of them.
pub struct SharedMembers {
    members: Rc<Members>,
}

// By hand, so that whoever drops an element sees one call and not how its members are held.
impl Drop for SharedMembers {
    fn drop(self) {
        let SharedMembers { members: _members } = self;
    }
}

impl Model for SharedMembers {
    ghost use Rattle.std.specs.Prelude.{List as Items};
    ghost use Rattle.json_text.specs.declared.text.Member.{Member};

    ghost Value = { Items Member };

    ghost view = { λ s. s.members.value };
}

impl SharedMembers {
    /// The members of a list, to be shared.
    pub fn new(alloc: Global, list: List<Member>) -> Result<SharedMembers, AllocError>
        ensures { IfOk result (λ shared. shared ≡ list) }
    {
        SharedMembers::of(alloc, Members::apart(list))
    }

    /// The members, to be shared.
    pub fn of(alloc: Global, members: Members) -> Result<SharedMembers, AllocError>
        ensures { IfOk result (λ shared. shared ≡ members) }
    {
        let members = Rc::new(alloc, members)?;
        Ok(SharedMembers { members })
    }

    /// The same members once more. It takes no memory, and fails only where they are shared too
    /// often to be counted.
    pub fn try_clone(&self) -> Result<SharedMembers, AllocError>
        ensures { IfOk result (λ copy. copy ≡ self.now) }
    {
        Ok(SharedMembers {
            members: self.members.clone()?,
        })
    }

    /// The members.
    pub fn as_members(&self) -> &Members
        ensures { result.now ≡ self.now }
    {
        &self.members
    }

    /// A list of its own, to be changed.
    pub fn to_list(&self, alloc: Global) -> Result<List<Member>, AllocError>
        ensures { IfOk result (λ list. list ≡ self.now) }
    {
        self.members.to_list(alloc)
    }

    /// A list of its own, to be changed: the same one where nobody else has it, and the members are
    /// held each by itself.
    pub fn into_list(self, alloc: Global) -> Result<List<Member>, AllocError>
        ensures { IfOk result (λ list. list ≡ self) }
    {
        let SharedMembers { members } = self;
        match Rc::try_unwrap(members) {
            Ok(members) => members.into_list(alloc),
            Err(shared) => shared.to_list(alloc),
        }
    }
}
