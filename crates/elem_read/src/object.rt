//! Objects, read from values.

ghost use Rattle.std.specs.Prelude.{IfOk, MatchOption};
ghost use Rattle.json_text.specs.Members.{pairs};
ghost use Rattle.elem.specs.Forms.{IsObject};
ghost use Rattle.elem_read.specs.Faults.{Lacks};

use board_base::List;
use json_text::{Member, Raw};
use scene_json::{members, shaped};
use std::alloc::{AllocError, Global};

/// The members of the object that the value is, if it is one.
pub fn object_members(alloc: Global, value: &Raw) -> Result<Option<List<Member>>, AllocError>
    ensures { IfOk result (λ found. MatchOption found
        (Lacks (IsObject value.now)) (λ members. IsObject value.now (pairs members))) }
{
    shaped(members(alloc, value))
}
