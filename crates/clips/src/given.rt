//! What is given under the names of an object, where null counts as missing.

ghost use Rattle.std.specs.Prelude.{◌≡◌, ℕ, List as Items, IfOk, MatchOption, option_copied};
ghost use Rattle.json_text.specs.Compact.{Member as Pair};
ghost use Rattle.json_text.specs.Members.{pairs};
ghost use Rattle.scene_file.specs.Reading.{value_unless_null, HasItems, HasMembers};

use board_base::List;
use json_text::{Member, Raw};
use scene_json::{is_null, items, members, shaped, value_named};
use std::alloc::{AllocError, Global};

/// The value of the first member with this name; null counts as missing.
fn given<'a>(members: &'a List<Member>, name: &str) -> Option<&'a Raw>
    ensures { option_copied result ≡ value_unless_null name.now (pairs members.now) }
{
    match value_named(members, name) {
        Some(value) if !is_null(value) => Some(value),
        _ => None,
    }
}

/// The items of the array that is given under a name, none where it is missing. `None` where it is
/// no array.
pub(crate) fn items_given(
    alloc: Global,
    from: &List<Member>,
    name: &str,
) -> Result<Option<List<Raw>>, AllocError>
    ensures { IfOk result (λ found. MatchOption found
        ((values : Items (Items ℕ)) → HasItems (value_unless_null name.now (pairs from.now)) values
        → ⊥)
        (HasItems (value_unless_null name.now (pairs from.now)))) }
{
    match given(from, name) {
        Some(value) => shaped(items(alloc, value)),
        None => Ok(Some(List::new(alloc))),
    }
}

/// The members of the object that is given under a name, none where it is missing. `None` where it
/// is no object.
pub(crate) fn members_given(
    alloc: Global,
    from: &List<Member>,
    name: &str,
) -> Result<Option<List<Member>>, AllocError>
    ensures { IfOk result (λ found. MatchOption found
        ((others : Items Pair) → HasMembers (value_unless_null name.now (pairs from.now)) others
        → ⊥)
        (λ some. HasMembers (value_unless_null name.now (pairs from.now)) (pairs some))) }
{
    match given(from, name) {
        Some(value) => shaped(members(alloc, value)),
        None => Ok(Some(List::new(alloc))),
    }
}
