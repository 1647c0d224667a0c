//! The listing of bound arrows in older files.

ghost use Rattle.std.specs.Prelude.{◌≡◌, ◌≤◌, ℕ, List as Items, map, filter, All, IfOk, IfSome, bytes_eq, codes, Option, [], ◌∷◌, ◌++◌};
ghost use Rattle.std.specs.List.{IsDistinct};
ghost use Rattle.std.specs.Option.{option_map};
ghost use Rattle.json_text.specs.Compact.{has_other_name};
ghost use Rattle.json_text.specs.Members.{pairs};
ghost use Rattle.json_text.specs.Value.{IsCompact};
ghost use Rattle.scene_json.specs.TheOne.{IsTheOne};
ghost use Rattle.restore_table.specs.inner.Merged.{AreUpdated, AreOldIds};
ghost use Rattle.restore_table.specs.Restored.{arrow_text, listing_name, listing_text, old_name};

use board_base::List;
use json_text::{Member, Raw, Text};
use scene_json::{raw_array, raw_object, raw_text, texts_of, value_named};
use std::alloc::{AllocError, Global};

/// The member that lists what is bound to an element.
const LISTING: &str = "boundElements";

/// The member in which older files list the ids of the arrows that are bound to an element.
const OLD_LISTING: &str = "boundElementIds";

/// Whether the name is that of an old listing. Most are of another length, and so not compared.
#[inline(always)]
pub(crate) fn is_old_listing(name: &[u8]) -> bool
    ensures { result ≡ bytes_eq old_name name.now }
{
    name.len() == OLD_LISTING.as_bytes().len() && OLD_LISTING.as_bytes() == name
}

/// The members with their old listing, if there is one, in its present form.
pub(crate) fn updated(alloc: Global, members: List<Member>) -> Result<Vec<Member>, AllocError>
    requires { IsDistinct bytes_eq (map (λ member. member.name) members) }
    ensures updated { IfOk result (λ updated. AreUpdated (pairs members) (pairs updated.items)) }
    ensures nests { (limit : ℕ) → 2 ≤ limit → All (λ member. IsCompact limit member.value) members
        → IfOk result (λ updated. All (λ member. IsCompact limit member.value) updated.items) }
{
    let Some(old) = value_named(&members, OLD_LISTING) else {
        return Ok(members.into_vec());
    };
    let listing = listing_of(alloc, old)?;
    let others = without(members.into_vec(), OLD_LISTING);
    match listing {
        None => Ok(others),
        Some(listing) => with_listing(alloc, others, listing),
    }
}

/// The members with this listing in place of the one that they have, if any.
fn with_listing(
    alloc: Global,
    members: Vec<Member>,
    listing: Raw,
) -> Result<Vec<Member>, AllocError>
    ensures { IfOk result (λ all. pairs all.items
        ≡ filter (has_other_name listing_name) (pairs members.items) ++ (listing_name, listing)
        ∷ []) }
{
    let mut all = without(members, LISTING);
    all.push(Member::named(alloc, LISTING, listing)?)?;
    Ok(all)
}

/// The members with other names than this one.
fn without(members: Vec<Member>, name: &str) -> Vec<Member>
    ensures { pairs result.items ≡ filter (has_other_name name.now) (pairs members.items) }
{
    let mut members = members;
    members.retain(|member| !is_named(member, name));
    members
}

/// Whether the member has this name.
fn is_named(member: &Member, name: &str) -> bool
    ensures { result ≡ bytes_eq name.now member.now.name }
{
    name.as_bytes() == member.name.as_bytes()
}

/// The listing of arrows with the ids that the value is an array of, if it is one of texts.
fn listing_of(alloc: Global, value: &Raw) -> Result<Option<Raw>, AllocError>
    ensures listing { IfOk result (λ listing. (ids : Option (Items (Items ℕ)))
        × IsTheOne (AreOldIds value.now) ids × (listing ≡ option_map listing_text ids)) }
    ensures nests { IfOk result (λ listing. IfSome listing (IsCompact 2)) }
{
    match texts_of(alloc, value)? {
        None => Ok(None),
        Some(ids) => Ok(Some(arrows_raw(alloc, &ids)?)),
    }
}

/// The listing of arrows with these ids.
fn arrows_raw(alloc: Global, ids: &List<Text>) -> Result<Raw, AllocError>
    ensures text { IfOk result (λ raw. raw ≡ listing_text ids.now) }
    ensures nests { IfOk result (IsCompact 2) }
{
    let mut entries = Vec::new(alloc);
    for id in ids.as_slice() {
        entries.push(arrow_raw(alloc, id)?)?;
    }
    raw_array(alloc, &List::from_vec(entries))
}

/// The entry that lists an arrow by its id.
fn arrow_raw(alloc: Global, id: &Text) -> Result<Raw, AllocError>
    ensures text { IfOk result (λ raw. raw ≡ arrow_text id.now) }
    ensures nests { IfOk result (IsCompact 1) }
{
    let id = Member::named(alloc, "id", raw_text(alloc, id)?)?;
    let role = Member::named(alloc, "type", raw_text(alloc, &Text::fixed("arrow"))?)?;
    raw_object(alloc, &List::from_vec(vec![in alloc; id, role]?))
}
