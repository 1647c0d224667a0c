//! Header members of one form each.

ghost use Rattle.std.specs.Prelude.{◌≡◌, codes};
ghost use Rattle.json_text.specs.Members.{pairs};
ghost use Rattle.scene_json.specs.Named.{value_at, HaveRisingNames};
ghost use Rattle.elem.specs.Forms.{IsText, IsId, IsWholeNumber, IsTruth, IsTextOrNull, IsKeyOrNull, AreTexts};
ghost use Rattle.elem.specs.Said.{IsOwn};
ghost use Rattle.elem_read.specs.inner.Parts.{Reads};
ghost use Rattle.elem_read.specs.declared.fault.ElemFault.TheVariants as faults;

use crate::fault::ElemFault;
use crate::near::{text_near, truth_near, value_near, whole_near};
use crate::places::{ID, INDEX};
use board_base::{List, Stop};
use frac_keys::Key;
use json_text::Text;
use members::Members;
use scene_json::{is_null, shaped, text_of, texts_of};
use std::alloc::{AllocError, Global};

/// The member of this name, a text.
pub(crate) fn text(
    alloc: Global,
    members: &Members,
    name: &str,
    place: usize,
    fault: ElemFault,
) -> Result<Text, Stop<ElemFault>>
    requires { HaveRisingNames (pairs members.now) }
    ensures { Reads (IsText (value_at name.now (pairs members.now))) fault result }
{
    match text_near(alloc, members, name, place)? {
        Some(text) => Ok(text),
        None => Err(Stop::Fault(fault)),
    }
}

/// The id, a text that isn't empty.
pub(crate) fn id(alloc: Global, members: &Members) -> Result<Text, Stop<ElemFault>>
    requires { HaveRisingNames (pairs members.now) }
    ensures { Reads (IsId (value_at (codes "id") (pairs members.now))) faults.Id result }
{
    match text_near(alloc, members, "id", ID)? {
        Some(id) if !id.as_bytes().is_empty() => Ok(id),
        _ => Err(Stop::Fault(ElemFault::Id)),
    }
}

/// The member of this name, a whole number.
pub(crate) fn whole(
    members: &Members,
    name: &str,
    place: usize,
    fault: ElemFault,
) -> Result<u64, Stop<ElemFault>>
    requires { HaveRisingNames (pairs members.now) }
    ensures { Reads (IsWholeNumber (value_at name.now (pairs members.now))) fault result }
{
    match whole_near(members, name, place)? {
        Some(number) => Ok(number),
        None => Err(Stop::Fault(fault)),
    }
}

/// The member of this name, true or false.
pub(crate) fn truth(
    members: &Members,
    name: &str,
    place: usize,
    fault: ElemFault,
) -> Result<bool, Stop<ElemFault>>
    requires { HaveRisingNames (pairs members.now) }
    ensures { Reads (IsTruth (value_at name.now (pairs members.now))) fault result }
{
    match truth_near(members, name, place)? {
        Some(truth) => Ok(truth),
        None => Err(Stop::Fault(fault)),
    }
}

/// The member of this name, a text, or none where it is null or missing.
pub(crate) fn text_or_null(
    alloc: Global,
    members: &Members,
    name: &str,
    place: usize,
    fault: ElemFault,
) -> Result<Option<Text>, Stop<ElemFault>>
    requires { HaveRisingNames (pairs members.now) }
    ensures { Reads (IsTextOrNull (value_at name.now (pairs members.now))) fault result }
{
    let Some(value) = value_near(members, name, place)? else {
        return Ok(None);
    };
    if is_null(&value) {
        return Ok(None);
    }
    match shaped(text_of(alloc, &value))? {
        Some(text) => Ok(Some(text)),
        None => Err(Stop::Fault(fault)),
    }
}

/// The key, or none where `index` is null or a text that is no key.
pub(crate) fn index(alloc: Global, members: &Members) -> Result<Option<Key>, Stop<ElemFault>>
    requires { HaveRisingNames (pairs members.now) }
    ensures { Reads (IsKeyOrNull (value_at (codes "index") (pairs members.now))) faults.Index
        result }
{
    match text_or_null(alloc, members, "index", INDEX, ElemFault::Index)? {
        Some(text) => Ok(Key::read(alloc, text.as_bytes())?),
        None => Ok(None),
    }
}

/// The member of this name, an array of texts.
pub(crate) fn texts(
    alloc: Global,
    members: &Members,
    name: &str,
    place: usize,
    fault: ElemFault,
) -> Result<List<Text>, Stop<ElemFault>>
    requires { HaveRisingNames (pairs members.now) }
    ensures { Reads (AreTexts (value_at name.now (pairs members.now))) fault result }
{
    let Some(value) = value_near(members, name, place)? else {
        return Err(Stop::Fault(fault));
    };
    match texts_of(alloc, &value)? {
        Some(texts) => Ok(texts),
        None => Err(Stop::Fault(fault)),
    }
}

/// The member of this name where the element's kind has it, a text or none.
pub(crate) fn own_text(
    alloc: Global,
    members: &Members,
    own: bool,
    name: &str,
    place: usize,
    fault: ElemFault,
) -> Result<Option<Text>, Stop<ElemFault>>
    requires { HaveRisingNames (pairs members.now) }
    ensures { Reads (IsOwn own IsTextOrNull (value_at name.now (pairs members.now))) fault result }
{
    if own {
        text_or_null(alloc, members, name, place, fault)
    } else {
        Ok(None)
    }
}
