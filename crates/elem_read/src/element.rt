//! The element that members say.

ghost use Rattle.std.specs.Prelude.{◌≡◌, ◌≢◌, Err, IfOk, All, codes, Some, map};
ghost use Rattle.json_text.specs.Members.{pairs};
ghost use Rattle.json_text.specs.Value.{IsCompact};
ghost use Rattle.scene_json.specs.Named.{value_at, HaveRisingNames};
ghost use Rattle.elem.specs.Forms.{find_in};
ghost use Rattle.elem.specs.Said.{Says};
ghost use Rattle.elem_read.specs.Faults.{IsFirst};
ghost use Rattle.elem_read.specs.Reading.{selection_text};
ghost use Rattle.elem_read.specs.declared.fault.ElemFault.{ElemFault};

use crate::binding::own_binding;
use crate::fault::ElemFault;
use crate::forms::{id, index, own_text, text_or_null, texts, truth, whole};
use crate::kinds::{is_arrow, is_image, is_text, kind, others};
use crate::listing::listing;
use crate::places::{FRAME_ID, GROUP_IDS, IS_DELETED, OWN_TEXT, UPDATED, VERSION, VERSION_NONCE};
use board_base::Stop;
use elem::Element;
use members::Members;
use std::alloc::Global;

/// The element that restored members say, or the first fault of them.
pub(crate) fn element_of(alloc: Global, members: Members) -> Result<Element, Stop<ElemFault>>
    requires kept { value_at (codes "type") (pairs members) ≢ Some selection_text }
    requires rise { HaveRisingNames (pairs members) }
    requires nest { All (λ member. IsCompact 119 member.value) members }
    ensures says { IfOk result (Says (find_in (pairs members))) }
    ensures fault { (fault : ElemFault) → result ≡ Err (Stop.Fault fault)
        → IsFirst (find_in (pairs members)) fault }
{
    let id = id(alloc, &members)?;
    let kind = kind(alloc, &members)?;
    let version = whole(&members, "version", VERSION, ElemFault::Version)?;
    let nonce = whole(&members, "versionNonce", VERSION_NONCE, ElemFault::Nonce)?;
    let updated = whole(&members, "updated", UPDATED, ElemFault::Updated)?;
    let index = index(alloc, &members)?;
    let deleted = truth(&members, "isDeleted", IS_DELETED, ElemFault::Deleted)?;
    let groups = texts(alloc, &members, "groupIds", GROUP_IDS, ElemFault::Groups)?;
    let frame = text_or_null(alloc, &members, "frameId", FRAME_ID, ElemFault::Frame)?;
    let bound = listing(alloc, &members)?;
    let container = own_text(
        alloc,
        &members,
        is_text(&kind),
        "containerId",
        OWN_TEXT,
        ElemFault::Container,
    )?;
    let arrow = is_arrow(&kind);
    let start_binding = own_binding(alloc, &members, arrow, "startBinding")?;
    let end_binding = own_binding(alloc, &members, arrow, "endBinding")?;
    let file = own_text(
        alloc,
        &members,
        is_image(&kind),
        "fileId",
        OWN_TEXT,
        ElemFault::File,
    )?;
    let rest = others(alloc, members, &kind)?;
    Ok(Element {
        id,
        kind,
        version,
        nonce,
        updated,
        deleted,
        index,
        groups,
        frame,
        bound,
        container,
        start_binding,
        end_binding,
        file,
        rest,
    })
}
