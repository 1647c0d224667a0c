//! Why texts are no session.

use crate::name::MemberName;
use clips::ClipFault;
use elem_read::ElemFault;
use json_reader::JsonFault;
use scene_file::SceneFault;

/// Why a text of a session can't be read: its first fault, in the order of its members.
#[derive(Clone, Copy, Debug, PartialEq, Eq, Drop)]
pub enum TextFault {
    /// Its JSON form has this fault; places count over all bytes of the session.
    Json(JsonFault),
    /// It isn't an object.
    NotObject,
    /// This member is missing and has no default, or has another form than it should have.
    Member(MemberName),
    /// The scene has this fault.
    Scene(SceneFault),
    /// The element at this place, counted from 0, is the first with a fault, and has this one.
    Element(u64, ElemFault),
    /// The clip has this fault.
    Clip(ClipFault),
}

/// Why texts are no session.
#[derive(Clone, Copy, Debug, PartialEq, Eq, Drop)]
pub enum SessionFault {
    /// The text with this number, counted from 1, is the first with a fault, and has this one.
    In(u64, TextFault),
    /// More than 250,000 events follow the header.
    TooMany,
}
