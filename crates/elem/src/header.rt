//! The members that every element of a kind has.

ghost use Rattle.std.specs.Prelude.{◌≡◌};
ghost use Rattle.elem.specs.inner.Printing.{header_name, headers_of};

use crate::kind::Kind;

/// A header member, by its name.
#[derive(Clone, Copy)]
pub(crate) enum Header {
    BoundElements,
    ContainerId,
    EndBinding,
    FileId,
    FrameId,
    GroupIds,
    Id,
    Index,
    IsDeleted,
    StartBinding,
    KindName,
    Updated,
    Version,
    VersionNonce,
}

impl Header {
    /// The member's name.
    pub(crate) fn name(self) -> &'static str
        ensures { result.now ≡ header_name self }
    {
        match self {
            Header::BoundElements => "boundElements",
            Header::ContainerId => "containerId",
            Header::EndBinding => "endBinding",
            Header::FileId => "fileId",
            Header::FrameId => "frameId",
            Header::GroupIds => "groupIds",
            Header::Id => "id",
            Header::Index => "index",
            Header::IsDeleted => "isDeleted",
            Header::StartBinding => "startBinding",
            Header::KindName => "type",
            Header::Updated => "updated",
            Header::Version => "version",
            Header::VersionNonce => "versionNonce",
        }
    }
}

const COMMON: [Header; 10] = [
    Header::BoundElements,
    Header::FrameId,
    Header::GroupIds,
    Header::Id,
    Header::Index,
    Header::IsDeleted,
    Header::KindName,
    Header::Updated,
    Header::Version,
    Header::VersionNonce,
];

const OF_TEXTS: [Header; 11] = [
    Header::BoundElements,
    Header::ContainerId,
    Header::FrameId,
    Header::GroupIds,
    Header::Id,
    Header::Index,
    Header::IsDeleted,
    Header::KindName,
    Header::Updated,
    Header::Version,
    Header::VersionNonce,
];

const OF_ARROWS: [Header; 12] = [
    Header::BoundElements,
    Header::EndBinding,
    Header::FrameId,
    Header::GroupIds,
    Header::Id,
    Header::Index,
    Header::IsDeleted,
    Header::StartBinding,
    Header::KindName,
    Header::Updated,
    Header::Version,
    Header::VersionNonce,
];

const OF_IMAGES: [Header; 11] = [
    Header::BoundElements,
    Header::FileId,
    Header::FrameId,
    Header::GroupIds,
    Header::Id,
    Header::Index,
    Header::IsDeleted,
    Header::KindName,
    Header::Updated,
    Header::Version,
    Header::VersionNonce,
];

/// The header members of a kind, in the order of their names.
pub(crate) fn headers_of(kind: &Kind) -> &'static [Header]
    ensures { result.now ≡ headers_of kind.now }
{
    match kind {
        Kind::Text => &OF_TEXTS,
        Kind::Arrow => &OF_ARROWS,
        Kind::Image => &OF_IMAGES,
        _ => &COMMON,
    }
}
