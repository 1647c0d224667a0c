//! What is wrong with an element.

/// The first fault of an element, in this order.
#[derive(Clone, Copy, Debug, PartialEq, Eq)]
pub enum ElemFault {
    /// The value isn't an object.
    NotObject,
    /// It nests deeper than 120.
    Depth,
    /// `id` is missing, not a text, or empty.
    Id,
    /// `type` is missing or not a text.
    Kind,
    /// `version` isn't a whole number within the limit.
    Version,
    /// `versionNonce` isn't a whole number within the limit.
    Nonce,
    /// `updated` isn't a whole number within the limit.
    Updated,
    /// `index` is neither null nor a text.
    Index,
    /// `isDeleted` is neither true nor false.
    Deleted,
    /// `groupIds` isn't an array of texts.
    Groups,
    /// `frameId` is neither null nor a text.
    Frame,
    /// `boundElements` isn't an array.
    Bound,
    /// `containerId` of a text is neither null nor a text.
    Container,
    /// `startBinding` or `endBinding` of an arrow is neither null nor an object.
    Binding,
    /// `fileId` of an image is neither null nor a text.
    File,
}

impl ElemFault {
    ghost use Rattle.std.specs.Prelude.{◌≡◌};
    ghost use Rattle.elem_read.specs.Faults.{fault_word};

    /// What a fault line calls the fault.
    pub fn word(self) -> &'static str
        ensures { result.now ≡ fault_word self }
    {
        match self {
            ElemFault::NotObject => "not an object",
            ElemFault::Depth => "depth",
            ElemFault::Id => "id",
            ElemFault::Kind => "type",
            ElemFault::Version => "version",
            ElemFault::Nonce => "versionNonce",
            ElemFault::Updated => "updated",
            ElemFault::Index => "index",
            ElemFault::Deleted => "isDeleted",
            ElemFault::Groups => "groupIds",
            ElemFault::Frame => "frameId",
            ElemFault::Bound => "boundElements",
            ElemFault::Container => "containerId",
            ElemFault::Binding => "binding",
            ElemFault::File => "fileId",
        }
    }
}

/// The first value with a fault among several.
#[derive(Clone, Copy, Debug, PartialEq, Eq)]
pub struct FaultyElement {
    /// Its place, counted from 0; what is dropped counts.
    pub place: u64,
    /// Its first fault.
    pub fault: ElemFault,
}
