//! Why a command is refused.

use json_text::Text;

/// Why a command changes nothing. Of several causes the first of this order is told, and for one
/// cause the first id in the order of the command's fields.
pub enum Refusal {
    /// The id of a new element is stored, maybe as deleted.
    Exists(Text),
    /// No live element has the id.
    NoElement(Text),
    /// The element isn't of a kind that the command is for.
    WrongKind(Text),
    /// The member has a command of its own, or none.
    Protected(Text),
    /// The element of this id would change and has the greatest version; it is the least of such
    /// ids.
    VersionFull(Text),
}

// By hand, so that whoever drops a refusal sees one call and not what it holds.
impl Drop for Refusal {
    fn drop(self) {
        match self {
            Refusal::Exists(_text) => {}
            Refusal::NoElement(_text) => {}
            Refusal::WrongKind(_text) => {}
            Refusal::Protected(_text) => {}
            Refusal::VersionFull(_text) => {}
        }
    }
}
