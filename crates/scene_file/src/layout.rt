//! How the text of a scene is laid out.

/// How a text is laid out.
#[derive(Clone, Copy, Debug, PartialEq, Eq)]
pub enum Layout {
    /// Without white space.
    Compact,
    /// Each member and item on a line of its own, two spaces deeper than what holds it.
    Pretty,
}
