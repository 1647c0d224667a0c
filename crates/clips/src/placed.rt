//! Elements with their places.

use elem::Element;

/// An element, and its place in the array that it was read from, counted from 0; what is dropped
/// counts.
#[derive(Drop)]
pub struct Placed {
    pub place: u64,
    pub element: Element,
}
