//! A scene.

use crate::head::Head;
use board_base::List;
use elem::Element;

/// A scene: its head, and its elements in the array's order, each with a key.
#[derive(Drop)]
pub struct Scene {
    pub head: Head,
    pub elements: List<Element>,
}
