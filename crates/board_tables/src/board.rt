//! A board as the tables have it.

use board_base::{Bytes, List};
use elem::Element;

/// What is kept of a board.
#[derive(Drop)]
pub struct Board {
    /// The text of its head. The tables don't look into it.
    pub head: Bytes,
    /// Its elements, in the order of their ids.
    pub elements: List<Element>,
}
