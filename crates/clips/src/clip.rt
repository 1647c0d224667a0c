//! A clip.

use board_base::List;
use elem::Element;
use json_text::Member;

/// What was copied to the clipboard.
#[derive(Drop)]
pub struct Clip {
    /// The live elements, in the array's order.
    pub elements: List<Element>,

    /// The place of each in the array, counted from 0; what is dropped counts.
    pub places: List<u64>,

    /// The ids and entries of its files.
    pub files: List<Member>,
}
