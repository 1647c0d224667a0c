//! An item of a library.

use board_base::List;
use elem::Element;
use json_text::Text;

/// Some elements that were put aside together.
#[derive(Drop)]
pub struct Item {
    /// Its name among all items. It isn't empty in what is read.
    pub id: Text,

    /// Whether it is published.
    pub published: bool,

    /// When it was made, in milliseconds since 1970; 0 where that isn't known.
    pub created: u64,

    /// What it is called, where it is called something.
    pub name: Option<Text>,

    /// Its elements, deleted ones too, in the array's order.
    pub elements: List<Element>,
}
