//! Taking JSON values apart, looking members up, making values, and laying them out.
#![tactic(auto)]

mod build;
pub mod laws;
mod layout;
mod named;
mod nesting;
mod parts;
mod scalar;
mod texts;

pub use build::{
    push_comma, push_whole, raw_array, raw_null, raw_object, raw_of, raw_text, raw_truth, raw_whole,
};
pub use layout::{Lines, pretty};
pub use named::{has_value, is_one_of, shaped, text_named, value_named, whole_named};
pub use nesting::{depth_of, nests_at_most};
pub use parts::{Item, Objects, Shape, item_of, items, members, members_to, text_of};
pub use scalar::{GREATEST_WHOLE, is_null, truth_of, whole_in, whole_of};
pub use texts::texts_of;
