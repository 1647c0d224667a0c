//! What a board shows of its stored elements: the live ones, in scene order, with strictly rising
//! keys.
#![tactic(auto)]

pub mod laws;
mod order;
pub mod steps;
mod view;

pub use view::{View, into_shown, shown_elements, view_of};
