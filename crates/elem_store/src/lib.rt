//! The store of a board: the best element of each id.
#![tactic(auto)]

mod arranging;
mod indexed;
pub mod laws;
mod places;
mod shelf;
mod sorting;
mod store;
mod texts;

pub use store::Store;
pub use texts::push_stored;
