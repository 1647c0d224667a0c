//! The members that every element has, and what each is where it isn't given.
#![tactic(auto)]

pub mod laws;
mod legacy;
mod restoring;
mod table;

pub use restoring::{into_restored, restore};
pub use table::default_of;
