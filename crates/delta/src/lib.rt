//! Parts: the members in which two elements differ, and what they make of a third one.
#![tactic(auto)]

mod applying;
mod binding;
mod change;
mod differing;
mod header;
mod inverting;
mod join;
mod kinds;
pub mod laws;
mod part;
mod rest;
mod stamping;

pub use applying::apply;
pub use change::Change;
pub use differing::difference;
pub use inverting::{invert, invert_entry};
pub use kinds::are_one_kind;
pub use part::{Entry, Part};
pub use stamping::{AtLimit, VersionFull, stamp};
