//! The members of an object, held each by itself or by their places in a text.
#![tactic(auto)]

mod members;
mod push;
mod standing;

pub use members::Members;
pub use push::push_member;
pub use standing::Place;
