//! Copies of elements under a prefix: they name each other as the elements do.
#![tactic(auto)]

mod copying;
mod ids;
mod keying;
pub mod laws;

pub use copying::{copies, prefixed};
pub use ids::see;
pub use keying::keyed_between;
