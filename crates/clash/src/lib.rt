//! Clashes: updates whose id, version and nonce agree and that aren't the same.
#![tactic(auto)]

mod clash;
pub mod laws;
mod marks;

pub use clash::Clash;
