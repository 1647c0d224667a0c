//! Clips are pasted into a board.
#![tactic(auto)]

pub mod laws;
mod pasting;

pub use pasting::{Exists, paste};
