//! Scenes are checked: all that is wrong with them, and all that restoring would change, is told.
#![tactic(auto)]

mod board;
mod changes;
mod checking;
mod faults;
mod files;
mod gathered;
mod judged;
mod judging;
mod kept;
pub mod laws;
mod reading;

pub use checking::checked;
