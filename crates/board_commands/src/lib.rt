//! The commands of the users of a board.
#![tactic(auto)]

mod command;

pub use command::{Capture, Command, Side, Spot};
