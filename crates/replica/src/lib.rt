//! Replicas of a board: what each stores and shows, its history, and what commands, deliveries,
//! undo and redo make of it.
#![tactic(auto)]

mod board;
pub mod laws;
mod planned;
mod replica;

pub use board_commands::{Capture, Command, Side, Spot};
pub use effects::Refusal;
pub use history::Direction;
pub use planned::PlannedStep;
pub use replica::Replica;
