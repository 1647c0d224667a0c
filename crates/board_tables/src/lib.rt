//! Tables that boards are kept in: what was committed is found again, whole, whatever stops in
//! between.
#![tactic(auto)]

mod board;
pub mod laws;
mod memory;
mod rows;
mod tables;
#[cfg(test)]
mod tests;
mod writes;

pub use board::Board;
pub use memory::{CommitFault, MemTables};
pub use tables::{Reopen, TableError, Tables};
