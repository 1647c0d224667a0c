//! What can be undone and redone.
#![tactic(auto)]

mod history;
pub mod laws;
mod planned;
mod step;

pub use history::History;
pub use planned::{Direction, HistoryStep};
pub use step::Step;
