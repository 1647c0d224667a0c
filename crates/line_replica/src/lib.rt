//! A replica in a program of its own: it is asked line by line, and each line has one answer.
#![tactic(auto)]

mod acting;
mod asking;
pub mod laws;
mod life;
mod talk;
mod texts;
mod words;

pub use asking::answer_input;
pub use life::Life;
pub use talk::Talk;
