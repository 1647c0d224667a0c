//! The commands of the program: what each answers its input with, and the top call that reads,
//! answers and writes.
#![tactic(auto)]

mod answer;
mod checking;
mod drilling;
mod durable;
mod front;
mod headline;
mod heads;
mod input;
mod keeping;
pub mod laws;
mod pasting;
mod pictures;
mod recovering;
mod running;
mod serving;
mod shelving;
mod status;
mod sure;
mod taking;
mod words;
mod writing;

pub use running::board;
pub use status::{Fault, InputRefusal, Status};
pub use sure::board_surely;
pub use words::{Begins, Drill, Form, Insertion, Keeping, ProgramCommand, Request, Service};
