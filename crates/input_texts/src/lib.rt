//! An input that comes in pieces: each of its texts is handed on when it ends, or each of its lines
//! is answered.
#![tactic(auto)]

mod answering;
mod input;
pub mod laws;
mod line;
mod reading;

pub use answering::{Answerer, LinesFault, answer_lines};
pub use input::read_texts;
pub use line::line_end;
pub use reading::{Reader, Stopped};
