//! Recorded sessions: each is read from its texts, or has one first fault. So are the lines of a
//! living replica.
#![tactic(auto)]

mod command;
mod event;
mod fault;
mod fields;
mod happening;
mod header;
pub mod laws;
mod lines;
mod name;
mod picking;
mod reading;
mod session;
mod taking;

pub use event::{Event, Pick};
pub use fault::{SessionFault, TextFault};
pub use lines::{Line, Opening, read_line, read_opening};
pub use name::MemberName;
pub use reading::read_session;
pub use session::Session;
pub use taking::SessionFeed;
