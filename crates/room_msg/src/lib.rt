//! Messages of a room: each is read, or has one first fault, and has its text.
#![tactic(auto)]

mod fault;
pub mod laws;
mod message;
mod printing;
mod reading;

pub use fault::MsgFault;
pub use message::Message;
pub use printing::{message_text, update_text};
pub use reading::read_message;
