//! The ends by which a board meets the outside: sources, sinks and links, over memory, over scripts
//! and over the system.
#![tactic(auto)]

mod calls;
mod ends;
mod journal;
pub mod laws;
mod links;
mod memory;
mod pieces;
mod script;
mod standard;
mod sure;
mod whole;

pub use ends::{Failed, Journal, Sink, Source};
pub use journal::MemJournal;
pub use links::{LinkError, LinkEvent, Links, SendError};
pub use memory::{MemSink, MemSource};
pub use pieces::write_pieces;
pub use script::ScriptLinks;
pub use standard::{StdSink, StdSource};
pub use sure::{SureSink, SureSource};
pub use whole::{PIECE, ReadError, empty_piece, read_all, write_all};
