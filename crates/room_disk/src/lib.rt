//! A durable room: it is served over links and kept in a journal; what its journal is read as, and
//! what a room resumes with.
#![tactic(auto)]

mod appending;
mod fault;
mod keep_end;
mod keeping;
mod kept;
pub mod laws;
mod line;
mod recovering;
mod recovery;
mod resuming;

pub use fault::{KeepFault, LineFault, RecoverFault};
pub use keep_end::KeepEnd;
pub use keeping::keep_room;
pub use recovering::{recover, recover_records};
pub use resuming::resume;
