//! What the elements of a board were when they were last captured, and what has changed since.
#![tactic(auto)]

mod captured;
mod carrying;
pub mod laws;
mod pending;
mod snapshot;
mod touched;

pub use snapshot::{Snapshot, SnapshotStep};
pub use touched::Touched;
