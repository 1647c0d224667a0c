//! Recorded sessions are replayed: replicas change apart and are told of each other's changes; and
//! the report of it.
#![tactic(auto)]

mod clashes;
mod counting;
pub mod laws;
mod outcome;
mod picking;
mod replaying;
mod report;
mod reporting;
mod seat;
mod text;
mod world;

pub use replaying::replay;
pub use report::{RefusedEvent, ReplicaReport, Report};
pub use text::{refusal_text, report_text};
