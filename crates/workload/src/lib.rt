//! A session that is made from a number, for a drill: four replicas that change apart, hear of each
//! other's changes, and in the end of all of them.
#![tactic(auto)]

mod deed;
mod draws;
pub mod laws;
mod making;
mod texts;

pub use making::make_session;
