//! Laws on sessions, for all of them: states are sound, replicas converge, and undo and redo bring
//! back what was; and on those whose updates all come from their replicas, and those at whose end
//! each replica is told of every message.
#![tactic(auto)]

pub mod laws;
pub mod origins;
