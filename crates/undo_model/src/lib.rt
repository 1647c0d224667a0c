//! What is undone, carried and captured of a board, as functions of whole elements.
#![tactic(auto)]

pub mod laws;
