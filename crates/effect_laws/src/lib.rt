//! What a command gives: elements, which have its stamp; and keys that stay or settle.
#![tactic(auto)]

pub mod laws;
