//! What is shown of scenes: its text, and that it is whole.
#![tactic(auto)]

pub mod laws;
mod text;

pub use text::scene_text;
