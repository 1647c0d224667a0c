//! Clips of the clipboard are read.
#![tactic(auto)]

mod clip;
mod fault;
mod given;
pub mod laws;
mod placed;
mod reading;
mod repeats;

pub use clip::Clip;
pub use fault::ClipFault;
pub use placed::Placed;
pub use reading::{read_clip, read_placed};
pub use repeats::first_repeat;
