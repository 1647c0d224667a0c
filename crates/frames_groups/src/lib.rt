//! Frames and groups of a board: frame names that name no frame go, and so do groups that an
//! element names again.
#![tactic(auto)]

mod frames;
mod groups;
pub mod laws;

pub use frames::{is_frame, settle_frames};
pub use groups::settle_groups;
