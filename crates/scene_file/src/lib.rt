//! Scene files: scenes are read with their heads, heads are joined, and elements are printed under
//! a head.
#![tactic(auto)]

mod fault;
mod head;
pub mod laws;
mod layout;
mod printing;
mod reading;
mod scene;

pub use fault::SceneFault;
pub use head::{Head, join};
pub use layout::Layout;
pub use printing::{elements_text, state_text};
pub use reading::{read_scene, scene_of};
pub use scene::Scene;
