//! Files of a scene: their table, the ones that images show, and the sizes of their pictures.
#![tactic(auto)]

mod files;
pub mod laws;
mod picture;
mod references;
mod table;

pub use files::Files;
pub use picture::{PictureFault, picture_size};
