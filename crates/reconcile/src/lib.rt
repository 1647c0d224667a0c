//! Lists of elements are taken into a store, but for those whose ids are held.
#![tactic(auto)]

mod held;
pub mod laws;
mod taking;

pub use held::Held;
pub use taking::{free_copies, reconcile};
