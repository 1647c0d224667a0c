//! Library files: they are read, the best item of each id is kept, and an item is inserted into a
//! board.
#![tactic(auto)]

mod fault;
mod forms;
mod inserting;
mod item;
pub mod laws;
mod ordering;
mod printing;
mod reading;
mod shelf;

pub use fault::{InsertFault, ItemFault, LibFault};
pub use inserting::insert;
pub use item::Item;
pub use printing::library_text;
pub use reading::read_library;
pub use shelf::Shelf;
