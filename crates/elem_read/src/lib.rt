//! Elements are read: each is one, or has one first fault.
#![tactic(auto)]

mod binding;
mod element;
mod fault;
mod forms;
mod kinds;
pub mod laws;
mod listing;
mod near;
mod object;
mod places;
mod reading;

pub use binding::further_members;
pub use fault::{ElemFault, FaultyElement};
pub use object::object_members;
pub use reading::{read_array, read_element, read_elements};
