//! Elements of a board: what a scene holds.
#![tactic(auto)]

mod compare;
mod copies;
mod cursor;
mod element;
mod header;
mod kind;
pub mod laws;
mod object;
mod order;
mod parts;
mod piece;
mod raw;
mod shared;
mod shared_members;
mod source;
mod stamp;
mod telling;
mod value;
mod values;

pub use copies::copies_of;
pub use element::Element;
pub use kind::{Kind, Role};
pub use order::{beats, same, same_but_stamp};
pub use parts::{Binding, BoundRef};
pub use raw::{element_raw, push_element, push_elements};
pub use shared::SharedElement;
pub use shared_members::SharedMembers;
pub use stamp::Stamp;
