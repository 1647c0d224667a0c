//! Bytes and lists, how bytes compare, why a call stopped, and the pieces of a line.
#![tactic(auto)]

mod bytes;
mod each;
mod front;
mod list;
mod order;
mod piece;
mod stop;

pub use bytes::Bytes;
pub use each::change_each;
pub use front::{Front, front_of};
pub use list::List;
pub use order::bytes_order;
pub use piece::Piece;
pub use stop::Stop;
