//! Rooms: what one event of its links gives a room, and a room that is served over links to its
//! end.
#![tactic(auto)]

mod changing;
mod joined;
pub mod laws;
mod limits;
mod plan;
mod planning;
mod room;
mod sending;
mod serving;
mod tally;
mod texts;
mod told_text;

pub use limits::{RoomLimits, ServeEnd};
pub use plan::{Change, Plan, Told};
pub use room::Room;
pub use sending::send_all;
pub use serving::serve_room;
pub use tally::{Tally, opens_link};
pub use told_text::ToldText;
