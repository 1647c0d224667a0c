//! Texts in containers and bound arrows: the links between the elements of a board, settled so that
//! they agree.
#![tactic(auto)]

mod arrows;
mod key;
pub mod laws;
mod link_table;
mod listing;
mod names;
mod parts;
mod row_places;
mod rows;
mod settle;
mod table;
mod texts;

pub use link_table::LinkTable;
pub use parts::{can_hold_text, is_target, is_text, links_to};
pub use rows::{LinkRow, linked_ids, rows_of};
pub use settle::{settle_arrows, settle_texts};
