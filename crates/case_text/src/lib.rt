//! What the programs for tests share: what a case tells, and how its line tells what it gave. Each
//! JSON text of an input is a case, and each line of the output is about one case, in their order.
#![tactic(auto)]

mod events;
mod forms;
mod lines;
mod links;
mod told;

pub use forms::{
    bytes_named, bytes_of, count_of, given, is_given, listed, number_or, numbers_of, words_of,
};
pub use lines::{Answer, answer_cases};
pub use links::{links_of, push_sent};
pub use told::{
    push_hex, push_member_of, push_number, push_string, push_told, push_truth, push_value,
};
