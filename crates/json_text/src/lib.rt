//! What a JSON value is, its compact text, and the texts in it.
#![tactic(auto)]

mod content;
mod first;
pub mod laws;
mod order;
mod quote_bytes;
mod quotes;
mod runs;
mod space;
mod stretch;
mod text;

pub use content::{content_of, text_at};
pub use first::first_occurrences;
pub use quote_bytes::QuoteBytes;
pub use quotes::{push_quote, push_quoted, whole_or_cut};
pub use runs::{bare_end, digits_end, inert_end, quiet_end, run_end, skip_space};
pub use space::is_space;
pub use text::{FEW_MEMBERS, Member, Raw, Text};
