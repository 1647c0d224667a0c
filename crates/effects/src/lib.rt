//! What a command of a user changes on a board: the changed elements, or why it is refused.
#![tactic(auto)]

mod changing;
mod concerning;
mod copying;
mod deleting;
mod effect;
mod finding;
mod framing;
mod kinds;
pub mod laws;
mod linking;
mod lookup;
mod placing;
mod preparing;
mod refusal;
mod refusing;
mod setting;
mod walking;

pub use changing::changed;
pub use lookup::Lookup;
pub use refusal::Refusal;
