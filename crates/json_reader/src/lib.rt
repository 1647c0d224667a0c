//! Reading JSON values, whole or from pieces of a stream, with the first fault.
#![tactic(auto)]

mod brackets;
mod collapsing;
mod draft;
mod fault;
mod feed;
mod items;
pub mod laws;
mod machine;
mod number;
mod reader;
mod scanning;
mod sequence;
mod simple;
mod staying;
mod word;
mod writing;

pub use fault::JsonFault;
pub use feed::{Fed, Feed};
pub use scanning::scan;
