//! A view of a board that is kept under changes: it is the view made anew, and each change costs
//! what is near it.
#![tactic(auto)]

mod changes;
mod coming;
mod drawing;
mod following;
mod ids;
mod kept;
mod live;
mod order;
mod places;
mod reach;
mod redrawing;
mod replacing;
mod runs;
mod sequence;
mod sharing;
mod unsettled;

pub use live::KeptView;
