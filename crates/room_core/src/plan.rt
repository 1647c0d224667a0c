//! A step of a room that is planned, and put in place later.

ghost use Rattle.std.specs.Prelude.{◌≡◌, option_copied};
ghost use Rattle.room_core.specs.Planned.{record_in};

use crate::told_text::ToldText;
use board_base::{Bytes, List};
use elem::Element;

/// One text for each of these links, in their order. Without links nothing is told.
#[derive(Drop)]
pub struct Told {
    pub links: List<u64>,
    pub text: ToldText,
}

/// What a step changes of a room.
#[derive(Drop)]
pub enum Change {
    /// This link joins.
    Join(u64),
    /// The elements of a message are taken.
    Take(List<Element>),
    /// This link leaves.
    Leave(u64),
    /// The room stays as it is.
    Unchanged,
}

/// A step that is planned: what it changes, what it tells, and its record where that isn't the text
/// that is told.
#[derive(Drop)]
pub struct Plan {
    pub change: Change,
    pub told: Told,
    pub own_record: Option<Bytes>,
}

impl Plan {
    /// The record of the step, for a journal: the text of the update with the elements that are
    /// taken, where the step takes those of a message. It takes no memory.
    pub fn record(&self) -> Option<&Bytes>
        ensures { option_copied result ≡ record_in self.now }
    {
        match &self.change {
            Change::Take(_) => match &self.own_record {
                Some(text) => Some(text),
                None => Some(self.told.text.as_bytes()),
            },
            Change::Join(_) | Change::Leave(_) | Change::Unchanged => None,
        }
    }
}
