//! Steps of undo and redo that are planned, and put in place later.

use elem::Stamp;
use history::{Direction, HistoryStep, Step};

/// A step that is planned: whether it is one of undo or of redo, what it stamps with, what it makes
/// of the history, and what it gives.
#[derive(Drop)]
pub struct PlannedStep {
    pub direction: Direction,
    pub stamp: Stamp,
    pub history: HistoryStep,
    pub step: Step,
}
