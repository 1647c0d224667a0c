//! What comes of an event.

use board_base::List;
use effects::Refusal;
use elem::Element;

/// What a change, an undo or a redo comes to.
#[derive(Drop)]
pub(crate) enum Outcome {
    /// It gives these elements.
    Given(List<Element>),
    /// It is refused; without a cause where there was nothing to undo or to redo.
    Refused(Option<Refusal>),
}
