//! Laws on frames and groups, for all lists of elements. They do nothing when they run.

ghost use Rattle.std.specs.Prelude.{◌≡◌, List, Bool, Some, Contains, IsTrue, filter};
ghost use Rattle.elem.specs.ElementValue.{ElementValue};
ghost use Rattle.frames_groups.specs.Frames.{is_frame, has_frame, framed, frames_settled, NameFrames};
ghost use Rattle.frames_groups.specs.Groups.{groups_settled, HaveDistinctGroups};

/// Where each frame name names a frame of the list, settling changes nothing.
pub fn named_frames_stay()
    ensures { (elements : List ElementValue) → NameFrames elements
        → frames_settled elements ≡ elements }
{}

/// Where no element has a group twice, settling changes nothing.
pub fn distinct_groups_stay()
    ensures { (elements : List ElementValue) → HaveDistinctGroups elements
        → groups_settled elements ≡ elements }
{}

/// Settling groups leaves frames settled, and the other way round; which of them comes first plays
/// no part.
pub fn frames_and_groups_stay_settled()
    ensures frames { (elements : List ElementValue) → NameFrames elements
        → NameFrames (groups_settled elements) }
    ensures groups { (elements : List ElementValue)
        → HaveDistinctGroups elements → HaveDistinctGroups (frames_settled elements) }
    ensures either { (elements : List ElementValue)
        → frames_settled (groups_settled elements) ≡ groups_settled (frames_settled elements) }
{}

/// What settling makes of an element's frame name rests on the frames of this name alone: where
/// they are among the elements that are settled, it makes the same of it.
pub fn named_frames_are_enough()
    ensures { (elements : List ElementValue) (among : ElementValue → Bool) (e : ElementValue)
        → ((frame : ElementValue) → Contains elements frame → IsTrue (is_frame frame)
        → e.frame ≡ Some frame.id → IsTrue (among frame))
        → framed (has_frame (filter among elements)) e ≡ framed (has_frame elements) e }
{}
