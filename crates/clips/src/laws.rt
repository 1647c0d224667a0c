//! Laws on clips, for all of them. They do nothing when they run.

ghost use Rattle.std.specs.Prelude.{◌≡◌, ◌↔◌, ◌⊎◌, ℕ, List, All, None, Some};
ghost use Rattle.std.specs.Str.{IsUtf8};
ghost use Rattle.json_text.specs.Value.{IsCompact};
ghost use Rattle.elem.specs.ElementValue.{ElementValue};
ghost use Rattle.elem.specs.Order.{HaveDistinctIds};
ghost use Rattle.elem_read.specs.Reading.{IsWholeElement};
ghost use Rattle.copies.specs.Copies.{copies_of};
ghost use Rattle.clips.specs.Clips.{IsClipOf, IsClipFault};
ghost use Rattle.clips.specs.Placed.{elements_in, first_repeat, IsFirstRepeat};
ghost use Rattle.clips.specs.declared.placed.Placed.{Placed};
ghost use Rattle.clips.specs.declared.clip.Clip.{Clip};
ghost use Rattle.clips.specs.declared.fault.ClipFault.{ClipFault};

/// A text is that of one clip at most, or has one first fault.
pub fn clip_is_unique()
    ensures once { (text : List ℕ) (clip other : Clip) → IsClipOf text clip → IsClipOf text other
        → clip ≡ other }
    ensures fault { (text : List ℕ) (fault other : ClipFault) → IsClipFault text fault
        → IsClipFault text other → fault ≡ other }
    ensures none { (text : List ℕ) (clip : Clip) (fault : ClipFault) → IsClipOf text clip
        → IsClipFault text fault → ⊥ }
{}

/// A text is that of a clip, or has a first fault.
pub fn clip_or_fault_exists()
    ensures { (text : List ℕ) → IsCompact 128 text
        → ((clip : Clip) × IsClipOf text clip) ⊎ ((fault : ClipFault) × IsClipFault text fault) }
{}

/// No element has the id of an earlier one exactly where the ids are distinct, and else the first
/// that has is told.
pub fn repeats_are_told()
    ensures none { (placed : List Placed) → (first_repeat placed ≡ None)
        ↔ HaveDistinctIds (elements_in placed) }
    ensures first { (placed : List Placed) (place : ℕ) → first_repeat placed ≡ Some place
        → IsFirstRepeat placed place }
{}

/// Copies of whole elements are whole, so their texts are read back.
pub fn copies_are_whole()
    ensures { (list : List ElementValue) (prefix : List ℕ)
        → IsUtf8 prefix → All IsWholeElement list → All IsWholeElement (copies_of list prefix) }
{}
