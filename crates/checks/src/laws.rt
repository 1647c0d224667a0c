//! Laws on what is told of inputs, for all of them. They do nothing when they run.

ghost use Rattle.std.specs.Prelude.{◌≡◌, ℕ, List, false};
ghost use Rattle.json_text.specs.Characters.{is_blank};
ghost use Rattle.checks.specs.Checks.{IsChecked};

/// At most one text is told of an input, and none of white space alone.
pub fn checked_is_unique()
    ensures once { (bytes text other : List ℕ) → IsChecked bytes text → IsChecked bytes other
        → text ≡ other }
    ensures some { (bytes text : List ℕ) → IsChecked bytes text → is_blank bytes ≡ false }
{}

/// A text is told of each input that has more than white space.
pub fn checked_exists()
    ensures { (bytes : List ℕ) → is_blank bytes ≡ false → (text : List ℕ) × IsChecked bytes text }
{}
