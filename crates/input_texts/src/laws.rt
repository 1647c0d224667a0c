//! Laws on lines, for all of them. They do nothing when they run.

ghost use Rattle.std.specs.Prelude.{ℕ, List};
ghost use Rattle.input_texts.specs.Lines.{lines_of, begun_of, AreLines};

/// Bytes are their lines, one after the other, and what stands behind the last one.
pub fn bytes_are_lines()
    ensures { (bytes : List ℕ) → AreLines bytes (lines_of bytes) (begun_of bytes) }
{}
