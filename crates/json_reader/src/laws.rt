//! Laws on first faults, for all bytes. They do nothing when they run.

ghost use Rattle.std.specs.Prelude.{◌≡◌, ◌⊎◌, ◌≤◌, ℕ, List, length, drop};
ghost use Rattle.json_text.specs.Value.{Stands};
ghost use Rattle.json_reader.specs.Faults.{IsJsonFault, IsFirstFault};
ghost use Rattle.json_reader.specs.declared.fault.JsonFault.{JsonFault};

/// A text has at most one first fault at an offset: its kind and its place are determined.
pub fn first_fault_is_unique()
    ensures { (bytes : List ℕ) (at : ℕ) (fault other : JsonFault)
        → IsJsonFault bytes at fault → IsJsonFault bytes at other → fault ≡ other }
{}

/// At each offset a value stands behind white space, or there is a first fault.
pub fn value_or_fault_exists()
    ensures { (bytes : List ℕ) (at : ℕ) → at ≤ length bytes
        → ((text : List ℕ) × (end : ℕ) × (end ≤ length bytes)
        × Stands (drop at bytes) text (drop end bytes))
        ⊎ ((fault : JsonFault) × IsFirstFault bytes at fault) }
{}
