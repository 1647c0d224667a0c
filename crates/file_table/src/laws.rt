//! Laws on files, for all of them. They do nothing when they run.

ghost use Rattle.std.specs.Prelude.{◌≡◌, ◌↔◌, ◌⊎◌, ℕ, List, [], ◌++◌, None, Some, is_some, filter, bytes_eq, if◌then◌else◌, Contains};
ghost use Rattle.std.specs.List.{list_any};
ghost use Rattle.json_text.specs.Compact.{Member as Pair};
ghost use Rattle.json_text.specs.Parts.{names_of};
ghost use Rattle.json_text.specs.Value.{IsCompact};
ghost use Rattle.scene_json.specs.Named.{HaveRisingNames, value_at};
ghost use Rattle.json_text.specs.FirstOccurrences.{first_texts};
ghost use Rattle.elem.specs.ElementValue.{ElementValue};
ghost use Rattle.file_table.specs.References.{references, referred_files};
ghost use Rattle.file_table.specs.Picture.{HasData, IsPictureSize};
ghost use Rattle.file_table.specs.Table.{least_entry, IsLeast, AreLeastEntries};

/// The least entry of an id is one that was given for it, and none of these is less.
pub fn least_entry_is_least()
    ensures { (given : List Pair) (id entry : List ℕ) → (least_entry given id ≡ Some entry)
        ↔ IsLeast given id entry }
{}

/// The entries that were given have one table of files, and no entry has an empty one.
pub fn files_are_unique()
    ensures unique { (given files others : List Pair) → AreLeastEntries given files
        → AreLeastEntries given others → files ≡ others }
    ensures none { AreLeastEntries [] [] }
{}

/// The order and the repeats of the given entries don't count.
pub fn order_of_entries_plays_no_part()
    ensures { (given others files : List Pair)
        → ((file : Pair) → Contains given file ↔ Contains others file) → AreLeastEntries given files
        → AreLeastEntries others files }
{}

/// Their grouping doesn't count: the files of two tables are those of all that was given for both,
/// and a table is its own.
pub fn files_join()
    ensures joined { (given files others more all : List Pair)
        → AreLeastEntries given files → AreLeastEntries others more
        → AreLeastEntries (files ++ more) all
        → AreLeastEntries (given ++ others) all }
    ensures own { (files : List Pair) → HaveRisingNames files → AreLeastEntries files files }
{}

/// The entries that are given have a table of files.
pub fn files_exist()
    ensures { (given : List Pair) → (files : List Pair) × AreLeastEntries given files }
{}

/// A file is referred exactly if an element names it, as images alone do, and the table has it; and
/// then with the entry of the table, in the order in which they are first named.
pub fn referred_files_are_named()
    ensures exact { (files : List Pair) (elements : List ElementValue) (id : List ℕ)
        → value_at id (referred_files files elements)
        ≡ (if list_any (bytes_eq id) (references elements) then value_at id files else None) }
    ensures order { (files : List Pair) (elements : List ElementValue)
        → names_of (referred_files files elements)
        ≡ filter (λ id. is_some (value_at id files)) (first_texts (references elements)) }
{}

/// An entry has a picture of some size, or data that is no base64, or no data.
pub fn picture_is_decided()
    ensures { (entry : List ℕ) → IsCompact 128 entry
        → ((size : ℕ) × IsPictureSize entry size)
        ⊎ (((content : List ℕ) × HasData entry content
        × ((size : ℕ) → IsPictureSize entry size → ⊥))
        ⊎ ((content : List ℕ) → HasData entry content → ⊥)) }
{}
