//! Laws on values, their compact texts and first occurrences, for all bytes. They do nothing when
//! they run.

ghost use Rattle.std.specs.Prelude.{◌≡◌, ◌≢◌, ◌↔◌, ◌⊎◌, ◌≤◌, ℕ, List, [], ◌∷◌, ◌++◌, Contains, bytes_eq, if◌then◌else◌};
ghost use Rattle.std.specs.List.{AllByRecursion, list_any, IsDistinct};
ghost use Rattle.std.specs.Str.{IsUtf8};
ghost use Rattle.json_text.specs.Alike.{AreAlike};
ghost use Rattle.json_text.specs.Characters.{quote};
ghost use Rattle.json_text.specs.Compact.{Member, array_text, compact, object_text};
ghost use Rattle.json_text.specs.FirstOccurrences.{first_texts};
ghost use Rattle.json_text.specs.Parts.{AreMembers};
ghost use Rattle.json_text.specs.Tree.{Tree, spelling, IsGood, depth};
ghost use Rattle.json_text.specs.Value.{IsCompact, Value, Stands};

/// At most one value stands at the front of a text: its compact text and what follows it are
/// determined.
pub fn value_is_unique()
    ensures { (bytes text rest other more : List ℕ)
        → Stands bytes text rest → Stands bytes other more → (text ≡ other) × (rest ≡ more) }
{}

/// A text that is one value is read whole, and its compact text is read as itself.
#[tactic(auto, using(crate::proofs::CompactLaws::read_whole))]
pub fn value_is_read_whole()
    ensures whole { (bytes text : List ℕ) → Value 128 bytes text → Stands bytes text [] }
    ensures compact { (bytes text : List ℕ) → Value 128 bytes text → Stands text text [] }
{}

/// White space outside strings, the spelling of characters and the earlier values of repeated
/// names, at any depth, play no part in the compact text.
#[tactic(auto, using(crate::proofs::CompactLaws::alike_compact, crate::proofs::CompactLaws::alike_stand))]
pub fn spelling_and_earlier_values_play_no_part()
    ensures trees { (tree other : Tree) → AreAlike tree other → compact tree ≡ compact other }
    ensures texts { (tree other : Tree) → IsGood tree → IsGood other → depth tree ≤ 128
        → depth other ≤ 128
        → AreAlike tree other → (text : List ℕ) × Stands (spelling tree) text []
        × Stands (spelling other) text [] }
{}

/// It is decided of a compact text whether it is a string, an array or an object, and whether it
/// nests so deep at most.
pub fn form_is_decided()
    ensures string { (text : List ℕ) → IsCompact 128 text
        → ((string : List ℕ) × IsUtf8 string × (text ≡ quote string))
        ⊎ ((string : List ℕ) → text ≢ quote string) }
    ensures array { (text : List ℕ) → IsCompact 128 text
        → ((items : List (List ℕ)) × AllByRecursion (IsCompact 127) items
        × (text ≡ array_text items))
        ⊎ ((items : List (List ℕ)) → text ≢ array_text items) }
    ensures object { (text : List ℕ) → IsCompact 128 text
        → ((members : List Member) × AreMembers 127 members × (text ≡ object_text members))
        ⊎ ((members : List Member) → text ≢ object_text members) }
    ensures nesting { (text : List ℕ) (limit : ℕ) → IsCompact 128 text → IsCompact limit text
        ⊎ (IsCompact limit text → ⊥) }
{}

/// One text more joins the first occurrences at their end, if it isn't among the texts before.
pub fn one_more_is_last()
    ensures none { first_texts [] ≡ [] }
    ensures one_more { (texts : List (List ℕ)) (text : List ℕ) → first_texts (texts ++ text ∷ [])
        ≡ (if list_any (bytes_eq text) texts then first_texts texts else first_texts texts ++ text
        ∷ []) }
{}

/// The first occurrences are the texts, each once.
pub fn first_occurrences_are_the_texts()
    ensures distinct { (texts : List (List ℕ)) → IsDistinct bytes_eq (first_texts texts) }
    ensures same { (texts : List (List ℕ)) (text : List ℕ)
        → Contains (first_texts texts) text ↔ Contains texts text }
{}

/// Texts that are distinct stay as they are.
pub fn distinct_texts_stay()
    ensures { (texts : List (List ℕ)) → IsDistinct bytes_eq texts → first_texts texts ≡ texts }
{}
