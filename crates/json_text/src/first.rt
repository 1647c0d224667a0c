//! The first occurrence of each text of a list.

ghost use Rattle.std.specs.Prelude.{◌≡◌, IfOk, bytes_eq};
ghost use Rattle.std.specs.List.{IsDistinct};
ghost use Rattle.json_text.specs.FirstOccurrences.{first_texts};

use crate::text::Text;
use indexmap::IndexSet;
use std::alloc::{AllocError, Global};
use std::hash::{BuildHasherDefault, DefaultHasher};

/// Texts in the order in which they came, each once.
type Firsts = IndexSet<Text, BuildHasherDefault<DefaultHasher>>;

/// The texts, each once, in the order in which they first stand. Fails only for want of memory.
pub fn first_occurrences(alloc: Global, texts: &[Text]) -> Result<Vec<Text>, AllocError>
    ensures exact { IfOk result (λ found. found.items ≡ first_texts texts.now) }
    ensures distinct { IfOk result (λ found. IsDistinct bytes_eq found.items) }
{
    let mut found = Firsts::with_hasher(alloc, BuildHasherDefault::new());
    for text in texts {
        found.insert(text.try_clone()?)?;
    }
    found.into_iter().collect(alloc)
}
