//! Arrays of texts.

ghost use Rattle.std.specs.Prelude.{◌≡◌, ℕ, List as Items, map, IfOk};
ghost use Rattle.std.specs.List.{AllByRecursion};
ghost use Rattle.std.specs.Str.{IsUtf8};
ghost use Rattle.json_text.specs.Characters.{quote};
ghost use Rattle.json_text.specs.Compact.{array_text};
ghost use Rattle.scene_json.specs.TheOne.{IsTheOne};

use crate::named::shaped;
use crate::parts::{items, text_of};
use board_base::List;
use json_text::{Raw, Text};
use std::alloc::{AllocError, Global};

/// The texts that the value is an array of, if it is one of texts alone.
pub fn texts_of(alloc: Global, value: &Raw) -> Result<Option<List<Text>>, AllocError>
    ensures { IfOk result (IsTheOne
        (λ (texts : Items (Items ℕ)). AllByRecursion IsUtf8 texts
        × (value.now ≡ array_text (map quote texts)))) }
{
    let Some(items) = shaped(items(alloc, value))? else {
        return Ok(None);
    };
    let mut texts = Vec::new(alloc);
    for item in items.as_slice() {
        match shaped(text_of(alloc, item))? {
            Some(text) => texts.push(text)?,
            None => return Ok(None),
        }
    }
    Ok(Some(List::from_vec(texts)))
}
