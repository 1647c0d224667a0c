//! The texts of all that is stored.

ghost use Rattle.std.specs.Prelude.{◌≡◌, ◌++◌, map, OnOk, OnErr};
ghost use Rattle.std.specs.List.{join_with_byte};
ghost use Rattle.json_text.specs.Appending.{Extends};
ghost use Rattle.elem.specs.Texts.{element_text};

use crate::store::Store;
use elem::push_element;
use json_text::whole_or_cut;
use scene_json::push_comma;
use std::alloc::AllocError;

/// Appends the texts of all stored elements, in the order of their ids, with commas between them.
/// For want of memory nothing is appended.
pub fn push_stored(out: &mut Vec<u8>, store: &Store) -> Result<(), AllocError>
    ensures text { OnOk result (out.new.items
        ≡ out.old.items ++ join_with_byte 44 (map element_text store.now.elements)) }
    ensures err { OnErr result (out.new.items ≡ out.old.items) }
{
    let start = out.len();
    let appended = push_stored_parts(out, store);
    whole_or_cut(out, start, appended)
}

/// Appends the texts of all stored elements. After want of memory a part of them may stand there.
fn push_stored_parts(out: &mut Vec<u8>, store: &Store) -> Result<(), AllocError>
    ensures text { OnOk result (out.new.items
        ≡ out.old.items ++ join_with_byte 44 (map element_text store.now.elements)) }
    ensures kept { OnErr result (Extends out.old.items out.new.items) }
{
    for i in 0..store.len() {
        if let Some(e) = store.at(i) {
            push_comma(out, i)?;
            push_element(out, e)?;
        }
    }
    Ok(())
}
