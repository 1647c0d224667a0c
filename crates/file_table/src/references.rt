//! The files that elements name.

ghost use Rattle.std.specs.Prelude.{◌≡◌, IfOk, filter_map};
ghost use Rattle.json_text.specs.Members.{pairs};
ghost use Rattle.file_table.specs.References as specs;
ghost use Rattle.file_table.specs.References.{file_of};

use crate::table::{Entries, entry_of};
use elem::Element;
use json_text::{Member, Text};
use std::alloc::{AllocError, Global};

/// The ids of files that elements name, in the order of the elements.
pub(crate) fn references(alloc: Global, list: &[Element]) -> Result<Vec<Text>, AllocError>
    ensures { IfOk result (λ ids. ids.items ≡ specs.references list.now) }
{
    let mut ids = Vec::new(alloc);
    for e in list {
        if let Some(id) = file_of(e)? {
            ids.push(id)?;
        }
    }
    Ok(ids)
}

/// The id of the file that an element names, if it names one.
fn file_of(e: &Element) -> Result<Option<Text>, AllocError>
    ensures { IfOk result (λ id. id ≡ e.now.file) }
{
    e.file.as_ref().map(Text::try_clone).transpose()
}

/// The files of these ids that are there.
pub(crate) fn found(
    alloc: Global,
    entries: &Entries,
    ids: Vec<Text>,
) -> Result<Vec<Member>, AllocError>
    ensures { IfOk result (λ members. pairs members.items
        ≡ filter_map (file_of entries.now.entries) ids.items) }
{
    let mut members = Vec::new(alloc);
    for id in ids {
        if let Some(entry) = entry_of(entries, &id) {
            let value = entry.try_clone()?;
            members.push(Member { name: id, value })?;
        }
    }
    Ok(members)
}
