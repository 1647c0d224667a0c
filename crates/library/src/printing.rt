//! The text of a library.

ghost use Rattle.std.specs.Prelude.{◌≡◌, ◌++◌, IfOk, OnOk};
ghost use Rattle.library.specs.Items.{item_text};
ghost use Rattle.library.specs.inner.Printing.{name_text, status_text, text_before_name};
ghost use Rattle.library.specs.Items as items;

use crate::item::Item;
use crate::shelf::Shelf;
use board_base::Bytes;
use elem::push_elements;
use json_text::{Text, push_quote};
use scene_json::push_whole;
use std::alloc::{AllocError, Global};

/// The text of the library of a shelf's items, by rising id. Fails only for want of memory.
pub fn library_text(alloc: Global, shelf: &Shelf) -> Result<Bytes, AllocError>
    ensures { IfOk result (λ text. text ≡ items.library_text shelf.now) }
{
    let mut out = Vec::new(alloc);
    out.extend_from_slice(b"{\"type\":\"excalidrawlib\",\"version\":2,\"libraryItems\":[")?;
    shelf.push_items(&mut out)?;
    out.extend_from_slice(b"]}")?;
    Ok(Bytes::from_vec(out))
}

/// Appends the text of an item. After want of memory a part of it may stand there.
pub(crate) fn push_item(out: &mut Vec<u8>, item: &Item) -> Result<(), AllocError>
    ensures { OnOk result (out.new.items ≡ out.old.items ++ item_text item.now) }
{
    push_front(out, &item.id, item.published, item.created)?;
    push_name(out, &item.name)?;
    out.extend_from_slice(b",\"elements\":[")?;
    push_elements(out, item.elements.as_slice())?;
    out.extend_from_slice(b"]}")?;
    Ok(())
}

/// Appends the members before the name.
fn push_front(out: &mut Vec<u8>, id: &Text, published: bool, created: u64) -> Result<(), AllocError>
    ensures { OnOk result (out.new.items ≡ out.old.items
        ++ text_before_name id.now published created) }
{
    out.extend_from_slice(b"{\"id\":")?;
    push_quote(out, id)?;
    push_status(out, published)?;
    out.extend_from_slice(b",\"created\":")?;
    push_whole(out, created)
}

/// Appends the member that tells whether an item is published, behind a comma.
fn push_status(out: &mut Vec<u8>, published: bool) -> Result<(), AllocError>
    ensures { OnOk result (out.new.items ≡ out.old.items ++ status_text published) }
{
    if published {
        out.extend_from_slice(b",\"status\":\"published\"")
    } else {
        out.extend_from_slice(b",\"status\":\"unpublished\"")
    }
}

/// Appends the member with the name behind a comma, or nothing where there is none.
fn push_name(out: &mut Vec<u8>, name: &Option<Text>) -> Result<(), AllocError>
    ensures { OnOk result (out.new.items ≡ out.old.items ++ name_text name.now) }
{
    match name {
        Some(name) => {
            out.extend_from_slice(b",\"name\":")?;
            push_quote(out, name)
        }
        None => Ok(()),
    }
}
