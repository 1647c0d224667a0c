//! Pasting a clip into a board.

ghost use Rattle.std.specs.Prelude.{◌≡◌, ◌++◌, List as Items, Some, None, Err, IfOk, OnOk, OnErr, length, option_copied, IsTrue};
ghost use Rattle.frac_keys.specs.Between.{keys_between};
ghost use Rattle.json_text.specs.Members.{pairs};
ghost use Rattle.elem.specs.ElementValue.{ElementValue};
ghost use Rattle.index_repair.specs.Keyed.{keyed};
ghost use Rattle.elem_store.specs.Updates.{AreStored};
ghost use Rattle.view.specs.Shown.{live_elements, shown};
ghost use Rattle.file_table.specs.Table.{AreLeastEntries, EntriesNest};
ghost use Rattle.copies.specs.Copies.{copies_of};
ghost use Rattle.board_paste.specs.Pasting.{first_stored, is_stored, last_key, pasted, HasJoinedFiles, IsClipHead};
ghost use Rattle.board_paste.specs.declared.pasting.Exists.{Exists};

use board_base::{List, Stop};
use clips::Clip;
use copies::{copies, keyed_between};
use elem::Element;
use elem_store::Store;
use file_table::Files;
use frac_keys::Key;
use json_text::{Member, Text};
use scene_file::{Head, join};
use std::alloc::{AllocError, Global};
use view::shown_elements;

/// Why a clip isn't pasted: the id that the copy of the element at this place of its array would
/// have is stored.
#[derive(Clone, Copy, Debug, PartialEq, Eq, Drop)]
pub struct Exists {
    pub place: u64,
}

/// Stores copies of a clip's elements, whose keys stand above those of all that is shown, and
/// joins its files to a head. Where it is refused, and for want of memory, the head and the
/// stored elements are as before.
pub fn paste(
    alloc: Global,
    head: &mut Head,
    store: &mut Store,
    clip: &Clip,
    prefix: &Text,
) -> Result<(), Stop<Exists>>
    requires places { length clip.now.places ≡ length clip.now.elements }
    requires files { EntriesNest 126 (pairs clip.now.files) }

    // What is stored of updates is then stored of these with the copies at their end.
    ensures stored { OnOk result ((updates : Items ElementValue)
        → AreStored updates store.old.elements
        → AreStored (updates ++ pasted store.old.elements clip.now.elements prefix.now)
        store.new.elements) }

    ensures head { OnOk result (HasJoinedFiles head.old (pairs clip.now.files) head.new) }
    ensures new { OnOk result (first_stored store.old.elements
        (copies_of clip.now.elements prefix.now) clip.now.places ≡ None) }
    ensures exists { (fault : Exists) → result ≡ Err (Stop.Fault fault)
        → first_stored store.old.elements (copies_of clip.now.elements prefix.now)
        clip.now.places
        ≡ Some fault.place }
    ensures stored_kept { OnErr result (store.new.elements ≡ store.old.elements) }
    ensures head_kept { OnErr result (head.new ≡ head.old) }
{
    let copied = copies(alloc, clip.elements.as_slice(), prefix)?;
    if let Some(place) = first_stored(store, &copied, &clip.places) {
        return Err(Stop::Fault(Exists { place }));
    }
    let pasted = keyed_above(alloc, store, copied)?;
    store.reserve(pasted.as_slice().len())?;
    let own = head_with(alloc, &clip.files)?;
    join(alloc, head, &own)?;
    store.take_all(pasted);
    Ok(())
}

/// The place of the first of these elements whose id is stored.
fn first_stored(store: &Store, elements: &List<Element>, places: &List<u64>) -> Option<u64>
    ensures { result ≡ first_stored store.now.elements elements.now places.now }
{
    for (e, place) in elements.as_slice().iter().zip(places.as_slice()) {
        if is_stored(store, e) {
            return Some(*place);
        }
    }
    None
}

/// Whether the id of an element is stored.
fn is_stored(store: &Store, e: &Element) -> bool
    ensures { result ≡ is_stored store.now.elements e.now }
{
    store.get(&e.id).is_some()
}

/// The elements with keys above the last one of what is shown.
fn keyed_above(
    alloc: Global,
    store: &Store,
    elements: List<Element>,
) -> Result<List<Element>, AllocError>
    ensures { IfOk result (λ new. new ≡ keyed elements
        (keys_between (last_key (shown (live_elements store.now.elements))) None
        (length elements))) }
{
    let shown = shown_elements(alloc, store)?;
    keyed_between(alloc, elements, last_key(&shown), None)
}

/// The key of the last element, if it has one.
fn last_key(elements: &List<Element>) -> Option<&Key>
    ensures { option_copied result ≡ last_key elements.now }
{
    let last = elements.as_slice().last()?;
    index_of(last)
}

/// The key of an element.
fn index_of(e: &Element) -> Option<&Key>
    ensures { option_copied result ≡ e.now.index }
{
    e.index.as_ref()
}

/// The head with these files alone.
fn head_with(alloc: Global, files: &List<Member>) -> Result<Head, AllocError>
    requires { EntriesNest 126 (pairs files.now) }
    ensures { IfOk result (IsClipHead (pairs files.now)) }
{
    Ok(Head {
        source: None,
        app_state: List::new(alloc),
        files: files_of(alloc, files)?,
    })
}

/// The table of files with these entries.
fn files_of(alloc: Global, files: &List<Member>) -> Result<Files, AllocError>
    requires { EntriesNest 126 (pairs files.now) }
    ensures { IfOk result (AreLeastEntries (pairs files.now)) }
{
    let mut table = Files::new(alloc);
    for file in files.as_slice() {
        let copy = file.try_clone()?;
        table.take(copy.name, copy.value)?;
    }
    Ok(table)
}
