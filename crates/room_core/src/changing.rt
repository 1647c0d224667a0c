//! Making room for a change of a room, and putting it in place.

ghost use Rattle.std.specs.Prelude.{◌≡◌, ◌-◌, ◌<◌, ◌≤◌, OnOk, vec_capacity, vec_len};
ghost use Rattle.std.specs.List.Sorted.{IsStrictlyIncreasing};
ghost use Rattle.room_core.specs.Rooms.{HaveTaken};
ghost use Rattle.room_core.specs.Planned.{Suffices, joined_by, taken_by};
ghost use Rattle.room_core.specs.inner.Kept.{IsInit};

use crate::joined::{insert_link, remove_links};
use crate::plan::Change;
use crate::told_text::KeptText;
use elem_store::Store;
use std::alloc::AllocError;

/// Makes room for a change. What is stored and joined stays, also for want of memory.
pub(crate) fn reserve_for(
    store: &mut Store,
    joined: &mut Vec<u64>,
    change: &Change,
) -> Result<(), AllocError>
    ensures fits { OnOk result
        (Suffices change.now store.new.spare (vec_capacity joined.new - vec_len joined.new)) }
    ensures elements { store.new.elements ≡ store.old.elements }
    ensures joined { joined.new.items ≡ joined.old.items }
{
    match change {
        Change::Join(_) => joined.reserve(1),
        Change::Take(elements) => store.reserve(elements.as_slice().len()),
        Change::Leave(_) | Change::Unchanged => Ok(()),
    }
}

/// Puts a change in place for which there is room. The text with all stored elements is kept until
/// elements are taken. Does not allocate.
pub(crate) fn put_change(
    store: &mut Store,
    joined: &mut Vec<u64>,
    init: &mut Option<KeptText>,
    change: Change,
)
    requires fits { Suffices change store.old.spare (vec_capacity joined.old - vec_len joined.old) }
    requires rising { IsStrictlyIncreasing joined.old.items }
    requires kept { IsInit init.old store.old.elements }
    ensures elements { HaveTaken store.old.elements (taken_by change) store.new.elements }
    ensures joined { joined.new.items ≡ joined_by joined.old.items change }
    ensures rising { IsStrictlyIncreasing joined.new.items }
    ensures kept { IsInit init.new store.new.elements }
{
    match change {
        Change::Join(link) => insert_link(joined, link),
        Change::Take(elements) => {
            *init = None;
            store.take_all(elements);
        }
        Change::Leave(link) => remove_links(joined, &[link]),
        Change::Unchanged => {}
    }
}
