//! The inverse of a part.

ghost use Rattle.std.specs.Prelude.{◌≡◌, map};
ghost use Rattle.delta.specs.Parts.{inverted, inverse, inverses};

use crate::change::Change;
use crate::part::{Entry, Part};
use board_base::List;
use elem::Kind;
use json_text::Text;
use std::alloc::Global;

/// The part with before and after exchanged in each change. It takes no memory.
pub fn invert(part: Part) -> Part
    ensures { result ≡ inverse part }
{
    let Part { id, kind, changes } = part;
    let mut changes = changes.into_vec();
    let alloc = *changes.allocator();
    for change in changes.iter_mut() {
        exchange(alloc, change);
    }
    Part {
        id,
        kind,
        changes: List::from_vec(changes),
    }
}

/// The entry with each of its parts inverted. It takes no memory.
pub fn invert_entry(entry: Entry) -> Entry
    ensures { result ≡ inverses entry }
{
    let mut parts = entry.parts.into_vec();
    let alloc = *parts.allocator();
    for part in parts.iter_mut() {
        turn(alloc, part);
    }
    Entry {
        parts: List::from_vec(parts),
    }
}

/// Inverts a part in its place.
fn turn(alloc: Global, part: &mut Part)
    ensures { part.new ≡ inverse part.old }
{
    let nothing = Part {
        id: Text::fixed(""),
        kind: Kind::Rectangle,
        changes: List::new(alloc),
    };
    *part = invert(std::mem::replace(part, nothing));
}

/// Exchanges before and after in a change.
fn exchange(alloc: Global, change: &mut Change)
    ensures { change.new ≡ inverted change.old }
{
    let nothing = Change::Groups {
        before: List::new(alloc),
        after: List::new(alloc),
    };
    *change = exchanged(std::mem::replace(change, nothing));
}

/// The change with before and after exchanged.
fn exchanged(change: Change) -> Change
    ensures { result ≡ inverted change }
{
    match change {
        Change::Scalar {
            name,
            before,
            after,
        } => Change::Scalar {
            name,
            before: after,
            after: before,
        },
        Change::Groups { before, after } => Change::Groups {
            before: after,
            after: before,
        },
        Change::Bound { before, after } => Change::Bound {
            before: after,
            after: before,
        },
    }
}
