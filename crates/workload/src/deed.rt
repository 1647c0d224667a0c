//! What happens in a drill.

ghost use Rattle.std.specs.Prelude.{◌≡◌, ◌<◌, ◌≤◌};
ghost use Rattle.workload.specs.Deeds as deeds;
ghost use Rattle.workload.specs.inner.Draws.{IsDrawn};

use crate::draws::Draws;
use board_commands::{Capture, Side};

/// A command of a drill. Elements are told by their numbers.
#[derive(Clone, Copy)]
pub(crate) enum Order {
    Create(u64),
    SetX(u64, u64),
    SetY(u64, u64),
    Place(u64, u64),
    Bind(Side, u64, u64),
    Label(u64, u64),
    Frame(u64, u64),
    Group(u64, u64),
    Delete(u64),
}

/// An event of a drill.
#[derive(Clone, Copy)]
pub(crate) enum Deed {
    Change {
        at: u64,
        time: u64,
        capture: Capture,
        order: Order,
    },
    Undo {
        at: u64,
        time: u64,
    },
    Redo {
        at: u64,
        time: u64,
    },
    /// Two messages, by their numbers, are delivered.
    Deliver {
        to: u64,
        first: u64,
        last: u64,
    },
}

/// The event of this number, where so many messages were made before it.
#[tactic(auto, unfolding(crate::specs::Deeds::deed_of))]
pub(crate) fn deed_of(number: u64, made: u64, draws: Draws) -> Deed
    requires few { number ≤ 200000 }
    requires some { 0 < number → 0 < made }
    requires within { IsDrawn draws }
    ensures { result ≡ deeds.deed_of number made draws }
{
    let at = draws.at;
    let time = number + 1;
    let row = row_of(number, draws);
    match row {
        0..=13 => Deed::Change {
            at,
            time,
            capture: capture_of(draws.capture),
            order: order_of(row, draws.element, draws.other),
        },
        14 => Deed::Undo { at, time },
        15 => Deed::Redo { at, time },
        _ => Deed::Deliver {
            to: at,
            first: (200 * draws.element + draws.other) % made,
            last: made - 1,
        },
    }
}

/// The row of the table: the first event is of the first one, whatever was drawn.
fn row_of(number: u64, draws: Draws) -> u64
    ensures { result ≡ deeds.row_of number draws }
{
    if number == 0 { 0 } else { draws.row }
}

/// The command of a row, over the elements of these numbers.
fn order_of(row: u64, element: u64, other: u64) -> Order
    ensures { result ≡ deeds.order_of row element other }
{
    match row {
        0..=2 => Order::Create(element),
        3..=5 => Order::SetX(element, other),
        6 => Order::SetY(element, other),
        7 => Order::Place(element, other),
        8 => Order::Bind(Side::Start, element, other),
        9 => Order::Bind(Side::End, element, other),
        10 => Order::Label(element, other),
        11 => Order::Frame(element, other),
        12 => Order::Group(element, other),
        _ => Order::Delete(element),
    }
}

/// How a change goes into the history.
fn capture_of(number: u64) -> Capture
    ensures { result ≡ deeds.capture_of number }
{
    match number {
        0 => Capture::Later,
        1 => Capture::Never,
        _ => Capture::Now,
    }
}

/// How many messages an event makes.
pub(crate) fn messages_of(deed: Deed) -> u64
    ensures { result ≡ deeds.messages_of deed }
{
    match deed {
        Deed::Change { .. } | Deed::Undo { .. } | Deed::Redo { .. } => 1,
        Deed::Deliver { .. } => 0,
    }
}
