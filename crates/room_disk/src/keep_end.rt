//! What ends a durable room.

ghost use Rattle.std.specs.Prelude.{◌≡◌};
ghost use Rattle.room_disk.specs.Keeping as keeping;

use room_core::ServeEnd;

/// What ended a durable room.
#[derive(Clone, Copy, Debug, PartialEq, Eq, Drop)]
pub enum KeepEnd {
    /// A link was opened, and none is joined any more.
    AllClosed,
    /// Nothing happened so many times in a row as the limit says.
    Idle,
    /// The links failed; their count of faults tells so.
    LinkFault,
    /// One more link was opened than the limit says. It is not stepped.
    LinksFull,
    /// So many events were stepped as the limit says.
    EventsFull,
    /// The journal failed; its count of faults tells so. The event whose record was to be kept is
    /// not stepped.
    JournalFault,
    /// Want of memory. The room is as it was after the events that it was stepped by.
    Memory,
}

/// The end of a durable room that is ended by what ends every room.
pub(crate) fn keep_end(end: ServeEnd) -> KeepEnd
    ensures { result ≡ keeping.keep_end end }
{
    match end {
        ServeEnd::AllClosed => KeepEnd::AllClosed,
        ServeEnd::Idle => KeepEnd::Idle,
        ServeEnd::LinkFault => KeepEnd::LinkFault,
        ServeEnd::LinksFull => KeepEnd::LinksFull,
        ServeEnd::EventsFull => KeepEnd::EventsFull,
        ServeEnd::Memory => KeepEnd::Memory,
    }
}
