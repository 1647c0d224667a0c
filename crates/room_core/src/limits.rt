//! How long a room is served, and what ends it.

/// What a room is served up to. Each number is at least 1.
#[derive(Clone, Copy, Debug, PartialEq, Eq, Drop)]
pub struct RoomLimits {
    /// How many links may be opened.
    pub links: u64,
    /// How many times in a row nothing happens before the room ends.
    pub idle: u64,
    /// How many events, other than that nothing happens, are stepped.
    pub events: u64,
}

/// What ended a room.
#[derive(Clone, Copy, Debug, PartialEq, Eq, Drop)]
pub enum ServeEnd {
    /// A link was opened, and none is joined any more.
    AllClosed,
    /// Nothing happened so many times in a row as the limit says.
    Idle,
    /// The links failed; their count of faults tells so.
    LinkFault,
    /// One more link was opened than the limit says. It is not stepped.
    LinksFull,
    /// So many events were stepped as the limit says.
    EventsFull,
    /// Want of memory. The room is as it was after the events that it was stepped by.
    Memory,
}
