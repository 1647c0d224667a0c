//! What a socket was found ready for.

use mio::event::Event;
use std::io::ErrorKind;

/// What a socket was found ready for.
#[derive(Clone, Copy, Debug, Drop)]
pub(crate) struct Signal {
    pub(crate) reads: bool,
    pub(crate) writes: bool,
    /// The peer sends no more.
    pub(crate) ends: bool,
}

impl Signal {
    /// What the system told.
    pub(crate) fn of(event: &Event) -> Signal {
        let ends = event.is_read_closed() || event.is_error();
        Signal {
            reads: event.is_readable() || ends,
            writes: event.is_writable() || ends,
            ends,
        }
    }
}

/// Whether a later call of a socket may go on.
pub(crate) fn may_go_on(kind: ErrorKind) -> bool {
    matches!(kind, ErrorKind::WouldBlock | ErrorKind::Interrupted)
}
