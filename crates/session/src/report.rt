//! The report of a session.

use board_base::{Bytes, List};
use effects::Refusal;
use replica::Replica;

/// What came of a session.
pub struct Report {
    /// Of each replica, in their order.
    pub replicas: List<ReplicaReport>,
    /// How many messages were made.
    pub messages: u64,
    /// The events that were refused, in their order.
    pub refused: List<RefusedEvent>,
    /// How many elements of the scene and of messages have the id, version and nonce of an earlier
    /// one and aren't the same.
    pub clashes: u64,
}

// By hand, so that whoever drops a report sees one call and not what it holds.
impl Drop for Report {
    fn drop(self) {
        let Report {
            replicas: _replicas,
            messages: _,
            refused: _refused,
            clashes: _,
        } = self;
    }
}

/// What came of a replica.
pub struct ReplicaReport {
    /// The replica after the last event.
    pub replica: Replica,
    /// The compact text of the scene that it shows.
    pub scene: Bytes,
    /// How many updates it took.
    pub taken: u64,
    /// How many elements it stores.
    pub stored: u64,
    /// How many of these aren't deleted.
    pub live: u64,
    /// How many entries can be undone.
    pub undo: u64,
    /// How many entries can be redone.
    pub redo: u64,
}

// By hand, so that whoever drops a replica report sees one call and not what it holds.
impl Drop for ReplicaReport {
    fn drop(self) {
        let ReplicaReport {
            replica: _replica,
            scene: _scene,
            taken: _,
            stored: _,
            live: _,
            undo: _,
            redo: _,
        } = self;
    }
}

/// An event that was refused.
#[derive(Drop)]
pub struct RefusedEvent {
    /// Its number: events are counted from 0.
    pub event: u64,
    /// Why; nothing where there was nothing to undo or to redo.
    pub why: Option<Refusal>,
}
