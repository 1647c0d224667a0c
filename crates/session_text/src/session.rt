//! A session.

use crate::event::Event;
use board_base::List;
use scene_file::Scene;

/// A recorded session: replicas that begin with one scene, and what happened then.
pub struct Session {
    /// How many replicas there are.
    pub replicas: u64,
    /// What the nonces are drawn from.
    pub seed: u64,
    /// What all replicas begin with, if it isn't nothing.
    pub scene: Option<Scene>,
    /// The events in their order.
    pub events: List<Event>,
}

// By hand, so that whoever drops a session sees one call and not what it holds.
impl Drop for Session {
    fn drop(self) {
        let Session {
            replicas: _,
            seed: _,
            scene: _scene,
            events: _events,
        } = self;
    }
}
