//! A room.

ghost use Rattle.std.specs.Prelude.{◌≡◌, [], true, IfOk};
ghost use Rattle.std.specs.List.Sorted.{IsStrictlyIncreasing};
ghost use Rattle.frac_keys.specs.Rising.{are_rising};
ghost use Rattle.elem_store.specs.Updates.{ids_of};
ghost use Rattle.board_ends.specs.declared.links.LinkEvent.{LinkEvent};
ghost use Rattle.room_core.specs.Rooms.{IsRoomStep, without};
ghost use Rattle.room_core.specs.Planned.{IsPlanned, IsChanged, FitsIn, texts_told};

use crate::changing::{put_change, reserve_for};
use crate::joined::remove_links;
use crate::plan::{Plan, Told};
use crate::planning::plan_step;
use crate::told_text::KeptText;
use board_ends::LinkEvent;
use elem_store::Store;
use std::alloc::{AllocError, Global};
use std::marker::Model;

/// A room: what it stores, and its joined links. The text for a link that joins is kept until an
/// update is put.
#[derive(Drop)]
pub struct Room {
    store: Store,
    joined: Vec<u64>,
    init: Option<KeptText>,
}

impl Model for Room {
    ghost use Rattle.std.specs.Prelude.{◌-◌, vec_capacity, vec_len};
    ghost use Rattle.std.specs.List.Sorted.{IsStrictlyIncreasing};
    ghost use Rattle.room_core.specs.Rooms.{RoomStock};
    ghost use Rattle.room_core.specs.inner.Kept.{IsInit};

    ghost Value = { RoomStock };

    ghost view = { λ r. record {
      state = record { elements = r.store.elements; joined = r.joined.items };
      spare_ids = r.store.spare;
      spare_links = vec_capacity r.joined - vec_len r.joined;
    } };

    ghost invariant = { λ r. IsStrictlyIncreasing r.joined.items × IsInit r.init r.store.elements };
}

impl Room {
    /// A room that stores these elements, without links.
    pub fn new(alloc: Global, store: Store) -> Room
        ensures { result.state ≡ record { elements = store.elements; joined = [] } }
    {
        Room {
            store,
            joined: Vec::new(alloc),
            init: None,
        }
    }

    /// Plans the step of one event of the links: what it changes, the text to send and its links,
    /// and its record. What wants memory is made here: there is then room for the change. The room
    /// is as before, also for want of memory.
    pub fn plan(&mut self, event: &LinkEvent) -> Result<Plan, AllocError>
        ensures planned { IfOk result (IsPlanned self.old.state event.now) }
        ensures fits { IfOk result (λ plan. FitsIn plan.change self.new) }
        ensures state { self.new.state ≡ self.old.state }
    {
        let plan = plan_step(&self.store, &self.joined, &mut self.init, event)?;
        reserve_for(&mut self.store, &mut self.joined, &plan.change)?;
        Ok(plan)
    }

    /// Puts a planned step in place, and gives the text to send. Elements are moved into the store.
    /// It takes no memory.
    pub fn put(&mut self, plan: Plan) -> Told
        requires { FitsIn plan.change self.old }
        ensures told { result ≡ plan.told }
        ensures changed { IsChanged self.old.state plan.change self.new.state }

        // What was planned for an event in this room is the step of that event.
        ensures stepped { (event : LinkEvent) → IsPlanned self.old.state event plan
            → IsRoomStep self.old.state event self.new.state (texts_told result) }
    {
        let Plan {
            change,
            told,
            own_record: _own_record,
        } = plan;
        put_change(&mut self.store, &mut self.joined, &mut self.init, change);
        told
    }

    /// Takes links out that are gone. It takes no memory.
    pub fn close_all(&mut self, gone: &[u64])
        ensures { self.new.state ≡ record self.old.state {
          joined =
              without self.old.state.joined gone.now;
        } }
    {
        remove_links(&mut self.joined, gone);
    }

    /// The stored elements. It takes no memory.
    pub fn store(&self) -> &Store
        ensures elements { result.now.elements ≡ self.now.state.elements }
        ensures rising { are_rising (ids_of self.now.state.elements) ≡ true }
    {
        // That the ids rise, a call of the store tells.
        let _count = self.store.len();
        &self.store
    }

    /// The joined links, in rising order. It takes no memory.
    pub fn joined(&self) -> &[u64]
        ensures links { result.now ≡ self.now.state.joined }
        ensures rising { IsStrictlyIncreasing self.now.state.joined }
    {
        self.joined.as_slice()
    }
}
