//! A replica in a session.

ghost use Rattle.std.specs.Prelude.{◌≡◌, ◌+◌, IfOk, OnOk};
ghost use Rattle.board_commands.specs.Limits.{IsWithinLimits};
ghost use Rattle.session.specs.inner.Standing.{IsActed, SeatStandsFor};
ghost use Rattle.session.specs.Worlds as worlds;
ghost use Rattle.session.specs.Worlds.{change_on, delivered, fresh, holding, turn_by, with_id, without_id};

use crate::counting::sum_of;
use crate::outcome::Outcome;
use board_base::Stop;
use board_commands::{Capture, Command};
use delta::VersionFull;
use effects::Refusal;
use elem::{Element, Stamp};
use history::{Direction, Step};
use json_text::Text;
use replica::Replica;
use std::alloc::{AllocError, Global};

/// A replica, and how many updates it took.
#[derive(Drop)]
pub(crate) struct Seat {
    pub(crate) replica: Replica,
    pub(crate) taken: u64,
}

impl Seat {
    /// A replica that took nothing.
    pub(crate) fn new(alloc: Global) -> Seat
        ensures { SeatStandsFor result fresh }
    {
        Seat {
            replica: Replica::new(alloc),
            taken: 0,
        }
    }

    /// Makes a change.
    pub(crate) fn change(
        &mut self,
        command: &Command,
        capture: Capture,
        stamp: Stamp,
    ) -> Result<Outcome, AllocError>
        requires limits { IsWithinLimits command.now }
        ensures { IfOk result (λ outcome. (s : worlds.Seat) → SeatStandsFor self.old s
            → IsActed (change_on command.now capture stamp.time stamp.nonce s.state) s outcome
            self.new) }
    {
        match self.replica.change(command, capture, stamp) {
            Ok(given) => {
                self.count(given.as_slice().len() as u64)?;
                Ok(Outcome::Given(given))
            }
            Err(Stop::Fault(refusal)) => Ok(Outcome::Refused(Some(refusal))),
            Err(Stop::Memory) => Err(AllocError),
        }
    }

    /// Undoes, or redoes, a step.
    pub(crate) fn turn(&mut self, direction: Direction, stamp: Stamp) -> Result<Outcome, AllocError>
        ensures { IfOk result (λ outcome. (s : worlds.Seat) → SeatStandsFor self.old s
            → IsActed (turn_by direction stamp.time stamp.nonce s.state) s outcome self.new) }
    {
        match self.replica.turn(direction, stamp) {
            Ok(Step::Done(given)) => {
                self.count(given.as_slice().len() as u64)?;
                Ok(Outcome::Given(given))
            }
            Ok(Step::Nothing) => Ok(Outcome::Refused(None)),
            Err(Stop::Fault(VersionFull(id))) => {
                Ok(Outcome::Refused(Some(Refusal::VersionFull(id))))
            }
            Err(Stop::Memory) => Err(AllocError),
        }
    }

    /// Takes what is delivered, but for the held ids.
    pub(crate) fn deliver(&mut self, list: &[Element]) -> Result<(), AllocError>
        ensures { OnOk result ((s : worlds.Seat) → SeatStandsFor self.old s
            → SeatStandsFor self.new (delivered list.now s)) }
    {
        let count = self.replica.deliver(list)?;
        self.count(count)?;
        Ok(())
    }

    /// Holds an id.
    pub(crate) fn hold(&mut self, id: &Text) -> Result<(), AllocError>
        ensures { OnOk result ((s : worlds.Seat) → SeatStandsFor self.old s
            → SeatStandsFor self.new (holding (with_id id.now s.state.held) s)) }
    {
        self.replica.hold(id)?;
        Ok(())
    }

    /// Holds an id no more.
    pub(crate) fn release(&mut self, id: &Text)
        ensures { (s : worlds.Seat) → SeatStandsFor self.old s
            → SeatStandsFor self.new (holding (without_id id.now s.state.held) s) }
    {
        self.replica.release(id)
    }

    /// Counts so many updates more.
    fn count(&mut self, more: u64) -> Result<(), AllocError>
        ensures { OnOk result (self.new ≡ record self.old { taken = self.old.taken + more }) }
    {
        self.taken = sum_of(self.taken, more)?;
        Ok(())
    }
}
