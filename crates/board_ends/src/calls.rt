//! Calls that are numbered from 0, some of which are listed.

ghost use Rattle.std.specs.Prelude.{◌≡◌};
ghost use Rattle.board_ends.specs.CallNumbers.{from_first, is_listed, after_call};

use board_base::List;
use std::marker::Model;

/// The number of the next call, and the numbers that are listed.
#[derive(Drop)]
pub struct Calls {
    next: Option<u64>,
    listed: List<u64>,
}

impl Model for Calls {
    ghost use Rattle.board_ends.specs.CallNumbers.{CallNumbers};

    ghost Value = { CallNumbers };

    ghost view = { λ c. record { next = c.next; listed = c.listed } };
}

impl Calls {
    /// Before the first call.
    pub fn new(listed: List<u64>) -> Calls
        ensures { result ≡ from_first listed }
    {
        Calls {
            next: Some(0),
            listed,
        }
    }

    /// Whether the next call is listed.
    pub fn is_listed(&self) -> bool
        ensures { result ≡ is_listed self.now }
    {
        match self.next {
            Some(number) => self.listed.as_slice().contains(&number),
            None => false,
        }
    }

    /// Goes on to the call after the next one.
    pub fn advance(&mut self)
        ensures { self.new ≡ after_call self.old }
    {
        self.next = match self.next {
            Some(number) => number.checked_add(1),
            None => None,
        };
    }
}
