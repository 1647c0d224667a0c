//! Why a call stopped: by a fault of its own, or for want of memory.

use std::alloc::{AllocError, AllocFailed};

/// Why a call stopped. A fault is never want of memory.
#[derive(Clone, Copy, Debug, PartialEq, Eq, Drop)]
pub enum Stop<F> {
    /// A fault that the call's contract names.
    Fault(F),
    /// Want of memory.
    Memory,
}

impl<F> From<AllocError> for Stop<F> {
    ghost use Rattle.std.specs.Prelude.{◌≡◌};
    ghost use Rattle.board_base.specs.declared.stop.Stop.TheVariants.{Memory};

    ghost from_gives = { λ _ stop. stop ≡ Memory };

    fn from(_error: AllocError) -> Stop<F> {
        Stop::Memory
    }
}

impl<F, T: Drop> From<AllocFailed<T>> for Stop<F> {
    ghost use Rattle.std.specs.Prelude.{◌≡◌};
    ghost use Rattle.board_base.specs.declared.stop.Stop.TheVariants.{Memory};

    ghost from_gives = { λ _ stop. stop ≡ Memory };

    fn from(_error: AllocFailed<T>) -> Stop<F> {
        Stop::Memory
    }
}

impl<F, T: Drop> From<(T, AllocError)> for Stop<F> {
    ghost use Rattle.std.specs.Prelude.{◌≡◌};
    ghost use Rattle.board_base.specs.declared.stop.Stop.TheVariants.{Memory};

    ghost from_gives = { λ _ stop. stop ≡ Memory };

    fn from(_error: (T, AllocError)) -> Stop<F> {
        Stop::Memory
    }
}
