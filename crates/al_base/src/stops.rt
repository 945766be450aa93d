//! Why a call that reads or writes ended early.
ghost use Rattle.std.specs.Prelude.{◌≡◌};
ghost use Rattle.al_base.specs.declared.stops.Stop.TheVariants.{Memory};

use std::alloc::{AllocError, AllocFailed};
use thiserror::Error;

/// Why a call that reads or writes ended early (S1 to S4).
#[derive(Clone, Copy, PartialEq, Eq, Debug, Error)]
pub enum Stop {
    /// S1: a read failed.
    #[error("read failed")]
    ReadFault,
    /// S2: a write failed, or took none of the bytes.
    #[error("write failed")]
    WriteFault,
    /// S3: memory ran out.
    #[error("out of memory")]
    Memory,
    /// S4: a script took more than 1,048,576 reads.
    #[error("too many reads")]
    TooManyTurns,
}

impl From<AllocError> for Stop {
    ghost from_gives = { λ _ e. e ≡ Memory };

    fn from(_: AllocError) -> Stop {
        Stop::Memory
    }
}

impl<T: Drop> From<AllocFailed<T>> for Stop {
    ghost from_gives = { λ _ e. e ≡ Memory };

    fn from(_: AllocFailed<T>) -> Stop {
        Stop::Memory
    }
}
