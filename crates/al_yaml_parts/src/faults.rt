//! Why reading ends early.

ghost use Rattle.al_yaml_parts.specs.declared.faults.ReadError.TheVariants.{Fault, Memory};
ghost use Rattle.al_yaml_parts.specs.Reads.{IsStopInside};
ghost use Rattle.std.specs.Prelude.{ℕ, ◌≡◌, ◌≤◌};

use al_base::YamlCode;
use al_scalar::FaultAt;
use std::alloc::{AllocError, AllocFailed};

/// Why reading ended early.
#[derive(Clone, Copy)]
pub enum ReadError {
    Fault(FaultAt),
    Memory,
}

impl ReadError {
    /// A fault at an offset.
    pub fn at(code: YamlCode, at: usize) -> ReadError
        ensures is { result ≡ Fault (record { code = code; at = at }) }
        ensures inside { (size : ℕ) → at ≤ size → IsStopInside size result }
    {
        ReadError::Fault(FaultAt { code, at })
    }
}

impl From<FaultAt> for ReadError {
    ghost from_gives = { λ f e. e ≡ Fault f };

    fn from(fault: FaultAt) -> ReadError {
        ReadError::Fault(fault)
    }
}

impl From<AllocError> for ReadError {
    ghost from_gives = { λ _ e. e ≡ Memory };

    fn from(_: AllocError) -> ReadError {
        ReadError::Memory
    }
}

impl<T: Drop> From<AllocFailed<T>> for ReadError {
    ghost from_gives = { λ _ e. e ≡ Memory };

    fn from(_: AllocFailed<T>) -> ReadError {
        ReadError::Memory
    }
}
