//! Why there is no state after an instruction.

use std::alloc::AllocError;
use thiserror::Error;

/// Why there is no state after an instruction.
#[derive(Debug, Drop, Error)]
pub enum StepFault {
    /// The row of the instruction does not hold from the state before it.
    #[error("no row")]
    NoRow,
    /// Memory was wanting.
    #[error("out of memory")]
    NoMemory,
}

impl From<AllocError> for StepFault {
    ghost use Rattle.std.specs.Prelude.{◌≡◌};
    ghost use Rattle.beam_code.specs.declared.fault.StepFault.TheVariants.{NoMemory};

    ghost from_gives = { λ _ e. e ≡ NoMemory };

    fn from(_: AllocError) -> StepFault {
        StepFault::NoMemory
    }
}
