//! Why a choice was not made.

use std::alloc::AllocError;
use term_heap::LoadFault;
use thiserror::Error;

/// Why a choice was not made.
#[derive(Clone, Copy, Debug, PartialEq, Eq, Error)]
pub enum ChoiceFault {
    /// An opaque token is in a term of the choice.
    #[error("an opaque token")]
    Opaque,
    /// Memory was wanting, for this choice or an earlier one.
    #[error("out of memory")]
    NoMemory,
}

impl From<AllocError> for ChoiceFault {
    ghost use Rattle.std.specs.Prelude.{◌≡◌};
    ghost use Rattle.proc_sched.specs.declared.fault.ChoiceFault.TheVariants.{NoMemory};

    ghost from_gives = { λ _ fault. fault ≡ NoMemory };

    fn from(_: AllocError) -> ChoiceFault {
        ChoiceFault::NoMemory
    }
}

impl From<LoadFault> for ChoiceFault {
    ghost use Rattle.proc_sched.specs.Faults.{IsSame};

    ghost from_gives = { IsSame };

    fn from(fault: LoadFault) -> ChoiceFault {
        match fault {
            LoadFault::Opaque => ChoiceFault::Opaque,
            LoadFault::NoMemory => ChoiceFault::NoMemory,
        }
    }
}
