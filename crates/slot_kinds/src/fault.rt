//! Why a function has no slot map.

use std::alloc::AllocError;
use thiserror::Error;

/// Why a function has no slot map.
#[derive(Debug, Drop, Error)]
pub enum SlotFault {
    /// No assignment of slot states to its labels is good.
    #[error("undefined slot")]
    NotSlotted,
    /// Memory was wanting.
    #[error("out of memory")]
    NoMemory,
}

impl From<AllocError> for SlotFault {
    ghost use Rattle.std.specs.Prelude.{◌≡◌};
    ghost use Rattle.slot_kinds.specs.declared.fault.SlotFault.TheVariants.{NoMemory};

    ghost from_gives = { λ _ e. e ≡ NoMemory };

    fn from(_: AllocError) -> SlotFault {
        SlotFault::NoMemory
    }
}
