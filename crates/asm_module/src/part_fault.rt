//! Why a part of a form is not read.

use std::alloc::AllocError;

/// Why terms are not read as a part of a form.
#[derive(Clone, Copy)]
pub(crate) enum PartFault {
    /// They are not of the part's shape.
    Shape,
    /// Memory was wanting.
    NoMemory,
}

impl From<AllocError> for PartFault {
    ghost use Rattle.std.specs.Prelude.{◌≡◌};
    ghost use Rattle.asm_module.specs.declared.part_fault.PartFault.TheVariants.{NoMemory};

    ghost from_gives = { λ _ fault. fault ≡ NoMemory };

    fn from(_: AllocError) -> PartFault {
        PartFault::NoMemory
    }
}
