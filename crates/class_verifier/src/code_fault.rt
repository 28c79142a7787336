//! What is wrong with a method's code.

use std::alloc::AllocError;

/// Why the code of a method is not verified: what is wrong first, at an offset in bytes from its beginning, or a want of
/// memory.
#[derive(Clone, Copy, Debug)]
pub(crate) enum CodeFault {
    /// The types before the instruction, behind it or at a frame are not fit.
    NotTyped { offset: u16 },
    /// The instruction calls a method that there is not.
    NotLinked { offset: u16 },
    /// Memory was wanting.
    NoMemory,
}

impl From<AllocError> for CodeFault {
    ghost use Rattle.std.specs.Prelude.{◌≡◌};
    ghost use Rattle.class_verifier.specs.declared.code_fault.CodeFault.TheVariants.{NoMemory};

    ghost from_gives = { λ _ e. e ≡ NoMemory };

    fn from(_: AllocError) -> CodeFault {
        CodeFault::NoMemory
    }
}
