//! What is wrong with the bytes of a class.

ghost use Rattle.std.specs.Prelude.{◌≡◌};
ghost use Rattle.class_file.specs.Moved.{moved_to};

use std::alloc::AllocError;
use std::fmt;
use thiserror::Error;

/// Why bytes are no class of the profile: the first field that fails, by the offset of its first byte, or a want of
/// memory.
#[derive(Clone, Copy, Debug, PartialEq, Eq, Error)]
pub enum ClassFault {
    /// The bytes end there, or break the format.
    NotClass { offset: usize },
    /// The profile forbids what stands there.
    OutsideProfile { offset: usize },
    /// Memory was wanting.
    NoMemory,
}

/// What is said of the fault: the offset, and what is wrong there.
impl fmt::Display for ClassFault {
    ghost use Rattle.std.specs.Prelude.{Some};
    ghost use Rattle.class_file.specs.Messages.{message};

    ghost output = { λ fault. Some (message fault) };

    fn fmt<W: fmt::Write>(&self, f: &mut fmt::Formatter<W>) -> fmt::Result {
        match self {
            ClassFault::NotClass { offset } => write!(f, "byte {offset}: no class file"),
            ClassFault::OutsideProfile { offset } => {
                write!(f, "byte {offset}: outside the profile")
            }
            ClassFault::NoMemory => write!(f, "out of memory"),
        }
    }
}

impl From<AllocError> for ClassFault {
    ghost use Rattle.std.specs.Prelude.{◌≡◌};
    ghost use Rattle.class_file.specs.declared.fault.ClassFault.TheVariants.{NoMemory};

    ghost from_gives = { λ _ e. e ≡ NoMemory };

    fn from(_: AllocError) -> ClassFault {
        ClassFault::NoMemory
    }
}

impl ClassFault {
    /// The same fault at another offset.
    pub(crate) fn at(self, offset: usize) -> ClassFault
        ensures { result ≡ moved_to offset self }
    {
        match self {
            ClassFault::NotClass { .. } => ClassFault::NotClass { offset },
            ClassFault::OutsideProfile { .. } => ClassFault::OutsideProfile { offset },
            ClassFault::NoMemory => ClassFault::NoMemory,
        }
    }
}
