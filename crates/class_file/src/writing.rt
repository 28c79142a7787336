//! Writes a class (JVMS SE 7, 4.1).

ghost use Rattle.std.specs.Prelude.{ℕ, List};
ghost use Rattle.class_file.specs.Written.{Writes, WritesAgain};

use crate::again::reads_as;
use crate::spelling::spell;
use jvm_code::Class;
use std::alloc::{AllocError, Global};
use thiserror::Error;

/// Why there are no bytes of a class.
#[derive(Clone, Copy, Debug, PartialEq, Eq, Error)]
pub enum WriteFault {
    /// No bytes have that class.
    #[error("no class of the profile")]
    NoProfile,
    /// Memory was wanting.
    #[error("out of memory")]
    NoMemory,
}

impl From<AllocError> for WriteFault {
    ghost use Rattle.std.specs.Prelude.{◌≡◌};
    ghost use Rattle.class_file.specs.declared.writing.WriteFault.TheVariants.{NoMemory};

    ghost from_gives = { λ _ e. e ≡ NoMemory };

    fn from(_: AllocError) -> WriteFault {
        WriteFault::NoMemory
    }
}

/// The bytes of the class, of which there is one string at most: the class is read from them again, and the bytes that a
/// class was read from are written again. Where no bytes have that class it is none of the profile.
pub fn write(alloc: Global, class: &Class) -> Result<Vec<u8>, WriteFault>
    ensures written { Writes class.now result }
    ensures again { (bytes : List ℕ) → WritesAgain bytes class.now result }
{
    let bytes = spell(alloc, class)?;
    if reads_as(alloc, bytes.as_slice(), class)? {
        return Ok(bytes);
    }
    Err(WriteFault::NoProfile)
}
