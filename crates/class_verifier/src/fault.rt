//! What is wrong with a class.

use jvm_code::Class;
use std::alloc::AllocError;
use std::fmt;
use thiserror::Error;

/// Why a class is not verified: what is wrong first, or a want of memory. Methods count from 0, and the first that is at
/// fault is told; offsets are in bytes from the beginning of its code. A method's map comes before its code, and in code
/// the first instruction that is at fault; at one instruction a missing method comes before a type.
#[derive(Clone, Copy, Debug, PartialEq, Eq, Error)]
pub enum VerifyFault {
    /// The `StackMapTable` is no list of frames, a frame stands where no instruction begins, or a frame has more places
    /// than the method.
    BadMap { method: usize },
    /// The types before the instruction are not those that it asks for, or those behind it, or at a frame, are not fit.
    NotTyped { method: usize, offset: u16 },
    /// The instruction calls neither a runtime method nor a method of the class.
    NotLinked { method: usize, offset: u16 },
    /// Memory was wanting.
    NoMemory,
}

/// What is said of the fault: the method and the offset, and what is wrong there.
impl fmt::Display for VerifyFault {
    ghost use Rattle.std.specs.Prelude.{Some};
    ghost use Rattle.class_verifier.specs.Messages.{message};

    ghost output = { λ fault. Some (message fault) };

    fn fmt<W: fmt::Write>(&self, f: &mut fmt::Formatter<W>) -> fmt::Result {
        match self {
            VerifyFault::BadMap { method } => write!(f, "method {method}: bad stack map"),
            VerifyFault::NotTyped { method, offset } => {
                write!(f, "method {method}, offset {offset}: not typed")
            }
            VerifyFault::NotLinked { method, offset } => {
                write!(f, "method {method}, offset {offset}: not linked")
            }
            VerifyFault::NoMemory => write!(f, "out of memory"),
        }
    }
}

impl From<AllocError> for VerifyFault {
    ghost use Rattle.std.specs.Prelude.{◌≡◌};
    ghost use Rattle.class_verifier.specs.declared.fault.VerifyFault.TheVariants.{NoMemory};

    ghost from_gives = { λ _ e. e ≡ NoMemory };

    fn from(_: AllocError) -> VerifyFault {
        VerifyFault::NoMemory
    }
}

/// A class that is not verified, handed back, and why.
#[derive(Debug, Drop)]
pub struct Refused {
    pub class: Class,
    pub fault: VerifyFault,
}
