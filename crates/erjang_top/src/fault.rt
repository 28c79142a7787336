//! Why a command is not done.

use class_file::ClassFault;
use class_verifier::VerifyFault;
use erjang_compile::SourceFault;
use std::alloc::AllocError;

/// Why a source has no class, or a class is not verified.
#[derive(Drop)]
pub(crate) enum Fault {
    /// There is no file of that name.
    Absent,
    /// There is one, with too many bytes.
    Longer,
    /// The file could not be read.
    ReadFailed,
    /// The source is refused.
    Refused(SourceFault),
    /// The source is accepted, and that instruction of that function, both from 0, is not compiled so far.
    NotBuilt { func: usize, index: usize },
    /// Its module has the name of an earlier file's, which stands at that place from 1.
    SameModule { earlier: usize },
    /// The bytes are no class of the profile.
    Class(ClassFault),
    /// The class is not verified.
    Code(VerifyFault),
    /// Memory was wanting.
    NoMemory,
}

impl From<AllocError> for Fault {
    ghost use Rattle.std.specs.Prelude.{◌≡◌};
    ghost use Rattle.erjang_top.specs.declared.fault.Fault.TheVariants.{NoMemory};

    ghost from_gives = { λ _ fault. fault ≡ NoMemory };

    fn from(_: AllocError) -> Fault {
        Fault::NoMemory
    }
}

/// Why a command stopped.
#[derive(Drop)]
pub(crate) enum Stopped<'a> {
    /// The file of that name is refused, or could not be read, or memory was wanting for it.
    At(&'a str, Fault),
    /// A class could not be put, or a line not be written.
    WriteFailed,
    /// Memory was wanting.
    NoMemory,
}

impl<'a> From<AllocError> for Stopped<'a> {
    ghost use Rattle.std.specs.Prelude.{◌≡◌};
    ghost use Rattle.erjang_top.specs.declared.fault.Stopped.TheVariants.{NoMemory};

    ghost from_gives = { λ _ stopped. stopped ≡ NoMemory };

    fn from(_: AllocError) -> Stopped<'a> {
        Stopped::NoMemory
    }
}

impl From<SourceFault> for Fault {
    ghost use Rattle.std.specs.Prelude.{◌≡◌};
    ghost use Rattle.erjang_top.specs.Work.{fault_of_source};

    ghost from_gives = { λ source fault. fault ≡ fault_of_source source };

    fn from(source: SourceFault) -> Fault {
        match source {
            SourceFault::NoMemory => Fault::NoMemory,
            refused => Fault::Refused(refused),
        }
    }
}

impl From<ClassFault> for Fault {
    ghost use Rattle.std.specs.Prelude.{◌≡◌};
    ghost use Rattle.erjang_top.specs.VerifyWork.{fault_of_class};

    ghost from_gives = { λ class fault. fault ≡ fault_of_class class };

    fn from(class: ClassFault) -> Fault {
        match class {
            ClassFault::NoMemory => Fault::NoMemory,
            refused => Fault::Class(refused),
        }
    }
}

impl From<VerifyFault> for Fault {
    ghost use Rattle.std.specs.Prelude.{◌≡◌};
    ghost use Rattle.erjang_top.specs.VerifyWork.{fault_of_code};

    ghost from_gives = { λ code fault. fault ≡ fault_of_code code };

    fn from(code: VerifyFault) -> Fault {
        match code {
            VerifyFault::NoMemory => Fault::NoMemory,
            refused => Fault::Code(refused),
        }
    }
}
