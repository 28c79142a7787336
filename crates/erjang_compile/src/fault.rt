//! Why a source is refused.

use asm_module::FormFault;
use asm_terms::TextFault;
use label_check::LabelFault;
use std::alloc::AllocError;
use std::fmt;
use thiserror::Error;

/// What is too large of a module. Functions, and the instructions of one, are counted from 0.
#[derive(Clone, Copy, Debug, Error)]
pub enum Large {
    /// The function weighs so much, which is more than 32,767.
    Function {
        func: usize,
        weight: u64,
    },
    /// The constants of the module weigh so much, which is more than 65,534.
    Pool {
        weight: u64,
    },
    /// The canonical print of a literal of that instruction has so many bytes, which are more than 65,535.
    Literal {
        func: usize,
        index: usize,
        bytes: u64,
    },
}

/// What is wrong first with a source, or that memory was wanting. Functions are counted from 0.
#[derive(Debug, Drop, Error)]
pub enum SourceFault {
    /// A form of the text does not read.
    Text(TextFault),
    /// The forms are those of no module.
    Form(FormFault),
    /// A label rule is broken.
    Label(LabelFault),
    /// No assignment of slot states to the labels of that function is good.
    NotSlotted { func: usize },
    /// A function, the constants or a literal of the module is too large.
    TooLarge(Large),
    /// Memory was wanting, in whichever check: no other fault here says so.
    NoMemory,
}

/// What is said of the size: what is too large, how large it is, and how large it may be.
impl fmt::Display for Large {
    ghost use Rattle.std.specs.Prelude.{Some};
    ghost use Rattle.erjang_compile.specs.Messages.{large_message};

    ghost output = { λ large. Some (large_message large) };

    fn fmt<W: fmt::Write>(&self, f: &mut fmt::Formatter<W>) -> fmt::Result {
        match self {
            Large::Function { func, weight } => {
                write!(f, "function {func}: weight {weight} above 32767")
            }
            Large::Pool { weight } => write!(f, "pool weight {weight} above 65534"),
            Large::Literal { func, index, bytes } => {
                write!(
                    f,
                    "function {func}, instruction {index}: literal of {bytes} bytes above 65535"
                )
            }
        }
    }
}

/// What is said of the fault: its place, and what is wrong there.
impl fmt::Display for SourceFault {
    ghost use Rattle.std.specs.Prelude.{Some};
    ghost use Rattle.erjang_compile.specs.Messages.{message};

    ghost output = { λ fault. Some (message fault) };

    fn fmt<W: fmt::Write>(&self, f: &mut fmt::Formatter<W>) -> fmt::Result {
        match self {
            SourceFault::Text(fault) => write!(f, "{fault}"),
            SourceFault::Form(fault) => write!(f, "{fault}"),
            SourceFault::Label(fault) => write!(f, "{fault}"),
            SourceFault::NotSlotted { func } => write!(f, "function {func}: undefined slot"),
            SourceFault::TooLarge(large) => write!(f, "{large}"),
            SourceFault::NoMemory => write!(f, "out of memory"),
        }
    }
}

impl From<AllocError> for SourceFault {
    ghost use Rattle.std.specs.Prelude.{◌≡◌};
    ghost use Rattle.erjang_compile.specs.declared.fault.SourceFault.TheVariants.{NoMemory};

    ghost from_gives = { λ _ fault. fault ≡ NoMemory };

    fn from(_: AllocError) -> SourceFault {
        SourceFault::NoMemory
    }
}

impl From<TextFault> for SourceFault {
    ghost use Rattle.std.specs.Prelude.{◌≡◌};
    ghost use Rattle.erjang_compile.specs.Raised.{of_text};

    ghost from_gives = { λ text fault. fault ≡ of_text text };

    fn from(text: TextFault) -> SourceFault {
        match text {
            TextFault::NoMemory => SourceFault::NoMemory,
            told => SourceFault::Text(told),
        }
    }
}

impl From<FormFault> for SourceFault {
    ghost use Rattle.std.specs.Prelude.{◌≡◌};
    ghost use Rattle.erjang_compile.specs.Raised.{of_forms};

    ghost from_gives = { λ forms fault. fault ≡ of_forms forms };

    fn from(forms: FormFault) -> SourceFault {
        match forms {
            FormFault::NoMemory => SourceFault::NoMemory,
            told => SourceFault::Form(told),
        }
    }
}

impl From<LabelFault> for SourceFault {
    ghost use Rattle.std.specs.Prelude.{◌≡◌};
    ghost use Rattle.erjang_compile.specs.Raised.{of_labels};

    ghost from_gives = { λ labels fault. fault ≡ of_labels labels };

    fn from(labels: LabelFault) -> SourceFault {
        match labels {
            LabelFault::NoMemory => SourceFault::NoMemory,
            told => SourceFault::Label(told),
        }
    }
}
