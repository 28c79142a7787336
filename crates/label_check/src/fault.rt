//! What is wrong with labels.

use std::alloc::AllocError;
use std::fmt;
use thiserror::Error;

/// Why a module does not keep the label rules: the first break of one in the order of its text, or a want of memory.
/// Functions, and the instructions of one, are counted from 0; what is wrong with a function's beginning stands before
/// its instructions, and in one instruction a missing label before its arguments.
#[derive(Debug, Drop, Error)]
pub enum LabelFault {
    /// The label is defined a second time in the module.
    Twice {
        label: u32,
    },
    /// The instruction names a label that its function does not define, or, where it calls a function of the module or
    /// makes a fun, one that is no function's entry.
    Missing {
        func: usize,
        index: usize,
        label: u32,
    },
    /// The function does not begin with a label, at most one `line`, its `func_info` and its entry label.
    BadEntry {
        func: usize,
    },
    /// A call has another number of arguments than what it calls, or a fun more free variables than its function
    /// takes arguments.
    BadArity {
        func: usize,
        index: usize,
    },
    /// Memory was wanting.
    NoMemory,
}

/// What is said of the fault: the label, function or instruction, and what is wrong with it.
impl fmt::Display for LabelFault {
    ghost use Rattle.std.specs.Prelude.{Some};
    ghost use Rattle.label_check.specs.Messages.{message};

    ghost output = { λ fault. Some (message fault) };

    fn fmt<W: fmt::Write>(&self, f: &mut fmt::Formatter<W>) -> fmt::Result {
        match self {
            LabelFault::Twice { label } => write!(f, "label {label}: defined twice"),
            LabelFault::Missing { func, index, label } => {
                write!(
                    f,
                    "function {func}, instruction {index}: label {label} missing"
                )
            }
            LabelFault::BadEntry { func } => write!(f, "function {func}: bad entry"),
            LabelFault::BadArity { func, index } => {
                write!(f, "function {func}, instruction {index}: bad arity")
            }
            LabelFault::NoMemory => write!(f, "out of memory"),
        }
    }
}

impl From<AllocError> for LabelFault {
    ghost use Rattle.std.specs.Prelude.{◌≡◌};
    ghost use Rattle.label_check.specs.declared.fault.LabelFault.TheVariants.{NoMemory};

    ghost from_gives = { λ _ e. e ≡ NoMemory };

    fn from(_: AllocError) -> LabelFault {
        LabelFault::NoMemory
    }
}
