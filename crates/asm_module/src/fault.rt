//! What is wrong with forms.

use ej_term::Text;
use std::alloc::AllocError;
use std::fmt;
use thiserror::Error;

/// Why forms stand for no module: the first fault in their order, or a want of memory. Forms, functions and the
/// instructions of a function are counted from 0.
#[derive(Debug, Drop, Error)]
pub enum FormFault {
    /// The form breaks the order of the forms, is not of its shape, or begins a function that an earlier one
    /// begins; one that is missing is told at the form in its place, or at the count of forms.
    BadForm {
        form: usize,
    },
    /// The instruction is none of the profile, holds an opaque token, a pid or a reference, or names a test or a
    /// builtin that is none of the profile; `name` is the instruction's, or in the last case the test's or builtin's.
    OutsideProfile {
        func: usize,
        index: usize,
        name: Text,
    },
    /// The form is no instruction, or its operands fit no row of its name.
    BadInstruction {
        func: usize,
        index: usize,
    },
    /// Memory was wanting.
    NoMemory,
}

/// What is said of the fault: the form or the instruction, and what is wrong with it.
impl fmt::Display for FormFault {
    ghost use Rattle.std.specs.Prelude.{Some};
    ghost use Rattle.asm_module.specs.Messages.{message};

    ghost output = { λ fault. Some (message fault) };

    fn fmt<W: fmt::Write>(&self, f: &mut fmt::Formatter<W>) -> fmt::Result {
        match self {
            FormFault::BadForm { form } => write!(f, "form {form}: bad form"),
            FormFault::OutsideProfile { func, index, name } => {
                let name = name.as_str();
                write!(
                    f,
                    "function {func}, instruction {index}: {name} outside the profile"
                )
            }
            FormFault::BadInstruction { func, index } => {
                write!(f, "function {func}, instruction {index}: bad instruction")
            }
            FormFault::NoMemory => write!(f, "out of memory"),
        }
    }
}

impl From<AllocError> for FormFault {
    ghost use Rattle.std.specs.Prelude.{◌≡◌};
    ghost use Rattle.asm_module.specs.declared.fault.FormFault.TheVariants.{NoMemory};

    ghost from_gives = { λ _ e. e ≡ NoMemory };

    fn from(_: AllocError) -> FormFault {
        FormFault::NoMemory
    }
}
