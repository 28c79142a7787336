//! Why a text is refused.

use std::alloc::AllocError;
use std::fmt;
use thiserror::Error;

/// Why a file has no row of forms. A form's number is the count of whole forms before it.
#[derive(Clone, Copy, Debug, Error)]
pub enum TextFault {
    /// In that form a character begins no token, or no full stop follows, or no term is spelled.
    BadText { form: usize },
    /// That form has more than 256 tuples, lists and maps open at some place.
    TooDeep { form: usize },
    /// Memory was wanting.
    NoMemory,
}

/// What is said of the fault: the form, and what is wrong with it.
impl fmt::Display for TextFault {
    ghost use Rattle.std.specs.Prelude.{Some};
    ghost use Rattle.asm_terms.specs.Messages.{message};

    ghost output = { λ fault. Some (message fault) };

    fn fmt<W: fmt::Write>(&self, f: &mut fmt::Formatter<W>) -> fmt::Result {
        match self {
            TextFault::BadText { form } => write!(f, "form {form}: bad text"),
            TextFault::TooDeep { form } => write!(f, "form {form}: too deep"),
            TextFault::NoMemory => write!(f, "out of memory"),
        }
    }
}

impl From<AllocError> for TextFault {
    ghost use Rattle.std.specs.Prelude.{◌≡◌};
    ghost use Rattle.asm_terms.specs.declared.fault.TextFault.TheVariants.{NoMemory};

    ghost from_gives = { λ _ fault. fault ≡ NoMemory };

    fn from(_: AllocError) -> TextFault {
        TextFault::NoMemory
    }
}
