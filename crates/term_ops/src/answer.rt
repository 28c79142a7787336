//! What a builtin function gives.

use ej_term::Class3;
use term_heap::TermId;

/// What a builtin function gives (Erlang Reference Manual, "Errors and Error Handling").
#[derive(Clone, Copy, Debug)]
pub enum PureAnswer {
    /// A value.
    Value(TermId),
    /// An exception, in place of a value.
    Raised(Raised),
}

/// An exception that is raised.
#[derive(Clone, Copy, Debug)]
pub struct Raised {
    /// Whether it is an error, an exit or a throw.
    pub class: Class3,
    /// The term that it carries.
    pub reason: TermId,
}
