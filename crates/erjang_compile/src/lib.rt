//! The front of the compiler: from the bytes of a source to a module that is accepted.
//!
//! `accept` answers Ok exactly with the module whose source the bytes are, with the slot map of each of its functions, where
//! it keeps the label rules, each function is well slotted and, if sizes are looked at, all fits into a class file. Else it
//! answers exactly what is wrong first, in the order of these checks.
#![tactic(auto)]

mod checks;
mod fault;
mod literals;
mod sizes;
mod source;

pub use checks::accept;
pub use fault::{Large, SourceFault};
pub use source::Source;
