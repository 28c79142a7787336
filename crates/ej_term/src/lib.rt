//! Erlang terms: which there are, their order and their print, and what tests and builtin functions give.
//!
//! The definitions stand in `specs/`. `Term` has the terms, `Order` their order, `TermPrint` their canonical
//! print, `WellFormed` and `Readable` which of them are of the profile and which prints are read, `Tests` what each
//! test says, and `Builtins` what each builtin function without an effect gives, over a
//! file for each family of them. Their numbers are the places in `TestNumbers` and `BuiltinNumbers`. A source text
//! writes a term as an `AsmTerm`: `AsmValue` has the term that it stands for, and `Print` its own print.
//!
//! A `Text` and an `AsmTerm` hold no capacity and no address that a contract could see, so contracts
//! compare them by `≡`. Both can be copied, compared by `==`, and put in sets: `Same` says when two source terms are equal,
//! and that is where they are `≡`.
//!
//! The functions that do nothing have a law of these definitions, or worked rows of them, as their contract.
#![tactic(auto)]

mod asm_term;
mod builtin;
mod class;
mod equality;
mod laws;
mod test;
mod text;
mod worked;

pub use asm_term::AsmTerm;
pub use builtin::Builtin;
pub use class::Class3;
pub use laws::{opaque_has_no_value, order_is_total, pairs_are_maps, print_is_of_value};
pub use test::Test;
pub use text::Text;
pub use worked::{worked_builtins, worked_order, worked_prints, worked_readable};
