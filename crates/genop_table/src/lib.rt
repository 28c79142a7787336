//! The tables of the profile: the instructions of BEAM code, the tests and the builtin functions, each with its
//! number (OTP 24, `genop.tab`, `bif.tab`).
//!
//! The tables are data: a row is added at one place, and what differs between rows stands in the row. That no two
//! rows have the same name and arity, or the same number, is proved over each whole table, so a look-up is exact
//! over all names.
#![tactic(auto)]

pub mod builtins;
mod genop;
pub mod instructions;
mod part;
pub mod tests;

pub use builtins::{
    BuiltinRow, Conduct, Standing, builtin, builtin_row, guard, is_guard_name, returns,
};
pub use genop::Genop;
pub use instructions::{InstructionRow, instruction, row, shape, spelling};
pub use part::{Limit, Part, Place};
pub use tests::{TestArguments, test, test_arguments};
