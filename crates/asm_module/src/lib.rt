//! The module that the forms of an assembly text stand for (OTP 24, the text that `erlc -S` writes).
//!
//! `module_of` gives exactly the module of the forms: its header, its functions and their instructions, each by the
//! shape of its row in the table of instructions. Where there is none it gives exactly the first fault in the order
//! of the forms.
#![tactic(auto)]

mod fault;
mod functions;
mod header;
mod instruction;
mod laws;
mod lists;
mod module;
mod names;
mod operands;
mod part_fault;
mod sources;
mod terms;

pub use fault::FormFault;
pub use laws::read_modules_are_one_and_in_range;
pub use module::module_of;
