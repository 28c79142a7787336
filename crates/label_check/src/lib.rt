//! The label rules of a module of BEAM assembly: how each function begins, that no label is defined twice, that each
//! label that an instruction names is there, and that calls and funs have the arguments of what they name.
//!
//! `check` answers Ok exactly where no rule is broken, and else the first break in the order of the text. What stands
//! above may search labels and entries of functions, and finds each.
#![tactic(auto)]

mod arity;
mod beginning;
mod fault;
mod labels;
mod named;
mod scope;
mod walk;

pub use fault::LabelFault;
pub use walk::check;
