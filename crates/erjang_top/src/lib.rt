//! The program: its words, what it does with files, and what it answers.
#![tactic(auto)]

mod classes;
mod compile;
mod fault;
mod first_path;
mod lines;
mod mangle;
mod program;
mod report;
mod shelf_file;
mod source;
mod words;

pub use first_path::laws::{
    accepted_modules_are_compiled, one_instruction_is_the_first_unbuilt, read_modules_are_in_range,
};
pub use first_path::scripts::worked_runs;
pub use program::erjang;
