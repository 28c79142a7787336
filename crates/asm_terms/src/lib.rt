//! Reads the text of Erlang terms: a file's bytes to the row of its forms.
//!
//! `read_forms` answers with the forms of a file exactly where its whole text reads, and otherwise with the first
//! form that does not read, and why. A file has one row of forms at most.
#![tactic(auto)]

mod binary;
mod blank;
mod characters;
mod depth;
mod fault;
mod forms;
mod identifier;
mod name;
mod number;
mod opened;
mod quote;
mod reader;
mod row;
mod scan;
mod spelling;
mod stack;
mod term_reader;
mod terms;
mod token;
mod worked;

pub use fault::TextFault;
pub use forms::read_forms;
pub use worked::worked_texts;
