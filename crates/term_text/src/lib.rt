//! The canonical print of a term, and its reader.
//!
//! The print of a readable term (`ej_term`) is read back as that term, and no other print is read.
#![tactic(auto)]

mod atom;
mod fault;
mod laws;
mod plain;
mod printer;
mod reader;
mod work;

pub use atom::write_atom;
pub use fault::ReadFault;
pub use laws::prints_are_read;
pub use printer::print;
pub use reader::read;
