//! Class files, both ways: the class that bytes stand for, or the first field that fails, and the bytes of a class
//! (JVMS SE 7, chapter 4, in the profile of `jvm_code`).
//!
//! Reading is one pass over the bytes. What is read is what `jvm_code`'s definition reads, offsets of faults included.
#![tactic(auto)]

mod again;
mod fault;
mod instructions;
mod methods;
mod numbers;
mod operands;
mod pool;
mod reading;
mod source;
mod spelling;
mod spelling_ops;
mod switches;
mod verdict;
mod writing;

pub use fault::ClassFault;
pub use reading::parse;
pub use writing::{WriteFault, write};
