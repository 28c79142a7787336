//! The outside, as the program sees it: a shelf of named files and a sink of bytes.
//!
//! `Shelf` and `Sink` say what every outside owes. `MemShelf` and `MemSink` are outsides in memory whose
//! contents contracts name whole; `FileShelf` and `StdSink` adapt files and the standard streams, and tell
//! no contents. Each fault, miss and refusal is counted, so a caller's contract can say that an answer
//! comes only where the outside gave cause for it.
#![tactic(auto)]

mod calls;
mod fault;
mod file_shelf;
mod mem_shelf;
mod mem_sink;
mod shelf;
mod sink;
mod std_sink;
mod store;
#[cfg(test)]
mod tests;

pub use fault::Failed;
pub use file_shelf::FileShelf;
pub use mem_shelf::MemShelf;
pub use mem_sink::MemSink;
pub use shelf::{Got, Shelf, ShelfFault};
pub use sink::Sink;
pub use std_sink::StdSink;
