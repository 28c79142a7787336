//! Tests of the running world, through its public calls, over a small code that does what stands in a table.
#![tactic(auto)]

mod acts;
#[cfg(test)]
mod lines;
#[cfg(test)]
mod runs;
#[cfg(test)]
mod scripts;

pub use acts::{Act, Acts, Reason};
