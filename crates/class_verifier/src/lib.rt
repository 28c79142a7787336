//! Whether a class keeps the type-checking rules (JVMS SE 7, 4.7.4 and 4.10.1, in the profile of `jvm_code`) and calls
//! only methods that there are, and what is wrong first with one that does not.
//!
//! The rules are definitions of `jvm_code`: the frames of a method's `StackMapTable`, the types before and behind each
//! instruction, and the order of faults.
#![tactic(auto)]

mod after;
mod check;
mod code_fault;
mod fault;
mod fits;
mod frames;
mod known;
mod laws;
mod links;
mod locals;
mod operands;
mod scope;
mod state;
mod table;
mod targets;
mod types;
mod verified;
mod walk;

pub use fault::{Refused, VerifyFault};
pub use laws::classes_have_one_verdict;
pub use verified::{Verified, verify};
