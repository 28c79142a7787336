//! A constant pool that grows (JVMS SE 7, 4.4): each entry stands at one index, which it keeps.
//!
//! An entry is found by hashing, so its index takes constant time on average, however many there are.
#![tactic(auto)]

mod pool;

pub use pool::{Pool, PoolFault};
