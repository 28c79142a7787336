//! Lists that share their parts: each is a balanced binary tree in one arena, and a list that is made of another one
//! shares with it all but a path of nodes.
//!
//! A forest is seen through `list_of`, the list that a number stands for. What is added keeps the list of each earlier
//! number, and nothing is given back before the forest itself. So a list, once made, stays for good. A forest knows of
//! no order of its items.
//!
//! The trees are balanced by weight (Adams, "Efficient sets: a balancing act"): a look-up goes down a path of about
//! 2 log2 n nodes at most, and an edit adds one node for each on that path. This is speed and no part of a contract.
#![tactic(auto)]

mod balance;
mod edits;
mod forest;
mod node;
mod reads;
mod tree;
mod whole;

pub use forest::Forest;
pub use tree::{Top, Tree};
