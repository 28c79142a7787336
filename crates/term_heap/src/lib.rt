//! A heap of Erlang terms (Erlang Reference Manual, "Data Types"): each term has an id, which stands for that
//! term for good.
//!
//! A heap is seen through `term_of`, the term that an id stands for. What is added keeps the term of each
//! earlier id, and nothing is given back before the heap itself.
#![tactic(auto)]

mod cell;
mod heap;
mod known;
mod load;
mod makers;
mod maps;
mod once;
mod order;
mod preorder;
mod search;
mod sort;
mod texts;
mod trees;
mod work;

pub use cell::{Cell, TermId};
pub use heap::Heap;
pub use load::LoadFault;
pub use maps::Entries;
pub use order::compare;
pub use sort::rising;
