//! What is done with terms of a heap by number: the tests of guards, and the builtin functions that have no
//! effect (Erlang Reference Manual, "Guard Sequences"; the OTP modules erlang, lists and maps).
//!
//! `pure` and `test` give exactly what the definitions of `ej_term` give for the terms that the ids stand for,
//! and keep the term of each earlier id. Nothing here calls itself: a long list or a deep term takes no stack.
#![tactic(auto)]

mod access;
mod answer;
mod arithmetic;
mod bag;
mod booleans;
mod builtins;
mod digits;
mod elements;
mod exceptions;
mod guards;
mod integers;
mod kinds;
mod lists;
mod lookup;
mod map_update;
mod maps;
mod order;
mod raise;
mod read;
mod sized;
mod sorted;
mod tuples;

pub use answer::{PureAnswer, Raised};
pub use builtins::pure;
pub use guards::test;
pub use term_heap::compare;
