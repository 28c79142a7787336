//! A mailbox with a save place (Erlang Reference Manual, "Receive"): the messages that came to a process, the oldest
//! first, and the place at which a receive looks next.
//!
//! A mailbox is seen as the list of its messages and its save place, and each call does to them what its definition
//! says. A message is an id of a heap.
#![tactic(auto)]

mod mailbox;

pub use mailbox::Mailbox;
