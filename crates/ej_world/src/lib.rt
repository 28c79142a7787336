//! Processes that send each other signals, and what is seen of them: the choices of a script, the events of a run, and the
//! effects of instructions on a process's view of the world.
//!
//! What a run of a script is, over any code, is a definition in `specs/`: worlds, the delivery of signals, the ends of
//! processes, links, timers, and `auto`.
#![tactic(auto)]

mod choice;
mod effect;
mod event;
mod pid;

pub use choice::Choice;
pub use effect::{Begin, Effect};
pub use event::Event;
pub use pid::Pid;
